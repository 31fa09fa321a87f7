//! The faces that may be delivered, lent or pledged.
ghost use Rattle.std.specs.Prelude.{◌≡◌};
ghost use Rattle.terms.specs.Faces.{good_face};

/// Whether a face is 1 to 1,000,000,000 yuan and a multiple of the bond's unit.
pub fn is_good_face(face: u64, unit: u32) -> bool
    ensures { result ≡ good_face face unit }
{
    unit != 0 && face >= 1 && face <= 1_000_000_000 && face % u64::from(unit) == 0
}
