//! The moves of a face between what an account has available of a bond and what it has pledged.
ghost use Rattle.std.specs.Prelude.{◌≡◌};
ghost use Rattle.moves.specs.Many.{after_move, pledged_by, freed_by};

use book::{Book, available_place, pledged_place};

/// Moves a face from what an account has available to what it has pledged.
pub fn pledge_face<B: Book>(bonds: &mut B, account: u8, bond: u8, face: u32)
    ensures { B.Book.amounts bonds.new ≡ after_move B.Book.LARGEST (B.Book.amounts bonds.old) (pledged_by account bond face) }
{
    let source = available_place(account, bond);
    let target = pledged_place(account, bond);
    let _ = bonds.shift(source, target, u64::from(face));
}

/// Moves a face from what an account has pledged to what it has available.
pub fn free_face<B: Book>(bonds: &mut B, account: u8, bond: u8, face: u32)
    ensures { B.Book.amounts bonds.new ≡ after_move B.Book.LARGEST (B.Book.amounts bonds.old) (freed_by account bond face) }
{
    let source = pledged_place(account, bond);
    let target = available_place(account, bond);
    let _ = bonds.shift(source, target, u64::from(face));
}
