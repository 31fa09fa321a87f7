//! The allotment of a loan: each lender's share of the face, by any sharing rule, in whole units of the bond.

#![tactic(auto)]

ghost use Rattle.std.specs.Prelude.{◌≡◌, ℕ, ◌*◌, ◌/◌, ◌^◌, ◌<◌, slice_index};
ghost use Rattle.allot.specs.Allotments.{in_units, times_unit, allotted, ExactlyMade};

use share::{SharingRule, shared};
use std::array;
use sums::total::{Every, total};

/// The shares that make the face; none exactly where no shares in whole units within the lendable faces make it.
#[tactic(auto, using(crate::proofs::Whole::none_meant, crate::proofs::Whole::none_exact, crate::proofs::Whole::some_exact, crate::proofs::Whole::face_below))]
pub fn allot<R: SharingRule>(
    rule: &R,
    unit: u32,
    lendable: &[u64; 32],
    face: u32,
) -> Option<[u64; 32]>
    ensures meant { result ≡ allotted (R.meaning rule.now) unit lendable.now face }
    ensures exact { ExactlyMade unit lendable.now face result }
{
    let limits = in_units(unit, lendable);
    let want = units(u64::from(face), unit);
    if u128::from(want) > total(&limits, &Every) {
        return None;
    }
    Some(times_unit(unit, &shared(rule, &limits, want)))
}

// Whole units, rounded down; none of a bond without a unit.
fn units(amount: u64, unit: u32) -> u64
    ensures { result ≡ amount / unit }
{
    if unit == 0 {
        return 0;
    }
    amount / u64::from(unit)
}

// The lendable faces in whole units.
fn in_units(unit: u32, amounts: &[u64; 32]) -> [u64; 32]
    ensures { result ≡ in_units unit amounts.now }
{
    array::from_fn(|account| units(amounts[account], unit))
}

// Shares in units as faces.
fn times_unit(unit: u32, shares: &[u64; 32]) -> [u64; 32]
    requires { (k : ℕ) → slice_index shares.now k * unit < 2 ^ 64 }
    ensures { result ≡ times_unit unit shares.now }
{
    array::from_fn(|account| shares[account] * u64::from(unit))
}

#[cfg(test)]
mod tests {
    use super::*;
    use share::{EvenRule, FirstRule};
    use std::test::Fail;

    // Accounts 1 and 2 may lend 5,500 and 4,999 of a bond in units of 1,000.
    fn lendable() -> [u64; 32] {
        let mut faces = [0; 32];
        faces[1] = 5_500;
        faces[2] = 4_999;
        faces
    }

    #[test]
    fn whole_units_alone_make_the_face(rt: HostRuntime) {
        assert!(rt; allot(&FirstRule, 1_000, &lendable(), 9_000).is_some());
        assert!(rt; allot(&FirstRule, 1_000, &lendable(), 10_000).is_none());
    }

    #[test]
    fn rules_share_alike_units(rt: HostRuntime) -> Result<(), Fail> {
        let Some(first) = allot(&FirstRule, 1_000, &lendable(), 6_000) else {
            return Err(Fail::new("no shares"));
        };
        assert!(rt; first[1] == 5_000 && first[2] == 1_000);
        let Some(even) = allot(&EvenRule, 1_000, &lendable(), 6_000) else {
            return Err(Fail::new("no shares"));
        };
        assert!(rt; even[1] == 4_000 && even[2] == 2_000);
        Ok(())
    }
}
