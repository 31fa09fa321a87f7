//! The shares of a loan, which total its face.
ghost use Rattle.std.specs.Prelude.{◌≡◌, ℕ, List, if◌then◌else◌, Some, None, sum, nat_eq};
ghost use Rattle.std.specs.Option.{option_map};

use sums::total::{Every, total};

/// A face, and what each account has lent of it.
#[derive(Clone, Copy, Debug, PartialEq, Eq)]
pub struct Shares {
    pub face: u32,
    pub by: [u64; 32],
    ghost whole: { sum by ≡ face },
}

impl Shares {
    /// The shares of a face, exactly where they total it.
    pub fn checked(face: u32, by: [u64; 32]) -> Option<Shares>
        ensures { option_map {U = ℕ × List ℕ} (λ s. (s.face, s.by)) result ≡ (if nat_eq (sum by) face then Some (face, by) else None) }
    {
        if total(&by, &Every) == u128::from(face) {
            Some(Shares { face, by })
        } else {
            None
        }
    }
}
