//! The even rule: the want is parted by the limits.
ghost use Rattle.std.specs.Prelude.{◌≡◌, min};
ghost use Rattle.std.proofs.Common.{◌∙◌};
ghost use Rattle.share.specs.Shares.{capped_at, even_shares};
ghost use Rattle.share.specs.Laws.{even_length, even_law};

use crate::SharingRule;
use std::array;
use sums::parts::part_by;

/// Parts the want by the limits.
#[derive(Clone, Copy)]
pub struct EvenRule;

impl SharingRule for EvenRule {
    ghost meaning = { λ _ limits want. even_shares limits want };

    ghost count = { λ rule limits want count. even_length limits want ∙ count };

    ghost lawful = { λ rule limits want count enough. even_law limits want enough };

    fn share(&self, limits: &[u64; 32], want: u64) -> [u64; 32] {
        part_by(want, &capped(limits, want))
    }
}

/// The limits, each above the want counted as the want.
pub fn capped(limits: &[u64; 32], want: u64) -> [u64; 32]
    ensures { result ≡ capped_at limits.now want }
{
    // By numbers, since the library's `map` of an array takes ten times as long.
    array::from_fn(|account| within(limits[account], want))
}

/// A limit as it counts: at most the want.
fn within(limit: u64, want: u64) -> u64
    ensures { result ≡ min limit want }
{
    limit.min(want)
}
