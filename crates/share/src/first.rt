//! The first rule: accounts are filled in rising order until the want is made.
ghost use Rattle.std.specs.Prelude.{◌≡◌, ◌-◌, min};
ghost use Rattle.std.proofs.Common.{◌∙◌};
ghost use Rattle.share.specs.Shares.{first_shares};
ghost use Rattle.share.specs.Laws.{first_length, first_law};

use crate::SharingRule;

/// Fills accounts in rising order.
#[derive(Clone, Copy)]
pub struct FirstRule;

impl SharingRule for FirstRule {
    ghost meaning = { λ _ limits want. first_shares limits want };

    ghost count = { λ rule limits want count. first_length limits want ∙ count };

    ghost lawful = { λ rule limits want count enough. first_law limits want enough };

    fn share(&self, limits: &[u64; 32], want: u64) -> [u64; 32] {
        let mut shares = [0; 32];
        let mut left = want;
        // A loop, since each turn takes from what is left: of a closure that changes something, a proof knows nothing after it.
        for (i, &limit) in limits.iter().enumerate() {
            shares[i] = fill(&mut left, limit);
        }
        shares
    }
}

/// Fills an account from what is left of the want, up to its limit.
fn fill(left: &mut u64, limit: u64) -> u64
    ensures given { result ≡ min limit left.old }
    ensures rest { left.new ≡ left.old - result }
{
    let given = limit.min(*left);
    *left -= given;
    given
}
