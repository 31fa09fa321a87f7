//! Sharing rules: how a want is shared between 32 accounts within their limits.

#![tactic(auto)]

ghost use Rattle.std.specs.Prelude.{◌≡◌, ℕ, ◌≤◌, List, length, sum};
ghost use Rattle.share.specs.Shares.{Shared};

mod even;
mod first;

pub use even::{EvenRule, capped};
pub use first::FirstRule;

/// Shares a want between 32 accounts. A limit above the want counts as the want.
/// Where the limits total at least the want, the shares make the want, each within its limit.
pub trait SharingRule {
    ghost meaning: { Self → List ℕ → ℕ → List ℕ };

    fn share(&self, limits: &[u64; 32], want: u64) -> [u64; 32]
        ensures { result ≡ meaning self.now limits.now want };

    ghost count: { (rule : Self) (limits : List ℕ) (want : ℕ) → length limits ≡ 32 → length (meaning rule limits want) ≡ 32 };

    ghost lawful: { (rule : Self) (limits : List ℕ) (want : ℕ) → length limits ≡ 32 → want ≤ sum limits → Shared limits want (meaning rule limits want) };
}

/// The shares by any rule: they make the want within the limits wherever the limits total it.
pub fn shared<R: SharingRule>(rule: &R, limits: &[u64; 32], want: u64) -> [u64; 32]
    ensures meant { result ≡ R.meaning rule.now limits.now want }
    ensures lawful { want ≤ sum limits.now → Shared limits.now want result }
{
    rule.share(limits, want)
}
