//! What a move asks of its two places, and what it comes to.
ghost use Rattle.std.specs.Prelude.{◌≡◌, ℕ, List};
ghost use Rattle.terms.specs.Table.{answered};
ghost use Rattle.book.specs.Moves.{amount_at, refusal, largest_amount, source_after, target_after};

use crate::readers::is_sum_within;
use crate::{LARGEST_AMOUNT, MoveRefusal};

/// A move of `n`, with what its two places hold; `None` where there is no such place.
#[derive(Clone, Copy)]
pub struct Move {
    pub from: usize,
    pub to: usize,
    pub source: Option<u64>,
    pub target: Option<u64>,
    pub n: u64,
}

impl Move {
    /// What the source and the target hold after the move, or why it is refused.
    pub fn amounts_after(self) -> Result<(u64, u64), MoveRefusal>
        ensures { (xs : List ℕ) → self.source ≡ amount_at xs self.from → self.target ≡ amount_at xs self.to → result ≡ answered (refusal largest_amount xs self.from self.to self.n) (source_after xs self.from self.n, target_after xs self.to self.n) }
    {
        let (Some(source), Some(target)) = (self.source, self.target) else {
            return Err(MoveRefusal::NoPlace);
        };
        if self.from == self.to {
            return Err(MoveRefusal::NoPlace);
        }
        if source < self.n {
            return Err(MoveRefusal::Short);
        }
        if !is_sum_within(target, self.n, LARGEST_AMOUNT) {
            return Err(MoveRefusal::Over);
        }
        Ok((source - self.n, target + self.n))
    }
}
