//! A book: a numbered row of places, each holding a whole amount.

#![tactic(auto)]

ghost use Rattle.std.specs.Prelude.{◌≡◌, ℕ, List, length};
ghost use Rattle.terms.specs.Table.{answered, settled};
ghost use Rattle.book.specs.Moves.{amount_at, refusal, moved};

mod after;
mod places;
mod readers;
mod refusal;

pub use after::Move;
pub use places::{available_place, pledged_place};
pub use readers::{has_room, held, is_fit};
pub use refusal::MoveRefusal;

/// The largest amount that a move may bring a place to.
pub const LARGEST_AMOUNT: u64 = 10_000_000_000_000;

/// A row of places that amounts are moved between.
pub trait Book {
    /// How many places there are, numbered from 0.
    const PLACES: usize;

    /// The largest amount that a move may bring a place to.
    const LARGEST: u64;

    // The two constants, for clauses.
    ghost PLACES: { ℕ };

    ghost LARGEST: { ℕ };

    // What the book holds, place by place.
    ghost amounts: { Self → List ℕ };

    /// What a place holds; `None` exactly when there is no such place.
    fn amount(&self, place: usize) -> Option<u64>
        ensures { result ≡ amount_at (amounts self.now) place };

    /// Moves `n` from one place to another. A refused move changes nothing.
    fn shift(&mut self, from: usize, to: usize, n: u64) -> Result<(), MoveRefusal>
        ensures answer { result ≡ answered (refusal LARGEST (amounts self.old) from to n) tt }
        ensures after { amounts self.new ≡ settled (refusal LARGEST (amounts self.old) from to n) (amounts self.old) (moved (amounts self.old) from to n) };

    // Every book has all its places.
    ghost sized: { (b : Self) → length (amounts b) ≡ PLACES };
}
