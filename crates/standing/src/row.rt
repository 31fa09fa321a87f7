//! A standing book keeps the amounts themselves, for any count of places.
ghost use Rattle.std.specs.Prelude.{◌≡◌, length};
ghost use Rattle.book.specs.Moves.{largest_amount};

use book::{Book, LARGEST_AMOUNT, Move, MoveRefusal};

/// A row of places, each with its amount. It has a ghost field and no model: a model's value would be a bare list, of
/// which the book's law on the count of places is not true.
#[derive(Drop)]
pub struct Standing<const N: usize> {
    amounts: [u64; N],
    ghost sized: { length amounts ≡ N },
}

/// A standing book with the places of bonds: an available and a pledged one for each of 32 accounts and 16 bonds.
pub type StandingBonds = Standing<1024>;

/// A standing book with the places of cash: one for each of 32 accounts.
pub type StandingCash = Standing<32>;

impl<const N: usize> Standing<N> {
    /// A book that holds these amounts, be they above the largest or not.
    pub fn new(amounts: [u64; N]) -> Self
        ensures { result.amounts ≡ amounts.entry }
    {
        Standing { amounts }
    }
}

impl<const N: usize> Book for Standing<N> {
    const PLACES: usize = N;

    const LARGEST: u64 = LARGEST_AMOUNT;

    ghost PLACES = { N };

    ghost LARGEST = { largest_amount };

    ghost amounts = { λ b. b.amounts };

    ghost sized = { λ b. b.sized };

    fn amount(&self, place: usize) -> Option<u64> {
        self.amounts.get(place).copied()
    }

    fn shift(&mut self, from: usize, to: usize, n: u64) -> Result<(), MoveRefusal> {
        let asked = Move {
            from,
            to,
            source: self.amount(from),
            target: self.amount(to),
            n,
        };
        let (source, target) = asked.amounts_after()?;
        self.amounts[from] = source;
        self.amounts[to] = target;
        Ok(())
    }
}
