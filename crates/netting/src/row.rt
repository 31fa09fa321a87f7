//! A netting book keeps opening amounts and signed net changes, for any count of places.
ghost use Rattle.std.specs.Prelude.{◌≡◌, length};
ghost use Rattle.book.specs.Moves.{largest_amount};

use crate::entry::Entry;
use book::{Book, LARGEST_AMOUNT, Move, MoveRefusal};

/// A row of places, each with its opening amount and its net change since. It has a ghost field and no model: a model's
/// value would be a bare list, of which the book's law on the count of places is not true. Standing and netting are two
/// books by the rules of a pool; what a move comes to, which they share, is `book::Move`.
#[derive(Drop)]
pub struct Netting<const N: usize> {
    places: [Entry; N],
    ghost sized: { length places ≡ N },
}

/// A netting book with the places of bonds: an available and a pledged one for each of 32 accounts and 16 bonds.
pub type NettingBonds = Netting<1024>;

/// A netting book with the places of cash: one for each of 32 accounts.
pub type NettingCash = Netting<32>;

impl<const N: usize> Netting<N> {
    /// A book that opens with these amounts, be they above the largest or not.
    pub fn new(opening: [u64; N]) -> Self
        ensures { result.places ≡ opening.entry }
    {
        Netting {
            places: opening.map(|amount| Entry::open(amount)),
        }
    }
}

impl<const N: usize> Book for Netting<N> {
    const PLACES: usize = N;

    const LARGEST: u64 = LARGEST_AMOUNT;

    ghost PLACES = { N };

    ghost LARGEST = { largest_amount };

    ghost amounts = { λ b. b.places };

    ghost sized = { λ b. b.sized };

    fn amount(&self, place: usize) -> Option<u64> {
        self.places.get(place).map(|entry| entry.amount())
    }

    fn shift(&mut self, from: usize, to: usize, n: u64) -> Result<(), MoveRefusal> {
        let asked = Move {
            from,
            to,
            source: self.amount(from),
            target: self.amount(to),
            n,
        };
        let (source, target) = asked.amounts_after()?;
        self.places[from].set(source);
        self.places[to].set(target);
        Ok(())
    }
}
