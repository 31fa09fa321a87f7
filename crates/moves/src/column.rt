//! The places of all accounts for one thing: their available or pledged faces of a bond, or their cash.
ghost use Rattle.std.specs.Prelude.{◌≡◌, slice_index};
ghost use Rattle.moves.specs.Columns.{available_column, pledged_column, cash_column, place, column_amounts};

use book::{Book, held};
use std::array;

/// A run of places, one for each account, a fixed step apart.
#[derive(Clone, Copy)]
pub struct Column {
    first: u16,
    step: u16,
}

impl Column {
    /// The available places of a bond.
    pub fn available(bond: u8) -> Column
        ensures { result ≡ available_column bond }
    {
        Column {
            first: u16::from(bond) * 2,
            step: 32,
        }
    }

    /// The pledged places of a bond.
    pub fn pledged(bond: u8) -> Column
        ensures { result ≡ pledged_column bond }
    {
        Column {
            first: u16::from(bond) * 2 + 1,
            ..Column::available(bond)
        }
    }

    /// The places of cash.
    pub fn cash() -> Column
        ensures { result ≡ cash_column }
    {
        Column { first: 0, step: 1 }
    }

    /// The place of an account.
    pub fn place(self, account: u8) -> usize
        ensures { result ≡ place self account }
    {
        usize::from(self.first) + usize::from(self.step) * usize::from(account)
    }

    /// What the 32 accounts hold in a book.
    pub fn amounts<B: Book>(self, book: &B) -> [u64; 32]
        ensures { result ≡ column_amounts (B.Book.amounts book.now) self }
    {
        array::from_fn(|account| self.amount(book, account as u8))
    }

    // What an account holds in a book.
    fn amount<B: Book>(self, book: &B, account: u8) -> u64
        ensures { result ≡ slice_index (B.Book.amounts book.now) (place self account) }
    {
        held(book, self.place(account))
    }
}
