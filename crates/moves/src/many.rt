//! Many moves, one account after another.
ghost use Rattle.std.specs.Prelude.{◌≡◌};
ghost use Rattle.moves.specs.Many.{after_move, after_moves, move_by, moves_by};

use crate::column::Column;
use book::Book;

/// Which way the amounts of a column go: into one place, or out of one place.
#[derive(Clone, Copy, Debug, PartialEq, Eq)]
pub enum Way {
    Into(usize),
    OutOf(usize),
}

/// Moves each account's amount between its place in the column and the one place.
pub fn move_each<B: Book>(book: &mut B, column: Column, way: Way, amounts: &[u64; 32])
    ensures { B.Book.amounts book.new ≡ after_moves B.Book.LARGEST (B.Book.amounts book.old) (moves_by column way 0 amounts.now) }
{
    // A loop: each move finds the book as the one before it left it.
    for (account, &amount) in amounts.iter().enumerate() {
        move_one(book, column.place(account as u8), way, amount);
    }
}

// Moves an amount between a place of the column and the one place.
fn move_one<B: Book>(book: &mut B, place: usize, way: Way, amount: u64)
    ensures { B.Book.amounts book.new ≡ after_move B.Book.LARGEST (B.Book.amounts book.old) (move_by way place amount) }
{
    let _ = match way {
        Way::Into(target) => book.shift(place, target, amount),
        Way::OutOf(source) => book.shift(source, place, amount),
    };
}
