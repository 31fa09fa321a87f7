//! What is read of any book.
ghost use Rattle.std.specs.Prelude.{◌≡◌, ◌+◌, nat_le, slice_index};
ghost use Rattle.book.specs.Moves.{room};
ghost use Rattle.book.specs.Ledgers.{none_above, ledger, fits};

use crate::{Book, LARGEST_AMOUNT};

/// What a place holds, and 0 where there is no such place.
pub fn held<B: Book>(book: &B, place: usize) -> u64
    ensures { result ≡ slice_index (B.Book.amounts book.now) place }
{
    book.amount(place).unwrap_or(0)
}

/// Whether a place is there and would hold no more than the largest amount with `n` added.
pub fn has_room<B: Book>(book: &B, place: usize, n: u64) -> bool
    ensures { result ≡ room B.Book.LARGEST (B.Book.amounts book.now) place n }
{
    book.amount(place)
        .is_some_and(|amount| is_sum_within(amount, n, B::LARGEST))
}

/// Whether a book has exactly so many places and `LARGEST_AMOUNT` as its largest, and holds nothing above that.
pub fn is_fit<B: Book>(book: &B, places: usize) -> bool
    ensures { result ≡ fits places (ledger B.Book book.now) }
{
    B::PLACES == places && B::LARGEST == LARGEST_AMOUNT && has_none_above(book, LARGEST_AMOUNT)
}

// Whether the sum is at most `most`; the sum itself is never made, since it may not fit.
pub(crate) fn is_sum_within(amount: u64, n: u64, most: u64) -> bool
    ensures { result ≡ nat_le (amount + n) most }
{
    amount <= most && n <= most - amount
}

// Whether no place holds more than `most`.
fn has_none_above<B: Book>(book: &B, most: u64) -> bool
    ensures { result ≡ none_above most (B.Book.amounts book.now) }
{
    (0..B::PLACES).all(|place| held(book, place) <= most)
}
