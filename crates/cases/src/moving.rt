//! What every book does, whichever it is.
use book::{Book, MoveRefusal, has_room, held, is_fit};
use std::process::Abort;

/// 100 at every place.
pub(crate) fn hundreds<const N: usize>() -> [u64; N] {
    [100; N]
}

/// 100 at every place, and at place 7 more than a move may bring it to.
pub(crate) fn hundreds_and_one_above() -> [u64; 32] {
    let mut amounts = hundreds();
    amounts[7] = u64::MAX;
    amounts
}

/// A book of 32 places with 100 at each refuses a move of each kind.
pub(crate) fn refuses<B: Book + Drop>(rt: &impl Abort, mut book: B) {
    assert_eq!(rt; book.shift(3, 32, 1), Err(MoveRefusal::NoPlace));
    assert_eq!(rt; book.shift(3, 3, 1), Err(MoveRefusal::NoPlace));
    assert_eq!(rt; book.shift(3, 4, 101), Err(MoveRefusal::Short));
    assert_eq!(rt; held(&book, 3), 100);
    assert!(rt; is_fit(&book, 32));
}

/// A book with one place above the largest amount lets that place be emptied.
pub(crate) fn empties<B: Book + Drop>(rt: &impl Abort, mut book: B) {
    assert!(rt; !is_fit(&book, 32) && !has_room(&book, 7, 0) && has_room(&book, 8, 100));
    assert_eq!(rt; book.shift(8, 7, 1), Err(MoveRefusal::Over));
    assert_eq!(rt; book.shift(7, 8, 50), Ok(()));
    assert_eq!(rt; book.amount(7), Some(u64::MAX - 50));
    assert_eq!(rt; book.amount(8), Some(150));
}
