//! Why a book refuses a move.

/// The reasons, in the order in which they are looked at.
#[derive(Clone, Copy, Debug, PartialEq, Eq)]
pub enum MoveRefusal {
    /// One of the two places does not exist, or they are the same place.
    NoPlace,
    /// The source holds less than is to be moved.
    Short,
    /// The target would pass the largest amount.
    Over,
}
