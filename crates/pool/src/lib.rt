//! A lending pool over any bond book, any cash book and any sharing rule.

#![tactic(auto)]

mod calls;
mod days;
mod opening;
mod views;

use book::Book;
pub use days::{Day, OpenDay, ShutDay};
pub use opening::{Parts, Unopened};
use records::Records;
use share::SharingRule;

/// A pool: its two books, its rule and its records. Only its own calls touch them.
/// Clauses see it by `state_of`: a model of it would have to hold the rule's meaning, and a value that holds a function has no code.
#[derive(Drop)]
pub struct Pool<B: Book, C: Book, S: SharingRule> {
    parts: Parts<B, C, S>,
    records: Records,
}
