//! The items of a script: one line read at a time.

#![tactic(auto)]

mod fault;
mod item;
mod parse;
mod words;

pub use fault::{Fault, LineError};
pub use item::{BookKind, Item, Opening, OpeningPart, RuleKind};
pub use parse::parse_line;
