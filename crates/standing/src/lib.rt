//! The standing book, which keeps the amounts themselves: for bonds and for cash.

#![tactic(auto)]

mod row;

pub use row::{Standing, StandingBonds, StandingCash};
