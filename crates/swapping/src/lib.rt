//! Swaps: a row of a loan's pledge is exchanged for another. `day` is the number of the day that the caller holds.

#![tactic(auto)]

mod exchange;
mod judging;

pub use exchange::swap;
