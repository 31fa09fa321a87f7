//! The pledge of a loan: one to four rows, what they are worth, and the trial of another row in the place of one.

#![tactic(auto)]

mod rows;
mod swap;
mod trial;

pub use rows::{Pledge, PledgeRow, Pricing, RowsOf};
pub use swap::Exchange;
pub use trial::Trial;
