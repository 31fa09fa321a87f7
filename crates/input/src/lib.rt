//! Text as it comes in: its lines, and the numbers that words write.

#![tactic(auto)]

mod lines;
mod numbers;

pub use lines::{Line, Lines};
pub use numbers::{NumberFault, number};
