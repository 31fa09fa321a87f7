//! The one total of rows, and the parts of an amount by weights.

#![tactic(auto)]

pub mod parts;
pub mod total;
