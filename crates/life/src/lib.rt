//! Lives of a pool: one call after another, each with the day that the caller holds.

#![tactic(auto)]

mod steps;
mod whole;

pub use steps::{CallError, Stepped, step};
pub use whole::{Lived, live};
