//! What a pool is to be opened with, collected from the opening lines of a script.

#![tactic(auto)]

mod collect;
mod plan;

pub use plan::Draft;
