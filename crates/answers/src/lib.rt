//! The answers of the desk, as they are written.

#![tactic(auto)]

mod answer;

pub use answer::Answer;
