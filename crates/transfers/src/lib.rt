//! The calls that move available amounts between members, and what a member may lend.

#![tactic(auto)]

mod lending;
mod moves;

pub use lending::lendable_face;
pub use moves::{deliver, remit};
