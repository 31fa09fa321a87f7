//! The money figures of a loan, in fen.
//! The types hold every legal figure and more, so no call asks anything of its caller.

#![tactic(auto)]

pub mod fees;
pub mod values;
