//! Netting books: they keep what each place opened with, and the net change of each since.

#![tactic(auto)]

mod entry;
mod row;

pub use row::{Netting, NettingBonds, NettingCash};
