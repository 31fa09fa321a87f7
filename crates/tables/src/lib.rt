//! The rows of a pool's tables, accounts and bonds, read from the figures that a pool is opened with.

#![tactic(auto)]

mod account;
mod bond;
mod rows;

pub use account::{Account, AccountFigures, Mode, Right, lendable};
pub use bond::{Bond, BondFigures};
pub use rows::{ReadFrom, read_table};
