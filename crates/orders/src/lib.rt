//! Orders to borrow: what they have to meet by themselves and row by row, and the terms and the pledge that they make.

#![tactic(auto)]

mod rows;
mod terms_of;

pub use rows::{check_row, check_rows};
pub use terms_of::{Terms, check_terms};
