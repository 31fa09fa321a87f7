//! What a loan has to be worth: its rows cover it, and no limit of concentration is passed.

#![tactic(auto)]

mod concentration;
mod cover;
mod table;

pub use concentration::{check_row_limits, is_lent_above, is_row_above};
pub use cover::{is_covered, multiplier_of, needed};
