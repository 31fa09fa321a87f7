//! Everything of a pool that is no book: accounts, bonds, presets and the time, and the calls that touch only these.

#![tactic(auto)]

mod kept;
mod opening;
mod quotas;
mod time;

pub use kept::{Limits, Records, Time};
pub use opening::Figures;
pub use quotas::{is_no_bond, is_no_member};
