//! What members may lend of a bond, from the bond book, the records and the loans.

#![tactic(auto)]

mod lendable;
mod view;

pub use view::View;
