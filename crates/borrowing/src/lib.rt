//! Borrowing: an order is checked whole, and then booked whole.

#![tactic(auto)]

mod booking;
mod call;
mod deal;

pub use call::borrow;
