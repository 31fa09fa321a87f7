//! The words that every other crate speaks: refusals, ranges, order windows, good faces and calls.

#![tactic(auto)]

mod call;
mod face;
mod order;
mod range;
mod refusal;
mod unknown;

pub use call::Call;
pub use face::is_good_face;
pub use order::{Order, OrderKind, OrderRow};
pub use range::Range;
pub use refusal::{Cause, Layer, Refusal};
pub use unknown::UnknownNumber;
