//! A number that was sent for a kind, a right or a mode, and names none.
ghost use Rattle.std.specs.Prelude.{◌≡◌, Some};
ghost use Rattle.terms.specs.Named.{unknown_text};
ghost use Rattle.terms.specs.Refusals.{refuse_order};
ghost use Rattle.terms.specs.declared.refusal.Cause.TheVariants as cause;

use crate::refusal::{Cause, Layer, Refusal};
use std::error::Error;
use std::fmt;

/// The number that names nothing.
#[derive(Clone, Copy, Debug, PartialEq, Eq)]
pub struct UnknownNumber(pub u64);

impl fmt::Display for UnknownNumber {
    ghost output = { λ number. Some (unknown_text number) };

    fn fmt<W: fmt::Write>(&self, f: &mut fmt::Formatter<W>) -> fmt::Result {
        write!(f, "unknown number {}", self.0)
    }
}

impl Error for UnknownNumber {}

/// The call that was sent such a number is refused for its figure.
impl From<UnknownNumber> for Refusal {
    ghost from_gives = { λ _ refusal. refusal ≡ refuse_order cause.Figure 0 };

    fn from(_number: UnknownNumber) -> Refusal {
        Layer::Order.refuse(Cause::Figure, 0)
    }
}
