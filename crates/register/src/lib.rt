//! The loans of a pool. All the memory that they will ever need is asked for when the pool is opened.

#![tactic(auto)]

mod asking;
mod keeping;

use loan::LoanRow;
use std::marker::Model;

/// Loans in the order in which they were accepted. A loan's number is its place here.
#[derive(Drop)]
pub struct Register {
    rows: Vec<LoanRow>,
    /// The number of loan rows kept, for which all memory was asked at the opening.
    most: u16,
}

impl Model for Register {
    ghost use Rattle.register.specs.Loans.{Loans};

    ghost Value = { Loans };

    ghost use Rattle.register.specs.Kept.{IsKept};

    ghost view = { λ r. record { rows = r.rows.items; most = r.most } };

    ghost invariant = { IsKept };
}
