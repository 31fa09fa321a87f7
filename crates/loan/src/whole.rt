//! A loan whose shares total its face: read from a kept row by a check, and kept as a row again.
ghost use Rattle.std.specs.Prelude.{◌≡◌, Some};
ghost use Rattle.loan.specs.Kept.{row_of, RowRead, unsound_text};

use crate::kept::{Dues, LoanRow};
use crate::shares::Shares;
use crate::stage::Stage;
use pledge::Pledge;
use std::error::Error;
use std::fmt;

/// One borrower's loan of one bond.
#[derive(Clone, Copy, Debug, PartialEq, Eq)]
pub struct Loan {
    pub borrower: u8,
    pub bond: u8,
    pub shares: Shares,
    pub pledge: Pledge,
    pub dues: Dues,
    pub stage: Stage,
}

/// A kept row whose shares do not total its face is no loan's.
#[derive(Clone, Copy, Debug, PartialEq, Eq)]
pub struct UnsoundRow;

impl fmt::Display for UnsoundRow {
    ghost output = { λ _. Some unsound_text };

    fn fmt<W: fmt::Write>(&self, f: &mut fmt::Formatter<W>) -> fmt::Result {
        f.write_str("the shares do not total the face")
    }
}

impl Error for UnsoundRow {}

/// The loan of a kept row, exactly where the row's shares total its face.
impl TryFrom<LoanRow> for Loan {
    type Error = UnsoundRow;

    ghost try_from_gives = { RowRead };

    fn try_from(row: LoanRow) -> Result<Loan, UnsoundRow> {
        let shares = Shares::checked(row.face, row.shares).ok_or(UnsoundRow)?;
        Ok(Loan {
            borrower: row.borrower,
            bond: row.bond,
            shares,
            pledge: row.pledge,
            dues: row.dues,
            stage: row.stage,
        })
    }
}

/// The row that a loan is kept as.
impl From<Loan> for LoanRow {
    ghost from_gives = { λ loan row. row ≡ row_of loan };

    fn from(loan: Loan) -> LoanRow {
        let Shares { face, by } = loan.shares;
        LoanRow {
            borrower: loan.borrower,
            bond: loan.bond,
            face,
            shares: by,
            pledge: loan.pledge,
            dues: loan.dues,
            stage: loan.stage,
        }
    }
}
