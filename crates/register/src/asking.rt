//! What is asked of the loans. Asking changes nothing.
ghost use Rattle.std.specs.Prelude.{◌≡◌, ◌^◌, ◌<◌, if◌then◌else◌, Some, None};
ghost use Rattle.std.specs.Option.{option_map};
ghost use Rattle.terms.specs.Table.{first_of, answered};
ghost use Rattle.loan.specs.Asked.{asked};
ghost use Rattle.loan.specs.Kept.{row_of};
ghost use Rattle.register.specs.Loans.{no_such_loan, loan_at, lent_face, face_out, unclosed, rows_out, ask_rules};

use crate::Register;
use loan::{Awaited, LentBy, Loan, OutOf, RowsOut, UnclosedOf};
use sums::total::total;
use terms::{Cause, Layer, Refusal};

impl Register {
    /// The loan of a number, if there is one.
    pub fn find(&self, loan: u64) -> Option<Loan>
        ensures { option_map row_of result ≡ (if no_such_loan self.now loan then None else Some (loan_at self.now loan)) }
    {
        let row = self.rows.get(loan as usize)?;
        Loan::try_from(*row).ok()
    }

    /// Who is awaited in a loan's matter.
    pub fn ask(&self, loan: u64) -> Result<Awaited, Refusal>
        ensures { result ≡ answered (first_of (ask_rules self.now loan)) (asked (loan_at self.now loan)) }
    {
        self.find(loan)
            .map(|loan| loan.question())
            .ok_or(Layer::Order.refuse(Cause::Loan, 0))
    }

    /// The face of a bond that an account has lent.
    pub fn lent(&self, account: u8, bond: u8) -> u128
        ensures sum { result ≡ lent_face self.now account bond }
        ensures small { result < 2 ^ 100 }
    {
        total(&self.rows, &LentBy { account, bond })
    }

    /// The face of a bond that a borrower has out.
    pub fn face_out(&self, borrower: u8, bond: u8) -> u128
        ensures sum { result ≡ face_out self.now borrower bond }
        ensures small { result < 2 ^ 100 }
    {
        total(&self.rows, &OutOf { borrower, bond })
    }

    /// The number of a borrower's loans that are not closed.
    pub fn unclosed(&self, borrower: u8) -> u128
        ensures sum { result ≡ unclosed self.now borrower }
        ensures small { result < 2 ^ 100 }
    {
        total(&self.rows, &UnclosedOf { borrower })
    }

    /// The face of a bond in the rows of a borrower's loans that are not closed.
    pub fn rows_out(&self, borrower: u8, bond: u8) -> u128
        ensures sum { result ≡ rows_out self.now borrower bond }
        ensures small { result < 2 ^ 100 }
    {
        total(&self.rows, &RowsOut { borrower, bond })
    }
}
