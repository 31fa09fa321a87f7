//! An accepted loan is booked: its rows are pledged, its shares move, and it is written down.
ghost use Rattle.std.specs.Prelude.{◌≡◌};
ghost use Rattle.moves.specs.Many.{after_moves};
ghost use Rattle.borrowing.specs.Borrows.{row_moves, loan_moves};
ghost use Rattle.loan.specs.Kept.{row_of};

use book::{Book, available_place};
use loan::Loan;
use moves::{Column, Way, move_each, pledge_face};
use pledge::PledgeRow;

#[tactic(auto, using(crate::proofs::Moved::row_moved, crate::proofs::Moved::rows_moved))]
fn pledge_rows<B: Book>(bonds: &mut B, borrower: u8, rows: &[PledgeRow; 4])
    ensures { B.Book.amounts bonds.new ≡ after_moves B.Book.LARGEST (B.Book.amounts bonds.old) (row_moves borrower rows.now) }
{
    for &row in rows {
        pledge_face(bonds, borrower, row.bond, row.face);
    }
}

// Pledges the rows of a loan, and moves each share from its lender to the borrower.
#[tactic(auto, using(crate::proofs::Moved::after_both))]
pub(crate) fn move_bonds<B: Book>(bonds: &mut B, loan: &Loan)
    ensures { B.Book.amounts bonds.new ≡ after_moves B.Book.LARGEST (B.Book.amounts bonds.old) (loan_moves (row_of loan.now)) }
{
    pledge_rows(bonds, loan.borrower, &loan.pledge.rows);
    let target = available_place(loan.borrower, loan.bond);
    let lenders = Column::available(loan.bond);
    move_each(bonds, lenders, Way::Into(target), &loan.shares.by);
}
