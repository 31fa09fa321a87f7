//! The call swap. `day` is the number of the day that the caller holds.
ghost use Rattle.std.specs.Prelude.{◌≡◌, false};
ghost use Rattle.book.specs.Ledgers.{ledger};
ghost use Rattle.moves.specs.Many.{after_moves};
ghost use Rattle.lending.specs.View.{viewed};
ghost use Rattle.register.specs.Loans.{loan_at, no_such_loan};
ghost use Rattle.swapping.specs.Swaps.{swap_moves, SwappedIn, Swapped};

use crate::judging::{check_loan, find_later, row_of, terms_in};
use book::Book;
use lending::View;
use loan::LoanRow;
use moves::{free_face, pledge_face};
use orders::check_row;
use pledge::{Exchange, PledgeRow, Pricing};
use records::Records;
use register::Register;
use terms::{Cause, Layer, OrderRow, Refusal};
use worth::{multiplier_of, needed};

/// Exchanges a row of a loan's pledge for another.
#[tactic(auto, using(crate::proofs::Tried::not_today, crate::proofs::Tried::not_there, crate::proofs::Tried::on_day))]
pub fn swap<B: Book>(
    bonds: &mut B,
    records: &Records,
    loans: &mut Register,
    day: u32,
    loan: u64,
    row: u64,
    new: OrderRow,
) -> Result<(), Refusal>
    ensures { Swapped (viewed (ledger B.Book bonds.old) records.now loans.old) day loan row new result (B.Book.amounts bonds.new, loans.new) }
{
    if records.is_not_open(day) {
        return Err(Layer::Order.refuse(Cause::Time, 0));
    }
    let Some(found) = loans.find(loan) else {
        return Err(Layer::Order.refuse(Cause::Loan, 0));
    };
    let kept = LoanRow::from(found);
    swap_in(bonds, records, loans, loan, &kept, row, new)
}

// The bond book and the loans are written here, so they are passed by themselves and in no view of what is read.
// The later rules are found before the value is tried, since the trial asks for them.
fn swap_in<B: Book>(
    bonds: &mut B,
    records: &Records,
    loans: &mut Register,
    loan: u64,
    kept: &LoanRow,
    row: u64,
    new: OrderRow,
) -> Result<(), Refusal>
    requires there { no_such_loan loans.old loan ≡ false }
    requires same { kept.now ≡ loan_at loans.old loan }
    ensures { SwappedIn (viewed (ledger B.Book bonds.old) records.now loans.old) kept.now loan row new result (B.Book.amounts bonds.new, loans.new) }
{
    check_loan(records, kept, row)?;
    let terms = terms_in(kept);
    let pledged = check_row(bonds, records, &terms, &kept.pledge, row, new)?;
    let view = View {
        bonds: &*bonds,
        records,
        loans: &*loans,
    };
    let later = find_later(&view, kept, row, pledged);
    let exchange = Exchange {
        row: row as usize,
        new: pledged,
        pricing: Pricing {
            bonds: &records.bonds,
            multiplier: multiplier_of(records, kept.borrower),
        },
        needed: needed(records, &terms, kept.dues.rate),
        later,
    };
    loans.swap(loan, &exchange)?;
    move_rows(bonds, kept, row, pledged);
    Ok(())
}

// The new row is pledged, and the old one is freed.
fn move_rows<B: Book>(bonds: &mut B, loan: &LoanRow, i: u64, new: PledgeRow)
    ensures { B.Book.amounts bonds.new ≡ after_moves B.Book.LARGEST (B.Book.amounts bonds.old) (swap_moves loan.now i (record { bond = new.bond; face = new.face })) }
{
    let old = row_of(&loan.pledge.rows, i);
    let borrower = loan.borrower;
    pledge_face(bonds, borrower, new.bond, new.face);
    free_face(bonds, borrower, old.bond, old.face);
}
