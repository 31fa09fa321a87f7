//! The call borrow. `day` is the number of the day that the caller holds.
ghost use Rattle.std.specs.Prelude.{◌≡◌};
ghost use Rattle.terms.specs.Table.{first_of, answered};
ghost use Rattle.book.specs.Ledgers.{ledger};
ghost use Rattle.lending.specs.View.{viewed};
ghost use Rattle.loan.specs.Kept.{row_in};
ghost use Rattle.borrowing.specs.Borrows.{order_rules, loan_of, Borrowed};

use crate::booking::move_bonds;
use crate::deal::check_deal;
use book::Book;
use lending::View;
use loan::Loan;
use orders::{check_rows, check_terms};
use records::Records;
use register::Register;
use share::SharingRule;
use terms::{Cause, Layer, Order, Refusal};

/// Lends a face of a bond to a member against a pledge, and gives the loan's number.
pub fn borrow<B: Book, S: SharingRule>(
    bonds: &mut B,
    rule: &S,
    records: &Records,
    loans: &mut Register,
    day: u32,
    order: &Order,
) -> Result<u64, Refusal>
    ensures { Borrowed (S.SharingRule.meaning rule.now) (viewed (ledger B.Book bonds.old) records.now loans.old) day order.now result (B.Book.amounts bonds.new, loans.new) }
{
    borrow_on(bonds, rule, records, loans, day, order)
}

// The bond book and the loans are written here, so they are passed by themselves and in no view of what is read.
// Everything is checked before anything is booked, also that a loan row is unused, so the loan is always added.
// Not joined with `borrow`: the arm that `?` leaves needs a proof file, and a bug in the public call is to be
// refused at its own line.
fn borrow_on<B: Book, S: SharingRule>(
    bonds: &mut B,
    rule: &S,
    records: &Records,
    loans: &mut Register,
    day: u32,
    order: &Order,
) -> Result<u64, Refusal>
    ensures { Borrowed (S.SharingRule.meaning rule.now) (viewed (ledger B.Book bonds.old) records.now loans.old) day order.now result (B.Book.amounts bonds.new, loans.new) }
{
    if records.is_not_open(day) {
        return Err(Layer::Order.refuse(Cause::Time, 0));
    }
    let view = View {
        bonds: &*bonds,
        records,
        loans: &*loans,
    };
    let loan = check_order(&view, rule, order)?;
    move_bonds(bonds, &loan);
    loans.add(loan).ok_or(Layer::Order.refuse(Cause::Loans, 0))
}

// The loan that an order makes, or the first refusal.
fn check_order<B: Book, S: SharingRule>(
    view: &View<B>,
    rule: &S,
    order: &Order,
) -> Result<Loan, Refusal>
    ensures { row_in result ≡ answered (first_of (order_rules view.now order.now)) (loan_of (S.SharingRule.meaning rule.now) view.now order.now) }
{
    let terms = check_terms(view.records, order)?;
    let pledge = check_rows(view.bonds, view.records, &terms, order)?;
    check_deal(view, rule, &terms, &pledge)
}
