//! The rows of an order, each judged beside the rows before it.
//! Loans have no say in this, so the book and the records are taken, and no view of a whole pool.
ghost use Rattle.std.specs.Prelude.{◌≡◌, ◌≤◌, length, take};
ghost use Rattle.terms.specs.Table.{first_of, answered};
ghost use Rattle.book.specs.Ledgers.{ledger};
ghost use Rattle.orders.specs.Rows.{row_rules, row_of, rows_rules, unpledged, rows_of, pledge_of, outcome};

use crate::terms_of::Terms;
use book::{Book, available_place, held};
use pledge::{Pledge, PledgeRow};
use records::{Records, is_no_bond};
use terms::{Cause, Layer, Order, OrderRow, Refusal, is_good_face};

/// A row pledged on these terms beside the rows that stand in the pledge, or why it is refused.
pub fn check_row<B: Book>(
    bonds: &B,
    records: &Records,
    terms: &Terms,
    pledge: &Pledge,
    index: u64,
    row: OrderRow,
) -> Result<PledgeRow, Refusal>
    ensures { result ≡ answered (first_of (row_rules (ledger B.Book bonds.now) records.now terms.now pledge.now index row)) (row_of row) }
{
    if is_no_bond(row.bond)
        || row.bond == u64::from(terms.bond)
        || pledge.has_bond(row.bond as u8)
        || !is_good_face(row.face, records.bonds[row.bond as usize].unit)
    {
        return Err(Layer::Order.refuse(Cause::Rows, index));
    }
    let bond = records.bonds[row.bond as usize];
    if bond.discount == 0 {
        return Err(Layer::Order.refuse(Cause::Eligibility, index));
    }
    if terms.due >= bond.maturity {
        return Err(Layer::Order.refuse(Cause::Maturity, index));
    }
    if held(bonds, available_place(terms.borrower, row.bond as u8)) < row.face {
        return Err(Layer::BondBook.refuse(Cause::Short, index));
    }
    Ok(PledgeRow {
        bond: row.bond as u8,
        face: row.face as u32,
    })
}

/// The pledge of an order, or its first row that is refused.
pub fn check_rows<B: Book>(
    bonds: &B,
    records: &Records,
    terms: &Terms,
    order: &Order,
) -> Result<Pledge, Refusal>
    ensures { result ≡ answered (first_of (rows_rules (ledger B.Book bonds.now) records.now terms.now unpledged 0 (rows_of order.now))) (pledge_of order.now) }
{
    pledge_of(bonds, records, terms, order.count, &order.rows)
}

// The first `count` rows, the only ones that are looked at.
#[tactic(auto, using(std::proofs::lemmas::List::take_min))]
fn front(rows: &[OrderRow; 4], count: u64) -> &[OrderRow]
    ensures rows { result.now ≡ take count rows.now }
    ensures few { length result.now ≤ 4 }
{
    &rows[..rows.len().min(count as usize)]
}

// The pledge of the first `count` rows, or the first of them that is refused. Not joined with `check_rows`: the proof needs
// a file, and a bug in the public call is to be refused at its own line.
fn pledge_of<B: Book>(
    bonds: &B,
    records: &Records,
    terms: &Terms,
    count: u64,
    rows: &[OrderRow; 4],
) -> Result<Pledge, Refusal>
    ensures { result ≡ outcome (ledger B.Book bonds.now) records.now terms.now unpledged 0 (take count rows.now) }
{
    let used = front(rows, count);
    let mut pledge = Pledge::default();
    // A loop: each row is judged beside the rows that the loop has put into the pledge.
    for (i, &row) in used.iter().enumerate() {
        pledge.rows[i] = check_row(bonds, records, terms, &pledge, i as u64, row)?;
    }
    Ok(pledge)
}
