//! What a swap has to meet before its value is tried, and after it.
ghost use Rattle.std.specs.Prelude.{◌≡◌, ◌<◌, IfOk, slice_index_or};
ghost use Rattle.terms.specs.Table.{first_of, answered};
ghost use Rattle.swapping.specs.Swaps.{terms_in, loan_rules, place_rules};

use book::{Book, available_place, has_room, held, pledged_place};
use lending::View;
use loan::LoanRow;
use orders::Terms;
use pledge::PledgeRow;
use records::Records;
use terms::{Cause, Layer, Refusal};
use worth::is_row_above;

// The terms of a kept loan. No `From`: the two types are of crates that do not know each other.
pub(crate) fn terms_in(loan: &LoanRow) -> Terms
    ensures { result ≡ terms_in loan.now }
{
    Terms {
        borrower: loan.borrower,
        bond: loan.bond,
        face: loan.face,
        term: loan.dues.term,
        due: loan.dues.due,
    }
}

// Row i of a pledge; past its rows one of face 0.
pub(crate) fn row_of(rows: &[PledgeRow; 4], i: u64) -> PledgeRow
    ensures row { result ≡ slice_index_or rows.now i (record { bond = 0; face = 0 }) }
    ensures used { 0 < result.face → i < 4 }
{
    rows.get(i as usize).copied().unwrap_or_default()
}

// Whether the loan may still exchange its row i.
pub(crate) fn check_loan(records: &Records, loan: &LoanRow, i: u64) -> Result<(), Refusal>
    ensures answer { result ≡ answered (first_of (loan_rules records.now loan.now i)) tt }
    ensures used { IfOk result (λ _. i < 4) }
{
    if loan.is_closed() || row_of(&loan.pledge.rows, i).face == 0 {
        return Err(Layer::Order.refuse(Cause::Stage, 0));
    }
    if loan.dues.late {
        return Err(Layer::Order.refuse(Cause::Late, 0));
    }
    if records.time.day >= loan.dues.due {
        return Err(Layer::Order.refuse(Cause::Time, 0));
    }
    Ok(())
}

// The verdict of the rules after the value, an Option as of every rule table: the pledge limit, what the old row's place
// holds, and room for both rows.
pub(crate) fn find_later<B: Book>(
    view: &View<B>,
    loan: &LoanRow,
    i: u64,
    new: PledgeRow,
) -> Option<Refusal>
    ensures { result ≡ first_of (place_rules view.now loan.now i (record { bond = new.bond; face = new.face })) }
{
    let old = row_of(&loan.pledge.rows, i);
    let borrower = loan.borrower;
    let bonds = view.bonds;
    if is_row_above(view, borrower, new.bond, new.face) {
        return Some(Layer::Worth.refuse(Cause::Concentration, i));
    }
    if held(bonds, pledged_place(borrower, old.bond)) < u64::from(old.face) {
        return Some(Layer::BondBook.refuse(Cause::Short, u64::from(borrower)));
    }
    if !has_room(
        bonds,
        pledged_place(borrower, new.bond),
        u64::from(new.face),
    ) || !has_room(
        bonds,
        available_place(borrower, old.bond),
        u64::from(old.face),
    ) {
        return Some(Layer::BondBook.refuse(Cause::Over, u64::from(borrower)));
    }
    None
}
