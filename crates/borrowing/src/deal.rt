//! What the pool has for an order on good terms with good rows.
ghost use Rattle.std.specs.Prelude.{◌≡◌, ◌<◌, true, IfOk, sum};
ghost use Rattle.terms.specs.Faces.{good_face};
ghost use Rattle.terms.specs.Table.{first_of, answered};
ghost use Rattle.book.specs.Ledgers.{ledger};
ghost use Rattle.records.specs.Kept.{bond_at};
ghost use Rattle.loan.specs.Kept.{row_in};
ghost use Rattle.borrowing.specs.Deals.{loans_rules, pool_rules, worth_rules, row_fits, rows_fit, room_rules, deal_rules, shares_of, begun};

use allot::allot;
use book::{Book, available_place, has_room, pledged_place};
use figures::fees::rate;
use lending::View;
use loan::{Dues, Loan, LoanRow, Matter, Stage};
use orders::Terms;
use pledge::{Pledge, PledgeRow};
use share::SharingRule;
use terms::{Cause, Layer, Refusal};
use worth::{check_row_limits, is_covered, is_lent_above};

// The loan on good terms with good rows, or the first of the pool's own rules that refuses it.
// The shares total the face, so a loan always comes of the row at the end.
pub(crate) fn check_deal<B: Book, S: SharingRule>(
    view: &View<B>,
    rule: &S,
    terms: &Terms,
    pledge: &Pledge,
) -> Result<Loan, Refusal>
    requires bond { terms.now.bond < 16 }
    requires face { good_face terms.now.face (bond_at view.now.records terms.now.bond).unit ≡ true }
    ensures { row_in result ≡ answered (first_of (deal_rules view.now terms.now pledge.now)) (begun view.now.records terms.now pledge.now (shares_of (S.SharingRule.meaning rule.now) view.now terms.now)) }
{
    check_loans(view, terms)?;
    let shares = check_pool(view, rule, terms)?;
    check_worth(view, terms, pledge)?;
    check_room(view, terms, pledge)?;
    let row = begun_row(view, terms, pledge, shares);
    Loan::try_from(row).or(Err(Layer::Order.refuse(Cause::Pool, 0)))
}

// The row of a loan as it begins.
fn begun_row<B: Book>(view: &View<B>, terms: &Terms, pledge: &Pledge, shares: [u64; 32]) -> LoanRow
    ensures { result ≡ begun view.now.records terms.now pledge.now shares }
{
    LoanRow {
        borrower: terms.borrower,
        bond: terms.bond,
        face: terms.face,
        shares,
        pledge: *pledge,
        dues: Dues {
            rate: rate(view.records.time.r001),
            term: terms.term,
            due: terms.due,
            fee_paid: false,
            figure: 0,
            rolled: false,
            late: false,
        },
        stage: Stage::Out(Matter::Quiet),
    }
}

// The borrower may have one more loan, and a loan row is unused.
fn check_loans<B: Book>(view: &View<B>, terms: &Terms) -> Result<(), Refusal>
    ensures { result ≡ answered (first_of (loans_rules view.now terms.now)) tt }
{
    let most = u128::from(view.records.limits.most_loans);
    if view.loans.unclosed(terms.borrower) >= most || view.loans.is_full() {
        return Err(Layer::Order.refuse(Cause::Loans, 0));
    }
    Ok(())
}

// The shares of the face, where the lendable faces make it.
#[tactic(auto, using(allot::proofs::Whole::face_made))]
fn check_pool<B: Book, S: SharingRule>(
    view: &View<B>,
    rule: &S,
    terms: &Terms,
) -> Result<[u64; 32], Refusal>
    requires bond { terms.now.bond < 16 }
    requires face { good_face terms.now.face (bond_at view.now.records terms.now.bond).unit ≡ true }
    ensures answer { result ≡ answered (first_of (pool_rules view.now terms.now)) (shares_of (S.SharingRule.meaning rule.now) view.now terms.now) }
    ensures whole { IfOk result (λ shares. sum shares ≡ terms.now.face) }
{
    let lendable = view.lendable_to(terms.borrower, terms.bond);
    let records = view.records;
    let unit = records.bonds[usize::from(terms.bond)].unit;
    let Some(shares) = allot(rule, unit, &lendable, terms.face) else {
        return Err(Layer::Order.refuse(Cause::Pool, 0));
    };
    Ok(shares)
}

// The rows cover the lent value and the fee, and no limit of concentration is passed.
fn check_worth<B: Book>(view: &View<B>, terms: &Terms, pledge: &Pledge) -> Result<(), Refusal>
    ensures { result ≡ answered (first_of (worth_rules view.now terms.now pledge.now)) tt }
{
    let records = view.records;
    if !is_covered(records, terms, rate(records.time.r001), pledge) {
        return Err(Layer::Worth.refuse(Cause::Value, 0));
    }
    if is_lent_above(view, terms.borrower, terms.bond, terms.face) {
        return Err(Layer::Worth.refuse(Cause::Concentration, 0));
    }
    check_row_limits(view, terms.borrower, pledge)
}

// Every place that the loan brings something to has room for it.
fn check_room<B: Book>(view: &View<B>, terms: &Terms, pledge: &Pledge) -> Result<(), Refusal>
    ensures { result ≡ answered (first_of (room_rules view.now.bonds terms.now pledge.now)) tt }
{
    let target = available_place(terms.borrower, terms.bond);
    if !do_rows_fit(view.bonds, terms.borrower, &pledge.rows)
        || !has_room(view.bonds, target, u64::from(terms.face))
    {
        return Err(Layer::BondBook.refuse(Cause::Over, u64::from(terms.borrower)));
    }
    Ok(())
}

// Whether each used row has room in its pledged place.
fn do_rows_fit<B: Book>(bonds: &B, borrower: u8, rows: &[PledgeRow; 4]) -> bool
    ensures { result ≡ rows_fit (ledger B.Book bonds.now) borrower rows.now }
{
    rows.iter().all(|row| does_row_fit(bonds, borrower, *row))
}

fn does_row_fit<B: Book>(bonds: &B, borrower: u8, row: PledgeRow) -> bool
    ensures { result ≡ row_fits (ledger B.Book bonds.now) borrower row }
{
    row.face == 0
        || has_room(
            bonds,
            pledged_place(borrower, row.bond),
            u64::from(row.face),
        )
}
