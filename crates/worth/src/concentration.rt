//! Concentration: what one borrower has of a bond, held against the total of the bond.
ghost use Rattle.std.specs.Prelude.{◌≡◌, ◌^◌, ◌<◌};
ghost use Rattle.terms.specs.Table.{first_of, answered};
ghost use Rattle.worth.specs.Concentration.{bond_total, above, lent_above, row_above, row_over, row_limits};

use crate::table::bond_of;
use book::Book;
use lending::View;
use moves::Column;
use pledge::{Pledge, PledgeRow};
use sums::total::{Every, total};
use terms::{Cause, Layer, Refusal};

// The total of a bond: both places of all accounts.
fn bond_total<B: Book>(bonds: &B, bond: u8) -> u128
    ensures sum { result ≡ bond_total (B.Book.amounts bonds.now) bond }
    ensures small { result < 2 ^ 80 }
{
    let available = Column::available(bond).amounts(bonds);
    let pledged = Column::pledged(bond).amounts(bonds);
    total(&available, &Every) + total(&pledged, &Every)
}

// Whether a face is above so many thousandths of a total.
fn is_above(limit: u16, total: u128, face: u128) -> bool
    requires { (total < 2 ^ 80) × (face < 2 ^ 101) }
    ensures { result ≡ above limit total face }
{
    1_000 * face > u128::from(limit) * total
}

// The two limits differ in the figure of the bond and in the total over the loans; what is common is `is_above`.

/// Whether a face more of a bond out to a borrower would pass the bond's lent limit.
pub fn is_lent_above<B: Book>(view: &View<B>, borrower: u8, bond: u8, face: u32) -> bool
    ensures { result ≡ lent_above view.now borrower bond face }
{
    let limit = bond_of(view.records, bond).lent_limit;
    let out = view.loans.face_out(borrower, bond) + u128::from(face);
    is_above(limit, bond_total(view.bonds, bond), out)
}

/// Whether a face more of a bond in a borrower's rows would pass the bond's pledge limit.
pub fn is_row_above<B: Book>(view: &View<B>, borrower: u8, bond: u8, face: u32) -> bool
    ensures { result ≡ row_above view.now borrower bond face }
{
    let limit = bond_of(view.records, bond).pledge_limit;
    let rows = view.loans.rows_out(borrower, bond) + u128::from(face);
    is_above(limit, bond_total(view.bonds, bond), rows)
}

/// The first row of a pledge that would pass its bond's pledge limit is refused.
pub fn check_row_limits<B: Book>(
    view: &View<B>,
    borrower: u8,
    pledge: &Pledge,
) -> Result<(), Refusal>
    ensures { result ≡ answered (first_of (row_limits view.now borrower 0 pledge.now.rows)) tt }
{
    let mut rows = pledge.rows.iter();
    match rows.position(|row| is_row_over(view, borrower, *row)) {
        Some(i) => Err(Layer::Worth.refuse(Cause::Concentration, i as u64)),
        None => Ok(()),
    }
}

// Whether a row is used and would pass its bond's pledge limit.
fn is_row_over<B: Book>(view: &View<B>, borrower: u8, row: PledgeRow) -> bool
    ensures { result ≡ row_over view.now borrower row }
{
    row.face > 0 && is_row_above(view, borrower, row.bond, row.face)
}
