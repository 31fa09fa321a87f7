//! The rows of a pledge, what they are worth at the held prices, and the face of one bond in them.
ghost use Rattle.std.specs.Prelude.{◌≡◌, sum_by, nat_lt};
ghost use Rattle.pledge.specs.Rows.{row_worth, row_face, worth_of, face_of, any_of};

use figures::values::row_value;
use sums::total::{AmountFor, total};
use tables::Bond;

/// One row: a face of one bond. An unused row is of face 0 and bond 0, and no `None`: it counts nothing in any total, so no
/// total has to test for it.
#[derive(Clone, Copy, Debug, Default, PartialEq, Eq)]
pub struct PledgeRow {
    pub bond: u8,
    /// In yuan.
    pub face: u32,
}

/// The rows of one loan, filled from the front. An unused row counts nothing.
#[derive(Clone, Copy, Debug, Default, PartialEq, Eq)]
pub struct Pledge {
    pub rows: [PledgeRow; 4],
}

/// Asks what a row is worth at these bonds' prices and discounts and the borrower's multiplier.
#[derive(Clone, Copy)]
pub struct Pricing<'a> {
    pub bonds: &'a [Bond; 16],
    /// In hundredths.
    pub multiplier: u16,
}

impl<'a> AmountFor<Pricing<'a>> for PledgeRow {
    ghost amount_for = { λ p row. row_worth p.bonds.now p.multiplier row };

    fn amount_for(&self, asked: &Pricing<'a>) -> u64 {
        let bonds = asked.bonds;
        let Some(bond) = bonds.get(usize::from(self.bond)) else {
            return 0;
        };
        row_value(self.face, bond.price, bond.discount, asked.multiplier)
    }
}

/// Asks for the face in rows of one bond.
#[derive(Clone, Copy)]
pub struct RowsOf {
    pub bond: u8,
}

impl AmountFor<RowsOf> for PledgeRow {
    ghost amount_for = { λ asked row. row_face asked.bond row };

    fn amount_for(&self, asked: &RowsOf) -> u64 {
        u64::from(self.face_for(asked.bond))
    }
}

impl Pledge {
    /// What the rows are worth together, in fen.
    pub fn worth(&self, pricing: &Pricing) -> u128
        ensures { result ≡ worth_of pricing.now.bonds.now pricing.now.multiplier self.now }
    {
        total(&self.rows, pricing)
    }

    /// The face of a bond in the rows together.
    #[tactic(auto, using(crate::proofs::Faces::some_face))]
    pub fn face_of(&self, bond: u8) -> u64
        ensures sum { result ≡ face_of bond self.now }
        ensures some { nat_lt 0 result ≡ any_of bond self.now.rows }
    {
        faces(&self.rows, bond)
    }

    /// Whether a used row is of a bond.
    pub fn has_bond(&self, bond: u8) -> bool
        ensures { result ≡ any_of bond self.now.rows }
    {
        self.face_of(bond) > 0
    }
}

impl PledgeRow {
    // What the row counts for a bond.
    fn face_for(&self, bond: u8) -> u32
        ensures { result ≡ row_face bond self.now }
    {
        if self.bond == bond { self.face } else { 0 }
    }
}

// Four faces of a u32 each fit a u64, which the total of any u64 rows need not.
fn faces(rows: &[PledgeRow; 4], bond: u8) -> u64
    ensures { result ≡ sum_by (row_face bond) rows.now }
{
    rows.iter().map(|row| u64::from(row.face_for(bond))).sum()
}
