//! What a pool is opened with besides its books and its rule, and the records that it then keeps.
ghost use Rattle.std.specs.Prelude.{◌≡◌};
ghost use Rattle.terms.specs.Table.{first_of, answered};
ghost use Rattle.records.specs.Openings.{house_without_right, within, figures_rules, opened_records};

use crate::kept::{Limits, Records, Time};
use tables::{AccountFigures, BondFigures, read_table};
use terms::{Cause, Layer, Range, Refusal};

/// The figures of an opening. Any numbers may stand here: the opening refuses what is outside its range.
#[derive(Clone, Copy)]
pub struct Figures {
    pub accounts: [AccountFigures; 32],
    pub bonds: [BondFigures; 16],
    pub longest_term: u64,
    pub most_loans: u64,
    pub loan_rows: u64,
    pub day: u64,
    pub r001: u64,
}

impl Figures {
    // The house may neither lend nor borrow.
    fn is_house_without_right(&self) -> bool
        ensures { result ≡ house_without_right self.now }
    {
        match self.accounts.first() {
            Some(house) => house.right == 0,
            None => true,
        }
    }

    fn is_within(&self) -> bool
        ensures { result ≡ within self.now }
    {
        Range::LongestTerm.allows(self.longest_term)
            && Range::MostLoans.allows(self.most_loans)
            && Range::LoanRows.allows(self.loan_rows)
            && Range::Day.allows(self.day)
            && Range::R001.allows(self.r001)
    }
}

impl Records {
    /// The records of a pool that opens with these figures, or the first figure outside its range.
    pub fn open(figures: &Figures) -> Result<Records, Refusal>
        ensures { result ≡ answered (first_of (figures_rules figures.now)) (opened_records figures.now) }
    {
        if !figures.is_house_without_right() {
            return Err(Layer::Order.refuse(Cause::Figure, 0));
        }
        let accounts = read_table(&figures.accounts)?;
        let bonds = read_table(&figures.bonds)?;
        if !figures.is_within() {
            return Err(Layer::Order.refuse(Cause::Figure, 0));
        }
        Ok(Records {
            accounts,
            bonds,
            time: Time {
                day: figures.day as u32,
                opened: true,
                minute: 0,
                r001: figures.r001 as u32,
            },
            limits: Limits {
                longest_term: figures.longest_term as u8,
                most_loans: figures.most_loans as u8,
                loan_rows: figures.loan_rows as u16,
            },
        })
    }
}
