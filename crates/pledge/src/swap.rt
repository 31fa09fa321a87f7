//! The swap of a pledge row, tried under the guard: refused, it leaves the pledge as it was.
ghost use Rattle.std.specs.Prelude.{◌≡◌, ◌+◌, ◌^◌, ◌<◌};
ghost use Rattle.terms.specs.Table.{answered};
ghost use Rattle.terms.specs.Refusals.{Settles};
ghost use Rattle.pledge.specs.Rows.{row_worth, worth_of, with_row};
ghost use Rattle.pledge.specs.Swaps.{judged, swapped};

use crate::rows::{Pledge, PledgeRow, Pricing};
use crate::trial::Trial;
use sums::total::{AmountFor, total};
use terms::{Cause, Layer, Refusal};

/// A row for the place of another, and what is asked of the pledge with it.
#[derive(Clone, Copy)]
pub struct Exchange<'a> {
    /// The number of the row that it takes the place of.
    pub row: usize,
    pub new: PledgeRow,
    pub pricing: Pricing<'a>,
    /// What the rows have to be worth, in fen.
    pub needed: u128,
    /// The refusal of the rules after these, if any.
    pub later: Option<Refusal>,
}

impl Exchange<'_> {
    // Tries the row in the place of an old one, beside others of this worth.
    fn try_on(&self, row: &mut PledgeRow, others: u128) -> Result<(), Refusal>
        requires { others < 2 ^ 100 }
        ensures { Settles (judged (others + row_worth self.now.pricing.bonds.now self.now.pricing.multiplier self.now.new) self.now.needed self.now.later) tt row.old self.now.new result row.new }
    {
        let trial = Trial::begin(row, self.new);
        let worth = trial.row().amount_for(&self.pricing);
        self.check(others + u128::from(worth))?;
        trial.accept();
        Ok(())
    }

    // Rows of this worth have to be worth what is needed, and then to meet the later rules.
    fn check(&self, worth: u128) -> Result<(), Refusal>
        ensures { result ≡ answered (judged worth self.now.needed self.now.later) tt }
    {
        if worth < self.needed {
            return Err(Layer::Worth.refuse(Cause::Value, 0));
        }
        match self.later {
            Some(refusal) => Err(refusal),
            None => Ok(()),
        }
    }
}

impl Pledge {
    /// Tries a row in the place of another. It is refused where there is no such row, then where the rows
    /// with it are worth less than needed, and then by the later rules.
    pub fn swap(&mut self, exchange: &Exchange) -> Result<(), Refusal>
        ensures { Settles (swapped exchange.now self.old) tt self.old (with_row self.old exchange.now.row exchange.now.new) result self.new }
    {
        if exchange.row >= self.rows.len() {
            return Err(Layer::Order.refuse(Cause::Stage, 0));
        }
        self.swap_row(exchange)
    }

    // The other rows are counted before the guard holds this one. Not joined with `swap`: the proof needs a file,
    // and a bug in the public call is to be refused at its own line.
    fn swap_row(&mut self, exchange: &Exchange) -> Result<(), Refusal>
        requires { exchange.now.row < 4 }
        ensures { Settles (judged (worth_of exchange.now.pricing.bonds.now exchange.now.pricing.multiplier (with_row self.old exchange.now.row exchange.now.new)) exchange.now.needed exchange.now.later) tt self.old (with_row self.old exchange.now.row exchange.now.new) result self.new }
    {
        let Exchange { row, pricing, .. } = *exchange;
        let others = total(&self.rows[..row], &pricing) + total(&self.rows[row + 1..], &pricing);
        exchange.try_on(&mut self.rows[row], others)
    }
}

#[cfg(test)]
mod tests {
    use super::*;
    use tables::Bond;

    #[test]
    fn a_refused_row_leaves_the_old_one(rt: HostRuntime) {
        let bond = Bond {
            unit: 10_000,
            price: 10_000,
            discount: 9_000,
            adjustment: 10_500,
            lent_limit: 1_000,
            pledge_limit: 1_000,
            maturity: 70_000,
        };
        let pricing = Pricing {
            bonds: &[bond; 16],
            multiplier: 100,
        };
        let unused = PledgeRow::default();
        let enough = PledgeRow {
            bond: 1,
            face: 11_670_000,
        };
        let fewer = PledgeRow {
            bond: 2,
            face: 11_660_000,
        };
        let mut pledge = Pledge {
            rows: [enough, unused, unused, unused],
        };
        let exchange = Exchange {
            row: 0,
            new: fewer,
            pricing,
            needed: 1_050_034_247,
            later: None,
        };
        assert!(rt; pledge.swap(&exchange).is_err());
        assert_eq!(rt; pledge.worth(&pricing), 1_050_300_000);
        let second = Exchange {
            row: 1,
            needed: 2_099_700_000,
            ..exchange
        };
        assert!(rt; pledge.swap(&second).is_ok());
        assert!(rt; pledge.has_bond(2) && pledge.face_of(1) == 11_670_000);
    }
}
