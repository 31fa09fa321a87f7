//! Bonds: their units, prices, discounts, adjustments, limits and maturities.
ghost use Rattle.tables.specs.Bonds.{bad_bond, bond_of};

use crate::rows::ReadFrom;
use terms::Range;

/// By default a bond without figures.
#[derive(Clone, Copy, Debug, Default, PartialEq, Eq)]
pub struct Bond {
    /// Yuan of face: every face of the bond is a multiple of it.
    pub unit: u32,
    /// Fen for 100 yuan of face.
    pub price: u16,
    /// Ten-thousandths of the value that count in a pledge; 0 means never a pledge, since it counts nothing.
    pub discount: u16,
    /// Ten-thousandths at which the lent value counts; 0 means never lent, and is told so by an opening.
    pub adjustment: u16,
    /// Per mille of the bond's total that one borrower may have out.
    pub lent_limit: u16,
    /// Per mille of the bond's total that one borrower may have pledged.
    pub pledge_limit: u16,
    pub maturity: u32,
}

/// A bond as an opening tells it; any numbers may stand here, since whoever opens a pool may send anything.
#[derive(Clone, Copy, Debug, Default, PartialEq, Eq)]
pub struct BondFigures {
    pub unit: u64,
    pub price: u64,
    pub discount: u64,
    pub adjustment: u64,
    pub lent_limit: u64,
    pub pledge_limit: u64,
    pub maturity: u64,
}

impl ReadFrom<BondFigures> for Bond {
    ghost bad = { bad_bond };

    ghost meant = { bond_of };

    fn read(figures: &BondFigures) -> Option<Bond> {
        if !Range::Unit.allows(figures.unit)
            || !Range::Price.allows(figures.price)
            || !Range::Discount.allows(figures.discount)
            || !Range::Adjustment.allows(figures.adjustment)
        {
            return None;
        }
        if !Range::Limit.allows(figures.lent_limit)
            || !Range::Limit.allows(figures.pledge_limit)
            || !Range::Maturity.allows(figures.maturity)
        {
            return None;
        }
        Some(Bond {
            unit: figures.unit as u32,
            price: figures.price as u16,
            discount: figures.discount as u16,
            adjustment: figures.adjustment as u16,
            lent_limit: figures.lent_limit as u16,
            pledge_limit: figures.pledge_limit as u16,
            maturity: figures.maturity as u32,
        })
    }
}
