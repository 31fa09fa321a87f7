//! The calls that set what members lend and what bonds are worth: quota, mode and price.
ghost use Rattle.std.specs.Prelude.{◌≡◌};
ghost use Rattle.terms.specs.Table.{first_of};
ghost use Rattle.terms.specs.Refusals.{Settles};
ghost use Rattle.records.specs.Kept.{no_member, no_bond};
ghost use Rattle.records.specs.Quotas.{quota_rules, with_preset, mode_rules, with_mode, price_rules, with_price};

use crate::kept::Records;
use tables::Mode;
use terms::{Cause, Layer, Range, Refusal};

/// Whether no member has this number: the house, or past the last account.
pub fn is_no_member(account: u64) -> bool
    ensures { result ≡ no_member account }
{
    account == 0 || account >= 32
}

/// Whether no bond has this number.
pub fn is_no_bond(bond: u64) -> bool
    ensures { result ≡ no_bond bond }
{
    bond >= 16
}

impl Records {
    /// Sets the face of a bond up to which a member lends.
    pub fn quota(&mut self, day: u32, account: u64, bond: u64, face: u64) -> Result<(), Refusal>
        ensures { Settles (first_of (quota_rules self.old day account bond face)) tt self.old (with_preset self.old account bond face) result self.new }
    {
        if self.is_not_open(day) {
            return Err(Layer::Order.refuse(Cause::Time, 0));
        }
        if is_no_member(account) {
            return Err(Layer::Order.refuse(Cause::Account, account));
        }
        if is_no_bond(bond) {
            return Err(Layer::Order.refuse(Cause::Bond, 0));
        }
        let lender = &self.accounts[account as usize];
        if !lender.right.may_lend() {
            return Err(Layer::Order.refuse(Cause::Right, account));
        }
        if lender.mode.is_whole() {
            return Err(Layer::Order.refuse(Cause::Stage, 0));
        }
        if !Range::Amount.allows(face) {
            return Err(Layer::Order.refuse(Cause::Figure, 0));
        }
        self.accounts[account as usize].presets[bond as usize] = face;
        Ok(())
    }

    /// Sets how a member lends; the whole available face deletes its presets.
    #[tactic(auto, unfolding(tables::specs::Blank::blank))]
    pub fn mode(&mut self, day: u32, account: u64, mode: u64) -> Result<(), Refusal>
        ensures { Settles (first_of (mode_rules self.old day account mode)) tt self.old (with_mode self.old account mode) result self.new }
    {
        if self.is_not_open(day) {
            return Err(Layer::Order.refuse(Cause::Time, 0));
        }
        if is_no_member(account) {
            return Err(Layer::Order.refuse(Cause::Account, account));
        }
        if !self.accounts[account as usize].right.may_lend() {
            return Err(Layer::Order.refuse(Cause::Right, account));
        }
        let mode = Mode::try_from(mode)?;
        let lender = &mut self.accounts[account as usize];
        lender.mode = mode;
        if mode.is_whole() {
            lender.presets = [0; 16];
        }
        Ok(())
    }

    /// Sets a bond's price, in fen for 100 yuan of face.
    pub fn price(&mut self, day: u32, bond: u64, price: u64) -> Result<(), Refusal>
        ensures { Settles (first_of (price_rules self.old day bond price)) tt self.old (with_price self.old bond price) result self.new }
    {
        if self.is_not_open(day) {
            return Err(Layer::Order.refuse(Cause::Time, 0));
        }
        if is_no_bond(bond) {
            return Err(Layer::Order.refuse(Cause::Bond, 0));
        }
        if !Range::Price.allows(price) {
            return Err(Layer::Order.refuse(Cause::Figure, 0));
        }
        self.bonds[bond as usize].price = price as u16;
        Ok(())
    }
}
