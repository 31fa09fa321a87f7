//! What a member may lend of a bond, from the bond book and the records.
ghost use Rattle.std.specs.Prelude.{◌≡◌};
ghost use Rattle.terms.specs.Table.{first_of, answered};
ghost use Rattle.book.specs.Ledgers.{ledger};
ghost use Rattle.transfers.specs.Lending.{lendable_rules, lendable_at};

use book::{Book, available_place, held};
use records::{Records, is_no_bond, is_no_member};
use tables::lendable;
use terms::{Cause, Layer, Refusal};

/// The face of a bond that a member may lend now. Nothing is lent yet, so none is taken off its preset.
pub fn lendable_face<B: Book>(
    bonds: &B,
    records: &Records,
    account: u64,
    bond: u64,
) -> Result<u64, Refusal>
    ensures { result ≡ answered (first_of (lendable_rules account bond)) (lendable_at (ledger B.Book bonds.now) records.now account bond) }
{
    if is_no_member(account) {
        return Err(Layer::Order.refuse(Cause::Account, account));
    }
    if is_no_bond(bond) {
        return Err(Layer::Order.refuse(Cause::Bond, 0));
    }
    let lender = &records.accounts[account as usize];
    let available = held(bonds, available_place(account as u8, bond as u8));
    let preset = lender.presets[bond as usize];
    Ok(lendable(*lender, available, preset, 0))
}
