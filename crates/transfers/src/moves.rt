//! Deliver moves bonds and remit moves cash, each from what a member has available. `day` is the number of the day that the caller holds.
ghost use Rattle.std.specs.Prelude.{◌≡◌, ◌<◌, ◌≢◌};
ghost use Rattle.terms.specs.Table.{first_of};
ghost use Rattle.terms.specs.Refusals.{Settles};
ghost use Rattle.book.specs.Ledgers.{ledger};
ghost use Rattle.book.specs.Moves.{moved};
ghost use Rattle.book.specs.Places.{available};
ghost use Rattle.transfers.specs.Transfers.{move_rules, deliver_rules, remit_rules};

use book::{Book, available_place, has_room, held};
use records::{Records, is_no_bond, is_no_member};
use terms::{Cause, Layer, Range, Refusal, is_good_face};

// Moves n between two places where the source holds it and the target has room; first short, then over.
fn transfer<B: Book>(
    book: &mut B,
    source: usize,
    target: usize,
    n: u64,
    short: Refusal,
    over: Refusal,
) -> Result<(), Refusal>
    requires apart { source ≢ target }
    requires some { 0 < n }
    ensures { Settles (first_of (move_rules (ledger B.Book book.old) source target n short over)) tt (B.Book.amounts book.old) (moved (B.Book.amounts book.old) source target n) result (B.Book.amounts book.new) }
{
    if held(book, source) < n {
        return Err(short);
    }
    if !has_room(book, target, n) {
        return Err(over);
    }
    let _ = book.shift(source, target, n);
    Ok(())
}

/// Moves a face of a bond from what one member has available to another.
pub fn deliver<B: Book>(
    bonds: &mut B,
    records: &Records,
    day: u32,
    from: u64,
    to: u64,
    bond: u64,
    face: u64,
) -> Result<(), Refusal>
    ensures { Settles (first_of (deliver_rules (ledger B.Book bonds.old) records.now day from to bond face)) tt (B.Book.amounts bonds.old) (moved (B.Book.amounts bonds.old) (available from bond) (available to bond) face) result (B.Book.amounts bonds.new) }
{
    if records.is_not_open(day) {
        return Err(Layer::Order.refuse(Cause::Time, 0));
    }
    if is_no_member(from) {
        return Err(Layer::Order.refuse(Cause::Account, from));
    }
    if is_no_member(to) || from == to {
        return Err(Layer::Order.refuse(Cause::Account, to));
    }
    if is_no_bond(bond) {
        return Err(Layer::Order.refuse(Cause::Bond, 0));
    }
    if !is_good_face(face, records.bonds[bond as usize].unit) {
        return Err(Layer::Order.refuse(Cause::Face, 0));
    }
    let source = available_place(from as u8, bond as u8);
    let target = available_place(to as u8, bond as u8);
    let short = Layer::BondBook.refuse(Cause::Short, from);
    let over = Layer::BondBook.refuse(Cause::Over, to);
    transfer(bonds, source, target, face, short, over)
}

/// Moves cash, in fen, from one member to another.
pub fn remit<C: Book>(
    cash: &mut C,
    records: &Records,
    day: u32,
    from: u64,
    to: u64,
    fen: u64,
) -> Result<(), Refusal>
    ensures { Settles (first_of (remit_rules (ledger C.Book cash.old) records.now day from to fen)) tt (C.Book.amounts cash.old) (moved (C.Book.amounts cash.old) from to fen) result (C.Book.amounts cash.new) }
{
    if records.is_not_open(day) {
        return Err(Layer::Order.refuse(Cause::Time, 0));
    }
    if is_no_member(from) {
        return Err(Layer::Order.refuse(Cause::Account, from));
    }
    if is_no_member(to) || from == to {
        return Err(Layer::Order.refuse(Cause::Account, to));
    }
    if fen == 0 || !Range::Amount.allows(fen) {
        return Err(Layer::Order.refuse(Cause::Figure, 0));
    }
    let short = Layer::CashBook.refuse(Cause::Short, from);
    let over = Layer::CashBook.refuse(Cause::Over, to);
    transfer(cash, from as usize, to as usize, fen, short, over)
}
