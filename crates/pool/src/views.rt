//! What may be asked of a pool. Asking changes nothing and needs no day.
ghost use Rattle.std.specs.Prelude.{◌≡◌};
ghost use Rattle.terms.specs.Table.{first_of, answered};
ghost use Rattle.book.specs.Moves.{amount_at};
ghost use Rattle.transfers.specs.Lending.{lendable_rules, lendable_at};
ghost use Rattle.pool.specs.State.{state_of};

use crate::Pool;
use book::Book;
use share::SharingRule;
use terms::Refusal;

impl<B: Book, C: Book, S: SharingRule> Pool<B, C, S> {
    /// The face at a place of the bond book; `None` exactly when there is no such place.
    pub fn bond_amount(&self, place: usize) -> Option<u64>
        ensures { result ≡ amount_at (state_of B.Book C.Book S.SharingRule self.now).bonds.amounts place }
    {
        self.parts.bonds.amount(place)
    }

    /// The cash, in fen, at a place of the cash book; `None` exactly when there is no such place.
    // Not joined with `bond_amount`: the two books may be of two types, so one function could not pick the book.
    pub fn cash_amount(&self, place: usize) -> Option<u64>
        ensures { result ≡ amount_at (state_of B.Book C.Book S.SharingRule self.now).cash.amounts place }
    {
        self.parts.cash.amount(place)
    }

    /// The face of a bond that a member may lend now.
    pub fn lendable(&self, account: u64, bond: u64) -> Result<u64, Refusal>
        ensures { result ≡ answered (first_of (lendable_rules account bond)) (lendable_at (state_of B.Book C.Book S.SharingRule self.now).bonds (state_of B.Book C.Book S.SharingRule self.now).kept account bond) }
    {
        transfers::lendable_face(&self.parts.bonds, &self.records, account, bond)
    }
}
