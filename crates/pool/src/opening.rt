//! The opening of a pool.
ghost use Rattle.std.specs.Prelude.{◌≡◌};
ghost use Rattle.terms.specs.Table.{first_of, answered};
ghost use Rattle.book.specs.Ledgers.{ledger};
ghost use Rattle.records.specs.Openings.{opened_records};
ghost use Rattle.pool.specs.Opening.{opening_of, opening_rules};
ghost use Rattle.pool.specs.Promises.{Opens, Begins};

use crate::{OpenDay, Pool};
use book::{Book, is_fit};
use records::{Figures, Records};
use share::SharingRule;
use terms::{Cause, Layer, Refusal};

/// What a pool is opened over: its two books and its sharing rule.
#[derive(Drop)]
pub struct Parts<B: Book, C: Book, S: SharingRule> {
    pub bonds: B,
    pub cash: C,
    pub rule: S,
}

/// The parts of a pool that was not opened, handed back with the refusal.
#[derive(Drop)]
pub struct Unopened<B: Book, C: Book, S: SharingRule> {
    pub refusal: Refusal,
    pub parts: Parts<B, C, S>,
}

impl<B: Book, C: Book, S: SharingRule> Parts<B, C, S> {
    // The records of a pool that opens over these books, or the first refusal: the books come before the figures.
    fn check(&self, figures: &Figures) -> Result<Records, Refusal>
        ensures { result ≡ answered (first_of (opening_rules (ledger B.Book self.now.bonds) (ledger C.Book self.now.cash) figures.now)) (opened_records figures.now) }
    {
        if !is_fit(&self.bonds, 1024) || !is_fit(&self.cash, 32) {
            return Err(Layer::Order.refuse(Cause::Figure, 0));
        }
        Records::open(figures)
    }
}

impl<B: Book, C: Book, S: SharingRule> Pool<B, C, S> {
    fn open_by_rules(
        parts: Parts<B, C, S>,
        figures: &Figures,
    ) -> Result<(Pool<B, C, S>, OpenDay), Unopened<B, C, S>>
        ensures { Opens B.Book C.Book S.SharingRule parts (opening_of B.Book C.Book S.SharingRule parts figures.now) result }
    {
        match parts.check(figures) {
            Ok(records) => {
                let number = records.time.day;
                Ok((Pool { parts, records }, OpenDay { number }))
            }
            Err(refusal) => Err(Unopened { refusal, parts }),
        }
    }

    /// Opens a pool on its first day, or hands everything back with the first figure that is refused.
    #[tactic(auto, using(crate::proofs::Begun::begins))]
    pub fn open(
        parts: Parts<B, C, S>,
        figures: &Figures,
    ) -> Result<(Pool<B, C, S>, OpenDay), Unopened<B, C, S>>
        ensures { Begins B.Book C.Book S.SharingRule parts (opening_of B.Book C.Book S.SharingRule parts figures.now) result }
    {
        Pool::open_by_rules(parts, figures)
    }
}
