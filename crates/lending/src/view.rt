//! What of a pool an order or a swap is judged by: its bond book, its records and its loans.
use book::Book;
use records::Records;
use register::Register;
use std::marker::Model;

/// The bond book, the records and the loans of a pool, to be read together.
#[derive(Drop)]
pub struct View<'a, B: Book> {
    pub bonds: &'a B,
    pub records: &'a Records,
    pub loans: &'a Register,
}

impl<'a, B: Book> Model for View<'a, B> {
    ghost use Rattle.lending.specs.View.{View};

    ghost Value = { View };

    ghost use Rattle.book.specs.Ledgers.{ledger};

    ghost view = { λ p. record { bonds = ledger B.Book p.bonds.now; records = p.records.now; loans = p.loans.now } };
}
