//! What a pool is to be opened with.
use script::{BookKind, RuleKind};
use std::marker::Model;
use tables::{AccountFigures, BondFigures};

/// The kinds of the books, the rule, and the figures and amounts of the opening.
#[derive(Drop)]
pub struct Draft {
    pub bond_book: BookKind,
    pub cash_book: BookKind,
    pub rule: RuleKind,
    pub accounts: [AccountFigures; 32],
    pub bonds: [BondFigures; 16],
    /// The amounts of the bond book, place by place.
    pub stocks: [u64; 1024],
    /// The amounts of the cash book, account by account.
    pub balances: [u64; 32],
}

impl Model for Draft {
    ghost use Rattle.draft.specs.Drafts.{Plan};

    ghost Value = { Plan };

    ghost view = { λ d. record { bond_book = d.bond_book; cash_book = d.cash_book; rule = d.rule; accounts = d.accounts; bonds = d.bonds; stocks = d.stocks; balances = d.balances } };
}
