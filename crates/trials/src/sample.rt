//! A pool to try calls on: members 1 to 4, bonds 0 and 1.
use pool::Parts;
use records::Figures;
use share::EvenRule;
use standing::{Standing, StandingBonds, StandingCash};
use tables::{AccountFigures, BondFigures};
use terms::Refusal;

/// What a call answered: a refusal is told by its number, its spot and the letter of its layer.
// In numbers, since these are what members are told and what the tests are about.
pub(crate) fn told<X: Drop>(answer: Result<X, Refusal>) -> Result<(), (u8, u64, char)> {
    match answer {
        Ok(_) => Ok(()),
        Err(refusal) => Err((refusal.cause.code(), refusal.spot, refusal.layer.letter())),
    }
}

/// Member 1 may lend, 2 borrow, 3 both, 4 neither; bond 0 comes in units of 1,000 yuan, bond 15 of 1.
pub(crate) fn figures() -> Figures {
    let nobody = AccountFigures { right: 0, grade: 0 };
    let mut accounts = [nobody; 32];
    accounts[1].right = 1;
    accounts[2].right = 2;
    accounts[3].right = 3;
    let bond = BondFigures {
        unit: 1_000,
        price: 10_000,
        discount: 9_000,
        adjustment: 10_500,
        lent_limit: 200,
        pledge_limit: 300,
        maturity: 20_000,
    };
    let mut bonds = [bond; 16];
    bonds[15].unit = 1;
    Figures {
        accounts,
        bonds,
        longest_term: 14,
        most_loans: 8,
        loan_rows: 64,
        day: 100,
        r001: 17_500,
    }
}

/// Member 1 holds 5,000,000 available of bond 0, and 700 pledged; of bond 15 member 3 holds the largest amount and member 2 a little.
pub(crate) fn stock() -> [u64; 1024] {
    let mut amounts = [0; 1024];
    amounts[32] = 5_000_000;
    amounts[33] = 700;
    amounts[94] = 5;
    amounts[126] = 10_000_000_000_000;
    amounts
}

/// Members 1 and 2 hold cash, member 4 the largest amount.
pub(crate) fn balances() -> [u64; 32] {
    let mut fen = [0; 32];
    fen[1] = 10_000;
    fen[2] = 1;
    fen[4] = 10_000_000_000_000;
    fen
}

/// A pool over the standing books, which shares evenly.
pub(crate) fn parts() -> Parts<StandingBonds, StandingCash, EvenRule> {
    Parts {
        bonds: Standing::new(stock()),
        cash: Standing::new(balances()),
        rule: EvenRule,
    }
}
