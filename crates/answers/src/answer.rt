//! The answers of a desk, one line each.
ghost use Rattle.std.specs.Prelude.{◌≡◌, Some};
ghost use Rattle.answers.specs.Answers.{lendable_answer, line_of, bond_line};
ghost use Rattle.std.specs.Fmt.{DisplaysOnOk};

use std::fmt;
use terms::Refusal;

/// What a desk answers to one item.
#[derive(Clone, Copy, Debug, PartialEq, Eq)]
pub enum Answer {
    Accepted,
    Refused(Refusal),
    /// The face of a bond that a member may lend.
    Lendable(u64),
    /// An amount of the bond book: its account, bond and compartment (0 available, 1 pledged) are told by its place.
    BondAmount { place: usize, amount: u64 },
    /// An amount of the cash book.
    CashAmount { account: usize, amount: u64 },
    /// No more amounts.
    End,
    NoPool,
    DayIsShut,
    DayIsOpen,
}

/// The answer to what a member may lend.
impl From<Result<u64, Refusal>> for Answer {
    ghost from_gives = { λ asked answer. answer ≡ lendable_answer asked };

    fn from(asked: Result<u64, Refusal>) -> Answer {
        match asked {
            Ok(face) => Answer::Lendable(face),
            Err(refusal) => Answer::Refused(refusal),
        }
    }
}

impl fmt::Display for Answer {
    ghost output = { λ answer. Some (line_of answer) };

    fn fmt<W: fmt::Write>(&self, f: &mut fmt::Formatter<W>) -> fmt::Result {
        match *self {
            Answer::Accepted => write!(f, "ok"),
            Answer::Refused(refusal) => write!(f, "refused {refusal}"),
            Answer::Lendable(face) => write!(f, "lendable {face}"),
            Answer::BondAmount { place, amount } => write_bond_amount(f, place, amount),
            Answer::CashAmount { account, amount } => write!(f, "C {account} {amount}"),
            Answer::End => write!(f, "end"),
            Answer::NoPool => write!(f, "no pool"),
            Answer::DayIsShut => write!(f, "day is shut"),
            Answer::DayIsOpen => write!(f, "day is open"),
        }
    }
}

fn write_bond_amount<W: fmt::Write>(
    f: &mut fmt::Formatter<W>,
    place: usize,
    amount: u64,
) -> fmt::Result
    ensures { DisplaysOnOk W.write_str_gives f.old result (Some (bond_line place amount)) f.new }
{
    let account = place / 32;
    let bond = place / 2 % 16;
    let compartment = place % 2;
    write!(f, "B {account} {bond} {compartment} {amount}")
}
