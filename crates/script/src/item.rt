//! The items of a script, one to a line.
ghost use Rattle.std.specs.Prelude.{◌≡◌};
ghost use Rattle.script.specs.Kinds.{book_kind, rule_kind};

use crate::fault::Fault;
use std::str::FromStr;
use tables::{AccountFigures, BondFigures};
use terms::Call;

/// How a book keeps its amounts.
#[derive(Clone, Copy, Debug, PartialEq, Eq)]
pub enum BookKind {
    Standing,
    Netting,
}

impl FromStr for BookKind {
    type Err = Fault;

    ghost from_str_gives = { λ word r. r ≡ book_kind word };

    fn from_str(word: &str) -> Result<BookKind, Fault> {
        match word {
            "standing" => Ok(BookKind::Standing),
            "netting" => Ok(BookKind::Netting),
            _ => Err(Fault::UnknownWord),
        }
    }
}

/// How a want is shared.
#[derive(Clone, Copy, Debug, PartialEq, Eq)]
pub enum RuleKind {
    First,
    Even,
}

impl FromStr for RuleKind {
    type Err = Fault;

    ghost from_str_gives = { λ word r. r ≡ rule_kind word };

    fn from_str(word: &str) -> Result<RuleKind, Fault> {
        match word {
            "first" => Ok(RuleKind::First),
            "even" => Ok(RuleKind::Even),
            _ => Err(Fault::UnknownWord),
        }
    }
}

/// One line of the opening part. Any account and any bond may stand here.
#[derive(Clone, Copy, Debug, PartialEq, Eq)]
pub enum OpeningPart {
    Books {
        bonds: BookKind,
        cash: BookKind,
    },
    Rule(RuleKind),
    Account {
        account: u64,
        figures: AccountFigures,
    },
    Bond {
        bond: u64,
        figures: BondFigures,
    },
    Stock {
        account: u64,
        bond: u64,
        available: u64,
        pledged: u64,
    },
    Balance {
        account: u64,
        fen: u64,
    },
}

/// The figures of the line that opens the pool.
#[derive(Clone, Copy, Debug, PartialEq, Eq)]
pub struct Opening {
    pub longest_term: u64,
    pub most_loans: u64,
    pub loan_rows: u64,
    pub day: u64,
    pub r001: u64,
}

/// What one line of a script asks for.
#[derive(Clone, Copy, Debug, PartialEq, Eq)]
pub enum Item<'a> {
    Part(OpeningPart),
    Open(Opening),
    Call(Call),
    /// Every amount of the books that is not 0.
    Amounts,
    /// The face of a bond that a member may lend.
    Lendable { account: u64, bond: u64 },
    /// Text to print as it stands.
    Say(&'a str),
}
