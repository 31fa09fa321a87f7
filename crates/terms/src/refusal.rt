//! A refusal names its cause, the spot that it speaks of, and the layer that found it.
ghost use Rattle.std.specs.Prelude.{◌≡◌, Some};
ghost use Rattle.std.proofs.Math.Utf8.{encode};
ghost use Rattle.terms.specs.Refusals.{number, letter_of, refuse};
ghost use Rattle.terms.specs.Words.{word_of, refusal_text};

use std::error::Error;
use std::fmt;

/// Why a call is refused. `code` gives the number that members know it by; a cause is displayed as its word.
#[derive(Clone, Copy, Debug, PartialEq, Eq)]
pub enum Cause {
    Account = 1,
    Bond,
    Loan,
    Right,
    Face,
    Time,
    Term,
    Eligibility,
    Rows,
    Maturity,
    Loans,
    Pool,
    Short,
    Value,
    Concentration,
    Stage,
    Late,
    Lender,
    Over,
    Figure,
}

impl Cause {
    /// The number of the cause, from 1 to 20.
    pub fn code(self) -> u8
        ensures { result ≡ number self }
    {
        self as u8
    }

    /// The word of the cause, as members read it.
    pub fn word(self) -> &'static str
        ensures { result.now ≡ word_of self }
    {
        match self {
            Cause::Account => "account",
            Cause::Bond => "bond",
            Cause::Loan => "loan",
            Cause::Right => "right",
            Cause::Face => "face",
            Cause::Time => "time",
            Cause::Term => "term",
            Cause::Eligibility => "eligibility",
            Cause::Rows => "rows",
            Cause::Maturity => "maturity",
            Cause::Loans => "loans",
            Cause::Pool => "pool",
            Cause::Short => "short",
            Cause::Value => "value",
            Cause::Concentration => "concentration",
            Cause::Stage => "stage",
            Cause::Late => "late",
            Cause::Lender => "lender",
            Cause::Over => "over",
            Cause::Figure => "figure",
        }
    }
}

impl fmt::Display for Cause {
    ghost output = { λ cause. Some (word_of cause) };

    fn fmt<W: fmt::Write>(&self, f: &mut fmt::Formatter<W>) -> fmt::Result {
        f.write_str(self.word())
    }
}

/// The part of the pool that found the cause. It is displayed as its letter.
#[derive(Clone, Copy, Debug, PartialEq, Eq)]
pub enum Layer {
    BondBook,
    CashBook,
    Worth,
    Order,
}

impl Layer {
    /// The letter of the layer: B, C, W or O.
    pub fn letter(self) -> char
        ensures { result ≡ letter_of self }
    {
        match self {
            Layer::BondBook => 'B',
            Layer::CashBook => 'C',
            Layer::Worth => 'W',
            Layer::Order => 'O',
        }
    }

    /// A refusal that this layer found.
    pub fn refuse(self, cause: Cause, spot: u64) -> Refusal
        ensures { result ≡ refuse cause spot self }
    {
        let layer = self;
        Refusal { cause, spot, layer }
    }
}

impl fmt::Display for Layer {
    ghost output = { λ layer. Some (encode (letter_of layer)) };

    fn fmt<W: fmt::Write>(&self, f: &mut fmt::Formatter<W>) -> fmt::Result {
        let letter = self.letter();
        write!(f, "{letter}")
    }
}

#[derive(Clone, Copy, Debug, PartialEq, Eq)]
pub struct Refusal {
    pub cause: Cause,
    /// The account, row or place of a list that the cause speaks of; 0 where there is none, since members are told a number
    /// in every refusal.
    pub spot: u64,
    pub layer: Layer,
}

impl fmt::Display for Refusal {
    ghost output = { λ refusal. Some (refusal_text refusal) };

    fn fmt<W: fmt::Write>(&self, f: &mut fmt::Formatter<W>) -> fmt::Result {
        let code = self.cause.code();
        let cause = self.cause;
        let spot = self.spot;
        let layer = self.layer;
        write!(f, "{code} {cause} at {spot} in {layer}")
    }
}

impl Error for Refusal {}
