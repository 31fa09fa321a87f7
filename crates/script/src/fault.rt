//! Why a line cannot be read.
ghost use Rattle.std.specs.Prelude.{◌≡◌, Some, None};
ghost use Rattle.script.specs.Faults.{fault_of, fault_text, error_text};

use input::NumberFault;
use std::error::Error;
use std::fmt;

/// The kinds of damage.
#[derive(Clone, Copy, Debug, PartialEq, Eq)]
pub enum Fault {
    NotText,
    CarriageReturn,
    ControlCharacter,
    UnknownWord,
    MissingWord,
    MissingNumber,
    ExtraWord,
    NotNumber,
    TooLarge,
    NoAccount(u64),
    NoBond(u64),
    /// An opening line, or another `open`, after the pool was opened or refused.
    OpeningAfterOpen,
}

impl fmt::Display for Fault {
    ghost output = { λ fault. Some (fault_text fault) };

    fn fmt<W: fmt::Write>(&self, f: &mut fmt::Formatter<W>) -> fmt::Result {
        match *self {
            Fault::NotText => write!(f, "not text"),
            Fault::CarriageReturn => write!(f, "carriage return at the end of the line"),
            Fault::ControlCharacter => write!(f, "control character"),
            Fault::UnknownWord => write!(f, "unknown word"),
            Fault::MissingWord => write!(f, "missing word"),
            Fault::MissingNumber => write!(f, "missing number"),
            Fault::ExtraWord => write!(f, "extra word"),
            Fault::NotNumber => write!(f, "not a number"),
            Fault::TooLarge => write!(f, "number too large"),
            Fault::NoAccount(account) => write!(f, "no account {account}"),
            Fault::NoBond(bond) => write!(f, "no bond {bond}"),
            Fault::OpeningAfterOpen => write!(f, "opening line after open"),
        }
    }
}

impl Error for Fault {}

/// A word that writes no number damages its line.
impl From<NumberFault> for Fault {
    ghost from_gives = { λ number fault. fault ≡ fault_of number };

    fn from(number: NumberFault) -> Fault {
        match number {
            NumberFault::Empty => Fault::MissingNumber,
            NumberFault::NotDigits => Fault::NotNumber,
            NumberFault::TooLarge => Fault::TooLarge,
        }
    }
}

/// What is wrong with a line, and the word that is wrong, if it is one.
#[derive(Clone, Copy, Debug, PartialEq, Eq)]
pub struct LineError<'a> {
    pub fault: Fault,
    pub word: Option<&'a str>,
}

impl<'a> LineError<'a> {
    /// A damage that lies in no word.
    pub fn of_line(fault: Fault) -> LineError<'a>
        ensures fault { result.fault ≡ fault }
        ensures word { result.word ≡ None }
    {
        LineError { fault, word: None }
    }

    // A damage that lies in a word.
    pub(crate) fn of_word(fault: Fault, word: &'a str) -> LineError<'a> {
        LineError {
            fault,
            word: Some(word),
        }
    }
}

impl<'a> fmt::Display for LineError<'a> {
    ghost output = { λ error. Some (error_text error) };

    fn fmt<W: fmt::Write>(&self, f: &mut fmt::Formatter<W>) -> fmt::Result {
        let fault = self.fault;
        match self.word {
            None => write!(f, "{fault}"),
            Some(word) => write!(f, "{fault} '{word}'"),
        }
    }
}

impl<'a> Error for LineError<'a> {}
