//! A line that cannot be read, and why the desk stops before the end of a script.
use script::{Fault, LineError};
use std::error::Error;
use std::{fmt, io};

/// The number of the line, and what is wrong with it.
#[derive(Clone, Copy, Debug, PartialEq, Eq)]
pub struct Damage<'a> {
    pub line: u64,
    pub error: LineError<'a>,
}

impl<'a> Damage<'a> {
    /// The whole line is at fault, and no word of it.
    pub(crate) fn of_line(line: u64, fault: Fault) -> Damage<'a> {
        let error = LineError::of_line(fault);
        Damage { line, error }
    }
}

impl<'a> fmt::Display for Damage<'a> {
    fn fmt<W: fmt::Write>(&self, f: &mut fmt::Formatter<W>) -> fmt::Result {
        let line = self.line;
        let error = self.error;
        write!(f, "line {line}: {error}")
    }
}

impl<'a> Error for Damage<'a> {}

/// Why the desk stops.
#[derive(Debug, Drop)]
pub enum Stop<'a> {
    Damaged(Damage<'a>),
    /// An answer could not be written.
    Unwritten(io::Error),
}

impl<'a> From<Damage<'a>> for Stop<'a> {
    fn from(damage: Damage<'a>) -> Stop<'a> {
        Stop::Damaged(damage)
    }
}

impl<'a> From<io::Error> for Stop<'a> {
    fn from(error: io::Error) -> Stop<'a> {
        Stop::Unwritten(error)
    }
}
