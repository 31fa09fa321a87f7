//! The words of a line, one after another.
use crate::fault::{Fault, LineError};
use input::number;
use std::str::FromStr;

/// What is still to be read of a line.
#[derive(Drop)]
pub(crate) struct Words<'a>(&'a str);

impl<'a> Words<'a> {
    /// The words of a line that has no control character.
    pub(crate) fn new(line: &'a str) -> Words<'a> {
        Words(line)
    }

    /// The next word. The library's `split_ascii_whitespace` takes three times as long over runs of spaces, as scripts in
    /// columns have them.
    pub(crate) fn next(&mut self) -> Option<&'a str> {
        let text = self.0.trim_ascii_start();
        if text.is_empty() {
            return None;
        }
        let (word, rest) = text.split_once(' ').unwrap_or((text, ""));
        self.0 = rest;
        Some(word)
    }

    /// The next word, as a number.
    pub(crate) fn number(&mut self) -> Result<u64, LineError<'a>> {
        let word = self.wanted(Fault::MissingNumber)?;
        number(word).map_err(|fault| LineError::of_word(fault.into(), word))
    }

    /// The next word, as a kind of book or rule.
    pub(crate) fn kind<K: FromStr<Err = Fault>>(&mut self) -> Result<K, LineError<'a>> {
        let word = self.wanted(Fault::MissingWord)?;
        word.parse()
            .map_err(|fault| LineError::of_word(fault, word))
    }

    /// Nothing may be left.
    pub(crate) fn end(&mut self) -> Result<(), LineError<'a>> {
        match self.next() {
            None => Ok(()),
            Some(word) => Err(LineError::of_word(Fault::ExtraWord, word)),
        }
    }

    // The next word; the line has this fault where there is none.
    fn wanted(&mut self, missing: Fault) -> Result<&'a str, LineError<'a>> {
        self.next().ok_or(LineError::of_line(missing))
    }
}
