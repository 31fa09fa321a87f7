//! A number of a script: decimal digits that write a value below 2^64.
ghost use Rattle.std.specs.Prelude.{◌≡◌};
ghost use Rattle.std.specs.List.{list_all};
ghost use Rattle.std.specs.Char.{is_ascii_digit};
ghost use Rattle.input.specs.Numbers.{reading};

/// Why a word is no number.
#[derive(Clone, Copy, Debug, PartialEq, Eq)]
pub enum NumberFault {
    Empty,
    NotDigits,
    TooLarge,
}

/// The number that a word writes, or why it writes none.
pub fn number(word: &str) -> Result<u64, NumberFault>
    ensures { result ≡ reading word.now }
{
    if word.is_empty() {
        return Err(NumberFault::Empty);
    }
    if !is_all_digits(word.as_bytes()) {
        return Err(NumberFault::NotDigits);
    }
    word.parse::<u64>().map_err(|_| NumberFault::TooLarge)
}

fn is_all_digits(word: &[u8]) -> bool
    ensures { result ≡ list_all is_ascii_digit word.now }
{
    word.iter().all(|b| b.is_ascii_digit())
}
