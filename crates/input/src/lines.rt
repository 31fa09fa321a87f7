//! The lines of a script, one after another, with their numbers.
ghost use Rattle.std.specs.Prelude.{◌≡◌, ◌==◌, ◌<◌, length, position, IfSome};
ghost use Rattle.std.specs.Iterator.{at_most};
ghost use Rattle.input.specs.Lines.{up_to, past, ReadsLine};

/// A line of a script.
#[derive(Clone, Copy, Debug, PartialEq, Eq)]
pub struct Line<'a> {
    /// The number of the line, from 1.
    pub number: u64,
    /// The bytes of the line, without the one that ends it.
    pub text: &'a [u8],
}

/// What is still to be read of a script, and the number of the line that was read last.
#[derive(Clone, Copy)]
pub struct Lines<'a> {
    rest: &'a [u8],
    number: u64,
}

impl<'a> Lines<'a> {
    /// All lines of a script; the first has the number 1.
    pub fn new(script: &'a [u8]) -> Lines<'a>
        ensures rest { result.rest.now ≡ script.now }
        ensures number { result.number ≡ 0 }
    {
        Lines {
            rest: script,
            number: 0,
        }
    }

    /// The number of the line that was read last.
    pub fn number(&self) -> u64
        ensures { result ≡ self.now.number }
    {
        self.number
    }
}

/// Gives the next line; `None` exactly when nothing is left.
impl<'a> Iterator for Lines<'a> {
    type Item = Line<'a>;

    ghost next_gives = { ReadsLine };

    ghost remaining = { λ lines. at_most (length lines.rest.now) };

    fn next(&mut self) -> Option<Line<'a>> {
        let Lines { rest, number } = *self;
        if rest.is_empty() {
            return None;
        }
        let (line, rest) = split_line(rest);
        let number = number.saturating_add(1);
        *self = Lines { rest, number };
        Some(Line { number, text: line })
    }
}

// The first line, and what follows the byte that ends it.
fn split_line(bytes: &[u8]) -> (&[u8], &[u8])
    ensures line { result.0.now ≡ up_to 10 bytes.now }
    ensures rest { result.1.now ≡ past 10 bytes.now }
    ensures shorter { 0 < length bytes.now → length result.1.now < length bytes.now }
{
    match line_end(bytes) {
        Some(end) => (&bytes[..end], &bytes[end + 1..]),
        None => (bytes, &[]),
    }
}

// Where the byte lies that ends the first line.
fn line_end(bytes: &[u8]) -> Option<usize>
    ensures place { result ≡ position (λ b. b == 10) bytes.now }
    ensures within { IfSome result (λ end. end < length bytes.now) }
{
    bytes.iter().position(|b| *b == b'\n')
}
