//! The items of a script, one after another.
ghost use Rattle.std.specs.Prelude.{length};
ghost use Rattle.std.specs.Iterator.{at_most};

use crate::damage::Damage;
use input::{Line, Lines};
use script::{Item, parse_line};

/// What is still to be read of a script.
#[derive(Clone, Copy)]
pub(crate) struct Items<'a> {
    lines: Lines<'a>,
}

impl<'a> Items<'a> {
    /// All items of a script.
    pub(crate) fn new(script: &'a [u8]) -> Items<'a> {
        Items {
            lines: Lines::new(script),
        }
    }
}

/// Gives the next item with the number of its line; a line that is empty or a comment has none.
impl<'a> Iterator for Items<'a> {
    type Item = Result<(u64, Item<'a>), Damage<'a>>;

    ghost remaining = { λ items. at_most (length items.lines.rest.now) };

    fn next(&mut self) -> Option<Result<(u64, Item<'a>), Damage<'a>>> {
        self.lines.find_map(|Line { number, text }| match parse_line(text) {
            Ok(None) => None,
            Ok(Some(item)) => Some(Ok((number, item))),
            Err(error) => Some(Err(Damage {
                line: number,
                error,
            })),
        })
    }
}
