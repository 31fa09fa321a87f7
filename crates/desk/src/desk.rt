//! The desk: what is still to be read of a script, and where its answers go.
use crate::damage::{Damage, Stop};
use crate::dispatch::Opener;
use crate::items::Items;
use answers::Answer;
use draft::Draft;
use script::{Fault, Item};
use std::io;
use std::io::{BufWriter, Stdout, Write};

/// Standard output, buffered.
pub(crate) type Output = BufWriter<Stdout>;

/// A desk with the rest of its script.
#[derive(Drop)]
pub(crate) struct Desk<'a, 'o> {
    pub(crate) items: Items<'a>,
    pub(crate) out: &'o mut Output,
}

impl<'a, 'o> Desk<'a, 'o> {
    /// Settles a script: collects the opening part, and runs the rest with the pool that it opens.
    pub(crate) fn settle(self) -> Result<(), Stop<'a>> {
        let Desk { mut items, out } = self;
        let mut draft = Draft::new();
        for item in &mut items {
            let (line, item) = item?;
            match item {
                Item::Part(part) => {
                    draft
                        .take(part)
                        .map_err(|fault| Damage::of_line(line, fault))?;
                }
                Item::Open(opening) => {
                    let rest = Desk { items, out };
                    return Opener::new(&draft, opening, rest).open();
                }
                item => answer_without_pool(item, out)?,
            }
        }
        Ok(())
    }

    /// Runs the rest of a script whose opening was refused.
    pub(crate) fn run_without_pool(self) -> Result<(), Stop<'a>> {
        for item in self.items {
            let (line, item) = item?;
            match item {
                Item::Part(_) | Item::Open(_) => return Err(opening_after_open(line)),
                item => answer_without_pool(item, self.out)?,
            }
        }
        Ok(())
    }
}

/// The line belongs to the opening part, which is over.
pub(crate) fn opening_after_open<'a>(line: u64) -> Stop<'a> {
    Stop::Damaged(Damage::of_line(line, Fault::OpeningAfterOpen))
}

// Text is printed as it stands; whatever else is asked finds no pool.
fn answer_without_pool(item: Item<'_>, out: &mut Output) -> io::Result<()> {
    match item {
        Item::Say(text) => say(out, text),
        _ => write_answer(out, Answer::NoPool),
    }
}

/// Writes text on a line of its own.
pub(crate) fn say(out: &mut Output, text: &str) -> io::Result<()> {
    writeln!(out, "{text}")
}

/// Writes an answer on a line of its own.
pub(crate) fn write_answer(out: &mut Output, answer: Answer) -> io::Result<()> {
    writeln!(out, "{answer}")
}
