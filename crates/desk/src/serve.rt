//! Runs a script with any pool.
use crate::damage::Stop;
use crate::desk::{Desk, Output, opening_after_open, say, write_answer};
use answers::Answer;
use book::Book;
use life::{CallError, Stepped, step};
use pool::{Day, OpenDay, Pool, Unopened};
use script::Item;
use share::SharingRule;
use std::io;

impl<'a, 'o> Desk<'a, 'o> {
    /// Tells whether a pool was opened, and runs the rest of a script with it, if it was.
    pub(crate) fn run<B: Book + Drop, C: Book + Drop, S: SharingRule + Drop>(
        self,
        opened: Result<(Pool<B, C, S>, OpenDay), Unopened<B, C, S>>,
    ) -> Result<(), Stop<'a>> {
        match opened {
            Ok((pool, day)) => {
                write_answer(self.out, Answer::Accepted)?;
                self.serve(pool, Day::Open(day))
            }
            Err(unopened) => {
                write_answer(self.out, Answer::Refused(unopened.refusal))?;
                self.run_without_pool()
            }
        }
    }

    // A loop of its own beside `run_without_pool`: one for both would keep the pool in an Option, and look into it at
    // every item.
    fn serve<B: Book + Drop, C: Book + Drop, S: SharingRule + Drop>(
        self,
        mut pool: Pool<B, C, S>,
        mut day: Day,
    ) -> Result<(), Stop<'a>> {
        for item in self.items {
            let (line, item) = item?;
            match item {
                Item::Part(_) | Item::Open(_) => return Err(opening_after_open(line)),
                Item::Call(call) => {
                    let Stepped { day: next, outcome } = step(&mut pool, day, call);
                    write_answer(self.out, answer_to(outcome, &next))?;
                    day = next;
                }
                Item::Amounts => write_amounts(&pool, self.out)?,
                Item::Lendable { account, bond } => {
                    write_answer(self.out, Answer::from(pool.lendable(account, bond)))?;
                }
                Item::Say(text) => say(self.out, text)?,
            }
        }
        Ok(())
    }
}

// What the desk writes of a call: one that was not made names the kind of day that the desk still holds.
fn answer_to(outcome: Result<(), CallError>, day: &Day) -> Answer {
    match (outcome, day) {
        (Ok(()), _) => Answer::Accepted,
        (Err(CallError::Refused(refusal)), _) => Answer::Refused(refusal),
        (Err(CallError::NotMade), Day::Open(_)) => Answer::DayIsOpen,
        (Err(CallError::NotMade), Day::Shut(_)) => Answer::DayIsShut,
    }
}

// Every amount of the books that is not 0, in rising order of place. Two loops over the numbers of places, since a place
// is all that a book is asked by, and each book is asked by a call of its own and told by an answer of its own.
fn write_amounts<B: Book, C: Book, S: SharingRule>(
    pool: &Pool<B, C, S>,
    out: &mut Output,
) -> io::Result<()> {
    for place in 0..1024 {
        if let Some(amount) = pool.bond_amount(place).filter(|amount| *amount != 0) {
            write_answer(out, Answer::BondAmount { place, amount })?;
        }
    }
    for account in 0..32 {
        if let Some(amount) = pool.cash_amount(account).filter(|amount| *amount != 0) {
            write_answer(out, Answer::CashAmount { account, amount })?;
        }
    }
    write_answer(out, Answer::End)
}
