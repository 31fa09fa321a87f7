//! One call of a life. Whoever holds an open day may make every call but next, whoever holds a shut day next alone.
ghost use Rattle.std.specs.Prelude.{◌≡◌, Some};
ghost use Rattle.pool.specs.State.{state_of};
ghost use Rattle.life.specs.Steps.{error_text, outcome_of, made, outcome_made, stepped, after_step};
ghost use Rattle.life.specs.declared.steps.CallError.TheVariants.{Refused};

use book::Book;
use pool::{Day, OpenDay, Pool, ShutDay};
use share::SharingRule;
use std::error::Error;
use std::fmt;
use terms::{Call, Refusal};

/// Why a call of a life did nothing.
#[derive(Clone, Copy, Debug, PartialEq, Eq)]
pub enum CallError {
    Refused(Refusal),
    /// The day held is of the other kind, so the call was not made.
    NotMade,
}

impl fmt::Display for CallError {
    ghost output = { λ error. Some (error_text error) };

    fn fmt<W: fmt::Write>(&self, f: &mut fmt::Formatter<W>) -> fmt::Result {
        match self {
            CallError::Refused(refusal) => write!(f, "refused {refusal}"),
            CallError::NotMade => write!(f, "not made"),
        }
    }
}

impl Error for CallError {}

impl From<Refusal> for CallError {
    ghost from_gives = { λ refusal error. error ≡ Refused refusal };

    fn from(refusal: Refusal) -> CallError {
        CallError::Refused(refusal)
    }
}

/// The day held after a call, and what came of the call.
#[derive(Drop)]
pub struct Stepped {
    pub day: Day,
    pub outcome: Result<(), CallError>,
}

/// Makes a call with the day held, if it is of the kind that the call takes.
pub fn step<B: Book, C: Book, S: SharingRule>(
    pool: &mut Pool<B, C, S>,
    day: Day,
    call: Call,
) -> Stepped
    ensures answer { result ≡ stepped (state_of B.Book C.Book S.SharingRule pool.old) day call }
    ensures after { state_of B.Book C.Book S.SharingRule pool.new ≡ after_step (state_of B.Book C.Book S.SharingRule pool.old) day call }
{
    match day {
        Day::Open(today) => step_open(pool, today, call),
        Day::Shut(shut) => step_shut(pool, shut, call),
    }
}

fn step_open<B: Book, C: Book, S: SharingRule>(
    pool: &mut Pool<B, C, S>,
    today: OpenDay,
    call: Call,
) -> Stepped
    ensures answer { result ≡ stepped (state_of B.Book C.Book S.SharingRule pool.old) (Day.Open today) call }
    ensures after { state_of B.Book C.Book S.SharingRule pool.new ≡ after_step (state_of B.Book C.Book S.SharingRule pool.old) (Day.Open today) call }
{
    match call {
        Call::Shut => match pool.shut(today) {
            Ok(shut) => Stepped {
                day: Day::Shut(shut),
                outcome: Ok(()),
            },
            Err((refusal, today)) => Stepped {
                day: Day::Open(today),
                outcome: Err(CallError::Refused(refusal)),
            },
        },
        _ => {
            let outcome = make(pool, &today, call);
            Stepped {
                day: Day::Open(today),
                outcome,
            }
        }
    }
}

fn step_shut<B: Book, C: Book, S: SharingRule>(
    pool: &mut Pool<B, C, S>,
    shut: ShutDay,
    call: Call,
) -> Stepped
    ensures answer { result ≡ stepped (state_of B.Book C.Book S.SharingRule pool.old) (Day.Shut shut) call }
    ensures after { state_of B.Book C.Book S.SharingRule pool.new ≡ after_step (state_of B.Book C.Book S.SharingRule pool.old) (Day.Shut shut) call }
{
    match call {
        Call::Next { day, r001 } => match pool.next(shut, day, r001) {
            Ok(today) => Stepped {
                day: Day::Open(today),
                outcome: Ok(()),
            },
            Err((refusal, shut)) => Stepped {
                day: Day::Shut(shut),
                outcome: Err(CallError::Refused(refusal)),
            },
        },
        _ => Stepped {
            day: Day::Shut(shut),
            outcome: Err(CallError::NotMade),
        },
    }
}

// Makes a call that neither ends nor begins a day.
#[tactic(auto, using(crate::proofs::Outcomes::outcome_answered))]
fn make<B: Book, C: Book, S: SharingRule>(
    pool: &mut Pool<B, C, S>,
    day: &OpenDay,
    call: Call,
) -> Result<(), CallError>
    ensures answer { result ≡ outcome_made (state_of B.Book C.Book S.SharingRule pool.old) day.now.number call }
    ensures after { state_of B.Book C.Book S.SharingRule pool.new ≡ made (state_of B.Book C.Book S.SharingRule pool.old) day.now.number call }
{
    match call {
        Call::Clock { minute } => outcome(pool.clock(day, minute)),
        Call::Quota {
            account,
            bond,
            face,
        } => outcome(pool.quota(day, account, bond, face)),
        Call::Mode { account, mode } => outcome(pool.mode(day, account, mode)),
        Call::Price { bond, price } => outcome(pool.price(day, bond, price)),
        Call::Deliver {
            from,
            to,
            bond,
            face,
        } => outcome(pool.deliver(day, from, to, bond, face)),
        Call::Remit { from, to, fen } => outcome(pool.remit(day, from, to, fen)),
        Call::Shut | Call::Next { day: _, r001: _ } => Err(CallError::NotMade),
    }
}

// What came of a call that was made.
fn outcome(answer: Result<(), Refusal>) -> Result<(), CallError>
    ensures { result ≡ outcome_of answer }
{
    answer.map_err(CallError::from)
}
