//! A whole life: an opening, and then any calls in any order.
ghost use Rattle.std.specs.Prelude.{◌≡◌};
ghost use Rattle.pool.specs.Opening.{opening_of};
ghost use Rattle.pool.specs.State.{state_of};
ghost use Rattle.life.specs.Lives.{HoldsDay, ended, Lives};

use crate::steps::step;
use book::Book;
use pool::{Day, OpenDay, Parts, Pool, Unopened};
use records::Figures;
use share::SharingRule;
use terms::Call;

/// A pool at the end of a life, with the day that its caller holds.
#[derive(Drop)]
pub struct Lived<B: Book, C: Book, S: SharingRule> {
    pub pool: Pool<B, C, S>,
    pub day: Day,
}

/// Opens a pool and makes the calls one after another. After an accepted shut only a next comes, and a next comes only then;
/// a call that does not come is left out.
pub fn live<B: Book, C: Book, S: SharingRule>(
    parts: Parts<B, C, S>,
    figures: &Figures,
    calls: &[Call],
) -> Result<Lived<B, C, S>, Unopened<B, C, S>>
    ensures { Lives B.Book C.Book S.SharingRule parts (opening_of B.Book C.Book S.SharingRule parts figures.now) calls.now result }
{
    live_on(parts, figures, calls)
}

// Not joined with `live`: the proof needs a file, and a bug in the public call is to be refused at its own line.
fn live_on<B: Book, C: Book, S: SharingRule>(
    parts: Parts<B, C, S>,
    figures: &Figures,
    calls: &[Call],
) -> Result<Lived<B, C, S>, Unopened<B, C, S>>
    ensures { Lives B.Book C.Book S.SharingRule parts (opening_of B.Book C.Book S.SharingRule parts figures.now) calls.now result }
{
    // No `?`: it would move the whole pool twice more.
    match Pool::open(parts, figures) {
        Ok((mut pool, first)) => {
            let day = run(&mut pool, first, calls);
            Ok(Lived { pool, day })
        }
        Err(unopened) => Err(unopened),
    }
}

fn run<B: Book, C: Book, S: SharingRule>(
    pool: &mut Pool<B, C, S>,
    first: OpenDay,
    calls: &[Call],
) -> Day
    requires { HoldsDay (state_of B.Book C.Book S.SharingRule pool.old) (Day.Open first) }
    ensures held { HoldsDay (state_of B.Book C.Book S.SharingRule pool.new) result }
    ensures after { state_of B.Book C.Book S.SharingRule pool.new ≡ ended (state_of B.Book C.Book S.SharingRule pool.old) calls.now }
{
    let mut day = Day::Open(first);
    for call in calls {
        day = step(pool, day, *call).day;
    }
    day
}
