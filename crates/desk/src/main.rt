//! Settles a day from a script on standard input: an answer to every item, up to the end or to the first line that
//! cannot be read.

#![tactic(auto)]

mod damage;
mod desk;
mod dispatch;
mod items;
mod serve;

use damage::Stop;
use desk::Desk;
use items::Items;
use std::io;
use std::io::{BufWriter, Read, Write};
use std::process::ExitCode;

fn main(rt: HostRuntime) -> io::Result<ExitCode> {
    let mut script = Vec::new(rt.alloc());
    rt.stdin().read_to_end(&mut script)?;
    let mut out = BufWriter::new(rt.alloc(), rt.stdout())?;
    let desk = Desk {
        items: Items::new(script.as_slice()),
        out: &mut out,
    };
    match desk.settle() {
        Ok(()) => {
            out.flush()?;
            Ok(ExitCode::SUCCESS)
        }
        Err(Stop::Damaged(damage)) => {
            out.flush()?;
            eprintln!(rt; "{damage}")?;
            Ok(ExitCode::FAILURE)
        }
        Err(Stop::Unwritten(error)) => {
            out.flush()?;
            Err(error)
        }
    }
}
