//! Reads drawings from standard input, and says of each whether it is sound, or what is wrong with it and where; what an edge of
//! the last sound one measures, and whether the last but one lies on it.
#![tactic(auto)]

mod in_hand;
mod reply;
mod session;
mod tally;

use anyhow::Result;
use session::Session;
use std::io::BufReader;
use std::process::ExitCode;

/// Reads and follows all lines of standard input.
fn read(rt: &HostRuntime, session: &mut Session) -> Result<()> {
    session.read(rt, BufReader::new(rt.alloc(), rt.stdin())?)
}

/// Reads all lines and says what was done, also where a line stops it.
fn run(rt: &HostRuntime) -> Result<()> {
    let mut session = Session::new(rt.alloc());
    let end = read(rt, &mut session);
    session.sum_up(rt)?;
    end
}

fn main(rt: HostRuntime) -> ExitCode {
    match run(&rt) {
        Ok(()) => ExitCode::SUCCESS,
        Err(error) => {
            let _ = eprintln!(rt; "{error}");
            ExitCode::FAILURE
        }
    }
}
