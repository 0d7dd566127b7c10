//! The program: `dp_server show MOMENT` reads elements from standard input and writes the listing of
//! their ring to standard output; `dp_server pipe` serves framed requests over these two.
#![tactic(auto)]

mod outcome;
mod pipe;
mod run;
mod show;
#[cfg(test)]
mod tests;
mod transfer;
mod words;

use dp_base::{OsDraw, StdSink, StdSource, SystemClock};
use dp_session::Status;
use key_elements::ElementList;
use outcome::Outcome;
use repo_keeper::{MemKeeper, OwnRepo};
use run::run;
use std::env;
use std::io::ErrorKind;
use std::process::ExitCode;

// The words behind the name of the program, or the status where there are none to be had. Words
// that are no text are of no lawful form.
fn process_words(rt: &HostRuntime) -> Result<Vec<String>, Status> {
    let mut words = Vec::new(rt.alloc());
    let args = match env::args(rt) {
        Ok(args) => args,
        Err(error) if error.kind() == ErrorKind::InvalidData => return Err(Status::BadWords),
        Err(_) => return Err(Status::NoMemory),
    };
    for word in args.skip(1) {
        if words.push(word).is_err() {
            return Err(Status::NoMemory);
        }
    }
    Ok(words)
}

// Runs over the standard streams, the system's clock and random bytes, and a repository in memory
// that starts empty.
fn run_here(rt: &HostRuntime) -> Result<Outcome, Status> {
    let words = process_words(rt)?;
    let alloc = rt.alloc();
    let keeper = MemKeeper::new(ElementList::empty(), Vec::new(alloc));
    let mut repo = OwnRepo::new(alloc, keeper);
    let mut draw = OsDraw::new(rt);
    let mut clock = SystemClock::new(rt);
    let mut input = StdSource::new(rt);
    let mut output = StdSink::new(rt);
    let words = words.as_slice();
    Ok(run(
        alloc,
        words,
        &mut repo,
        &mut draw,
        &mut clock,
        &mut input,
        &mut output,
    ))
}

fn main(rt: HostRuntime) -> ExitCode {
    let (status, bad) = match run_here(&rt) {
        Ok(end) => (end.status, end.bad),
        Err(status) => (status, None),
    };
    if let Some(bad) = bad {
        let place = bad.place;
        let _ = eprintln!(rt; "dp_server: bad input at byte {place}");
    } else if let Some(message) = status.message() {
        let _ = rt.eprintln(message);
    }
    ExitCode::from(status.number())
}
