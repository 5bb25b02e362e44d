//! Plays a site's journal, read from standard input, and prints what was done, a line for each call.

#![tactic(auto)]

mod lines;
mod show;
mod site;
mod start;
mod words;

use journal::Call;
use lines::Journal;
use start::Start;
use std::process::ExitCode;

/// The first call of the journal, if there is one: it has to start a register.
fn first(journal: &mut Journal) -> anyhow::Result<Option<Start>> {
    match journal.next().transpose()? {
        Some((line, Call::Visitor(visitor))) => Ok(Some(Start { line, visitor })),
        Some((line, _)) => Err(line.fault("expected a visitor register first")),
        None => Ok(None),
    }
}

/// Plays the journal, or what comes before the first line that is not of the format.
fn play(rt: HostRuntime) -> anyhow::Result<()> {
    let mut journal = Journal::read(rt)?;
    let mut next = first(&mut journal)?;
    while let Some(start) = next {
        next = start.play(&mut journal)?;
    }
    Ok(())
}

fn main(rt: HostRuntime) -> ExitCode {
    match play(rt) {
        Ok(()) => ExitCode::SUCCESS,
        Err(e) => {
            // where nobody reads the message, the status still tells
            let _ = eprintln!(rt; "{e}");
            ExitCode::FAILURE
        }
    }
}
