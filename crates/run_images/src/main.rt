//! Loads and runs images that are given in hexadecimal, for tests and for measuring. Standard input has a request a line:
//!
//! - `load IMAGE`: `loaded`, or the first fault in the bytes;
//! - `run COUNT IMAGE`: what a run of at most so many instructions printed, and how it ended, or the fault;
//! - `broken IMAGE`: what loading answers for each front of the bytes, the shortest first, and then for the bytes with one of them greater by
//!   1, by 128 and by 255, from the first on.
//!
//! Other lines are copied: they say what the next ones show.
#![tactic(auto)]

mod show;

use std::io::{self, Write};
use std::process::ExitCode;

fn main(rt: HostRuntime) -> ExitCode {
    match answer_all(&rt) {
        Ok(()) => ExitCode::SUCCESS,
        Err(_) => stop(&rt),
    }
}

// Says that the answers end before their end.
fn stop(rt: &HostRuntime) -> ExitCode {
    let _ = rt.println("stopped");
    ExitCode::FAILURE
}

fn answer_all(rt: &HostRuntime) -> io::Result<()> {
    let alloc = rt.alloc();
    let file = io::read_to_string(alloc, rt.stdin())?;
    let mut writer = io::writer(rt);
    for line in file.lines() {
        let answer = show::answer(alloc, line)?;
        writer.write_all(answer.as_slice())?;
    }
    Ok(())
}
