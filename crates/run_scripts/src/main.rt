//! Runs scripts through the compiler, and prints what it writes. Standard input is a file of cases, as `vx_cases` has them; the
//! text of a case is its script. For each case there is its title, a line with the status where it is not 0, and what the
//! sink took.
//!
//! Settings stand before the script: `%read COUNT` and `%write COUNT`, the most bytes of a read and of a write;
//! `%failing read NUMBER` and `%failing write NUMBER`, counted from 0; `%words WORDS`, those of the command line.
#![tactic(auto)]

mod run;
mod show;

use std::io::{self, Write};
use std::process::ExitCode;
use vx_cases::cases;

fn main(rt: HostRuntime) -> ExitCode {
    match run_all(&rt) {
        Ok(()) => ExitCode::SUCCESS,
        Err(_) => stop(&rt),
    }
}

// Says that the run ends before its end.
fn stop(rt: &HostRuntime) -> ExitCode {
    let _ = rt.println("stopped");
    ExitCode::FAILURE
}

fn run_all(rt: &HostRuntime) -> io::Result<()> {
    let alloc = rt.alloc();
    let file = io::read_to_string(alloc, rt.stdin())?;
    let mut writer = io::writer(rt);
    for case in cases(alloc, file.as_str())?.as_slice() {
        let shown = run::shown(alloc, case)?;
        writer.write_all(shown.as_slice())?;
    }
    Ok(())
}
