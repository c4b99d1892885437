//! The batch compiler: reads a script from standard input and writes the replies to standard output.
#![tactic(auto)]

use std::process::ExitCode;
use std::{env, io};
use vx_batch::{Status, batch_top};
use vx_io::{StdSink, StdSource};

fn main(rt: HostRuntime) -> ExitCode {
    let Ok(words) = words(&rt) else {
        return ExitCode::from(Status::OutOfMemory as u8);
    };
    let mut source = StdSource::new(rt.stdin());
    let mut sink = StdSink::new(io::writer(&rt));
    ExitCode::from(batch_top(rt.alloc(), words.as_slice(), &mut source, &mut sink))
}

// The words after the program's name. Where one of them is no UTF-8 they are not listed, whatever the others are, so one
// that is not listed stands for them.
fn words(rt: &HostRuntime) -> io::Result<Vec<String>> {
    match env::args(rt) {
        Ok(words) => Ok(words.skip(1).collect(rt.alloc())?),
        Err(fault) if fault.kind() == io::ErrorKind::InvalidData => unlisted(rt),
        Err(fault) => Err(fault),
    }
}

fn unlisted(rt: &HostRuntime) -> io::Result<Vec<String>> {
    Ok(vec![in rt.alloc(); "?".to_string(rt.alloc())?]?)
}
