ghost use Rattle.std.specs.Prelude.{◌<◌};

use crate::show::show;
use std::alloc::{AllocError, Global};
use vx_batch::batch_top;
use vx_cases::Case;
use vx_io::{MemSink, MemSource};

// The bytes that a sink has room for.
const ROOM: usize = 131_072;

// The bytes of a read or write of which a case says nothing.
const MOST: usize = 65_536;

/// The title of a case, and how its script ends.
pub fn shown(alloc: Global, case: &Case<'_>) -> Result<Vec<u8>, AllocError> {
    let mut text = Vec::from_slice(alloc, case.title().as_bytes())?;
    text.push(b'\n')?;
    let mut source = MemSource::new(
        case.text(alloc)?,
        most(case, "%read "),
        numbers(alloc, case, "%failing read ")?,
    );
    let failing = numbers(alloc, case, "%failing write ")?;
    let mut sink = MemSink::new(alloc, ROOM, most(case, "%write "), failing)?;
    let words = words(alloc, case)?;
    let status = batch_top(alloc, words.as_slice(), &mut source, &mut sink);
    show(alloc, &mut text, status, sink.taken())?;
    Ok(text)
}

// The most bytes of a call.
fn most(case: &Case<'_>, word: &str) -> usize
    ensures { 0 < result }
{
    match case.setting(word) {
        Some(number) => number.parse::<usize>().unwrap_or(MOST).max(1),
        None => MOST,
    }
}

// The number of the call that fails.
fn numbers(alloc: Global, case: &Case<'_>, word: &str) -> Result<Vec<u64>, AllocError> {
    let mut numbers = Vec::new(alloc);
    if let Some(number) = case.setting(word) {
        if let Ok(number) = number.parse::<u64>() {
            numbers.push(number)?;
        }
    }
    Ok(numbers)
}

// The words of the command line.
fn words(alloc: Global, case: &Case<'_>) -> Result<Vec<String>, AllocError> {
    let mut words = Vec::new(alloc);
    for word in case.setting("%words ").unwrap_or("").split_whitespace() {
        words.push(word.to_string(alloc)?)?;
    }
    Ok(words)
}
