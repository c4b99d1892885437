//! The texts of replies to runs.

ghost use Rattle.std.specs.Prelude.{◌≡◌, ◌≤◌, ◌++◌, IfOk, OnOk};
ghost use Rattle.vx_batch.specs.Text.{line};
ghost use Rattle.vx_batch.specs.Reports.{error_words, printed_text, report_text, mean_text};

use crate::text::append_line;
use sqlite_items::Items;
use std::alloc::{AllocError, Global};
use vx_model::{Report, RunError};
use vx_program::Program;
use vx_syntax::selector_text;

/// Tells what the program means with an allowance of so many calls.
pub fn mean(alloc: Global, program: &Program, f: u8) -> Result<Vec<u8>, AllocError>
    requires { f ≤ 100 }
    ensures { IfOk result (λ text. text.items ≡ mean_text program.now f) }
{
    let report = vx_meaning::mean(alloc, program, f)?;
    let text = report_text(alloc, &report)?;
    drop(report);
    Ok(text)
}

/// Tells what a run printed, and how it ended.
pub fn report_text(alloc: Global, report: &Report) -> Result<Vec<u8>, AllocError>
    ensures { IfOk result (λ text. text.items ≡ report_text report.now) }
{
    match report {
        Report::End(lines) => ended(alloc, lines.as_slice(), b"= end", b""),
        Report::Error(lines, error) => {
            let words = error_words(alloc, error)?;
            ended(alloc, lines.as_slice(), b"= error ", words.as_slice())
        }
        Report::Unfinished(lines) => ended(alloc, lines.as_slice(), b"= unfinished", b""),
        Report::Stuck(lines) => ended(alloc, lines.as_slice(), b"= stuck", b""),
    }
}

// A line for each of those printed, and a last one.
fn ended(
    alloc: Global,
    lines: &[Items<u8>],
    label: &[u8],
    rest: &[u8],
) -> Result<Vec<u8>, AllocError>
    ensures { IfOk result (λ text. text.items ≡ printed_text lines.now ++ line (label.now ++ rest.now)) }
{
    let mut text = Vec::new(alloc);
    append_printed(&mut text, lines)?;
    append_line(&mut text, label, rest)?;
    Ok(text)
}

fn append_printed(text: &mut Vec<u8>, lines: &[Items<u8>]) -> Result<(), AllocError>
    ensures { OnOk result (text.new.items ≡ text.old.items ++ printed_text lines.now) }
{
    for printed in lines {
        append_line(text, b"> ", printed.as_slice())?;
    }
    Ok(())
}

fn error_words(alloc: Global, error: &RunError) -> Result<Vec<u8>, AllocError>
    ensures { IfOk result (λ words. words.items ≡ error_words error.now) }
{
    match error {
        RunError::NotUnderstood(selector) => {
            let selector = selector_text(alloc, selector)?;
            worded(alloc, b"message not understood: ", selector.as_slice())
        }
        RunError::Ambiguous(selector) => {
            let selector = selector_text(alloc, selector)?;
            worded(alloc, b"message ambiguous: ", selector.as_slice())
        }
        RunError::Overflow => Vec::from_slice(alloc, b"overflow"),
        RunError::DivideByZero => Vec::from_slice(alloc, b"division by zero"),
        RunError::DeadReturn => Vec::from_slice(alloc, b"dead return"),
        RunError::NoField(name) => worded(alloc, b"no field ", name.bytes()),
        RunError::UnknownObject(name) => worded(alloc, b"unknown object ", name.bytes()),
        RunError::ClosureArity(count) => worded(
            alloc,
            b"closure arity ",
            format!(in alloc; "{count}")?.as_bytes(),
        ),
        RunError::StringLimit => Vec::from_slice(alloc, b"string limit"),
    }
}

fn worded(alloc: Global, words: &[u8], rest: &[u8]) -> Result<Vec<u8>, AllocError>
    ensures { IfOk result (λ text. text.items ≡ words.now ++ rest.now) }
{
    let mut text = Vec::from_slice(alloc, words)?;
    text.extend_from_slice(rest)?;
    Ok(text)
}
