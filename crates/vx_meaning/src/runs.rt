//! The meaning of a program.
ghost use Rattle.std.specs.Prelude.{◌≡◌, ◌≤◌, List, IfOk};
ghost use Rattle.vx_syntax.specs.Expressions.{Bytes};
ghost use Rattle.vx_model.specs.declared.report.Report.TheVariants as r;
ghost use Rattle.vx_model.specs.Meaning.{meaning, report};
ghost use Rattle.vx_meaning.specs.States.{done};

use crate::evaluate::answer;
use crate::memory::{Memory, Outcome};
use sqlite_items::Items;
use std::alloc::{AllocError, Global};
use vx_model::{Report, RunError, meanings_are_never_stuck, opening};
use vx_names::{Selector, name_of};
use vx_program::Program;

/// How the run of the program ends with an allowance of so many calls, and the lines that it prints: the meaning of the
/// program. It lacks nothing. An allowance of more than a hundred calls might need more stack than a program has.
pub fn mean(alloc: Global, program: &Program, f: u8) -> Result<Report, AllocError>
    requires { f ≤ 100 }
    ensures meant { IfOk result (λ report. report ≡ meaning program.now f) }
    ensures never_stuck { IfOk result (λ report. (lines : List Bytes) → report ≡ r.Stuck lines → ⊥) }
{
    meanings_are_never_stuck();
    let _ = program.declarations();
    evaluated(alloc, program, f)
}

// The call of `main` in the heap of the plain objects.
fn evaluated(alloc: Global, program: &Program, f: u8) -> Result<Report, AllocError>
    ensures { IfOk result (λ report. report ≡ meaning program.now f) }
{
    let mut memory = Memory {
        heap: opening(alloc, program)?,
        next: 0,
        lines: Items::new(alloc),
    };
    let selector = Selector {
        name: name_of(alloc, b"main")?,
        arity: 0,
    };
    let outcome = answer(
        alloc,
        program,
        &selector,
        Items::new(alloc),
        None,
        f,
        &mut memory,
    )?;
    Ok(reported(outcome, memory))
}

// The report of a run that ended so. A return that passes the outermost call has no home any more.
fn reported(outcome: Outcome, memory: Memory) -> Report
    ensures { result ≡ report (done outcome memory) }
{
    let Memory { lines, .. } = memory;
    match outcome {
        Outcome::Gives(_) => Report::End(lines),
        Outcome::Back(_, _) => Report::Error(lines, RunError::DeadReturn),
        Outcome::Fails(error) => Report::Error(lines, error),
        Outcome::Out => Report::Unfinished(lines),
        Outcome::Stuck => Report::Stuck(lines),
    }
}
