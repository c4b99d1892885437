ghost use Rattle.vx_program.specs.Apply.{IsWritable};

use crate::asked::{names_of, told_of};
use crate::declared::told;
use crate::order::{base_text, count, names_text, slots_text};
use crate::sends::{class_text, found, holds_text, kinds_text};
use crate::trouble::{Trouble, clear};
use std::alloc::Global;
use vx_cases::Case;
use vx_names::Name;
use vx_program::{Edit, Program};
use vx_reader::{Command, read_block};
use vx_syntax::print_decl;

/// The title of a case, and its questions with their answers.
pub fn answers(alloc: Global, case: &Case<'_>) -> Result<String, Trouble> {
    let bytes = case.text(alloc)?;
    let text = clear(str::from_utf8(bytes.as_slice()))?;
    let (block, questions) = text.split_once("\n.\n").unwrap_or(("", text));
    let program = program(alloc, block)?;
    let mut answers = format!(in alloc; "{}\n", case.title())?;
    for question in questions.lines() {
        let answer = answer(alloc, &program, question)?;
        let line = format!(in alloc; "{question} -> {answer}\n")?;
        answers.push_str(line.as_str())?;
    }
    Ok(answers)
}

// The program after the edit that is read from the block, or without declarations where the block has nothing.
fn program(alloc: Global, block: &str) -> Result<Program, Trouble> {
    let prelude = Program::empty(alloc)?;
    if block.is_empty() {
        return Ok(prelude);
    }
    match read_block(alloc, block.as_bytes())? {
        Command::Edit(edit) => edited(alloc, prelude, &edit),
        other => {
            drop(other);
            Err(Trouble::Unclear)
        }
    }
}

// The program after the edit, which is taken in place and gives a new program, too: both are to have the same texts.
fn edited(alloc: Global, prelude: Program, edit: &Edit) -> Result<Program, Trouble>
    requires { IsWritable edit.now.changes }
{
    let applied = listed(alloc, &prelude.apply(edit)?)?;
    let mut program = prelude;
    program.change(edit)?;
    if listed(alloc, &program)?.as_slice() == applied.as_slice() {
        return Ok(program);
    }
    Err(Trouble::Unclear)
}

// The declarations of a program, as they are printed.
fn listed(alloc: Global, program: &Program) -> Result<Vec<u8>, Trouble> {
    let mut text = Vec::new(alloc);
    for decl in program.declarations() {
        text.extend_from_slice(print_decl(alloc, decl)?.as_slice())?;
        text.push(b'\n')?;
    }
    Ok(text)
}

/// The name of a word.
pub fn named(alloc: Global, word: &str) -> Result<Name, Trouble> {
    clear(Name::new(alloc, word.as_bytes()))
}

fn answer(alloc: Global, program: &Program, question: &str) -> Result<String, Trouble> {
    let (verb, words) = question.split_once(' ').unwrap_or((question, ""));
    match verb {
        "up" | "cone" => {
            let names = names_of(alloc, program, verb, &named(alloc, words)?)?;
            names_text(alloc, names.as_slice())
        }
        "reads" => told_of(alloc, program, verb, words),
        "field" | "inline" | "bind" | "shape" => told_of(alloc, program, verb, question),
        "base" => base_text(alloc, program, words),
        "slots" => slots_text(alloc, program, words),
        "count" => count(alloc, program, words),
        "class" => class_text(alloc, words),
        "kinds" => kinds_text(alloc, program, words),
        "holds" => holds_text(alloc, program, words),
        "find" => found(alloc, program, words),
        "text" | "key" | "counts" => told(alloc, verb, words),
        _ => Err(Trouble::Unclear),
    }
}

/// The bytes as text.
pub fn string(alloc: Global, bytes: &[u8]) -> Result<String, Trouble> {
    Ok(clear(str::from_utf8(bytes))?.to_string(alloc)?)
}
