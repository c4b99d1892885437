use crate::ask::{named, string};
use crate::asked::{base_of, names_of, slots_of};
use crate::trouble::{Trouble, clear};
use std::alloc::Global;
use vx_names::{FieldKey, Name};
use vx_program::Program;
use vx_syntax::Start;

/// Puts the word behind the others, and a blank between them.
pub fn push_word(words: &mut String, word: &str) -> Result<(), Trouble> {
    if !words.is_empty() {
        words.push_str(" ")?;
    }
    Ok(words.push_str(word)?)
}

/// What was found, or `none`.
pub fn or_none(alloc: Global, words: String) -> Result<String, Trouble> {
    if words.is_empty() {
        return Ok("none".to_string(alloc)?);
    }
    Ok(words)
}

/// The names, with blanks between them.
pub fn names_text(alloc: Global, names: &[Name]) -> Result<String, Trouble> {
    let mut words = String::new(alloc);
    for name in names {
        push_word(&mut words, clear(str::from_utf8(name.bytes()))?)?;
    }
    or_none(alloc, words)
}

/// The base of the object or predicate.
pub fn base_text(alloc: Global, program: &Program, word: &str) -> Result<String, Trouble> {
    match base_of(alloc, program, &named(alloc, word)?)? {
        Some(name) => string(alloc, name.bytes()),
        None => Ok("none".to_string(alloc)?),
    }
}

fn start_text(alloc: Global, start: &Start) -> Result<String, Trouble> {
    match start {
        Start::Nil => Ok("nil".to_string(alloc)?),
        Start::True => Ok("true".to_string(alloc)?),
        Start::False => Ok("false".to_string(alloc)?),
        Start::Int(n) => Ok(format!(in alloc; "{n}")?),
        Start::Text(bytes) => string(alloc, bytes.as_slice()),
    }
}

fn slot_text(alloc: Global, key: &FieldKey, start: &Start) -> Result<String, Trouble> {
    let name = clear(str::from_utf8(key.name.bytes()))?;
    let specialiser = clear(str::from_utf8(key.specialiser.bytes()))?;
    let start = start_text(alloc, start)?;
    Ok(format!(in alloc; "{name}@{specialiser}={start}")?)
}

/// The slots of an object of the class, each as `n@a=4`.
pub fn slots_text(alloc: Global, program: &Program, class: &str) -> Result<String, Trouble> {
    let slots = slots_of(alloc, program, &named(alloc, class)?)?;
    let mut words = String::new(alloc);
    for (key, start) in slots.as_slice() {
        let word = slot_text(alloc, key, start)?;
        push_word(&mut words, word.as_str())?;
    }
    or_none(alloc, words)
}

/// How many names or slots there are.
pub fn count(alloc: Global, program: &Program, words: &str) -> Result<String, Trouble> {
    let (verb, word) = words.split_once(' ').unwrap_or((words, ""));
    let name = named(alloc, word)?;
    let count = match verb {
        "up" | "cone" => names_of(alloc, program, verb, &name)?.len(),
        "slots" => slots_of(alloc, program, &name)?.len(),
        _ => return Err(Trouble::Unclear),
    };
    Ok(format!(in alloc; "{count}")?)
}
