use crate::ask::{named, string};
use crate::order::{or_none, push_word};
use crate::trouble::{Trouble, clear};
use crate::value::{heap, value};
use sqlite_items::Items;
use std::alloc::Global;
use vx_lookup::{Look, class_of, holds, lookup};
use vx_model::{Heap, Value};
use vx_names::{DeclKey, MethodKey, Name, Selector};
use vx_program::Program;
use vx_syntax::{Decl, key_text};

// The words of a question, and those of the objects that are there first.
fn parts(words: &str) -> (&str, &str) {
    words.split_once(" in ").unwrap_or((words, ""))
}

/// The class of a value.
pub fn class_text(alloc: Global, words: &str) -> Result<String, Trouble> {
    let (word, objects) = parts(words);
    let mut heap = heap(alloc, objects)?;
    let value = value(alloc, &mut heap, word)?;
    let class = string(alloc, class_of(&heap, &value))?;
    or_none(alloc, class)
}

/// As which objects and predicates of the program a value counts.
pub fn kinds_text(alloc: Global, program: &Program, words: &str) -> Result<String, Trouble> {
    let (word, objects) = parts(words);
    let mut heap = heap(alloc, objects)?;
    let value = value(alloc, &mut heap, word)?;
    let mut kinds = String::new(alloc);
    for decl in program.declarations() {
        match decl {
            Decl::Object { name, .. } => push_kind(&mut kinds, program, &heap, &value, name)?,
            Decl::Predicate { name, .. } => push_kind(&mut kinds, program, &heap, &value, name)?,
            _ => {}
        }
    }
    or_none(alloc, kinds)
}

// Puts the name behind the others, if the value counts so.
fn push_kind(
    kinds: &mut String,
    program: &Program,
    heap: &Heap,
    value: &Value,
    name: &Name,
) -> Result<(), Trouble> {
    if holds(program, heap, value, name) {
        push_word(kinds, clear(str::from_utf8(name.bytes()))?)?;
    }
    Ok(())
}

/// Whether a value counts as an object or predicate.
pub fn holds_text(alloc: Global, program: &Program, words: &str) -> Result<String, Trouble> {
    let (words, objects) = parts(words);
    let (word, x) = words.split_once(' ').unwrap_or((words, ""));
    let mut heap = heap(alloc, objects)?;
    let value = value(alloc, &mut heap, word)?;
    let x = named(alloc, x)?;
    if holds(program, &heap, &value, &x) {
        return Ok("true".to_string(alloc)?);
    }
    Ok("false".to_string(alloc)?)
}

/// What a message finds that is written as its name and its arguments.
pub fn found(alloc: Global, program: &Program, words: &str) -> Result<String, Trouble> {
    let (words, objects) = parts(words);
    let (words, below) = words.split_once(" below ").unwrap_or((words, ""));
    let (message, words) = words.split_once(' ').unwrap_or((words, ""));
    let mut heap = heap(alloc, objects)?;
    let mut arguments = Vec::new(alloc);
    for word in words.split_whitespace() {
        arguments.push(value(alloc, &mut heap, word)?)?;
    }
    let selector = Selector {
        name: named(alloc, message)?,
        arity: clear(u8::try_from(arguments.len()))?,
    };
    let from = method_key(alloc, &selector, below)?;
    let sender = if below.is_empty() { None } else { Some(&from) };
    let look = lookup(
        alloc,
        program,
        &heap,
        &selector,
        arguments.as_slice(),
        sender,
    )?;
    look_text(alloc, look)
}

// The key of the method with these specialisers, with blanks between them.
fn method_key(
    alloc: Global,
    selector: &Selector,
    specialisers: &str,
) -> Result<MethodKey, Trouble> {
    let mut names = Items::new(alloc);
    for word in specialisers.split_whitespace() {
        names.push(named(alloc, word)?)?;
    }
    let selector = selector.copy(alloc)?;
    Ok(MethodKey {
        selector,
        specialisers: names,
    })
}

// The key of the one method that was found, `none` or `many`.
fn look_text(alloc: Global, look: Look) -> Result<String, Trouble> {
    match look {
        Look::One(key) => {
            let text = key_text(alloc, &DeclKey::Method(key))?;
            string(alloc, text.as_slice())
        }
        Look::None => Ok("none".to_string(alloc)?),
        Look::Many => Ok("many".to_string(alloc)?),
    }
}
