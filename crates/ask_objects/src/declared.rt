use crate::ask::string;
use crate::trouble::Trouble;
use std::alloc::Global;
use vx_program::{Change, Edit};
use vx_reader::{Command, read_block};
use vx_syntax::{Decl, height, key_text, locals, print_decl, size};

/// What the verb asks of the declaration that the text declares.
pub fn told(alloc: Global, verb: &str, text: &str) -> Result<String, Trouble> {
    let block = format!(in alloc; "add {text}")?;
    match read_block(alloc, block.as_str().as_bytes())? {
        Command::Edit(edit) => of_added(alloc, verb, &edit),
        other => {
            drop(other);
            Err(Trouble::Unclear)
        }
    }
}

// The same of the one declaration that an edit adds.
fn of_added(alloc: Global, verb: &str, edit: &Edit) -> Result<String, Trouble> {
    match edit.changes.as_slice() {
        [Change::Add(decl)] => of_declaration(alloc, verb, decl),
        _ => Err(Trouble::Unclear),
    }
}

fn of_declaration(alloc: Global, verb: &str, decl: &Decl) -> Result<String, Trouble> {
    match verb {
        "text" => {
            let text = print_decl(alloc, decl)?;
            string(alloc, text.as_slice())
        }
        "key" => {
            let key = decl.key(alloc)?;
            let text = key_text(alloc, &key)?;
            drop(key);
            string(alloc, text.as_slice())
        }
        _ => counts(alloc, decl),
    }
}

// How large a body is, how many locals there are, and how deep a body or test is.
fn counts(alloc: Global, decl: &Decl) -> Result<String, Trouble> {
    let size = match decl {
        Decl::Method { body, .. } => size(body),
        _ => 0,
    };
    let (locals, height) = (locals(decl), height(decl));
    Ok(format!(in alloc; "size {size} locals {locals} height {height}")?)
}
