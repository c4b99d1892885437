//! Which methods a selector has, and the texts of methods.
ghost use Rattle.std.specs.Prelude.{◌≡◌, ◌≤◌, Some, length, insert, map, IfOk, OnOk};
ghost use Rattle.vx_model.specs.Kinds.{source, source_by};
ghost use Rattle.vx_answers.specs.Facts.{text_of};
ghost use Rattle.vx_compilation.specs.Compiled.{heads, inserted, sorted, with_kind};

use sqlite_items::Items;
use std::alloc::{AllocError, Global};
use std::cmp::Ordering;
use vx_model::kind;
use vx_names::{DeclKey, MethodKey, Name, Selector};
use vx_node::Kind;
use vx_program::Program;
use vx_syntax::{Body, Decl, copy_formals};

/// The methods of the selector in key order, each with what it is made by.
pub fn heads(
    alloc: Global,
    program: &Program,
    selector: &Selector,
) -> Result<Items<(MethodKey, Kind)>, AllocError>
    ensures { IfOk result (λ all. all ≡ heads program.now selector.now) }
{
    let keys = sorted(alloc, program.methods(selector)?)?;
    with_kinds(alloc, program, keys.as_slice())
}

fn with_kinds(
    alloc: Global,
    program: &Program,
    keys: &[MethodKey],
) -> Result<Items<(MethodKey, Kind)>, AllocError>
    ensures { IfOk result (λ all. all ≡ map (with_kind program.now) keys.now) }
{
    let mut heads = Items::new(alloc);
    for key in keys {
        heads.push((key.copy(alloc)?, kind(alloc, program, key)?))?;
    }
    Ok(heads)
}

// The keys in their order.
fn sorted(alloc: Global, keys: Items<MethodKey>) -> Result<Vec<MethodKey>, AllocError>
    ensures { IfOk result (λ all. all.items ≡ sorted keys) }
{
    let mut left = keys;
    let mut found = Vec::new(alloc);
    while let Some(key) = left.pop() {
        let place = place_for(found.as_slice(), &key);
        found.insert(place, key)?;
    }
    Ok(found)
}

fn place_for(keys: &[MethodKey], key: &MethodKey) -> usize
    ensures within { result ≤ length keys.now }
    ensures place { inserted key.now keys.now ≡ insert keys.now result key.now }
{
    for (place, own) in keys.iter().enumerate() {
        if own.cmp(key) != Ordering::Less {
            return place;
        }
    }
    keys.len()
}

/// The formals and the body of a method that is declared.
pub fn text(
    alloc: Global,
    program: &Program,
    key: &MethodKey,
) -> Result<Option<(Items<Option<Name>>, Body)>, AllocError>
    ensures { IfOk result (λ text. text ≡ text_of (source program.now key.now)) }
{
    let own = DeclKey::Method(key.copy(alloc)?);
    match program.maker(&own) {
        Some(decl) => text_in(alloc, decl),
        None => Ok(None),
    }
}

fn text_in(alloc: Global, decl: &Decl) -> Result<Option<(Items<Option<Name>>, Body)>, AllocError>
    ensures { IfOk result (λ text. text ≡ text_of (source_by (Some decl.now))) }
{
    match decl {
        Decl::Method { formals, body, .. } => {
            let formals = copy_formals(alloc, formals.as_slice())?;
            Ok(Some((formals, body.copy(alloc)?)))
        }
        _ => Ok(None),
    }
}
