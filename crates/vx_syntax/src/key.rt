//! The keys of declarations, and their texts.

ghost use Rattle.std.specs.Prelude.{◌≡◌, ◌≤◌, ◌++◌, [], length, map, codes, IfOk, OnOk};
ghost use Rattle.vx_syntax.specs.Declarations.{method_key};
ghost use Rattle.vx_syntax.specs.Expressions.{max_arguments};
ghost use Rattle.vx_syntax.specs.Keys.{key_of};
ghost use Rattle.vx_syntax.specs.Print.{key_text, field_key_text, selector_text, specialiser_text, joined};

use crate::decl::Decl;
use sqlite_items::Items;
use std::alloc::{AllocError, Global};
use vx_names::{DeclKey, FieldKey, MethodKey, Name, Selector};

impl Decl {
    /// What the declaration is found by.
    pub fn key(&self, alloc: Global) -> Result<DeclKey, AllocError>
        ensures { IfOk result (λ key. key ≡ key_of self.now) }
    {
        match self {
            Decl::Object { name, .. } => Ok(DeclKey::Object(name.copy(alloc)?)),
            Decl::Predicate { name, .. } => Ok(DeclKey::Predicate(name.copy(alloc)?)),
            Decl::Field { key, .. } => Ok(DeclKey::Field(key.copy(alloc)?)),
            Decl::Method { key, .. } => Ok(DeclKey::Method(key.copy(alloc)?)),
        }
    }
}

/// The key of a method with these specialisers, one for each of its arguments.
pub fn method_key(name: Name, specialisers: Items<Name>) -> MethodKey
    requires { length specialisers ≤ max_arguments }
    ensures { result ≡ method_key name specialisers }
{
    let arity = specialisers.len() as u8;
    MethodKey {
        selector: Selector { name, arity },
        specialisers,
    }
}

/// The key as replies show it.
pub fn key_text(alloc: Global, key: &DeclKey) -> Result<Vec<u8>, AllocError>
    ensures { IfOk result (λ text. text.items ≡ key_text key.now) }
{
    let mut text = Vec::new(alloc);
    match key {
        DeclKey::Object(name) => text.extend_from_slice(name.bytes())?,
        DeclKey::Predicate(name) => text.extend_from_slice(name.bytes())?,
        DeclKey::Field(key) => append_field_key(&mut text, key)?,
        DeclKey::Method(key) => {
            text.extend_from_slice(key.selector.name.bytes())?;
            text.push(b'(')?;
            append_specialisers(&mut text, key.specialisers.as_slice())?;
            text.push(b')')?;
        }
    }
    Ok(text)
}

pub(crate) fn append_field_key(text: &mut Vec<u8>, key: &FieldKey) -> Result<(), AllocError>
    ensures { OnOk result (text.new.items ≡ text.old.items ++ field_key_text key.now) }
{
    text.extend_from_slice(b"field ")?;
    text.extend_from_slice(key.name.bytes())?;
    text.extend_from_slice(b"(@")?;
    text.extend_from_slice(key.specialiser.bytes())?;
    text.extend_from_slice(b")")
}

fn append_specialisers(text: &mut Vec<u8>, specialisers: &[Name]) -> Result<(), AllocError>
    ensures { OnOk result (text.new.items ≡ text.old.items ++ joined [] (codes ",") (map specialiser_text specialisers.now)) }
{
    let mut lead = b"".as_slice();
    for specialiser in specialisers {
        text.extend_from_slice(lead)?;
        text.push(b'@')?;
        text.extend_from_slice(specialiser.bytes())?;
        lead = b",".as_slice();
    }
    Ok(())
}

/// The selector as replies show it: its name, and behind a stroke how many arguments it takes.
pub fn selector_text(alloc: Global, selector: &Selector) -> Result<Vec<u8>, AllocError>
    ensures { IfOk result (λ text. text.items ≡ selector_text selector.now) }
{
    let mut text = Vec::from_slice(alloc, selector.name.bytes())?;
    text.push(b'/')?;
    let arity = selector.arity;
    text.extend_from_slice(format!(in alloc; "{arity}")?.as_bytes())?;
    Ok(text)
}
