//! Which edits stand in some text.
ghost use Rattle.std.specs.Prelude.{◌≡◌, ◌∷◌, [], true, List, length, IfOk};
ghost use Rattle.std.specs.Bool.{Decides};
ghost use Rattle.vx_names.specs.declared.key.DeclKey.TheVariants as y;
ghost use Rattle.vx_names.specs.Operator.{operator_of};
ghost use Rattle.vx_syntax.specs.declared.decl.Decl.TheVariants as d;
ghost use Rattle.vx_syntax.specs.Declarations.{named};
ghost use Rattle.vx_syntax.specs.Expressions.{with_formals};
ghost use Rattle.vx_syntax.specs.Written.{AreFormalsWritten, IsDeclWritten, IsKeyWritten, IsSent, IsStartWritten, IsTestWritten};
ghost use Rattle.vx_syntax.specs.declared.token.Token.{Token};
ghost use Rattle.vx_syntax.specs.Words.{AreMeant};
ghost use Rattle.vx_program.specs.declared.edit.Change.{Change};
ghost use Rattle.vx_program.specs.Apply.{IsChangeWritten, IsWritable};
ghost use Rattle.vx_program.specs.Changes.{IsEdit};

use crate::edit::{Change, Edit};
use crate::scope::Scope;
use crate::words::{are_names, are_words, is_literal, is_selector, is_text, is_word};
use crate::written::{is_body_written, is_field_name};
use std::alloc::{AllocError, Global};
use vx_names::{DeclKey, FieldKey, MethodKey, Name};
use vx_syntax::{
    Body, Decl, Start, Test, is_joining, what_is_read_can_be_written,
    written_declarations_are_read, written_keys_are_read,
};

/// Whether some block would mean the edit, if tokens might lie at any depth.
pub fn writable(alloc: Global, edit: &Edit) -> Result<bool, AllocError>
    ensures { IfOk result (λ yes. Decides yes (IsWritable edit.now.changes)) }
{
    let changes = edit.changes.as_slice();
    if changes.is_empty() {
        return Ok(false);
    }
    for change in changes {
        if !is_change_written(alloc, change)? {
            return Ok(false);
        }
    }
    Ok(true)
}

// Whether the change stands in some text.
fn is_change_written(alloc: Global, change: &Change) -> Result<bool, AllocError>
    ensures { IfOk result (λ yes. Decides yes (IsChangeWritten change.now)) }
{
    match change {
        Change::Add(decl) => is_decl_written(alloc, decl),
        Change::Put(decl) => is_decl_written(alloc, decl),
        Change::Drop(key) => Ok(is_key_written(key)),
    }
}

fn is_decl_written(alloc: Global, decl: &Decl) -> Result<bool, AllocError>
    ensures { IfOk result (λ yes. Decides yes (IsDeclWritten decl.now)) }
{
    match decl {
        Decl::Object { name, parents } => Ok(is_word(name) && are_names(parents.as_slice())),
        Decl::Predicate {
            name,
            parents,
            test,
        } => Ok(is_word(name) && are_names(parents.as_slice()) && is_test_written(test)),
        Decl::Field { key, start, .. } => Ok(is_field_key(key) && is_start_written(start)),
        Decl::Method { key, formals, body } => {
            is_method_written(alloc, key, formals.as_slice(), body)
        }
    }
}

fn is_key_written(key: &DeclKey) -> bool
    ensures { Decides result (IsKeyWritten key.now) }
{
    match key {
        DeclKey::Object(x) => is_word(x),
        DeclKey::Predicate(x) => is_word(x),
        DeclKey::Field(key) => is_field_key(key),
        DeclKey::Method(key) => is_method_key(key) && are_words(key.specialisers.as_slice()),
    }
}

fn is_field_key(key: &FieldKey) -> bool
    ensures { Decides result (IsKeyWritten (y.Field key.now)) }
{
    is_field_name(&key.name) && is_word(&key.specialiser)
}

fn is_method_key(key: &MethodKey) -> bool
    ensures { Decides result (IsSent (operator_of key.now.selector.name) key.now.selector.name (length key.now.specialisers)
        × (key.now.selector.arity ≡ length key.now.specialisers)) }
{
    is_selector(&key.selector, key.specialisers.len())
}

fn is_start_written(start: &Start) -> bool
    ensures { Decides result (IsStartWritten start.now) }
{
    match start {
        Start::Int(n) => is_literal(*n),
        Start::Text(bytes) => is_text(bytes.as_slice()),
        _ => true,
    }
}

fn is_test_written(test: &Test) -> bool
    ensures { Decides result (IsTestWritten test.now) }
{
    match test {
        Test::Compare(field, _, n) => {
            is_field_name(field) && !is_joining(field) && is_literal(*n)
        }
        Test::And(a, b) => is_test_written(a.get()) && is_test_written(b.get()),
        Test::Or(a, b) => is_test_written(a.get()) && is_test_written(b.get()),
        Test::Not(a) => is_test_written(a.get()),
    }
}

fn is_method_written(
    alloc: Global,
    key: &MethodKey,
    formals: &[Option<Name>],
    body: &Body,
) -> Result<bool, AllocError>
    ensures { IfOk result (λ yes. Decides yes (IsDeclWritten (d.Method key.now formals.now body.now))) }
{
    if !is_method_key(key) {
        return Ok(false);
    }
    let mut scope = Scope::new(alloc);
    if !are_formals_written(formals, key.specialisers.as_slice(), &mut scope)? {
        return Ok(false);
    }
    is_body_written(body.0.as_slice(), &mut scope)
}

// If so, the names of the formals are in scope after it, the last of them innermost.
fn are_formals_written<'a>(
    formals: &'a [Option<Name>],
    specialisers: &[Name],
    scope: &mut Scope<'a>,
) -> Result<bool, AllocError>
    ensures decides { IfOk result (λ yes. Decides yes (AreFormalsWritten scope.old formals.now specialisers.now)) }
    ensures scope { IfOk result (λ yes. yes ≡ true → scope.new ≡ with_formals scope.old (named formals.now)) }
{
    if formals.len() != specialisers.len() {
        return Ok(false);
    }
    for (place, formal) in formals.iter().enumerate() {
        if !is_formal_written(formal, &specialisers[place], scope)? {
            return Ok(false);
        }
    }
    Ok(true)
}

// Whether the formal and its specialiser may stand behind those that are in scope.
fn is_formal_written<'a>(
    formal: &'a Option<Name>,
    specialiser: &Name,
    scope: &mut Scope<'a>,
) -> Result<bool, AllocError>
    ensures decides { IfOk result (λ yes. Decides yes (AreFormalsWritten scope.old (formal.now ∷ []) (specialiser.now ∷ []))) }
    ensures scope { IfOk result (λ yes. yes ≡ true → scope.new ≡ with_formals scope.old (named (formal.now ∷ []))) }
{
    if !is_word(specialiser) {
        return Ok(false);
    }
    match formal {
        None => Ok(true),
        Some(x) => {
            if !is_word(x) || scope.is_bound(x) {
                return Ok(false);
            }
            scope.bring(x, false)?;
            Ok(true)
        }
    }
}

/// An edit that can be written is what some tokens mean that bytes spell; and what such tokens mean as an edit can be
/// written.
pub fn writable_edits_are_read()
    ensures read { (changes : List Change) → IsWritable changes → (ts : List Token) × IsEdit ts changes × AreMeant ts }
    ensures written { (changes : List Change) (ts : List Token) → IsEdit ts changes → AreMeant ts → IsWritable changes }
{
    written_declarations_are_read();
    written_keys_are_read();
    what_is_read_can_be_written();
}
