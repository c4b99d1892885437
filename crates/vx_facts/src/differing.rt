//! The facts that tell two declarations of one key apart.
ghost use Rattle.std.specs.Prelude.{◌≡◌, ◌++◌, Some, IfOk, OnOk};
ghost use Rattle.std.specs.Option.{option_copied};
ghost use Rattle.vx_names.specs.declared.key.DeclKey.TheVariants as k;
ghost use Rattle.vx_syntax.specs.Written.{IsKeyWritten};
ghost use Rattle.vx_program.specs.Program.{setter};
ghost use Rattle.vx_facts.specs.Differences as spec;

use crate::objects::is_one;
use crate::same::same_decl;
use std::alloc::{AllocError, Global};
use vx_names::{FieldKey, MethodKey, Name, Selector, name_of};
use vx_node::Fact;
use vx_program::parents_of;
use vx_syntax::Decl;

/// Puts the facts that tell the two declarations apart, which have one key, behind those that are there.
pub fn push_differing(
    alloc: Global,
    facts: &mut Vec<Fact>,
    before: Option<&Decl>,
    after: Option<&Decl>,
) -> Result<(), AllocError>
    requires key { spec.HaveOneKey (option_copied before) (option_copied after) }
    requires before { spec.IsFieldWritten (option_copied before) }
    requires after { spec.IsFieldWritten (option_copied after) }
    ensures { OnOk result (spec.ArePutBehind (option_copied before.entry) (option_copied after.entry) facts.old.items facts.new.items) }
{
    match (before, after) {
        (None, None) => Ok(()),
        (Some(decl), None) => push_alone(alloc, facts, decl, None),
        (None, Some(decl)) => push_alone(alloc, facts, decl, None),
        (Some(old), Some(new)) => {
            if same_decl(old, new) {
                return Ok(());
            }
            push_alone(alloc, facts, old, Some(new))?;
            push_alone(alloc, facts, new, Some(old))
        }
    }
}

// Puts the facts on which the declaration says what the other one doesn't say behind those that are there.
fn push_alone(
    alloc: Global,
    facts: &mut Vec<Fact>,
    decl: &Decl,
    other: Option<&Decl>,
) -> Result<(), AllocError>
    requires { spec.IsFieldWritten (Some decl.now) }
    ensures { OnOk result (facts.new.items ≡ facts.old.items ++ spec.said_alone decl.now (option_copied other.entry)) }
{
    match decl {
        Decl::Object { name, parents } => push_of_object(
            alloc,
            facts,
            name,
            parents.as_slice(),
            other,
        ),
        Decl::Predicate { name, parents, .. } => push_of_object(
            alloc,
            facts,
            name,
            parents.as_slice(),
            other,
        ),
        Decl::Field {
            key,
            changeable,
            ..
        } => push_of_field(alloc, facts, key, *changeable, other),
        Decl::Method { key, .. } => push_of_method(alloc, facts, key, other),
    }
}

fn push_of_object(
    alloc: Global,
    facts: &mut Vec<Fact>,
    name: &Name,
    parents: &[Name],
    other: Option<&Decl>,
) -> Result<(), AllocError>
    ensures { OnOk result (facts.new.items ≡ facts.old.items ++ spec.object_alone name.now parents.now (option_copied other.entry)) }
{
    facts.push(Fact::Decl(name.copy(alloc)?))?;
    if other.is_none() {
        facts.push(Fact::There(name.copy(alloc)?))?;
    }
    push_children(alloc, facts, parents, parents_there(other))
}

fn push_children(
    alloc: Global,
    facts: &mut Vec<Fact>,
    parents: &[Name],
    others: &[Name],
) -> Result<(), AllocError>
    ensures { OnOk result (facts.new.items ≡ facts.old.items ++ spec.children_alone parents.now others.now) }
{
    for parent in parents {
        if !is_one(others, parent.bytes()) {
            facts.push(Fact::Children(parent.copy(alloc)?))?;
        }
    }
    Ok(())
}

fn push_of_field(
    alloc: Global,
    facts: &mut Vec<Fact>,
    key: &FieldKey,
    changeable: bool,
    other: Option<&Decl>,
) -> Result<(), AllocError>
    requires { IsKeyWritten (k.Field key.now) }
    ensures { OnOk result (facts.new.items ≡ facts.old.items ++ spec.field_alone key.now changeable (option_copied other.entry)) }
{
    facts.push(Fact::Fields(key.specialiser.copy(alloc)?))?;
    if other.is_none() {
        let name = key.name.copy(alloc)?;
        facts.push(Fact::Heads(Selector { name, arity: 1 }))?;
    }
    if changeable && !can_change(other) {
        facts.push(Fact::Heads(setter_of(alloc, key)?))?;
    }
    Ok(())
}

fn push_of_method(
    alloc: Global,
    facts: &mut Vec<Fact>,
    key: &MethodKey,
    other: Option<&Decl>,
) -> Result<(), AllocError>
    ensures { OnOk result (facts.new.items ≡ facts.old.items ++ spec.method_alone key.now (option_copied other.entry)) }
{
    facts.push(Fact::Body(key.copy(alloc)?))?;
    if other.is_none() {
        facts.push(Fact::Heads(key.selector.copy(alloc)?))?;
    }
    Ok(())
}

fn parents_there(decl: Option<&Decl>) -> &[Name]
    ensures { result.now ≡ spec.parents_there (option_copied decl.entry) }
{
    match decl {
        Some(decl) => parents_of(decl),
        None => &[],
    }
}

fn can_change(decl: Option<&Decl>) -> bool
    ensures { result ≡ spec.can_change (option_copied decl.entry) }
{
    match decl {
        Some(Decl::Field { changeable, .. }) => *changeable,
        _ => false,
    }
}

// What the message that sets the field is sent by.
fn setter_of(alloc: Global, key: &FieldKey) -> Result<Selector, AllocError>
    requires { IsKeyWritten (k.Field key.now) }
    ensures { IfOk result (λ selector. selector ≡ (setter key.now).selector) }
{
    let mut bytes = Vec::from_slice(alloc, b"set_")?;
    bytes.extend_from_slice(key.name.bytes())?;
    let name = name_of(alloc, bytes.as_slice())?;
    Ok(Selector { name, arity: 2 })
}
