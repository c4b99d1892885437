//! The keys that declarations occupy.
ghost use Rattle.std.specs.Prelude.{◌≡◌, ◌++◌, ◌∷◌, [], if◌then◌else◌, codes, true, IfOk};
ghost use Rattle.std.specs.Ordering.{is_eq};
ghost use Rattle.std.specs.Str.{bytes_eq};
ghost use Rattle.vx_names.specs.Key.{selector_cmp};
ghost use Rattle.vx_names.specs.declared.key.DeclKey.TheVariants as k;
ghost use Rattle.vx_syntax.specs.declared.decl.Decl.TheVariants as d;
ghost use Rattle.vx_syntax.specs.Written.{IsDeclWritten, IsKeyWritten};
ghost use Rattle.vx_program.specs.Prelude.{same_key};
ghost use Rattle.vx_program.specs.Program.{shared, occupied, occupies, getter, setter};
ghost use Rattle.vx_program.specs.Lookups.{are_two};

use crate::key::compare;
use sqlite_items::Items;
use std::alloc::{AllocError, Global};
use std::cmp::Ordering;
use vx_names::{DeclKey, FieldKey, MethodKey, Name, Selector, name_of};
use vx_syntax::{Decl, Start};

/// The key by which objects and predicates share their names.
pub fn shared(alloc: Global, key: &DeclKey) -> Result<DeclKey, AllocError>
    ensures { IfOk result (λ copy. copy ≡ shared key.now) }
{
    match key {
        DeclKey::Predicate(name) => Ok(DeclKey::Object(name.copy(alloc)?)),
        _ => key.copy(alloc),
    }
}

/// The keys that a declaration occupies, in the order in which they are tried.
pub fn occupied(alloc: Global, decl: &Decl) -> Result<Items<DeclKey>, AllocError>
    requires { IsDeclWritten decl.now }
    ensures { IfOk result (λ keys. keys ≡ occupied decl.now) }
{
    match decl {
        Decl::Field {
            key,
            changeable,
            ..
        } => of_field(alloc, key, *changeable),
        _ => {
            let key = decl.key(alloc)?;
            let mut keys = Items::new(alloc);
            keys.push(shared(alloc, &key)?)?;
            Ok(keys)
        }
    }
}

fn of_field(alloc: Global, key: &FieldKey, changeable: bool) -> Result<Items<DeclKey>, AllocError>
    requires { IsKeyWritten (k.Field key.now) }
    ensures { IfOk result (λ keys. keys ≡ k.Field key.now ∷ k.Method (getter key.now) ∷ (if changeable then k.Method (setter key.now) ∷ [] else [])) }
{
    let mut keys = Items::new(alloc);
    keys.push(DeclKey::Field(key.copy(alloc)?))?;
    keys.push(DeclKey::Method(getter(alloc, key)?))?;
    if changeable {
        keys.push(DeclKey::Method(setter(alloc, key)?))?;
    }
    Ok(keys)
}

/// The method that reads the field.
pub fn getter(alloc: Global, key: &FieldKey) -> Result<MethodKey, AllocError>
    ensures { IfOk result (λ method. method ≡ getter key.now) }
{
    let mut specialisers = Items::new(alloc);
    specialisers.push(key.specialiser.copy(alloc)?)?;
    let name = key.name.copy(alloc)?;
    Ok(MethodKey {
        selector: Selector { name, arity: 1 },
        specialisers,
    })
}

/// The method that sets the field.
pub fn setter(alloc: Global, key: &FieldKey) -> Result<MethodKey, AllocError>
    requires { IsKeyWritten (k.Field key.now) }
    ensures { IfOk result (λ method. method ≡ setter key.now) }
{
    let mut bytes = Vec::from_slice(alloc, b"set_")?;
    bytes.extend_from_slice(key.name.bytes())?;
    let name = name_of(alloc, bytes.as_slice())?;
    setter_of(alloc, key, Selector { name, arity: 2 })
}

/// The method that sets the field, which has this selector.
pub fn setter_of(alloc: Global, key: &FieldKey, selector: Selector) -> Result<MethodKey, AllocError>
    requires { is_eq (selector_cmp (setter key.now).selector selector) ≡ true }
    ensures { IfOk result (λ method. method ≡ setter key.now) }
{
    let mut specialisers = Items::new(alloc);
    specialisers.push(key.specialiser.copy(alloc)?)?;
    specialisers.push(name_of(alloc, b"any")?)?;
    Ok(MethodKey {
        selector,
        specialisers,
    })
}

/// Whether the declaration occupies the key.
pub fn occupies(decl: &Decl, key: &DeclKey) -> bool
    ensures { result ≡ occupies decl.now key.now }
{
    match decl {
        Decl::Predicate { name, .. } => holds_name(name, key),
        Decl::Field {
            key: own,
            start,
            changeable,
        } => holds_field(own, start, *changeable, key),
        _ => compare(decl, key) == Ordering::Equal,
    }
}

fn holds_name(name: &Name, key: &DeclKey) -> bool
    ensures { result ≡ same_key (k.Object name.now) key.now }
{
    match key {
        DeclKey::Object(other) => name.cmp(other) == Ordering::Equal,
        _ => false,
    }
}

#[tactic(auto, using(crate::proofs::FieldKeys::field_alone, crate::proofs::FieldKeys::field_methods))]
fn holds_field(own: &FieldKey, start: &Start, changeable: bool, key: &DeclKey) -> bool
    ensures { result ≡ occupies (d.Field own.now start.now changeable) key.now }
{
    match key {
        DeclKey::Field(other) => own.cmp(other) == Ordering::Equal,
        DeclKey::Method(other) => is_getter(own, other) || changeable && is_setter(own, other),
        _ => false,
    }
}

fn is_getter(own: &FieldKey, key: &MethodKey) -> bool
    ensures { result ≡ same_key (k.Method (getter own.now)) (k.Method key.now) }
{
    own.name
        .cmp(&key.selector.name)
        .then(1u8.cmp(&key.selector.arity))
        .then(std::slice::from_ref(&own.specialiser).cmp(key.specialisers.as_slice()))
        == Ordering::Equal
}

#[tactic(auto, using(crate::proofs::FieldKeys::setter_is))]
fn is_setter(own: &FieldKey, key: &MethodKey) -> bool
    ensures { result ≡ same_key (k.Method (setter own.now)) (k.Method key.now) }
{
    let name_is = is_setter_name(own.name.bytes(), key.selector.name.bytes());
    let specialisers_are = are_two(&own.specialiser, b"any", key.specialisers.as_slice());
    (key.selector.arity == 2) & (name_is & specialisers_are)
}

/// Whether the method that reads the field has the selector.
pub fn is_getter_of(own: &FieldKey, selector: &Selector) -> bool
    ensures { result ≡ is_eq (selector_cmp (getter own.now).selector selector.now) }
{
    own.name.cmp(&selector.name).then(1u8.cmp(&selector.arity)) == Ordering::Equal
}

/// Whether the method that sets the field has the selector.
pub fn is_setter_of(own: &FieldKey, selector: &Selector) -> bool
    ensures { result ≡ is_eq (selector_cmp (setter own.now).selector selector.now) }
{
    is_setter_name(own.name.bytes(), selector.name.bytes()) & (selector.arity == 2)
}

// Whether the name is that of the method that sets a field of this name.
fn is_setter_name(own: &[u8], name: &[u8]) -> bool
    ensures { result ≡ bytes_eq (codes "set_" ++ own.now) name.now }
{
    name.len() == 4 + own.len() && &name[..4] == b"set_".as_slice() && &name[4..] == own
}

fn are_two(x: &Name, y: &[u8], names: &[Name]) -> bool
    ensures { result ≡ are_two x.now y.now names.now }
{
    match names {
        [a, b] => x.bytes() == a.bytes() && y == b.bytes(),
        _ => false,
    }
}
