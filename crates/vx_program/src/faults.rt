//! Why a change may not be made. Each function tries one kind of fault.
ghost use Rattle.std.specs.Prelude.{◌≡◌, Some, IfOk};
ghost use Rattle.std.specs.Option.{option_copied};
ghost use Rattle.vx_syntax.specs.Keys.{key_of};
ghost use Rattle.vx_syntax.specs.Counts.{capped};
ghost use Rattle.vx_syntax.specs.Written.{IsDeclWritten};
ghost use Rattle.vx_names.specs.declared.key.DeclKey.TheVariants as k;
ghost use Rattle.vx_names.specs.Key.{key_name};
ghost use Rattle.vx_program.specs.Prelude.{is_primitive, is_reserved};
ghost use Rattle.vx_program.specs.Program.{IsProgram, is_wrong, is_name_of};
ghost use Rattle.vx_program.specs.Apply.{reserved_fault, held, holder, exists_fault, gained, missing_fault, unknown_fault, wrong_kind_fault, cycle_fault, in_use_from, in_use_fault, over};

use crate::edit::{Counted, EditFault};
use crate::lookup::{is_name_of, is_sealed, mentioned, parents_of};
use crate::occupied::{occupied, occupies, shared};
use crate::reserved::Reserved;
use crate::search::{find, is_predicate_there, is_there, position_of_name};
use crate::walk::leads_back;
use sqlite_items::Items;
use std::alloc::{AllocError, Global};
use vx_names::{DeclKey, Name};
use vx_syntax::Decl;

/// The key is that of a prelude object or method or of a primitive.
pub fn reserved_fault(
    alloc: Global,
    reserved: &Reserved,
    key: &DeclKey,
) -> Result<Option<EditFault>, AllocError>
    ensures { IfOk result (λ fault. fault ≡ reserved_fault key.now) }
{
    let key = shared(alloc, key)?;
    if reserved.has(&key) {
        return Ok(Some(EditFault::Reserved(key)));
    }
    drop(key);
    Ok(None)
}

// The key by which a declaration holds one that it occupies.
fn held(alloc: Global, decl: &Decl, key: &DeclKey) -> Result<DeclKey, AllocError>
    ensures { IfOk result (λ own. own ≡ held decl.now key.now) }
{
    match decl {
        Decl::Predicate { name, .. } => Ok(DeclKey::Predicate(name.copy(alloc)?)),
        _ => key.copy(alloc),
    }
}

fn holder(
    alloc: Global,
    reserved: &Reserved,
    decls: &[Decl],
    key: &DeclKey,
) -> Result<Option<DeclKey>, AllocError>
    requires { IsProgram decls.now }
    ensures { IfOk result (λ own. own ≡ holder decls.now key.now) }
{
    match key {
        DeclKey::Object(name) => holder_of_name(alloc, decls, name),
        _ => first_holder(alloc, reserved, decls, key),
    }
}

// Only an object or a predicate holds the key of an object.
fn holder_of_name(alloc: Global, decls: &[Decl], name: &Name) -> Result<Option<DeclKey>, AllocError>
    requires { IsProgram decls.now }
    ensures { IfOk result (λ own. own ≡ holder decls.now (k.Object name.now)) }
{
    match position_of_name(decls, name.bytes()) {
        Some(place) => Ok(Some(decls[place].key(alloc)?)),
        None => Ok(None),
    }
}

fn first_holder(
    alloc: Global,
    reserved: &Reserved,
    decls: &[Decl],
    key: &DeclKey,
) -> Result<Option<DeclKey>, AllocError>
    ensures { IfOk result (λ own. own ≡ holder decls.now key.now) }
{
    for decl in decls {
        if occupies(decl, key) {
            return Ok(Some(held(alloc, decl, key)?));
        }
    }
    if reserved.is_primitive(key) {
        return Ok(Some(key.copy(alloc)?));
    }
    Ok(None)
}

/// The first of the keys that is occupied.
pub fn exists_fault(
    alloc: Global,
    reserved: &Reserved,
    decls: &[Decl],
    keys: &[DeclKey],
) -> Result<Option<EditFault>, AllocError>
    requires { IsProgram decls.now }
    ensures { IfOk result (λ fault. fault ≡ exists_fault decls.now keys.now) }
{
    for key in keys {
        if let Some(own) = holder(alloc, reserved, decls, key)? {
            return Ok(Some(EditFault::Exists(own)));
        }
    }
    Ok(None)
}

/// The keys that a declaration occupies and the one in whose place it comes does not.
pub fn gained(alloc: Global, old: Option<&Decl>, new: &Decl) -> Result<Items<DeclKey>, AllocError>
    requires { IsDeclWritten new.now }
    ensures { IfOk result (λ keys. keys ≡ gained (option_copied old.entry) new.now) }
{
    match old {
        Some(old) => not_occupied(alloc, old, new),
        None => Ok(Items::new(alloc)),
    }
}

fn not_occupied(alloc: Global, old: &Decl, new: &Decl) -> Result<Items<DeclKey>, AllocError>
    requires { IsDeclWritten new.now }
    ensures { IfOk result (λ keys. keys ≡ gained (Some old.now) new.now) }
{
    let all = occupied(alloc, new)?;
    let mut keys = Items::new(alloc);
    for key in all.as_slice() {
        if !occupies(old, key) {
            keys.push(key.copy(alloc)?)?;
        }
    }
    Ok(keys)
}

/// There is no declaration of the key.
pub fn missing_fault(
    alloc: Global,
    decls: &[Decl],
    key: &DeclKey,
) -> Result<Option<EditFault>, AllocError>
    requires { IsProgram decls.now }
    ensures { IfOk result (λ fault. fault ≡ missing_fault decls.now key.now) }
{
    match find(decls, key) {
        Some(_) => Ok(None),
        None => Ok(Some(EditFault::Missing(key.copy(alloc)?))),
    }
}

/// The first of the names that no object and no predicate has.
pub fn unknown_fault(
    alloc: Global,
    decls: &[Decl],
    names: &[Name],
) -> Result<Option<EditFault>, AllocError>
    requires { IsProgram decls.now }
    ensures { IfOk result (λ fault. fault ≡ unknown_fault decls.now names.now) }
{
    for name in names {
        if !is_there(decls, name) {
            return Ok(Some(EditFault::Unknown(name.copy(alloc)?)));
        }
    }
    Ok(None)
}

fn is_wrong(reserved: &Reserved, decls: &[Decl], decl: &Decl, x: &Name) -> bool
    requires { IsProgram decls.now }
    ensures { result ≡ is_wrong decls.now decl.now x.now }
{
    match decl {
        Decl::Object { .. } => is_predicate_there(decls, x) || is_sealed(x),
        Decl::Predicate { .. } => is_sealed(x),
        Decl::Field { .. } => reserved.has_object(x),
        Decl::Method { .. } => false,
    }
}

/// The first of the names that may not stand in the declaration.
pub fn wrong_kind_fault(
    alloc: Global,
    reserved: &Reserved,
    decls: &[Decl],
    decl: &Decl,
    names: &[Name],
) -> Result<Option<EditFault>, AllocError>
    requires { IsProgram decls.now }
    ensures { IfOk result (λ fault. fault ≡ wrong_kind_fault decls.now decl.now names.now) }
{
    for name in names {
        if is_wrong(reserved, decls, decl, name) {
            return Ok(Some(EditFault::WrongKind(name.copy(alloc)?)));
        }
    }
    Ok(None)
}

fn own_name(decl: &Decl) -> &Name
    ensures { result.now ≡ key_name (key_of decl.now) }
{
    match decl {
        Decl::Object { name, .. } => name,
        Decl::Predicate { name, .. } => name,
        Decl::Field { key, .. } => &key.name,
        Decl::Method { key, .. } => &key.selector.name,
    }
}

/// A chain of parents would lead from the declaration back to it.
pub fn cycle_fault(
    alloc: Global,
    decls: &[Decl],
    decl: &Decl,
) -> Result<Option<EditFault>, AllocError>
    requires { IsProgram decls.now }
    ensures { IfOk result (λ fault. fault ≡ cycle_fault decls.now decl.now) }
{
    let name = own_name(decl);
    if leads_back(alloc, decls, parents_of(decl), name)? {
        return Ok(Some(EditFault::Cycle(name.copy(alloc)?)));
    }
    Ok(None)
}

fn in_use_from(alloc: Global, decls: &[Decl], x: &Name) -> Result<Option<EditFault>, AllocError>
    ensures { IfOk result (λ fault. fault ≡ in_use_from decls.now x.now) }
{
    for decl in decls {
        if is_name_of(mentioned(decl), x) {
            let by = decl.key(alloc)?;
            return Ok(Some(EditFault::InUse(x.copy(alloc)?, by)));
        }
    }
    Ok(None)
}

/// The first declaration that names the object or predicate, outside of bodies and tests.
pub fn in_use_fault(
    alloc: Global,
    decls: &[Decl],
    key: &DeclKey,
) -> Result<Option<EditFault>, AllocError>
    ensures { IfOk result (λ fault. fault ≡ in_use_fault decls.now key.now) }
{
    match key {
        DeclKey::Object(name) => in_use_from(alloc, decls, name),
        DeclKey::Predicate(name) => in_use_from(alloc, decls, name),
        _ => Ok(None),
    }
}
