//! Changes of a list of declarations, one by one.
ghost use Rattle.std.specs.Prelude.{◌≡◌, ◌<◌, List, length, set, None, Ok, Err, IfOk, IfErr, OnOk, OnErr};
ghost use Rattle.vx_syntax.specs.declared.decl.Decl.{Decl};
ghost use Rattle.vx_program.specs.declared.edit.Change.{Change};
ghost use Rattle.vx_program.specs.declared.edit.Change.TheVariants.{Add, Put, Drop};
ghost use Rattle.vx_program.specs.declared.edit.EditFault.TheVariants.{OutOfMemory};
ghost use Rattle.vx_syntax.specs.Keys.{key_of};
ghost use Rattle.vx_program.specs.Program.{IsOrdered, IsProgram};
ghost use Rattle.vx_program.specs.Apply.{apply, changed, IsFaultOf, IsChangeWritten};
ghost use Rattle.vx_syntax.specs.Written.{IsDeclWritten};
ghost use Rattle.vx_program.specs.Lookups.{IsFound, IsFoundOrNot, IsPlaceOf, before_add, before_put, named_fault, before_drop};

use crate::counts::limit_fault;
use crate::edit::{Change, EditFault};
use crate::faults::{
    cycle_fault, exists_fault, gained, in_use_fault, missing_fault, reserved_fault, unknown_fault,
    wrong_kind_fault,
};
use crate::key::Sought;
use crate::lookup::mentioned;
use crate::occupied::occupied;
use crate::reserved::Reserved;
use crate::search::{find, place_of, position};
use std::alloc::{AllocError, Global};
use vx_names::DeclKey;
use vx_syntax::Decl;

/// An edit is refused for a fault that it has: want of memory, which changes answer too, is none of them.
#[tactic(auto, using(crate::proofs::Refusals::never_memory))]
pub fn refusals_are_faults()
    ensures { (program : List Decl) (changes : List Change) → apply program changes ≡ Err OutOfMemory → ⊥ }
{}

/// Makes the change. Where it is refused and where memory runs out, the declarations stay as they were.
pub fn change(
    alloc: Global,
    reserved: &Reserved,
    decls: &mut Vec<Decl>,
    change: &Change,
) -> Result<(), EditFault>
    requires { IsProgram decls.old.items × IsChangeWritten change.now }
    ensures ok { OnOk result (changed decls.old.items change.now ≡ Ok decls.new.items) }
    ensures fault { IfErr result (IsFaultOf (changed decls.old.items change.now)) }
    ensures unchanged { OnErr result (decls.new.items ≡ decls.old.items) }
{
    match change {
        Change::Add(decl) => add(alloc, reserved, decls, decl),
        Change::Put(decl) => put(alloc, reserved, decls, decl),
        Change::Drop(key) => remove(alloc, reserved, decls, key),
    }
}

fn add(
    alloc: Global,
    reserved: &Reserved,
    decls: &mut Vec<Decl>,
    decl: &Decl,
) -> Result<(), EditFault>
    requires { IsProgram decls.old.items × IsDeclWritten decl.now }
    ensures ok { OnOk result (changed decls.old.items (Add decl.now) ≡ Ok decls.new.items) }
    ensures fault { IfErr result (IsFaultOf (changed decls.old.items (Add decl.now))) }
    ensures unchanged { OnErr result (decls.new.items ≡ decls.old.items) }
{
    let all = decls.as_slice();
    if let Some(fault) = before_add(alloc, reserved, all, decl)? {
        return Err(fault);
    }
    let place = place_for(alloc, all, decl)?;
    if let Some(fault) = limit_fault(alloc, reserved, &all[..place], decl, &all[place..])? {
        return Err(fault);
    }
    decls.insert(place, decl.copy(alloc)?)?;
    Ok(())
}

// Where a declaration of the key would stand.
fn place_for(alloc: Global, decls: &[Decl], decl: &Decl) -> Result<usize, AllocError>
    requires { IsOrdered decls.now }
    ensures { IfOk result (IsPlaceOf decls.now (key_of decl.now)) }
{
    let key = decl.key(alloc)?;
    Ok(place_of(decls, &Sought::Key(&key)))
}

// The fault of an addition, besides those of limits.
fn before_add(
    alloc: Global,
    reserved: &Reserved,
    decls: &[Decl],
    decl: &Decl,
) -> Result<Option<EditFault>, AllocError>
    requires { IsProgram decls.now × IsDeclWritten decl.now }
    ensures { IfOk result (λ fault. fault ≡ before_add decls.now decl.now) }
{
    let key = decl.key(alloc)?;
    if let Some(fault) = reserved_fault(alloc, reserved, &key)? {
        return Ok(Some(fault));
    }
    let keys = occupied(alloc, decl)?;
    if let Some(fault) = exists_fault(alloc, reserved, decls, keys.as_slice())? {
        return Ok(Some(fault));
    }
    if let Some(fault) = unknown_fault(alloc, decls, mentioned(decl))? {
        return Ok(Some(fault));
    }
    wrong_kind_fault(alloc, reserved, decls, decl, mentioned(decl))
}

fn put(
    alloc: Global,
    reserved: &Reserved,
    decls: &mut Vec<Decl>,
    decl: &Decl,
) -> Result<(), EditFault>
    requires { IsProgram decls.old.items × IsDeclWritten decl.now }
    ensures ok { OnOk result (changed decls.old.items (Put decl.now) ≡ Ok decls.new.items) }
    ensures fault { IfErr result (IsFaultOf (changed decls.old.items (Put decl.now))) }
    ensures unchanged { OnErr result (decls.new.items ≡ decls.old.items) }
{
    if let Some(fault) = before_put(alloc, reserved, decls.as_slice(), decl)? {
        return Err(fault);
    }
    match position_of(alloc, decls.as_slice(), decl)? {
        Some(place) => put_at(alloc, reserved, decls, place, decl),
        None => Err(EditFault::Missing(decl.key(alloc)?)),
    }
}

fn put_at(
    alloc: Global,
    reserved: &Reserved,
    decls: &mut Vec<Decl>,
    place: usize,
    decl: &Decl,
) -> Result<(), EditFault>
    requires program { IsProgram decls.old.items }
    requires written { IsDeclWritten decl.now }
    requires found { IsFound decls.old.items (key_of decl.now) place }
    requires clean { before_put decls.old.items decl.now ≡ None }
    ensures ok { OnOk result (changed decls.old.items (Put decl.now) ≡ Ok decls.new.items) }
    ensures fault { IfErr result (IsFaultOf (changed decls.old.items (Put decl.now))) }
    ensures unchanged { OnErr result (decls.new.items ≡ decls.old.items) }
{
    let all = decls.as_slice();
    if let Some(fault) = limit_fault(alloc, reserved, &all[..place], decl, &all[place + 1..])? {
        return Err(fault);
    }
    replace(decls, place, decl.copy(alloc)?);
    Ok(())
}

fn replace(decls: &mut Vec<Decl>, place: usize, decl: Decl)
    requires { place < length decls.old.items }
    ensures { decls.new.items ≡ set decls.old.items place decl }
{
    decls[place] = decl;
}

// Where the declaration of the same key stands.
fn position_of(alloc: Global, decls: &[Decl], decl: &Decl) -> Result<Option<usize>, AllocError>
    requires { IsOrdered decls.now }
    ensures { IfOk result (IsFoundOrNot decls.now (key_of decl.now)) }
{
    let key = decl.key(alloc)?;
    Ok(position(decls, &key))
}

// The fault of a put, besides those of limits.
fn before_put(
    alloc: Global,
    reserved: &Reserved,
    decls: &[Decl],
    decl: &Decl,
) -> Result<Option<EditFault>, AllocError>
    requires { IsProgram decls.now × IsDeclWritten decl.now }
    ensures { IfOk result (λ fault. fault ≡ before_put decls.now decl.now) }
{
    let key = decl.key(alloc)?;
    if let Some(fault) = reserved_fault(alloc, reserved, &key)? {
        return Ok(Some(fault));
    }
    let keys = gained(alloc, find(decls, &key), decl)?;
    if let Some(fault) = exists_fault(alloc, reserved, decls, keys.as_slice())? {
        return Ok(Some(fault));
    }
    if let Some(fault) = missing_fault(alloc, decls, &key)? {
        return Ok(Some(fault));
    }
    named_fault(alloc, reserved, decls, decl)
}

// The fault of the names that a declaration brings by a put.
fn named_fault(
    alloc: Global,
    reserved: &Reserved,
    decls: &[Decl],
    decl: &Decl,
) -> Result<Option<EditFault>, AllocError>
    requires { IsProgram decls.now }
    ensures { IfOk result (λ fault. fault ≡ named_fault decls.now decl.now) }
{
    if let Some(fault) = unknown_fault(alloc, decls, mentioned(decl))? {
        return Ok(Some(fault));
    }
    if let Some(fault) = wrong_kind_fault(alloc, reserved, decls, decl, mentioned(decl))? {
        return Ok(Some(fault));
    }
    cycle_fault(alloc, decls, decl)
}

fn remove(
    alloc: Global,
    reserved: &Reserved,
    decls: &mut Vec<Decl>,
    key: &DeclKey,
) -> Result<(), EditFault>
    requires { IsProgram decls.old.items }
    ensures ok { OnOk result (changed decls.old.items (Drop key.now) ≡ Ok decls.new.items) }
    ensures fault { IfErr result (IsFaultOf (changed decls.old.items (Drop key.now))) }
    ensures unchanged { OnErr result (decls.new.items ≡ decls.old.items) }
{
    if let Some(fault) = before_drop(alloc, reserved, decls.as_slice(), key)? {
        return Err(fault);
    }
    let Some(place) = position(decls.as_slice(), key) else {
        return Err(EditFault::Missing(key.copy(alloc)?));
    };
    drop(decls.remove(place));
    Ok(())
}

// The fault of a drop.
fn before_drop(
    alloc: Global,
    reserved: &Reserved,
    decls: &[Decl],
    key: &DeclKey,
) -> Result<Option<EditFault>, AllocError>
    requires { IsProgram decls.now }
    ensures { IfOk result (λ fault. fault ≡ before_drop decls.now key.now) }
{
    if let Some(fault) = reserved_fault(alloc, reserved, key)? {
        return Ok(Some(fault));
    }
    if let Some(fault) = missing_fault(alloc, decls, key)? {
        return Ok(Some(fault));
    }
    in_use_fault(alloc, decls, key)
}
