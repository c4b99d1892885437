//! What is declared under a name, what has it as a parent, and which fields stand on it.
ghost use Rattle.std.specs.Prelude.{◌≡◌, IfOk};
ghost use Rattle.vx_program.specs.Program.{is_name_of};
ghost use Rattle.vx_answers.specs.Facts.{known_as, decl_of, children_of, fields_of};
ghost use Rattle.vx_compilation.specs.Compiled.{there};
ghost use Rattle.vx_facts.specs.Standing.{stands_as};

use sqlite_items::Items;
use std::alloc::{AllocError, Global};
use vx_names::{Name, copy_names};
use vx_node::{Known, Stands};
use vx_program::Program;
use vx_syntax::{Decl, Start};

/// What is declared under the name.
pub fn declared(alloc: Global, program: &Program, x: &Name) -> Result<Known, AllocError>
    ensures { IfOk result (λ known. known ≡ decl_of program.now x.now) }
{
    match program.place(x.bytes()) {
        Some(place) => known_as(alloc, &program.declarations()[place]),
        None => Ok(Known::Nothing),
    }
}

// What a declaration says of the name that it declares.
fn known_as(alloc: Global, decl: &Decl) -> Result<Known, AllocError>
    ensures { IfOk result (λ known. known ≡ known_as decl.now) }
{
    match decl {
        Decl::Object { parents, .. } => Ok(Known::Plain(copy_names(alloc, parents.as_slice())?)),
        Decl::Predicate { parents, test, .. } => {
            let parents = copy_names(alloc, parents.as_slice())?;
            Ok(Known::Predicate(parents, test.copy(alloc)?))
        }
        _ => Ok(Known::Nothing),
    }
}

/// Whether something is declared under the name, and whether it is a predicate.
pub fn there(program: &Program, x: &Name) -> Stands
    ensures { result ≡ there program.now x.now }
{
    match program.place(x.bytes()) {
        Some(place) => stands_as(&program.declarations()[place]),
        None => Stands::Nothing,
    }
}

fn stands_as(decl: &Decl) -> Stands
    ensures { result ≡ stands_as decl.now }
{
    match decl {
        Decl::Object { .. } => Stands::Plain,
        Decl::Predicate { .. } => Stands::Predicate,
        _ => Stands::Nothing,
    }
}

/// The objects and predicates that have the name among their parents.
pub fn children(
    alloc: Global,
    program: &Program,
    x: &Name,
) -> Result<Items<(Name, Stands)>, AllocError>
    ensures { IfOk result (λ children. children ≡ children_of program.now x.now) }
{
    children_among(alloc, program.declarations(), x.bytes())
}

fn children_among(
    alloc: Global,
    decls: &[Decl],
    x: &[u8],
) -> Result<Items<(Name, Stands)>, AllocError>
    ensures { IfOk result (λ children. children ≡ children_of decls.now x.now) }
{
    let mut children = Items::new(alloc);
    for decl in decls {
        match decl {
            Decl::Object { name, parents } => {
                if is_one(parents.as_slice(), x) {
                    children.push((name.copy(alloc)?, Stands::Plain))?;
                }
            }
            Decl::Predicate { name, parents, .. } => {
                if is_one(parents.as_slice(), x) {
                    children.push((name.copy(alloc)?, Stands::Predicate))?;
                }
            }
            _ => {}
        }
    }
    Ok(children)
}

/// Whether one of the names has these bytes.
pub fn is_one(names: &[Name], x: &[u8]) -> bool
    ensures { result ≡ is_name_of names.now x.now }
{
    for name in names {
        if name.bytes() == x {
            return true;
        }
    }
    false
}

/// The fields that are specialised on the name, each with what it has at first and whether it can be changed.
pub fn fields(
    alloc: Global,
    program: &Program,
    x: &Name,
) -> Result<Items<(Name, Start, bool)>, AllocError>
    ensures { IfOk result (λ fields. fields ≡ fields_of program.now x.now) }
{
    fields_among(alloc, program.declarations(), x.bytes())
}

fn fields_among(
    alloc: Global,
    decls: &[Decl],
    x: &[u8],
) -> Result<Items<(Name, Start, bool)>, AllocError>
    ensures { IfOk result (λ fields. fields ≡ fields_of decls.now x.now) }
{
    let mut fields = Items::new(alloc);
    for decl in decls {
        if let Decl::Field {
            key,
            start,
            changeable,
        } = decl
        {
            if key.specialiser.bytes() == x {
                fields.push((key.name.copy(alloc)?, start.copy(alloc)?, *changeable))?;
            }
        }
    }
    Ok(fields)
}
