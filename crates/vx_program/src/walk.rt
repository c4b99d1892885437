//! Whether chains of parents lead back to a name.
ghost use Rattle.std.specs.Prelude.{◌≡◌, List, ◌++◌, true, map, IfOk, OnOk};
ghost use Rattle.vx_syntax.specs.declared.decl.Decl.{Decl};
ghost use Rattle.vx_syntax.specs.Expressions.{Bytes};
ghost use Rattle.vx_program.specs.Program.{IsProgram, Leads, leads};
ghost use Rattle.vx_program.specs.Apply.{leads_back};

use crate::lookup::parents_of;
use crate::search::position_of_name;
use std::alloc::{AllocError, Global};
use vx_names::Name;
use vx_syntax::Decl;

/// Whether a chain of parents leads from one of the parents to the name. The parents of a declaration are looked at once
/// at most, however many chains come to it.
pub fn leads_back(
    alloc: Global,
    decls: &[Decl],
    parents: &[Name],
    x: &Name,
) -> Result<bool, AllocError>
    requires { IsProgram decls.now }
    ensures { IfOk result (λ found. found ≡ leads_back decls.now parents.now x.now) }
{
    let mut seen = vec![in alloc; false; decls.len()]?;
    let mut left = Vec::new(alloc);
    append(&mut left, parents)?;
    while let Some(name) = left.pop() {
        if name.bytes() == x.bytes() {
            return Ok(true);
        }
        if let Some(place) = position_of_name(decls, name.bytes()) {
            if !seen[place] {
                seen[place] = true;
                append(&mut left, parents_of(&decls[place]))?;
            }
        }
    }
    Ok(false)
}

/// Faults ask whether chains of parents are found, and a program is well formed by chains that there are: the two are one.
#[tactic(auto, using(crate::proofs::Chains::leads_finds, crate::proofs::Chains::leads_is))]
pub fn chains_are_found()
    ensures found { (program : List Decl) (x y : Bytes) → Leads program x y → leads program x y ≡ true }
    ensures are { (program : List Decl) (x y : Bytes) → leads program x y ≡ true → Leads program x y }
{}

// Puts the names on the list of those that are left.
fn append<'a>(left: &mut Vec<&'a Name>, names: &'a [Name]) -> Result<(), AllocError>
    ensures { OnOk result (map (λ x. x.now) left.new.items ≡ map (λ x. x.now) left.old.items ++ names.now) }
{
    for name in names {
        left.push(name)?;
    }
    Ok(())
}
