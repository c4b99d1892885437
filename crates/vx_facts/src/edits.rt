//! The facts that an edit touches.
ghost use Rattle.std.specs.Prelude.{◌≡◌, ◌↔◌, Ok, IfOk, OnOk};
ghost use Rattle.std.specs.List.Sorted.{IsStrictlySortedBy};
ghost use Rattle.vx_lists.specs.Members.{IsIn};
ghost use Rattle.vx_program.specs.Program.{IsProgram, find};
ghost use Rattle.vx_program.specs.Apply.{apply};
ghost use Rattle.vx_node.specs.declared.node.Fact.{Fact};
ghost use Rattle.vx_answers.specs.Touched.{AreTouched};
ghost use Rattle.vx_facts.specs.Differences.{fact_cmp, changed_key, ArePutBehind};

use crate::differing::push_differing;
use std::alloc::{AllocError, Global};
use vx_names::DeclKey;
use vx_node::Fact;
use vx_program::{Change, Edit, Program};

/// The facts that the program before the edit and the one after it answer differently, in the order of nodes, each once. Only the declarations under the
/// keys of the edit's changes are looked at: each is found in the logarithm of how many there are, and compared with the other one of its key.
pub fn touched(
    alloc: Global,
    before: &Program,
    edit: &Edit,
    after: &Program,
) -> Result<Vec<Fact>, AllocError>
    requires { apply before.now edit.now.changes ≡ Ok after.now }
    ensures touched { IfOk result (λ facts. AreTouched before.now after.now facts.items) }
    ensures order { IfOk result (λ facts. IsStrictlySortedBy fact_cmp facts.items) }
{
    is_program(before);
    is_program(after);
    let mut facts = Vec::new(alloc);
    for change in edit.changes.as_slice() {
        push_changed(alloc, &mut facts, before, change, after)?;
    }
    put_in_order(&mut facts);
    Ok(facts)
}

// That a program is well-formed, for the proofs of callers.
fn is_program(program: &Program)
    ensures { IsProgram program.now }
{
    program.declarations();
}

// Puts the facts that tell the declarations under the key of the change apart behind those that are there.
fn push_changed(
    alloc: Global,
    facts: &mut Vec<Fact>,
    before: &Program,
    change: &Change,
    after: &Program,
) -> Result<(), AllocError>
    requires before { IsProgram before.now }
    requires after { IsProgram after.now }
    ensures { OnOk result (ArePutBehind (find before.now (changed_key change.now)) (find after.now (changed_key change.now)) facts.old.items facts.new.items) }
{
    let key = changed_key(alloc, change)?;
    push_differing(alloc, facts, before.find(&key), after.find(&key))
}

// The key under which the change changes something.
fn changed_key(alloc: Global, change: &Change) -> Result<DeclKey, AllocError>
    ensures { IfOk result (λ key. key ≡ changed_key change.now) }
{
    match change {
        Change::Add(decl) => decl.key(alloc),
        Change::Put(decl) => decl.key(alloc),
        Change::Drop(key) => key.copy(alloc),
    }
}

fn put_in_order(facts: &mut Vec<Fact>)
    ensures same { (one : Fact) → IsIn one facts.old.items ↔ IsIn one facts.new.items }
    ensures order { IsStrictlySortedBy fact_cmp facts.new.items }
{
    facts.sort_unstable();
    facts.dedup();
}
