//! Names and statements, but for the evaluation of expressions.
ghost use Rattle.std.specs.Prelude.{◌≡◌, List, IfOk};
ghost use Rattle.vx_syntax.specs.declared.expr.Stmt.{Stmt};
ghost use Rattle.vx_model.specs.declared.value.Value.{Value};
ghost use Rattle.vx_model.specs.Meaning.{Allowance, State, Done, assigned, bound, caught, named, statements};
ghost use Rattle.vx_model.specs.Values.{nil};
ghost use Rattle.vx_meaning.specs.States.{done, follow, frame_of, part_of, settled, state_of};
ghost use Rattle.vx_meaning.specs.declared.memory.Memory.{Memory};

use crate::memory::{Activation, Flow, Memory, Outcome};
use crate::scope::Scope;
use std::alloc::{AllocError, Global};
use vx_model::{Local, RunError, Value, is_meant, nil, object};
use vx_names::Name;
use vx_program::Program;
use vx_syntax::{Expr, Stmt};

/// What a name stands for: a local's value, or an object.
#[inline(never)]
pub fn name_value(
    alloc: Global,
    program: &Program,
    name: &Name,
    scope: &Scope,
    memory: &Memory,
) -> Result<Outcome, AllocError>
    ensures { IfOk result (λ outcome. named program.now name.now (bound name.now scope.now) (state_of memory.now) ≡ done outcome memory.now) }
{
    match scope.bound(name) {
        Some(Local::Plain(value)) => Ok(Outcome::Gives(value.copy(alloc)?)),
        Some(Local::Cell(place)) => match memory.heap.cells.get(*place as usize) {
            Some(value) => Ok(Outcome::Gives(value.copy(alloc)?)),
            None => Ok(Outcome::Stuck),
        },
        None => {
            if is_meant(program, name) {
                return Ok(Outcome::Gives(object(program, name.bytes())));
            }
            Ok(Outcome::Fails(RunError::UnknownObject(name.copy(alloc)?)))
        }
    }
}

/// The expression of a statement.
pub fn part_of(statement: &Stmt) -> &Expr
    ensures { result.now ≡ part_of statement.now }
{
    match statement {
        Stmt::Let(_, part) => part,
        Stmt::LetVar(_, part) => part,
        Stmt::Set(_, part) => part,
        Stmt::Do(part) => part,
        Stmt::Back(part) => part,
    }
}

/// What a statement does with the value of its expression, and what is in scope behind it.
#[inline(never)]
pub fn settle(
    alloc: Global,
    program: &Program,
    statement: &Stmt,
    value: Value,
    frame: &mut Activation,
    memory: &mut Memory,
) -> Result<Flow, AllocError>
    ensures done { IfOk result (λ flow. (rest : List Stmt) (lower : Allowance) →
        settled program.now statement.now rest lower (frame_of frame.old) value (state_of memory.old)
        ≡ follow flow memory.new (statements program.now rest lower (frame_of frame.new))) }
    ensures closures { memory.new.heap.closures ≡ memory.old.heap.closures }
{
    match statement {
        Stmt::Let(name, _) => {
            let name = name.copy(alloc)?;
            frame.scope.bring(name, Local::Plain(value))?;
            Ok(Flow::Next(nil(program)))
        }
        Stmt::LetVar(name, _) => {
            let name = name.copy(alloc)?;
            let place = memory.heap.cells.len() as u64;
            memory.heap.cells.push(value)?;
            frame.scope.bring(name, Local::Cell(place))?;
            Ok(Flow::Next(nil(program)))
        }
        Stmt::Set(name, _) => Ok(assign(program, name, value, &frame.scope, memory)),
        Stmt::Do(_) => Ok(Flow::Next(value)),
        Stmt::Back(_) => Ok(Flow::Ends(Outcome::Back(frame.home, value))),
    }
}

// A variable has another value; nothing else can be assigned.
fn assign(program: &Program, name: &Name, value: Value, scope: &Scope, memory: &mut Memory) -> Flow
    ensures done { (go : Value → State → Done) →
        assigned (bound name.now scope.now) value (state_of memory.old) (go (nil program.now)) ≡ follow result memory.new go }
    ensures closures { memory.new.heap.closures ≡ memory.old.heap.closures }
{
    let Some(Local::Cell(place)) = scope.bound(name) else {
        return Flow::Ends(Outcome::Stuck);
    };
    let place = *place as usize;
    match memory.heap.cells.get(place) {
        Some(_) => {
            memory.heap.cells.set(place, value);
            Flow::Next(nil(program))
        }
        None => Flow::Ends(Outcome::Stuck),
    }
}

/// A return ends at its home activation.
pub fn catch(own: u64, outcome: Outcome) -> Outcome
    ensures { (m : Memory) → done result m ≡ caught own (done outcome m) }
{
    match outcome {
        Outcome::Back(home, value) => {
            if home == own {
                Outcome::Gives(value)
            } else {
                Outcome::Back(home, value)
            }
        }
        other => other,
    }
}
