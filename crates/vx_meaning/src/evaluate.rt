//! The evaluation of expressions, bodies and calls. A run nests as deep as its bodies and its allowance say, so what the
//! functions of the cycle call is not inlined into them where it would make their part of the stack larger.
ghost use Rattle.std.specs.Prelude.{◌≡◌, ◌≤◌, map, sum, IfOk};
ghost use Rattle.std.specs.Option.{option_copied};
ghost use Rattle.vx_syntax.specs.Counts.{expr_size, size, stmt_size};
ghost use Rattle.vx_model.specs.Kinds.{kind};
ghost use Rattle.vx_model.specs.Meaning.{allowance, call, constructing, entered, evaluated, expression, made, made_by, primitive, statements, turns};
ghost use Rattle.vx_model.specs.Values.{nil};
ghost use Rattle.vx_meaning.specs.States.{AreWithin, done, frame_of, largest, listed, state_of};

use crate::acts::act;
use crate::fields::{get_field, set_field};
use crate::frames::{close, entered, opened};
use crate::memory::{Act, Activation, Flow, Keys, Memory, Outcome};
use crate::objects::{keys_of, make};
use crate::steps::{catch, name_value, part_of, settle};
use sqlite_items::Items;
use std::alloc::{AllocError, Global};
use vx_lookup::{Look, lookup};
use vx_model::{Held, RunError, Value, copy_values, is_made, kind, nil};
use vx_names::{DeclKey, MethodKey, Name, Selector};
use vx_node::Kind;
use vx_program::Program;
use vx_syntax::{Body, Decl, Expr, Stmt};

/// Evaluates an expression with an allowance of so many calls.
#[cycle(evaluation)]
fn evaluate(
    alloc: Global,
    program: &Program,
    part: &Expr,
    g: u8,
    frame: &Activation,
    memory: &mut Memory,
) -> Result<Outcome, AllocError>
    requires size { expr_size part.now ≤ largest program.now }
    requires within { AreWithin (largest program.now) memory.old.heap.closures }
    ensures done { IfOk result (λ outcome.
        expression program.now part.now (allowance program.now g) (frame_of frame.now) (state_of memory.old) ≡ done outcome memory.new) }
    ensures within { IfOk result (λ outcome. AreWithin (largest program.now) memory.new.heap.closures) }
{
    match part {
        Expr::Int(n) => Ok(Outcome::Gives(Value::Int(*n))),
        Expr::Text(bytes) => {
            let bytes = Items::from_slice(alloc, bytes.as_slice())?;
            Ok(Outcome::Gives(Value::Text(bytes)))
        }
        Expr::Name(name) => name_value(alloc, program, name, &frame.scope, memory),
        Expr::Send(selector, arguments) => {
            let arguments = arguments.as_slice();
            send(alloc, program, selector, arguments, g, frame, memory)
        }
        Expr::New(class, fields) => {
            construct(alloc, program, class, fields.as_slice(), g, frame, memory)
        }
        Expr::Closure(formals, body) => close(alloc, formals.as_slice(), body, frame, memory),
        Expr::Resend => {
            let values = copy_values(alloc, frame.arguments.as_slice())?;
            let own = &frame.method;
            answer(alloc, program, &own.selector, values, Some(own), g, memory)
        }
    }
}

// The arguments from the left with the same allowance, and then the call.
#[cycle(evaluation)]
fn send(
    alloc: Global,
    program: &Program,
    selector: &Selector,
    arguments: &[Expr],
    g: u8,
    frame: &Activation,
    memory: &mut Memory,
) -> Result<Outcome, AllocError>
    requires size { sum (map expr_size arguments.now) ≤ largest program.now }
    requires within { AreWithin (largest program.now) memory.old.heap.closures }
    ensures done { IfOk result (λ outcome.
        listed program.now arguments.now (allowance program.now g) (frame_of frame.now) (state_of memory.old)
        (λ values. call (allowance program.now g) (record { selector = selector.now; arguments = values; below = None })) ≡ done outcome memory.new) }
    ensures within { IfOk result (λ outcome. AreWithin (largest program.now) memory.new.heap.closures) }
{
    let mut values = Items::new(alloc);
    for argument in arguments {
        match evaluate(alloc, program, argument, g, frame, memory)? {
            Outcome::Gives(value) => values.push(value)?,
            other => return Ok(other),
        }
    }
    answer(alloc, program, selector, values, None, g, memory)
}

// A constructor tries each name before it evaluates a part.
#[cycle(evaluation)]
#[inline(never)]
fn construct(
    alloc: Global,
    program: &Program,
    class: &Name,
    fields: &[(Name, Expr)],
    g: u8,
    frame: &Activation,
    memory: &mut Memory,
) -> Result<Outcome, AllocError>
    requires size { sum (map (λ field. expr_size field.1) fields.now) ≤ largest program.now }
    requires within { AreWithin (largest program.now) memory.old.heap.closures }
    ensures done { IfOk result (λ outcome.
        constructing program.now class.now (map (λ field. field.0) fields.now) (λ keys. listed program.now (map (λ field. field.1) fields.now)
        (allowance program.now g) (frame_of frame.now) (state_of memory.old) (made program.now class.now keys)) (state_of memory.old)
        ≡ done outcome memory.new) }
    ensures within { IfOk result (λ outcome. AreWithin (largest program.now) memory.new.heap.closures) }
{
    if !is_made(program, class) {
        return Ok(Outcome::Fails(RunError::UnknownObject(class.copy(alloc)?)));
    }
    let keys = match keys_of(alloc, program, class, fields)? {
        Keys::All(keys) => keys,
        Keys::Missing(name) => return Ok(Outcome::Fails(RunError::NoField(name))),
    };
    let mut values = Items::new(alloc);
    for field in fields {
        match evaluate(alloc, program, &field.1, g, frame, memory)? {
            Outcome::Gives(value) => values.push(value)?,
            other => return Ok(other),
        }
    }
    make(
        alloc,
        program,
        class,
        keys.as_slice(),
        values.as_slice(),
        memory,
    )
}

/// Calls the method that a message finds, below another if there is one. A call takes one of the allowance, and is out where
/// there is none.
#[cycle(evaluation)]
#[inline(never)]
pub fn answer(
    alloc: Global,
    program: &Program,
    selector: &Selector,
    values: Items<Value>,
    below: Option<&MethodKey>,
    g: u8,
    memory: &mut Memory,
) -> Result<Outcome, AllocError>
    requires within { AreWithin (largest program.now) memory.old.heap.closures }
    ensures done { IfOk result (λ outcome. call (allowance program.now g)
        (record { selector = selector.now; arguments = values; below = option_copied below.entry }) (state_of memory.old) ≡ done outcome memory.new) }
    ensures within { IfOk result (λ outcome. AreWithin (largest program.now) memory.new.heap.closures) }
{
    if g == 0 {
        return Ok(Outcome::Out);
    }
    match lookup(
        alloc,
        program,
        &memory.heap,
        selector,
        values.as_slice(),
        below,
    )? {
        Look::One(key) => enter(alloc, program, key, values, g - 1, memory),
        Look::None => Ok(Outcome::Fails(RunError::NotUnderstood(selector.copy(alloc)?))),
        Look::Many => Ok(Outcome::Fails(RunError::Ambiguous(selector.copy(alloc)?))),
    }
}

// Does what the method of the key does; what it calls has the allowance of so many calls.
#[cycle(evaluation)]
fn enter(
    alloc: Global,
    program: &Program,
    key: MethodKey,
    values: Items<Value>,
    g: u8,
    memory: &mut Memory,
) -> Result<Outcome, AllocError>
    requires within { AreWithin (largest program.now) memory.old.heap.closures }
    ensures done { IfOk result (λ outcome.
        made_by program.now (allowance program.now g) key (kind program.now key) values (state_of memory.old) ≡ done outcome memory.new) }
    ensures within { IfOk result (λ outcome. AreWithin (largest program.now) memory.new.heap.closures) }
{
    match kind(alloc, program, &key)? {
        Kind::Source => {
            let own = DeclKey::Method(key.copy(alloc)?);
            match program.maker(&own) {
                Some(Decl::Method { formals, body, .. }) => {
                    let formals = formals.as_slice();
                    activate(alloc, program, key, formals, body, values, g, memory)
                }
                _ => Ok(Outcome::Stuck),
            }
        }
        Kind::Prim(number) => {
            let number = number as usize;
            operate(alloc, program, number, values.as_slice(), g, memory)
        }
        Kind::Get(field) => get_field(alloc, &field, values.as_slice(), memory),
        Kind::Set(field) => set_field(alloc, program, &field, values.as_slice(), memory),
    }
}

// Does what the primitive of the number does. The evaluation of a closure costs one more than its send.
#[cycle(evaluation)]
fn operate(
    alloc: Global,
    program: &Program,
    number: usize,
    values: &[Value],
    g: u8,
    memory: &mut Memory,
) -> Result<Outcome, AllocError>
    requires within { AreWithin (largest program.now) memory.old.heap.closures }
    ensures done { IfOk result (λ outcome.
        primitive program.now (allowance program.now g) number values.now (state_of memory.old) ≡ done outcome memory.new) }
    ensures within { IfOk result (λ outcome. AreWithin (largest program.now) memory.new.heap.closures) }
{
    match act(alloc, program, number, values, memory)? {
        Act::Ends(outcome) => Ok(outcome),
        Act::Evaluates(held, arguments) => {
            if g == 0 {
                return Ok(Outcome::Out);
            }
            open(alloc, program, &held, arguments.as_slice(), g - 1, memory)
        }
        Act::Repeats(held) => repeat(alloc, program, &held, g, memory),
    }
}

// Evaluates the body of a method in an activation of its own.
#[cycle(evaluation)]
fn activate(
    alloc: Global,
    program: &Program,
    key: MethodKey,
    formals: &[Option<Name>],
    body: &Body,
    values: Items<Value>,
    g: u8,
    memory: &mut Memory,
) -> Result<Outcome, AllocError>
    requires size { size body.now ≤ largest program.now }
    requires within { AreWithin (largest program.now) memory.old.heap.closures }
    ensures done { IfOk result (λ outcome.
        entered program.now (allowance program.now g) key formals.now body.now values (state_of memory.old) ≡ done outcome memory.new) }
    ensures within { IfOk result (λ outcome. AreWithin (largest program.now) memory.new.heap.closures) }
{
    if formals.len() != values.len() {
        return Ok(Outcome::Stuck);
    }
    let home = memory.next;
    if home == u64::MAX {
        return Err(AllocError);
    }
    memory.next = home + 1;
    let mut frame = entered(alloc, key, formals, values, home)?;
    let body = body.0.as_slice();
    let outcome = run(alloc, program, body, g, &mut frame, memory)?;
    Ok(catch(home, outcome))
}

// Evaluates the body of a closure in the activation in which it was made.
#[cycle(evaluation)]
fn open(
    alloc: Global,
    program: &Program,
    held: &Held,
    values: &[Value],
    g: u8,
    memory: &mut Memory,
) -> Result<Outcome, AllocError>
    requires size { size held.now.body ≤ largest program.now }
    requires within { AreWithin (largest program.now) memory.old.heap.closures }
    ensures done { IfOk result (λ outcome.
        evaluated program.now (allowance program.now g) held.now values.now (state_of memory.old) ≡ done outcome memory.new) }
    ensures within { IfOk result (λ outcome. AreWithin (largest program.now) memory.new.heap.closures) }
{
    if held.formals.len() != values.len() {
        return Ok(Outcome::Stuck);
    }
    let mut frame = opened(alloc, held, values)?;
    let body = held.body.0.as_slice();
    run(alloc, program, body, g, &mut frame, memory)
}

// Evaluates a closure again and again. Each turn costs one, and the next has one less.
#[cycle(evaluation)]
fn repeat(
    alloc: Global,
    program: &Program,
    held: &Held,
    g: u8,
    memory: &mut Memory,
) -> Result<Outcome, AllocError>
    requires size { size held.now.body ≤ largest program.now }
    requires within { AreWithin (largest program.now) memory.old.heap.closures }
    ensures done { IfOk result (λ outcome.
        turns program.now (allowance program.now g) held.now (state_of memory.old) ≡ done outcome memory.new) }
    ensures within { IfOk result (λ outcome. AreWithin (largest program.now) memory.new.heap.closures) }
{
    for left in (0..g).rev() {
        match open(alloc, program, held, &[], left, memory)? {
            Outcome::Gives(value) => drop(value),
            other => return Ok(other),
        }
    }
    Ok(Outcome::Out)
}

// The statements in order. The value is that of the last one where it is an expression, and else nil.
#[cycle(evaluation)]
fn run(
    alloc: Global,
    program: &Program,
    body: &[Stmt],
    g: u8,
    frame: &mut Activation,
    memory: &mut Memory,
) -> Result<Outcome, AllocError>
    requires size { sum (map stmt_size body.now) ≤ largest program.now }
    requires within { AreWithin (largest program.now) memory.old.heap.closures }
    ensures done { IfOk result (λ outcome.
        statements program.now body.now (allowance program.now g) (frame_of frame.old) (nil program.now) (state_of memory.old) ≡ done outcome memory.new) }
    ensures within { IfOk result (λ outcome. AreWithin (largest program.now) memory.new.heap.closures) }
{
    let mut last = nil(program);
    for statement in body {
        let value = match evaluate(alloc, program, part_of(statement), g, frame, memory)? {
            Outcome::Gives(value) => value,
            other => return Ok(other),
        };
        match settle(alloc, program, statement, value, frame, memory)? {
            Flow::Next(value) => last = value,
            Flow::Ends(outcome) => return Ok(outcome),
        }
    }
    Ok(Outcome::Gives(last))
}
