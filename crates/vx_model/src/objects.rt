//! The objects that a program begins with.
ghost use Rattle.std.specs.Prelude.{◌≡◌, ◌++◌, codes, map, IfOk};
ghost use Rattle.vx_program.specs.Program.{is_name_of};
ghost use Rattle.vx_model.specs.Order.{plain_names};
ghost use Rattle.vx_model.specs.Values.{object, nil, truth, start_value, fresh_slots, fresh, opening, is_meant, is_made, unnamed};

use crate::field::slots;
use crate::value::{Heap, Thing, Value};
use sqlite_items::Items;
use std::alloc::{AllocError, Global};
use vx_names::Name;
use vx_program::{Program, is_sealed, is_spelled};
use vx_syntax::{Decl, Start};

/// The plain object of the name.
pub fn object(program: &Program, x: &[u8]) -> Value
    ensures { result ≡ object program.now x.now }
{
    let mut place = 0u64;
    for decl in program.declarations() {
        if let Decl::Object { name, .. } = decl {
            if name.bytes() == x {
                return Value::Object(place);
            }
            place += 1;
        }
    }
    Value::Object(place)
}

/// The object `nil`.
pub fn nil(program: &Program) -> Value
    ensures { result ≡ nil program.now }
{
    object(program, b"nil")
}

/// The object `true` or `false`.
pub fn truth(program: &Program, is: bool) -> Value
    ensures { result ≡ truth program.now is }
{
    if is {
        object(program, b"true")
    } else {
        object(program, b"false")
    }
}

/// Whether a name in a body, that is bound to nothing, means an object.
pub fn is_meant(program: &Program, x: &Name) -> bool
    ensures { result ≡ is_meant program.now x.now }
{
    is_plain_name(program, x) && !is_unnamed(x.bytes())
}

/// Whether objects of the class are made by constructors.
pub fn is_made(program: &Program, class: &Name) -> bool
    ensures { result ≡ is_made program.now class.now }
{
    is_plain_name(program, class) && !is_sealed(class)
}

/// A fresh object of the class.
pub fn fresh(alloc: Global, program: &Program, class: &Name) -> Result<Thing, AllocError>
    ensures { IfOk result (λ thing. thing ≡ fresh program.now class.now) }
{
    let fields = slots(alloc, program, class)?;
    let mut slots = Items::new(alloc);
    for field in fields.as_slice() {
        let key = field.0.copy(alloc)?;
        slots.push((key, start_value(alloc, program, &field.1)?))?;
    }
    let class = class.copy(alloc)?;
    Ok(Thing { class, slots })
}

// What a field has at first.
fn start_value(alloc: Global, program: &Program, start: &Start) -> Result<Value, AllocError>
    ensures { IfOk result (λ value. value ≡ start_value program.now start.now) }
{
    match start {
        Start::Nil => Ok(nil(program)),
        Start::True => Ok(truth(program, true)),
        Start::False => Ok(truth(program, false)),
        Start::Int(n) => Ok(Value::Int(*n)),
        Start::Text(bytes) => Ok(Value::Text(Items::from_slice(alloc, bytes.as_slice())?)),
    }
}

/// The heap at first: each plain object, with its slots as they begin.
pub fn opening(alloc: Global, program: &Program) -> Result<Heap, AllocError>
    ensures { IfOk result (λ heap. heap ≡ opening program.now) }
{
    let mut objects = Items::new(alloc);
    for decl in program.declarations() {
        if let Decl::Object { name, .. } = decl {
            objects.push(fresh(alloc, program, name)?)?;
        }
    }
    Ok(Heap {
        objects,
        cells: Items::new(alloc),
        closures: Items::new(alloc),
    })
}

// Whether numbers, strings or closures stand for the object of this name.
#[tactic(auto, using(crate::proofs::Spellings::unnamed_is))]
fn is_unnamed(x: &[u8]) -> bool
    ensures { result ≡ is_name_of unnamed x.now }
{
    is_spelled(x, b"int") | (is_spelled(x, b"string") | is_spelled(x, b"closure"))
}

// Whether a plain object has the name.
fn is_plain_name(program: &Program, x: &Name) -> bool
    ensures { result ≡ is_name_of (plain_names program.now) x.now }
{
    for decl in program.declarations() {
        if let Decl::Object { name, .. } = decl {
            if name.bytes() == x.bytes() {
                return true;
            }
        }
    }
    false
}
