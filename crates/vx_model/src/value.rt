//! Values, and the heap in which they live.
ghost use Rattle.std.specs.Prelude.{◌≡◌, IfOk};

use sqlite_items::Items;
use std::alloc::{AllocError, Global};
use vx_names::{FieldKey, MethodKey, Name, copy_names};
use vx_syntax::Body;

/// A value. Objects and closures are places in the heap, counted from 0.
#[derive(Drop)]
pub enum Value {
    Int(i128),
    /// A string, as its bytes.
    Text(Items<u8>),
    Closure(u64),
    /// An object. The plain objects of the program have the first places, in the order of their names.
    Object(u64),
}

/// What a name in scope stands for.
#[derive(Drop)]
pub enum Local {
    Plain(Value),
    /// A variable, which has its value in the cell at this place of the heap.
    Cell(u64),
}

/// An object. Where two of its slots have one key, the first counts.
#[derive(Drop)]
pub struct Thing {
    pub class: Name,
    pub slots: Items<(FieldKey, Value)>,
}

/// A closure: its text, and what it holds of the activation in which it was made. A return from it leads to the activation
/// of the number `home`. In `scope` the innermost name comes first.
#[derive(Drop)]
pub struct Held {
    pub method: MethodKey,
    pub arguments: Items<Value>,
    pub formals: Items<Name>,
    pub body: Body,
    pub home: u64,
    pub scope: Items<(Name, Local)>,
}

/// All objects, the values of all variables, and all closures.
#[derive(Drop)]
pub struct Heap {
    pub objects: Items<Thing>,
    pub cells: Items<Value>,
    pub closures: Items<Held>,
}

impl Value {
    pub fn copy(&self, alloc: Global) -> Result<Value, AllocError>
        ensures { IfOk result (λ value. value ≡ self.now) }
    {
        match self {
            Value::Int(n) => Ok(Value::Int(*n)),
            Value::Text(bytes) => Ok(Value::Text(Items::from_slice(alloc, bytes.as_slice())?)),
            Value::Closure(place) => Ok(Value::Closure(*place)),
            Value::Object(place) => Ok(Value::Object(*place)),
        }
    }
}

impl Local {
    pub fn copy(&self, alloc: Global) -> Result<Local, AllocError>
        ensures { IfOk result (λ local. local ≡ self.now) }
    {
        match self {
            Local::Plain(value) => Ok(Local::Plain(value.copy(alloc)?)),
            Local::Cell(place) => Ok(Local::Cell(*place)),
        }
    }
}

impl Thing {
    pub fn copy(&self, alloc: Global) -> Result<Thing, AllocError>
        ensures { IfOk result (λ thing. thing ≡ self.now) }
    {
        Ok(Thing {
            class: self.class.copy(alloc)?,
            slots: copy_slots(alloc, self.slots.as_slice())?,
        })
    }
}

impl Held {
    pub fn copy(&self, alloc: Global) -> Result<Held, AllocError>
        ensures { IfOk result (λ held. held ≡ self.now) }
    {
        Ok(Held {
            method: self.method.copy(alloc)?,
            arguments: copy_values(alloc, self.arguments.as_slice())?,
            formals: copy_names(alloc, self.formals.as_slice())?,
            body: self.body.copy(alloc)?,
            home: self.home,
            scope: copy_scope(alloc, self.scope.as_slice())?,
        })
    }
}

impl Heap {
    pub fn copy(&self, alloc: Global) -> Result<Heap, AllocError>
        ensures { IfOk result (λ heap. heap ≡ self.now) }
    {
        Ok(Heap {
            objects: copy_things(alloc, self.objects.as_slice())?,
            cells: copy_values(alloc, self.cells.as_slice())?,
            closures: copy_closures(alloc, self.closures.as_slice())?,
        })
    }
}

/// The values, each copied.
pub fn copy_values(alloc: Global, values: &[Value]) -> Result<Items<Value>, AllocError>
    ensures { IfOk result (λ copies. copies ≡ values.now) }
{
    let mut copies = Items::new(alloc);
    for value in values {
        copies.push(value.copy(alloc)?)?;
    }
    Ok(copies)
}

fn copy_slots(
    alloc: Global,
    slots: &[(FieldKey, Value)],
) -> Result<Items<(FieldKey, Value)>, AllocError>
    ensures { IfOk result (λ copies. copies ≡ slots.now) }
{
    let mut copies = Items::new(alloc);
    for slot in slots {
        let key = slot.0.copy(alloc)?;
        copies.push((key, slot.1.copy(alloc)?))?;
    }
    Ok(copies)
}

fn copy_scope(alloc: Global, scope: &[(Name, Local)]) -> Result<Items<(Name, Local)>, AllocError>
    ensures { IfOk result (λ copies. copies ≡ scope.now) }
{
    let mut copies = Items::new(alloc);
    for bound in scope {
        let name = bound.0.copy(alloc)?;
        copies.push((name, bound.1.copy(alloc)?))?;
    }
    Ok(copies)
}

fn copy_things(alloc: Global, things: &[Thing]) -> Result<Items<Thing>, AllocError>
    ensures { IfOk result (λ copies. copies ≡ things.now) }
{
    let mut copies = Items::new(alloc);
    for thing in things {
        copies.push(thing.copy(alloc)?)?;
    }
    Ok(copies)
}

fn copy_closures(alloc: Global, closures: &[Held]) -> Result<Items<Held>, AllocError>
    ensures { IfOk result (λ copies. copies ≡ closures.now) }
{
    let mut copies = Items::new(alloc);
    for held in closures {
        copies.push(held.copy(alloc)?)?;
    }
    Ok(copies)
}
