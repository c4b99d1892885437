//! Bodies as they are compiled: names resolved, sends bound where the program tells which method they find.
ghost use Rattle.std.specs.Prelude.{◌≡◌, IfOk};

use sqlite_items::Items;
use std::alloc::{AllocError, Global};
use vx_model::RunError;
use vx_names::{FieldKey, MethodKey, Name, Selector};
use vx_node::{Info, Variant, copy_infos};

/// The body of a method and those of its closures, in the order of their text. A method that is not there has none.
#[derive(Drop)]
pub struct Tree {
    pub blocks: Items<TreeBlock>,
}

/// The body of a method or a closure. Its locals are those that it captured, its formals and the rest.
#[derive(Drop)]
pub struct TreeBlock {
    pub locals: u64,
    pub captures: u64,
    pub formals: Items<Info>,
    pub acts: Items<Act>,
}

/// A statement.
#[cycle(tree)]
#[derive(Drop)]
pub enum Act {
    Let(u64, Part),
    LetVar(u64, Part),
    Set(u64, Part),
    Do(Part),
    Back(Part),
}

/// An expression.
#[cycle(tree)]
#[derive(Drop)]
pub enum Part {
    Int(i128),
    Text(Items<u8>),
    Local(u64),
    Cell(u64),
    Object(Name),
    /// The number of a block, and the locals that it captures of the block around it.
    Closure(u64, Items<u64>),
    New(Name, Items<(FieldKey, Part)>),
    Send(Selector, Items<Part>),
    /// The method that resends, and its place among the methods of its selector.
    Resend(MethodKey, Option<u8>, Items<Part>),
    Prim(u8, Items<Part>),
    Get(FieldKey, Items<Part>),
    Set(FieldKey, Items<Part>),
    Call(MethodKey, Variant, Items<Part>),
    /// The arguments, the locals of the formals, and the body.
    Inlined(Items<Part>, Items<u64>, Items<Act>),
    Fail(RunError, Items<Part>),
}

impl Tree {
    pub fn copy(&self, alloc: Global) -> Result<Tree, AllocError>
        ensures { IfOk result (λ tree. tree ≡ self.now) }
    {
        Ok(Tree {
            blocks: copy_blocks(alloc, self.blocks.as_slice())?,
        })
    }
}

fn copy_blocks(alloc: Global, blocks: &[TreeBlock]) -> Result<Items<TreeBlock>, AllocError>
    ensures { IfOk result (λ copies. copies ≡ blocks.now) }
{
    let mut copies = Items::new(alloc);
    for block in blocks {
        copies.push(block.copy(alloc)?)?;
    }
    Ok(copies)
}

impl TreeBlock {
    pub fn copy(&self, alloc: Global) -> Result<TreeBlock, AllocError>
        ensures { IfOk result (λ block. block ≡ self.now) }
    {
        Ok(TreeBlock {
            locals: self.locals,
            captures: self.captures,
            formals: copy_infos(alloc, self.formals.as_slice())?,
            acts: copy_acts(alloc, self.acts.as_slice())?,
        })
    }
}

impl Act {
    pub fn copy(&self, alloc: Global) -> Result<Act, AllocError>
        ensures { IfOk result (λ act. act ≡ self.now) }
    {
        copy_act(alloc, self)
    }
}

impl Part {
    pub fn copy(&self, alloc: Global) -> Result<Part, AllocError>
        ensures { IfOk result (λ part. part ≡ self.now) }
    {
        copy_part(alloc, self)
    }
}

#[cycle(copy)]
fn copy_acts(alloc: Global, acts: &[Act]) -> Result<Items<Act>, AllocError>
    ensures { IfOk result (λ copies. copies ≡ acts.now) }
{
    let mut copies = Items::new(alloc);
    for act in acts {
        copies.push(copy_act(alloc, act)?)?;
    }
    Ok(copies)
}

#[cycle(copy)]
fn copy_act(alloc: Global, act: &Act) -> Result<Act, AllocError>
    ensures { IfOk result (λ copy. copy ≡ act.now) }
{
    match act {
        Act::Let(local, part) => Ok(Act::Let(*local, copy_part(alloc, part)?)),
        Act::LetVar(local, part) => Ok(Act::LetVar(*local, copy_part(alloc, part)?)),
        Act::Set(local, part) => Ok(Act::Set(*local, copy_part(alloc, part)?)),
        Act::Do(part) => Ok(Act::Do(copy_part(alloc, part)?)),
        Act::Back(part) => Ok(Act::Back(copy_part(alloc, part)?)),
    }
}

#[cycle(copy)]
fn copy_part(alloc: Global, part: &Part) -> Result<Part, AllocError>
    ensures { IfOk result (λ copy. copy ≡ part.now) }
{
    match part {
        Part::Int(n) => Ok(Part::Int(*n)),
        Part::Text(bytes) => Ok(Part::Text(Items::from_slice(alloc, bytes.as_slice())?)),
        Part::Local(local) => Ok(Part::Local(*local)),
        Part::Cell(local) => Ok(Part::Cell(*local)),
        Part::Object(name) => Ok(Part::Object(name.copy(alloc)?)),
        Part::Closure(block, locals) => {
            Ok(Part::Closure(*block, Items::from_slice(alloc, locals.as_slice())?))
        }
        Part::New(class, fields) => {
            Ok(Part::New(class.copy(alloc)?, copy_fields(alloc, fields.as_slice())?))
        }
        Part::Send(selector, parts) => {
            Ok(Part::Send(selector.copy(alloc)?, copy_parts(alloc, parts.as_slice())?))
        }
        Part::Resend(method, row, parts) => {
            Ok(Part::Resend(
                method.copy(alloc)?,
                *row,
                copy_parts(alloc, parts.as_slice())?,
            ))
        }
        Part::Prim(number, parts) => Ok(Part::Prim(*number, copy_parts(alloc, parts.as_slice())?)),
        Part::Get(field, parts) => {
            Ok(Part::Get(field.copy(alloc)?, copy_parts(alloc, parts.as_slice())?))
        }
        Part::Set(field, parts) => {
            Ok(Part::Set(field.copy(alloc)?, copy_parts(alloc, parts.as_slice())?))
        }
        Part::Call(method, variant, parts) => copy_call(alloc, method, variant, parts),
        Part::Inlined(parts, locals, acts) => Ok(Part::Inlined(
            copy_parts(alloc, parts.as_slice())?,
            Items::from_slice(alloc, locals.as_slice())?,
            copy_acts(alloc, acts.as_slice())?,
        )),
        Part::Fail(error, parts) => {
            Ok(Part::Fail(error.copy(alloc)?, copy_parts(alloc, parts.as_slice())?))
        }
    }
}

#[cycle(copy)]
fn copy_call(
    alloc: Global,
    method: &MethodKey,
    variant: &Variant,
    parts: &Items<Part>,
) -> Result<Part, AllocError>
    ensures { IfOk result (λ copy. copy ≡ Part.Call method.now variant.now parts.now) }
{
    let method = method.copy(alloc)?;
    let variant = variant.copy(alloc)?;
    Ok(Part::Call(method, variant, copy_parts(alloc, parts.as_slice())?))
}

#[cycle(copy)]
fn copy_parts(alloc: Global, parts: &[Part]) -> Result<Items<Part>, AllocError>
    ensures { IfOk result (λ copies. copies ≡ parts.now) }
{
    let mut copies = Items::new(alloc);
    for part in parts {
        copies.push(copy_part(alloc, part)?)?;
    }
    Ok(copies)
}

#[cycle(copy)]
fn copy_fields(
    alloc: Global,
    fields: &[(FieldKey, Part)],
) -> Result<Items<(FieldKey, Part)>, AllocError>
    ensures { IfOk result (λ copies. copies ≡ fields.now) }
{
    let mut copies = Items::new(alloc);
    for field in fields {
        let (key, part) = field;
        copies.push((key.copy(alloc)?, copy_part(alloc, part)?))?;
    }
    Ok(copies)
}
