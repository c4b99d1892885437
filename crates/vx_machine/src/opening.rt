//! How a run begins.
ghost use Rattle.std.specs.List.{AllByRecursion};
ghost use Rattle.std.specs.Prelude.{◌≡◌, ℕ, [], ◌<◌, IfOk, length};
ghost use Rattle.vx_format.specs.declared.image.Table.{Table};
ghost use Rattle.vx_places.specs.ImageMachine.{goes_to, main_found, opening, placed};
ghost use Rattle.vx_compilation.specs.Activations.{ToCode};
ghost use Rattle.vx_machine.specs.Meaning.{Texts, things_of};
ghost use Rattle.vx_machine.specs.Opening.{Begins, IsBegunSound};
ghost use Rattle.vx_machine.specs.Sound.{IsObjectSound};

use crate::activations::Activations;
use crate::making::opened;
use crate::ready::Ready;
use crate::sends::selector;
use crate::truths::Truths;
use crate::word::Object;
use sqlite_items::{Items, at};
use std::alloc::{AllocError, Global};
use vx_format::{Does, Own, Slot};
use vx_model::RunError;
use vx_names::{Selector, name_of};
use vx_tables::Picked;

/// What the message that begins a run leads to.
#[derive(Drop)]
pub enum Begun<'a> {
    /// An activation runs.
    Runs(Activations<'a>),
    /// The state lacks something.
    Lacks,
    /// The run stops.
    Stops(RunError),
}

/// The objects of an image as a run begins.
pub fn objects<'a>(
    alloc: Global,
    own: &Own,
    shapes: &'a [Items<Slot>],
) -> Result<Vec<Object<'a>>, AllocError>
    requires { length shapes.now < 4294967296 }
    ensures means { IfOk result (λ objects. (texts : Texts) → things_of texts objects.items ≡ placed own.now 0 shapes.entry.now) }
    ensures sound { IfOk result (λ objects. (texts : ℕ) → AllByRecursion (IsObjectSound texts) objects.items) }
{
    let mut objects = Vec::new(alloc);
    for (i, shape) in shapes.iter().enumerate() {
        let slots = opened(alloc, own, shape.as_slice())?;
        let class = i as u32;
        objects.push(Object { class, slots })?;
    }
    Ok(objects)
}

/// Sends the message that begins a run. Where the image has no table for it, the program has no method `main`.
pub fn begin<'a>(
    alloc: Global,
    ready: &Ready<'a>,
    objects: &[Object<'a>],
    truths: &mut Truths,
) -> Result<Begun<'a>, AllocError>
    requires { (texts : Texts) → things_of texts objects.now ≡ (opening ready.now).objects }
    ensures means { IfOk result (λ begun. Begins ready.now (main_found ready.now) begun) }
    ensures sound { IfOk result (λ begun. IsBegunSound begun) }
{
    let Some(t) = ready.image().main else {
        let name = name_of(alloc, b"main")?;
        let selector = Selector { name, arity: 0 };
        return Ok(Begun::Stops(RunError::NotUnderstood(selector)));
    };
    let Some(table) = ready.table(t) else {
        return Ok(Begun::Lacks);
    };
    match ready.picked(t, table, objects, &[], None, truths)? {
        Picked::None => Ok(Begun::Stops(RunError::NotUnderstood(selector(alloc, table)?))),
        Picked::Many => Ok(Begun::Stops(RunError::Ambiguous(selector(alloc, table)?))),
        Picked::Row(row) => match at(table.rows.as_slice(), row as usize) {
            None => Ok(Begun::Lacks),
            Some(row) => begin_row(alloc, ready, &row.does),
        },
    }
}

// Does what a row says without arguments. All but a code without split wants at least one.
fn begin_row<'a>(alloc: Global, ready: &Ready<'a>, deed: &Does) -> Result<Begun<'a>, AllocError>
    ensures means { IfOk result (λ begun. (table : Table) → Begins ready.now (goes_to ready.now (opening ready.now).objects table [] deed.now) begun) }
    ensures sound { IfOk result (λ begun. IsBegunSound begun) }
{
    match deed {
        Does::Code(code, None) => begin_code(alloc, ready, *code),
        Does::Code(_, Some(_)) => Ok(Begun::Lacks),
        Does::Prim(_) => Ok(Begun::Lacks),
        Does::Get(_) => Ok(Begun::Lacks),
        Does::Set(_) => Ok(Begun::Lacks),
    }
}

// Enters a code without arguments.
fn begin_code<'a>(alloc: Global, ready: &Ready<'a>, code: u32) -> Result<Begun<'a>, AllocError>
    ensures means { IfOk result (λ begun. Begins ready.now (ToCode code) begun) }
    ensures sound { IfOk result (λ begun. IsBegunSound begun) }
{
    ready.image();
    let Some(block) = ready.block(code, 0) else {
        return Ok(Begun::Lacks);
    };
    if block.formals != 0 {
        return Ok(Begun::Lacks);
    }
    Ok(Begun::Runs(Activations::new(alloc, code, block)?))
}
