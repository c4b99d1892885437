//! The methods of a selector.
ghost use Rattle.std.specs.Prelude.{◌≡◌, ◌++◌, ◌∷◌, [], if◌then◌else◌, IfOk, OnOk};
ghost use Rattle.vx_names.specs.declared.key.DeclKey.TheVariants as k;
ghost use Rattle.vx_program.specs.Program.{occupied, getter, setter};
ghost use Rattle.vx_program.specs.Methods.{with_selector, methods};

use crate::occupied::{getter, is_getter_of, is_setter_of, setter_of};
use crate::reserved::Reserved;
use sqlite_items::Items;
use std::alloc::{AllocError, Global};
use std::cmp::Ordering;
use vx_names::{FieldKey, MethodKey, Selector};
use vx_syntax::Decl;

/// The methods of the selector, as the declarations come, and the primitives behind them.
pub fn methods(
    alloc: Global,
    reserved: &Reserved,
    decls: &[Decl],
    selector: &Selector,
) -> Result<Items<MethodKey>, AllocError>
    ensures { IfOk result (λ keys. keys ≡ methods decls.now selector.now) }
{
    let mut keys = Items::new(alloc);
    for decl in decls {
        push_methods(alloc, &mut keys, decl, selector)?;
    }
    reserved.push_methods(alloc, &mut keys, selector)?;
    Ok(keys)
}

// Puts the methods of the selector that the declaration makes on the list.
fn push_methods(
    alloc: Global,
    keys: &mut Items<MethodKey>,
    decl: &Decl,
    selector: &Selector,
) -> Result<(), AllocError>
    ensures { OnOk result (keys.new ≡ keys.old ++ with_selector selector.now (occupied decl.now)) }
{
    match decl {
        Decl::Field {
            key,
            changeable,
            ..
        } => push_of_field(alloc, keys, key, *changeable, selector),
        Decl::Method { key, .. } => push_if(alloc, keys, key, selector),
        _ => Ok(()),
    }
}

/// Puts the key on the list where it has the selector.
pub fn push_if(
    alloc: Global,
    keys: &mut Items<MethodKey>,
    key: &MethodKey,
    selector: &Selector,
) -> Result<(), AllocError>
    ensures { OnOk result (keys.new ≡ keys.old ++ with_selector selector.now (k.Method key.now ∷ [])) }
{
    if key.selector.cmp(selector) == Ordering::Equal {
        keys.push(key.copy(alloc)?)?;
    }
    Ok(())
}

fn push_of_field(
    alloc: Global,
    keys: &mut Items<MethodKey>,
    key: &FieldKey,
    changeable: bool,
    selector: &Selector,
) -> Result<(), AllocError>
    ensures { OnOk result (keys.new ≡ keys.old ++ with_selector selector.now (k.Field key.now ∷ k.Method (getter key.now) ∷ (if changeable then k.Method (setter key.now) ∷ [] else []))) }
{
    if is_getter_of(key, selector) {
        keys.push(getter(alloc, key)?)?;
    }
    if changeable && is_setter_of(key, selector) {
        keys.push(setter_of(alloc, key, selector.copy(alloc)?)?)?;
    }
    Ok(())
}
