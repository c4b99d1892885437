//! Names that are made, and tests of names.
ghost use Rattle.std.specs.Prelude.{◌≡◌, [], ◌∷◌, IfOk, nat_le, length};
ghost use Rattle.vx_syntax.specs.Expressions.{max_field_bytes};
ghost use Rattle.vx_syntax.specs.Declarations.{any};

use sqlite_items::Items;
use std::alloc::{AllocError, Global};
use vx_names::{FIELD_NAME_BYTES, Name, name_of};

/// Whether a field may have the name.
pub fn is_short(name: &Name) -> bool
    ensures { result ≡ nat_le (length name.now) max_field_bytes }
{
    name.bytes().len() <= FIELD_NAME_BYTES
}

/// The name of the object from which all others inherit.
pub fn any_name(alloc: Global) -> Result<Name, AllocError>
    ensures { IfOk result (λ name. name ≡ any) }
{
    name_of(alloc, b"any")
}

/// The names alone that are given in two.
pub fn two(alloc: Global, first: Name, second: Name) -> Result<Items<Name>, AllocError>
    ensures { IfOk result (λ names. names ≡ first ∷ second ∷ []) }
{
    let mut names = Items::new(alloc);
    names.push(first)?;
    names.push(second)?;
    Ok(names)
}
