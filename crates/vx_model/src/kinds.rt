//! What makes the methods of a program.
ghost use Rattle.std.specs.Prelude.{◌≡◌, ◌<◌, Some, IfOk, IfSome};
ghost use Rattle.vx_model.specs.Kinds.{kind, kind_by, primitive_kind};

use std::alloc::{AllocError, Global};
use vx_names::{DeclKey, MethodKey};
use vx_node::Kind;
use vx_program::Program;
use vx_syntax::Decl;

/// What makes the method of the key: its text, a primitive, or a field that it reads or sets.
pub fn kind(alloc: Global, program: &Program, key: &MethodKey) -> Result<Kind, AllocError>
    ensures { IfOk result (λ one. one ≡ kind program.now key.now) }
{
    let own = DeclKey::Method(key.copy(alloc)?);
    match program.maker(&own) {
        Some(decl) => kind_by(alloc, key, decl),
        None => Ok(primitive_kind(program.primitive(&own))),
    }
}

// What the method of the key is made by, where a declaration makes it.
fn kind_by(alloc: Global, key: &MethodKey, decl: &Decl) -> Result<Kind, AllocError>
    ensures { IfOk result (λ one. one ≡ kind_by key.now (Some decl.now)) }
{
    match decl {
        Decl::Field { key: field, .. } => {
            let field = field.copy(alloc)?;
            if key.specialisers.len() == 1 {
                Ok(Kind::Get(field))
            } else {
                Ok(Kind::Set(field))
            }
        }
        _ => Ok(Kind::Source),
    }
}

// The primitives have small numbers.
fn primitive_kind(number: Option<usize>) -> Kind
    requires { IfSome number (λ n. n < 18) }
    ensures { result ≡ primitive_kind number }
{
    match number {
        Some(number) => Kind::Prim(number as u8),
        None => Kind::Source,
    }
}
