//! What declarations name.
ghost use Rattle.std.specs.Prelude.{◌≡◌};
ghost use Rattle.std.specs.Str.{bytes_eq};
ghost use Rattle.vx_program.specs.Prelude.{sealed};
ghost use Rattle.vx_program.specs.Program.{is_named, is_predicate, is_name_of, mentioned, parents_of};

use vx_names::Name;
use vx_syntax::{Decl, is_among};

/// Whether the declaration is an object or a predicate of the name.
pub fn is_named(decl: &Decl, x: &[u8]) -> bool
    ensures { result ≡ is_named x.now decl.now }
{
    match decl {
        Decl::Object { name, .. } => name.bytes() == x,
        Decl::Predicate { name, .. } => name.bytes() == x,
        _ => false,
    }
}

/// Whether the declaration is a predicate.
pub fn is_predicate(decl: &Decl) -> bool
    ensures { result ≡ is_predicate decl.now }
{
    match decl {
        Decl::Predicate { .. } => true,
        _ => false,
    }
}

/// Whether the name is one of these.
#[tactic(auto, using(crate::proofs::Lookups::among_is_named))]
pub fn is_name_of(names: &[Name], x: &Name) -> bool
    ensures { result ≡ is_name_of names.now x.now }
{
    is_among(names, x)
}

/// The objects that an object or a predicate inherits from.
pub fn parents_of(decl: &Decl) -> &[Name]
    ensures { result.now ≡ parents_of decl.now }
{
    match decl {
        Decl::Object { parents, .. } => parents.as_slice(),
        Decl::Predicate { parents, .. } => parents.as_slice(),
        _ => &[],
    }
}

/// The objects that a declaration names outside of bodies and tests.
pub fn mentioned(decl: &Decl) -> &[Name]
    ensures { result.now ≡ mentioned decl.now }
{
    match decl {
        Decl::Object { parents, .. } => parents.as_slice(),
        Decl::Predicate { parents, .. } => parents.as_slice(),
        Decl::Field { key, .. } => std::slice::from_ref(&key.specialiser),
        Decl::Method { key, .. } => key.specialisers.as_slice(),
    }
}

/// Whether nothing inherits from the object of this name.
#[tactic(auto, using(crate::proofs::Lookups::sealed_is))]
pub fn is_sealed(x: &Name) -> bool
    ensures { result ≡ is_name_of sealed x.now }
{
    let x = x.bytes();
    let plain = is_spelled(x, b"int") | (is_spelled(x, b"string") | is_spelled(x, b"closure"));
    let value = is_spelled(x, b"true") | (is_spelled(x, b"false") | is_spelled(x, b"nil"));
    plain | value
}

/// Whether the bytes spell x.
pub fn is_spelled(x: &[u8], bytes: &[u8]) -> bool
    ensures { result ≡ bytes_eq bytes.now x.now }
{
    bytes == x
}
