ghost use Rattle.std.specs.Prelude.{◌≡◌};
ghost use Rattle.vx_names.specs.Key.{decl_key_cmp};
ghost use Rattle.vx_syntax.specs.Keys.{key_of};
ghost use Rattle.vx_program.specs.Program.{has_key};

use std::cmp::Ordering;
use vx_names::DeclKey;
use vx_syntax::Decl;

/// What is sought among declarations in key order.
#[derive(Drop)]
pub enum Sought<'a> {
    /// The object or predicate whose name has these bytes.
    Name(&'a [u8]),
    /// The declaration of the key.
    Key(&'a DeclKey),
}

/// Whether the declaration has the key.
pub fn has_key(decl: &Decl, key: &DeclKey) -> bool
    ensures { result ≡ has_key key.now decl.now }
{
    compare(decl, key) == Ordering::Equal
}

/// How the key of the declaration and another key are ordered.
pub fn compare(decl: &Decl, key: &DeclKey) -> Ordering
    ensures { result ≡ decl_key_cmp (key_of decl.now) key.now }
{
    match decl {
        Decl::Object { name, .. } => match key {
            DeclKey::Object(other) => name.cmp(other),
            DeclKey::Predicate(other) => name.cmp(other).then(Ordering::Less),
            _ => Ordering::Less,
        },
        Decl::Predicate { name, .. } => match key {
            DeclKey::Object(other) => name.cmp(other).then(Ordering::Greater),
            DeclKey::Predicate(other) => name.cmp(other),
            _ => Ordering::Less,
        },
        Decl::Field { key: own, .. } => match key {
            DeclKey::Field(other) => own.cmp(other),
            DeclKey::Method(_) => Ordering::Less,
            _ => Ordering::Greater,
        },
        Decl::Method { key: own, .. } => match key {
            DeclKey::Method(other) => own.cmp(other),
            _ => Ordering::Greater,
        },
    }
}
