//! The fields of a constructor that is open.
ghost use Rattle.std.specs.Prelude.{◌≡◌, ◌∷◌, ◌++◌, [], IfOk};
ghost use Rattle.vx_syntax.specs.Expressions.{is_among, field_names};

use sqlite_items::Items;
use std::alloc::{AllocError, Global};
use std::collections::BTreeSet;
use std::marker::Model;
use vx_names::Name;
use vx_syntax::Expr;

/// The fields of a constructor before the one that is read, which contracts see as their list. Looking a name up among
/// them takes time in proportion to the logarithm of their number.
#[derive(Drop)]
pub struct Fields {
    given: Items<(Name, Expr)>,
    // The names of the fields.
    names: BTreeSet<Name>,
}

impl Model for Fields {
    ghost use Rattle.std.specs.Prelude.{List, ℕ};
    ghost use Rattle.std.specs.Coded.{codes};
    ghost use Rattle.vx_syntax.specs.declared.expr.Expr.{Expr};
    ghost use Rattle.vx_syntax.specs.contracts.expr.Expr as e;
    ghost use Rattle.vx_syntax.specs.Expressions.{field_names};
    ghost use Rattle.vx_bodies.specs.Scopes.{HasNames};

    ghost Value = { List (List ℕ × Expr) };

    ghost coded = { Prim.hlevel (codes, e.the_row.coded) };

    ghost view = { λ f. f.given };

    ghost invariant = { λ f. HasNames f.names (field_names f.given) };
}

impl Fields {
    /// No fields yet.
    pub fn new(alloc: Global) -> Fields
        ensures { result ≡ [] }
    {
        Fields {
            given: Items::new(alloc),
            names: BTreeSet::new(alloc),
        }
    }

    /// Whether one of the fields has the name.
    pub fn has(&self, x: &Name) -> bool
        ensures { result ≡ is_among (field_names self.now) x.now }
    {
        self.names.contains(x)
    }

    /// The fields with one more, after which another follows.
    pub fn with(self, alloc: Global, field: Name, a: Expr) -> Result<Fields, AllocError>
        ensures { IfOk result (λ all. all ≡ self ++ (field, a) ∷ []) }
    {
        let Fields {
            mut given,
            mut names,
        } = self;
        names.insert(field.copy(alloc)?)?;
        given.push((field, a))?;
        Ok(Fields { given, names })
    }

    /// The fields with the last one.
    pub fn with_last(self, field: Name, a: Expr) -> Result<Items<(Name, Expr)>, AllocError>
        ensures { IfOk result (λ all. all ≡ self ++ (field, a) ∷ []) }
    {
        let Fields { mut given, names } = self;
        drop(names);
        given.push((field, a))?;
        Ok(given)
    }
}
