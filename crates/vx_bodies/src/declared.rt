//! The names that a body declares.
ghost use Rattle.std.specs.Prelude.{◌≡◌, ◌||◌, [], ◌∷◌, IfOk};
ghost use Rattle.vx_syntax.specs.Expressions.{is_variable};
ghost use Rattle.vx_bodies.specs.Scopes.{is_listed};

use crate::stack::Stack;
use std::alloc::{AllocError, Global};
use std::collections::BTreeMap;
use std::marker::Model;
use vx_names::Name;

/// Names, each with whether it may be assigned, which contracts see as their list, the last first. Looking one up takes
/// time in proportion to the logarithm of their number.
#[derive(Drop)]
pub struct Declared {
    // The list, for what contracts say of it; it is never searched.
    names: Stack<(Name, bool)>,
    // For each name whether it may be assigned.
    index: BTreeMap<Name, bool>,
}

impl Model for Declared {
    ghost use Rattle.std.specs.Prelude.{List, ℕ, Bool};
    ghost use Rattle.vx_bodies.specs.Scopes.{IsIndex};

    ghost Value = { List (List ℕ × Bool) };

    ghost view = { λ d. d.names };

    ghost invariant = { λ d. IsIndex d.index d.names };
}

impl Declared {
    /// No names.
    pub fn new(alloc: Global) -> Declared
        ensures { result ≡ [] }
    {
        Declared {
            names: Stack::new(alloc),
            index: BTreeMap::new(alloc),
        }
    }

    /// Whether the name is one of these, and may be assigned where only such names are wanted.
    pub fn has(&self, x: &Name, variable: bool) -> bool
        ensures { result ≡ is_listed variable self.now x.now }
    {
        match self.index.get(x) {
            Some(may_change) => *may_change || !variable,
            None => false,
        }
    }

    // Whether a name may be assigned after it is declared once more.
    #[tactic(auto, using(crate::proofs::Scopes::variable_is))]
    fn may_change_with(&self, x: &Name, variable: bool) -> bool
        ensures { result ≡ (variable || is_variable self.now x.now) }
    {
        variable || self.has(x, true)
    }

    /// The names with one more, which may be assigned where the flag is true.
    pub fn with(self, alloc: Global, x: Name, variable: bool) -> Result<Declared, AllocError>
        ensures { IfOk result (λ all. all ≡ (x, variable) ∷ self) }
    {
        let may_change = self.may_change_with(&x, variable);
        let Declared {
            mut names,
            mut index,
        } = self;
        index.insert(x.copy(alloc)?, may_change)?;
        names.push((x, variable))?;
        Ok(Declared { names, index })
    }
}
