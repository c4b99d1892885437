//! The names in scope, as a stack.
ghost use Rattle.std.specs.Prelude.{◌≡◌, ◌≤◌, ◌-◌, ◌&&◌, false, [], ◌∷◌, length, drop, OnOk};
ghost use Rattle.std.specs.List.{list_any};
ghost use Rattle.std.specs.Str.{bytes_eq};
ghost use Rattle.vx_syntax.specs.Expressions.{is_bound, is_variable};

use std::alloc::{AllocError, Global};
use std::marker::Model;
use vx_names::Name;

/// The names in scope, which contracts see with the innermost first, each with whether it may be assigned.
#[derive(Drop)]
pub struct Scope<'a> {
    names: Vec<(&'a Name, bool)>,
}

impl<'a> Model for Scope<'a> {
    ghost use Rattle.std.specs.Prelude.{map, reverse};
    ghost use Rattle.vx_syntax.specs.Expressions.{Scope};

    ghost Value = { Scope };

    ghost view = { λ s. reverse (map (λ name. (name.0.now, name.1)) s.names.items) };
}

impl<'a> Scope<'a> {
    /// No names.
    pub fn new(alloc: Global) -> Scope<'a>
        ensures { result ≡ [] }
    {
        Scope {
            names: Vec::new(alloc),
        }
    }

    /// How many names there are.
    pub fn len(&self) -> usize
        ensures { result ≡ length self.now }
    {
        self.names.len()
    }

    /// Brings a name into scope.
    pub fn bring(&mut self, x: &'a Name, changeable: bool) -> Result<(), AllocError>
        ensures { OnOk result (self.new ≡ (x.now, changeable) ∷ self.old) }
    {
        self.names.push((x, changeable))?;
        Ok(())
    }

    /// Takes the innermost names out of scope, down to so many names.
    pub fn leave(&mut self, len: usize)
        ensures { self.new ≡ drop (length self.old - len) self.old }
    {
        self.names.truncate(len);
    }

    /// Whether the name is in scope.
    pub fn is_bound(&self, x: &Name) -> bool
        ensures { result ≡ is_bound self.now x.now }
    {
        is_listed(self.names.as_slice(), x)
    }

    /// Whether the name is in scope, and may be assigned.
    pub fn is_variable(&self, x: &Name) -> bool
        ensures { result ≡ is_variable self.now x.now }
    {
        is_changeable(self.names.as_slice(), x)
    }
}

// Whether the name is one of these.
fn is_listed(names: &[(&Name, bool)], x: &Name) -> bool
    ensures { result ≡ list_any (λ name. bytes_eq name.0.now x.now) names.now }
{
    for name in names {
        if name.0.bytes() == x.bytes() {
            return true;
        }
    }
    false
}

// Whether the name is one of these, and may be assigned.
fn is_changeable(names: &[(&Name, bool)], x: &Name) -> bool
    ensures { result ≡ list_any (λ name. bytes_eq name.0.now x.now && name.1) names.now }
{
    for name in names {
        if name.0.bytes() == x.bytes() && name.1 {
            return true;
        }
    }
    false
}
