//! What is in scope in an activation.
ghost use Rattle.std.specs.Prelude.{◌≡◌, [], ◌∷◌, ◌++◌, IfOk, OnOk};
ghost use Rattle.std.specs.Option.{option_copied};
ghost use Rattle.vx_model.specs.Meaning.{bound};

use sqlite_items::Items;
use std::alloc::{AllocError, Global};
use std::marker::Model;
use vx_model::Local;
use vx_names::Name;

/// Names and what they stand for, which contracts see with the innermost first.
#[derive(Drop)]
pub struct Scope {
    names: Vec<(Name, Local)>,
}

impl Model for Scope {
    ghost use Rattle.std.specs.Prelude.{ℕ, List, reverse};
    ghost use Rattle.vx_model.specs.declared.value.Local.{Local};

    ghost Value = { List (List ℕ × Local) };

    ghost view = { λ s. reverse s.names.items };
}

impl Scope {
    /// Nothing is in scope.
    pub fn new(alloc: Global) -> Scope
        ensures { result ≡ [] }
    {
        Scope {
            names: Vec::new(alloc),
        }
    }

    /// Brings a name into scope.
    pub fn bring(&mut self, name: Name, local: Local) -> Result<(), AllocError>
        ensures { OnOk result (self.new ≡ (name, local) ∷ self.old) }
    {
        self.names.push((name, local))?;
        Ok(())
    }

    /// Brings names into scope, the first innermost.
    pub fn bring_all(&mut self, alloc: Global, locals: &[(Name, Local)]) -> Result<(), AllocError>
        ensures { OnOk result (self.new ≡ locals.now ++ self.old) }
    {
        for i in (0..locals.len()).rev() {
            let (name, local) = &locals[i];
            let name = name.copy(alloc)?;
            self.bring(name, local.copy(alloc)?)?;
        }
        Ok(())
    }

    /// What the name stands for.
    #[tactic(auto, using(crate::proofs::Bindings::innermost))]
    pub fn bound(&self, name: &Name) -> Option<&Local>
        ensures { option_copied result ≡ bound name.now self.now }
    {
        let mut i = self.names.len();
        while i > 0 {
            i -= 1;
            let (own, local) = &self.names[i];
            if own.bytes() == name.bytes() {
                return Some(local);
            }
        }
        None
    }

    /// All names in scope, the innermost first.
    pub fn copy(&self, alloc: Global) -> Result<Items<(Name, Local)>, AllocError>
        ensures { IfOk result (λ copies. copies ≡ self.now) }
    {
        let mut copies = Items::new(alloc);
        for i in (0..self.names.len()).rev() {
            let (name, local) = &self.names[i];
            let name = name.copy(alloc)?;
            copies.push((name, local.copy(alloc)?))?;
        }
        Ok(copies)
    }
}
