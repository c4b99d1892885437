//! The instruction that ends a run with an error.
ghost use Rattle.vx_format.specs.declared.image.Image.{Image};
ghost use Rattle.vx_format.specs.declared.image.Instr.TheVariants as instrs;
ghost use Rattle.vx_names.specs.Name.{IsName};
ghost use Rattle.vx_machine.specs.Meaning.{Did, IsLater};

use crate::machine::Machine;
use crate::word::{Step, apart};
use std::alloc::{AllocError, Global};
use vx_model::RunError;
use vx_names::{Selector, name_of};

impl<'a> Machine<'a> {
    /// Ends the run with an error of the kind.
    #[inline(never)]
    pub fn fail(
        &mut self,
        alloc: Global,
        kind: u8,
        name: &[u8],
        arity: u8,
    ) -> Result<Step, AllocError>
        requires { IsName name.now }
        ensures does { (image : Image) → Did image (instrs.Fail kind name.now arity) result self.old self.new }
        ensures later { IsLater self.old self.new }
    {
        let name = name_of(alloc, name)?;
        match kind {
            0 => Ok(Step::Stops(apart(alloc, RunError::NoField(name))?)),
            1 => Ok(Step::Stops(apart(alloc, RunError::UnknownObject(name))?)),
            _ => Ok(Step::Stops(apart(alloc, RunError::NotUnderstood(Selector { name, arity }))?)),
        }
    }
}
