//! Closures: how they are made, evaluated and repeated.
ghost use Rattle.std.specs.Prelude.{◌≡◌, ℕ, ◌≤◌, ◌<◌, ◌+◌, ◌++◌, Some, None, true, false, IfOk, length, slice_get};
ghost use Rattle.vx_format.specs.declared.image.Instr.TheVariants as instrs;
ghost use Rattle.vx_compilation.specs.Activations.{ToPrimitive};
ghost use Rattle.vx_machine.specs.Cuts.{Extends};
ghost use Rattle.vx_machine.specs.Meaning.{Captures, Did, Evaluates, IsLater, Repeats, is_unset};
ghost use Rattle.vx_machine.specs.Sound.{AreLocalsSound};

use crate::activations::Activations;
use crate::calls::part;
use crate::machine::Machine;
use crate::ready::Ready;
use crate::word::{Held, Local, Role, Step, Word, apart};
use std::alloc::{AllocError, Global};
use vx_model::RunError;

impl<'a> Machine<'a> {
    /// Pushes a closure of a block with what some locals hold.
    #[inline(always)]
    pub fn close(&mut self, ready: &Ready<'a>, block: u32, xs: &[u32]) -> Result<Step, AllocError>
        ensures does { Did ready.now (instrs.Closure block xs.now) result self.old self.new }
        ensures later { IsLater self.old self.new }
    {
        let home = self.home();
        let code = self.activations.code();
        let Some(found) = ready.block(code, block) else {
            return Ok(Step::Lacks);
        };
        let first = self.captured.len();
        if !capture(&self.activations, &mut self.captured, xs)? {
            return Ok(Step::Lacks);
        }
        if self.captured.len() - first != found.captures as usize {
            return Ok(Step::Lacks);
        }
        let place = self.closures.len();
        let held = Held {
            code,
            block,
            home,
            first,
            count: found.captures,
        };
        self.closures.push(held)?;
        self.activations.push(Word::Closure(place))?;
        Ok(Step::On)
    }

    // The closure.
    #[inline(always)]
    fn closure(&self, closure: usize) -> Option<Held>
        ensures { result ≡ slice_get self.now.closures closure }
    {
        self.closures.get(closure).copied()
    }

    /// Evaluates a closure, which so many operands, its arguments, have below them.
    #[inline(always)]
    pub fn evaluate(
        &mut self,
        alloc: Global,
        ready: &Ready<'a>,
        closure: usize,
        count: u8,
    ) -> Result<Step, AllocError>
        requires { count + 1 ≤ length self.old.stacked.running.operands }
        ensures does { Evaluates ready.now closure count result self.old self.new }
        ensures later { IsLater self.old self.new }
    {
        ready.image();
        let Some(held) = self.closure(closure) else {
            return Ok(Step::Lacks);
        };
        let Some(block) = ready.block(held.code, held.block) else {
            return Ok(Step::Lacks);
        };
        if block.formals != count {
            return Ok(Step::Stops(apart(alloc, RunError::ClosureArity(count))?));
        }
        let captures = part(self.captured.as_slice(), held.first, held.count);
        let role = Role::Evaluation(held.home);
        self.activations
            .enter(held.code, block, captures, count as usize, 1, role)?;
        Ok(Step::On)
    }

    /// Begins the first turn of a loop over the closure that is on top.
    #[inline(always)]
    pub fn repeat(
        &mut self,
        alloc: Global,
        ready: &Ready<'a>,
        closure: usize,
    ) -> Result<Step, AllocError>
        requires { 1 ≤ length self.old.stacked.running.operands }
        ensures does { Repeats ready.now closure result self.old self.new }
        ensures later { IsLater self.old self.new }
    {
        ready.image();
        let Some(held) = self.closure(closure) else {
            return Ok(Step::Lacks);
        };
        let Some(block) = ready.block(held.code, held.block) else {
            return Ok(Step::Lacks);
        };
        if block.formals != 0 {
            return Ok(Step::Stops(apart(alloc, RunError::ClosureArity(0))?));
        }
        let captures = part(self.captured.as_slice(), held.first, held.count);
        let role = Role::Turn(held);
        self.activations
            .enter(held.code, block, captures, 0, 1, role)?;
        Ok(Step::On)
    }
}

// Adds what the locals hold to what was captured. It answers whether all of them hold something.
#[inline(always)]
fn capture<'a>(
    activations: &Activations<'a>,
    captured: &mut Vec<Local<'a>>,
    xs: &[u32],
) -> Result<bool, AllocError>
    ensures captures { IfOk result (λ there. Captures there xs.now activations.now.running.locals captured.old.items captured.new.items) }
    ensures extends { Extends captured.old.items captured.new.items }
    ensures sound { (texts : ℕ) → AreLocalsSound texts activations.now.running.locals → AreLocalsSound texts captured.old.items
        → AreLocalsSound texts captured.new.items }
{
    for x in xs {
        let Some(held) = activations.local(*x) else {
            return Ok(false);
        };
        if is_unset(held) {
            return Ok(false);
        }
        captured.push(held)?;
    }
    Ok(true)
}

// Whether a local holds nothing yet.
#[inline(always)]
fn is_unset(held: Local<'_>) -> bool
    ensures { result ≡ is_unset held.entry }
{
    match held {
        Local::Unset => true,
        Local::Plain(_) => false,
        Local::Cell(_) => false,
    }
}
