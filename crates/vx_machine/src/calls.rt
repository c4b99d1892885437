//! Calls and returns.
ghost use Rattle.std.specs.Prelude.{◌≡◌, ◌≤◌, ◌<◌, ◌+◌, ◌^◌, Some, None, IfOk, length, take, drop};
ghost use Rattle.vx_format.specs.declared.image.Image.{Image};
ghost use Rattle.vx_compilation.specs.Machine.{home_of};
ghost use Rattle.vx_format.specs.declared.image.Instr.TheVariants as instrs;
ghost use Rattle.vx_compilation.specs.Activations.{ToCode};
ghost use Rattle.vx_machine.specs.Meaning.{Whole, Did, Delivers, IsLater, Reached, Turns, role_of};
ghost use Rattle.vx_machine.specs.Sound.{IsHeldSound, IsWordSound};

use crate::machine::Machine;
use crate::ready::Ready;
use crate::word::{Held, Local, Role, Step, Word, apart};
use std::alloc::{AllocError, Global};
use vx_model::RunError;

impl<'a> Machine<'a> {
    /// Enters a method's code with so many operands as its arguments.
    #[inline(always)]
    pub fn enter(&mut self, ready: &Ready<'a>, code: u32, count: usize) -> Result<Step, AllocError>
        requires enough { count ≤ length self.old.stacked.running.operands }
        requires room { self.old.next + 1 < 2 ^ 64 }
        ensures does { Reached ready.now (ToCode code) count result self.old self.new }
        ensures later { IsLater self.old self.new }
    {
        ready.image();
        let Some(block) = ready.block(code, 0) else {
            return Ok(Step::Lacks);
        };
        if block.formals as usize != count {
            return Ok(Step::Lacks);
        }
        let role = Role::Method(self.next);
        self.activations.enter(code, block, &[], count, 0, role)?;
        self.next += 1;
        Ok(Step::On)
    }

    /// Enters a code with its arguments, which are on top.
    #[inline(always)]
    pub fn call(&mut self, ready: &Ready<'a>, code: u32) -> Result<Step, AllocError>
        requires room { self.old.next + 1 < 2 ^ 64 }
        ensures does { Did ready.now (instrs.Call code) result self.old self.new }
        ensures later { IsLater self.old self.new }
    {
        let Some(block) = ready.block(code, 0) else {
            return Ok(Step::Lacks);
        };
        let count = block.formals as usize;
        if self.activations.operands() < count {
            return Ok(Step::Lacks);
        }
        self.enter(ready, code, count)
    }

    /// The home of the activation that runs.
    #[inline(always)]
    pub fn home(&self) -> u64
        ensures { (all : Whole) → result ≡ home_of (role_of all self.now.stacked.running.role) }
    {
        match self.activations.role() {
            Role::Method(number) => number,
            Role::Evaluation(home) => home,
            Role::Turn(held) => held.home,
        }
    }

    /// Leaves the activation in which the closure was made, with the top.
    #[inline(never)]
    pub fn leave_home(&mut self, alloc: Global) -> Result<Step, AllocError>
        ensures does { (image : Image) → Did image instrs.Home result self.old self.new }
        ensures later { IsLater self.old self.new }
    {
        let home = self.home();
        match self.activations.pop() {
            None => Ok(Step::Lacks),
            Some(word) => {
                match self.activations.leave_home(home) {
                    None => Ok(Step::Stops(apart(alloc, RunError::DeadReturn)?)),
                    Some(false) => Ok(Step::Over),
                    Some(true) => {
                        self.activations.push(word)?;
                        Ok(Step::On)
                    }
                }
            }
        }
    }

    /// Leaves the activation with the top, or begins the next turn of a loop.
    #[inline(always)]
    pub fn leave(&mut self, ready: &Ready<'a>) -> Result<Step, AllocError>
        ensures does { Did ready.now instrs.Ret result self.old self.new }
        ensures later { IsLater self.old self.new }
    {
        match self.activations.pop() {
            None => Ok(Step::Lacks),
            Some(word) => match self.activations.role() {
                Role::Turn(held) => self.turn(ready, held),
                Role::Method(_) => self.deliver(word),
                Role::Evaluation(_) => self.deliver(word),
            },
        }
    }

    // Leaves the activation with a value for the one that waits.
    #[inline(always)]
    fn deliver(&mut self, word: Word<'a>) -> Result<Step, AllocError>
        requires { IsWordSound (length self.old.texts) word }
        ensures does { (image : Image) → Delivers image word.entry result self.old self.new }
        ensures later { IsLater self.old self.new }
    {
        if self.activations.leave() {
            self.activations.push(word)?;
            Ok(Step::On)
        } else {
            Ok(Step::Over)
        }
    }

    // Begins the next turn of a loop in the place of the activation that runs.
    #[inline(always)]
    fn turn(&mut self, ready: &Ready<'a>, held: Held) -> Result<Step, AllocError>
        requires { IsHeldSound (length self.old.captured) held }
        ensures does { Turns ready.now held result self.old self.new }
        ensures later { IsLater self.old self.new }
    {
        ready.image();
        let Some(block) = ready.block(held.code, held.block) else {
            return Ok(Step::Lacks);
        };
        let captures = part(self.captured.as_slice(), held.first, held.count);
        let role = Role::Turn(held);
        self.activations.restart(held.code, block, captures, role)?;
        Ok(Step::On)
    }
}

/// So many from a place on.
#[inline(always)]
pub fn part<'b, 'a>(captured: &'b [Local<'a>], first: usize, count: u32) -> &'b [Local<'a>]
    requires { (first + count) ≤ length captured.now }
    ensures { result.now ≡ take count (drop first captured.entry.now) }
{
    let (_, rest) = captured.split_at(first);
    let (found, _) = rest.split_at(count as usize);
    found
}
