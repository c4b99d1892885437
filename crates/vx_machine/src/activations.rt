//! The activations, with a stack of operands and one of locals.
ghost use Rattle.std.specs.Prelude.{◌≡◌, ◌<◌, ◌≤◌, ◌+◌, [], ◌∷◌, Some, None, true, false, OnOk, OnErr, IfOk, MatchOption, slice_get, length, reverse};
ghost use Rattle.std.specs.Prelude.{take, ◌++◌};
ghost use Rattle.std.specs.Option.{option_copied};
ghost use Rattle.vx_machine.specs.Cuts.{Extends, AreNamed, IsNamed, IsRest, opened, emptied, pushed, forgotten, with_local, with_left, entered};
ghost use Rattle.vx_machine.specs.Cuts.{restarted, is_home, below_home};
ghost use Rattle.vx_machine.specs.Opening.{alone};

use crate::word::{Kept, Local, Role, Word};
use std::alloc::{AllocError, Global};
use std::marker::Model;
use vx_format::{Block, Instr};

/// The activation that runs and those that wait for it.
#[derive(Drop)]
pub struct Activations<'a> {
    running: Kept<'a>,
    below: Vec<Kept<'a>>,
    locals: Vec<Local<'a>>,
    operands: Vec<Word<'a>>,
}

impl<'a> Model for Activations<'a> {
    ghost use Rattle.std.specs.Prelude.{List, ◌∷◌, reverse};
    ghost use Rattle.vx_machine.specs.Cuts.{Stacked, stacked, Lie};

    ghost Value = { Stacked };

    ghost view = { λ a. stacked a.running (reverse a.below.items) a.locals.items a.operands.items };

    ghost invariant = { λ a. Lie (a.running ∷ reverse a.below.items) a.locals.items a.operands.items };
}

impl<'a> Activations<'a> {
    /// The activation of a code without arguments, the first of a run.
    pub fn new(alloc: Global, code: u32, block: &'a Block) -> Result<Activations<'a>, AllocError>
        requires { AreNamed block.now.code }
        ensures { IfOk result (λ a. a ≡ alone code block.entry.now) }
    {
        let mut locals = Vec::new(alloc);
        open(&mut locals, &[], &[], block.locals)?;
        let running = Kept {
            instrs: block.code.as_slice(),
            next: 0,
            code,
            base: 0,
            floor: 0,
            role: Role::Method(0),
        };
        Ok(Activations {
            running,
            below: Vec::new(alloc),
            locals,
            operands: Vec::new(alloc),
        })
    }

    /// Puts an operand on top.
    #[inline(always)]
    pub fn push(&mut self, word: Word<'a>) -> Result<(), AllocError>
        ensures ok { OnOk result (self.new ≡ pushed word.entry self.old) }
        ensures err { OnErr result (self.new ≡ self.old) }
    {
        self.operands.push(word)?;
        Ok(())
    }

    /// Takes the operand from the top.
    #[inline(always)]
    pub fn pop(&mut self) -> Option<Word<'a>>
        ensures { MatchOption result ((self.old.running.operands ≡ []) × (self.new ≡ self.old)) (λ word. self.old ≡ pushed word self.new) }
    {
        if self.operands.len() <= self.running.floor {
            return None;
        }
        self.operands.pop()
    }

    /// Drops so many operands from the top.
    #[inline(always)]
    pub fn forget(&mut self, count: usize)
        requires { count ≤ length self.old.running.operands }
        ensures { self.new ≡ forgotten count self.old }
    {
        self.operands.truncate(self.operands.len() - count);
    }

    /// The operand that has so many above it.
    #[inline(always)]
    pub fn peek(&self, depth: usize) -> Option<Word<'a>>
        ensures { result ≡ slice_get self.now.running.operands depth }
    {
        if self.operands.len() - self.running.floor <= depth {
            return None;
        }
        self.operands.get(self.operands.len() - 1 - depth).copied()
    }

    /// So many of the topmost operands, the last of them on top.
    #[inline(always)]
    pub fn arguments(&self, count: usize) -> &[Word<'a>]
        requires { count ≤ length self.now.running.operands }
        ensures { result.now ≡ reverse (take count self.entry.now.running.operands) }
    {
        let (_, found) = self
            .operands
            .as_slice()
            .split_at(self.operands.len() - count);
        found
    }

    /// How many operands there are.
    #[inline(always)]
    pub fn operands(&self) -> usize
        ensures { result ≡ length self.now.running.operands }
    {
        self.operands.len() - self.running.floor
    }

    /// What the activation runs.
    #[inline(always)]
    pub fn role(&self) -> Role
        ensures { result ≡ self.now.running.role }
    {
        self.running.role
    }

    /// The code of the activation.
    #[inline(always)]
    pub fn code(&self) -> u32
        ensures { result ≡ self.now.running.code }
    {
        self.running.code
    }

    /// What the local holds.
    #[inline(always)]
    pub fn local(&self, x: u32) -> Option<Local<'a>>
        ensures { result ≡ slice_get self.now.running.locals x }
    {
        if self.locals.len() - self.running.base <= x as usize {
            return None;
        }
        self.locals.get(self.running.base + x as usize).copied()
    }

    /// Lets the local hold something. It answers whether there is such a local.
    #[inline(always)]
    pub fn set_local(&mut self, x: u32, held: Local<'a>) -> bool
        ensures there { result ≡ true → (x < length self.old.running.locals) × (self.new ≡ with_local x held.entry self.old) }
        ensures missing { result ≡ false → (length self.old.running.locals ≤ x) × (self.new ≡ self.old) }
    {
        if self.locals.len() - self.running.base <= x as usize {
            return false;
        }
        let place = self.running.base + x as usize;
        self.locals[place] = held;
        true
    }

    /// Takes the next instruction.
    #[inline(always)]
    pub fn fetch(&mut self) -> Option<&'a Instr>
        ensures none { result ≡ None → (self.old.running.left ≡ []) × (self.new ≡ self.old) }
        ensures some { (i : _) → option_copied result ≡ Some i → self.old ≡ with_left (i ∷ self.new.running.left) self.new }
        ensures named { (i : _) → option_copied result ≡ Some i → IsNamed i }
    {
        let instrs = self.running.instrs;
        match instrs.get(self.running.next) {
            None => None,
            Some(instr) => {
                self.running.next += 1;
                Some(instr)
            }
        }
    }

    /// Leaves the activation. It answers whether one was waiting.
    #[inline(always)]
    pub fn leave(&mut self) -> bool
        ensures waits { result ≡ true → self.old.waiting ≡ self.new.running ∷ self.new.waiting }
        ensures last { result ≡ false → (self.old.waiting ≡ []) × (self.new ≡ self.old) }
    {
        match self.below.pop() {
            None => false,
            Some(kept) => {
                self.locals.truncate(self.running.base);
                self.operands.truncate(self.running.floor);
                self.running = kept;
                true
            }
        }
    }

    /// Enters a block with what was captured. Its arguments are the topmost operands, and so many more go with them.
    #[inline(always)]
    pub fn enter(
        &mut self,
        code: u32,
        block: &'a Block,
        captures: &[Local<'a>],
        count: usize,
        under: usize,
        role: Role,
    ) -> Result<(), AllocError>
        requires operands { count + under ≤ length self.old.running.operands }
        requires named { AreNamed block.now.code }
        ensures ok { OnOk result (self.new ≡ entered code block.entry.now captures.entry.now count under role self.old) }
        ensures err { OnErr result (self.new ≡ self.old) }
    {
        let base = self.locals.len();
        let floor = self.operands.len() - count;
        self.below.push(self.running)?;
        let running = Kept {
            instrs: block.code.as_slice(),
            next: 0,
            code,
            base,
            floor: floor - under,
            role,
        };
        let (_, arguments) = self.operands.as_slice().split_at(floor);
        match open(&mut self.locals, captures, arguments, block.locals) {
            Ok(()) => {
                self.operands.truncate(floor - under);
                self.running = running;
                Ok(())
            }
            Err(AllocError) => {
                let _ = self.below.pop();
                self.locals.truncate(base);
                Err(AllocError)
            }
        }
    }

    /// Enters a block with what was captured, in the place of the activation that runs.
    pub fn restart(
        &mut self,
        code: u32,
        block: &'a Block,
        captures: &[Local<'a>],
        role: Role,
    ) -> Result<(), AllocError>
        requires named { AreNamed block.now.code }
        ensures ok { OnOk result (self.new ≡ restarted code block.entry.now captures.entry.now role self.old) }
        ensures err { OnErr result (self.new ≡ emptied self.old) }
    {
        let floor = self.running.floor;
        self.locals.truncate(self.running.base);
        self.operands.truncate(floor);
        match open(&mut self.locals, captures, &[], block.locals) {
            Ok(()) => {
                self.running.instrs = block.code.as_slice();
                self.running.next = 0;
                self.running.code = code;
                self.running.role = role;
                Ok(())
            }
            Err(AllocError) => {
                self.locals.truncate(self.running.base);
                Err(AllocError)
            }
        }
    }

    /// Leaves the activation that is the home, with all above it. It answers whether one was waiting, or nothing where the home has ended.
    pub fn leave_home(&mut self, home: u64) -> Option<bool>
        ensures dead { result ≡ None → below_home home (self.old.running ∷ self.old.waiting) ≡ None }
        ensures waits { result ≡ Some true → below_home home (self.old.running ∷ self.old.waiting) ≡ Some (self.new.running ∷ self.new.waiting) }
        ensures last { result ≡ Some false → below_home home (self.old.running ∷ self.old.waiting) ≡ Some [] }
        ensures rest { IsRest (self.old.running ∷ self.old.waiting) (self.new.running ∷ self.new.waiting) }
    {
        while !is_home(home, self.running.role) {
            if !self.leave() {
                return None;
            }
        }
        Some(self.leave())
    }
}

// Whether an activation of the role is the home.
#[inline(always)]
fn is_home(home: u64, role: Role) -> bool
    ensures { result ≡ is_home home role }
{
    match role {
        Role::Method(number) => home == number,
        Role::Evaluation(_) => false,
        Role::Turn(_) => false,
    }
}

// Adds the locals of a block: what was captured, the arguments, the rest.
#[inline(always)]
fn open<'a>(
    locals: &mut Vec<Local<'a>>,
    captures: &[Local<'a>],
    arguments: &[Word<'a>],
    count: u32,
) -> Result<(), AllocError>
    ensures ok { OnOk result (locals.new.items ≡ locals.old.items ++ opened count captures.entry.now arguments.entry.now) }
    ensures extends { Extends locals.old.items locals.new.items }
{
    let room = (count as usize).saturating_sub(captures.len());
    let rest = room.saturating_sub(arguments.len());
    for local in captures {
        locals.push(*local)?;
    }
    for word in arguments {
        locals.push(Local::Plain(*word))?;
    }
    locals.resize(locals.len() + rest, Local::Unset)?;
    Ok(())
}
