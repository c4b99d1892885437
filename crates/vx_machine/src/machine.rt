//! The machine, and the instructions on operands, locals and cells.
ghost use Rattle.std.specs.Prelude.{◌≡◌, ◌+◌, ◌<◌, ◌^◌, Some, None, IfOk};
ghost use Rattle.vx_format.specs.declared.image.Instr.TheVariants as instrs;
ghost use Rattle.vx_format.specs.declared.image.Image.{Image};
ghost use Rattle.vx_machine.specs.Meaning.{Did, IsLater};

use crate::activations::Activations;
use crate::truths::Truths;
use crate::word::{Held, Local, Object, Step, Word};
use sqlite_items::Items;
use std::alloc::AllocError;
use std::marker::Model;

/// A run, which contracts see as the machine of the definition. Its words name what is there.
#[derive(Drop)]
pub struct Machine<'a> {
    /// The activations.
    pub activations: Activations<'a>,
    /// All objects.
    pub objects: Vec<Object<'a>>,
    /// What the cells hold.
    pub cells: Vec<Word<'a>>,
    /// All closures.
    pub closures: Vec<Held>,
    /// What closures captured.
    pub captured: Vec<Local<'a>>,
    /// The strings that were made.
    pub texts: Items<Items<u8>>,
    /// The number of the next activation.
    pub next: u64,
    /// The lines that were printed.
    pub lines: Vec<Items<u8>>,
    /// Room for the truth values of tests.
    pub truths: Truths,
}

impl<'a> Model for Machine<'a> {
    ghost use Rattle.vx_machine.specs.Meaning as meaning;
    ghost use Rattle.vx_machine.specs.Sound as sound;

    ghost Value = { meaning.Kept };

    ghost view = { λ m. record {
      stacked = m.activations;
      objects = m.objects.items;
      cells = m.cells.items;
      closures = m.closures.items;
      captured = m.captured.items;
      texts = m.texts;
      next = m.next;
      lines = m.lines.items;
    } };

    ghost invariant = { λ m. sound.IsSound (record {
      stacked = m.activations;
      objects = m.objects.items;
      cells = m.cells.items;
      closures = m.closures.items;
      captured = m.captured.items;
      texts = m.texts;
      next = m.next;
      lines = m.lines.items;
    }) };
}

impl<'a> Machine<'a> {
    /// Pushes a number.
    #[inline(always)]
    pub fn int(&mut self, z: &i128) -> Result<Step, AllocError>
        ensures does { (image : Image) → Did image (instrs.Int z.now) result self.old self.new }
        ensures later { IsLater self.old self.new }
    {
        self.activations.push(Word::Int(*z))?;
        Ok(Step::On)
    }

    /// Pushes a string.
    #[inline(always)]
    pub fn text(&mut self, bytes: &'a [u8]) -> Result<Step, AllocError>
        ensures does { (image : Image) → Did image (instrs.Text bytes.entry.now) result self.old self.new }
        ensures later { IsLater self.old self.new }
    {
        self.activations.push(Word::Constant(bytes))?;
        Ok(Step::On)
    }

    /// Pushes an object.
    #[inline(always)]
    pub fn object(&mut self, o: u32) -> Result<Step, AllocError>
        ensures does { (image : Image) → Did image (instrs.Object o) result self.old self.new }
        ensures later { IsLater self.old self.new }
    {
        self.activations.push(Word::Object(o as usize))?;
        Ok(Step::On)
    }

    /// Drops the top.
    #[inline(always)]
    pub fn pop(&mut self) -> Result<Step, AllocError>
        ensures does { (image : Image) → Did image instrs.Pop result self.old self.new }
        ensures later { IsLater self.old self.new }
    {
        match self.activations.pop() {
            None => Ok(Step::Lacks),
            Some(_) => Ok(Step::On),
        }
    }

    /// Pushes the value of a local.
    #[inline(always)]
    pub fn load(&mut self, x: u32) -> Result<Step, AllocError>
        ensures does { (image : Image) → Did image (instrs.Load x) result self.old self.new }
        ensures later { IsLater self.old self.new }
    {
        match self.activations.local(x) {
            None => Ok(Step::Lacks),
            Some(Local::Unset) => Ok(Step::Lacks),
            Some(Local::Cell(_)) => Ok(Step::Lacks),
            Some(Local::Plain(word)) => {
                self.activations.push(word)?;
                Ok(Step::On)
            }
        }
    }

    /// Takes the number of an activation.
    #[inline(always)]
    pub fn mark(&mut self) -> Result<Step, AllocError>
        requires room { self.old.next + 1 < 2 ^ 64 }
        ensures does { (image : Image) → Did image instrs.Mark result self.old self.new }
        ensures later { IsLater self.old self.new }
    {
        self.next += 1;
        Ok(Step::On)
    }

    /// Puts the top into a local.
    #[inline(always)]
    pub fn store(&mut self, x: u32) -> Result<Step, AllocError>
        ensures does { (image : Image) → Did image (instrs.Store x) result self.old self.new }
        ensures later { IsLater self.old self.new }
    {
        match self.activations.pop() {
            None => Ok(Step::Lacks),
            Some(word) => {
                if !self.activations.set_local(x, Local::Plain(word)) {
                    return Ok(Step::Lacks);
                }
                Ok(Step::On)
            }
        }
    }

    /// Pushes what the cell of a local holds.
    #[inline(always)]
    pub fn cell_get(&mut self, x: u32) -> Result<Step, AllocError>
        ensures does { (image : Image) → Did image (instrs.CellGet x) result self.old self.new }
        ensures later { IsLater self.old self.new }
    {
        match self.activations.local(x) {
            None => Ok(Step::Lacks),
            Some(Local::Unset) => Ok(Step::Lacks),
            Some(Local::Plain(_)) => Ok(Step::Lacks),
            Some(Local::Cell(c)) => match self.cells.get(c).copied() {
                None => Ok(Step::Lacks),
                Some(word) => {
                    self.activations.push(word)?;
                    Ok(Step::On)
                }
            },
        }
    }

    /// Puts the top into a new cell, which the local holds.
    #[inline(always)]
    pub fn cell(&mut self, x: u32) -> Result<Step, AllocError>
        ensures does { (image : Image) → Did image (instrs.Cell x) result self.old self.new }
        ensures later { IsLater self.old self.new }
    {
        match self.activations.pop() {
            None => Ok(Step::Lacks),
            Some(word) => {
                let place = self.cells.len();
                if !self.activations.set_local(x, Local::Cell(place)) {
                    return Ok(Step::Lacks);
                }
                self.cells.push(word)?;
                Ok(Step::On)
            }
        }
    }

    /// Puts the top into the cell of a local.
    #[inline(always)]
    pub fn cell_set(&mut self, x: u32) -> Result<Step, AllocError>
        ensures does { (image : Image) → Did image (instrs.CellSet x) result self.old self.new }
        ensures later { IsLater self.old self.new }
    {
        match self.activations.pop() {
            None => Ok(Step::Lacks),
            Some(word) => match self.activations.local(x) {
                None => Ok(Step::Lacks),
                Some(Local::Unset) => Ok(Step::Lacks),
                Some(Local::Plain(_)) => Ok(Step::Lacks),
                Some(Local::Cell(c)) => {
                    if c >= self.cells.len() {
                        return Ok(Step::On);
                    }
                    self.cells[c] = word;
                    Ok(Step::On)
                }
            },
        }
    }
}
