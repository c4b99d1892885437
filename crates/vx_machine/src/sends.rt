//! Sends: what a row leads to, and what is wrong where no row is found.
ghost use Rattle.std.specs.Prelude.{◌≡◌, ◌<◌, ◌≤◌, ◌+◌, ◌^◌, IfOk, IfSome, Some, length, slice_get};
ghost use Rattle.vx_format.specs.declared.image.Does.TheVariants as deeds;
ghost use Rattle.vx_format.specs.declared.image.Image.{Image};
ghost use Rattle.vx_format.specs.declared.image.Instr.TheVariants as instrs;
ghost use Rattle.vx_format.specs.declared.image.Table.{Table};
ghost use Rattle.vx_model.specs.declared.report.RunError.TheVariants as errors;
ghost use Rattle.vx_names.specs.Name.{IsName};
ghost use Rattle.vx_compilation.specs.Activations.{ToError};
ghost use Rattle.vx_places.specs.Dispatch.{clone_for, dispatched};
ghost use Rattle.vx_places.specs.ImageMachine.{arity_of, selector_of, set_name};
ghost use Rattle.vx_machine.specs.Meaning.{Did, IsLater, Reached, Whole, arguments, things_of};
ghost use Rattle.vx_machine.specs.Sending.{Acts, Goes, Leads, is_object, sent_of, target_of, to_code};

use crate::classes::class_of;
use crate::dispatch::taken;
use crate::machine::Machine;
use crate::ready::Ready;
use crate::word::{Led, Step, Word, apart};
use sqlite_items::at;
use std::alloc::{AllocError, Global};
use vx_format::{Does, Split, Table};
use vx_model::RunError;
use vx_names::{Selector, is_letter, name_of};
use vx_tables::Picked;

impl<'a> Machine<'a> {
    // What a table makes of the topmost operands, on from a row where there is one.
    #[inline(always)]
    fn picked(
        &mut self,
        ready: &Ready<'a>,
        t: u32,
        table: &Table,
        below: Option<u8>,
        count: usize,
    ) -> Result<Picked, AllocError>
        requires table { slice_get ready.now.tables t ≡ Some table.now }
        requires row { IfSome below (λ row. row < length table.now.rows) }
        requires enough { count ≤ length self.old.stacked.running.operands }
        ensures picked { IfOk result (λ picked. (all : Whole)
            → picked ≡ dispatched ready.now (things_of all.texts self.old.objects) table.now (arguments all count self.old) below) }
        ensures same { self.new ≡ self.old }
    {
        let words = self.activations.arguments(count);
        let objects = self.objects.as_slice();
        ready.picked(t, table, objects, words, below, &mut self.truths)
    }

    /// Sends a message to a table. A primitive is left to be performed.
    #[inline(always)]
    pub fn send(&mut self, alloc: Global, ready: &Ready<'a>, t: u32) -> Result<Led, AllocError>
        requires room { self.old.next + 1 < 2 ^ 64 }
        ensures does { Acts ready.now (instrs.Send t) (arity_of ready.now t) result self.old self.new }
        ensures later { IsLater self.old self.new }
    {
        let Some(table) = ready.table(t) else {
            return Ok(Led::Done(Step::Lacks));
        };
        if self.activations.operands() < table.arity as usize {
            return Ok(Led::Done(Step::Lacks));
        }
        self.find(alloc, ready, t, table, None)
    }

    /// Sends a message on from a row of a table. A primitive is left to be performed.
    pub fn resend(
        &mut self,
        alloc: Global,
        ready: &Ready<'a>,
        t: u32,
        row: u8,
    ) -> Result<Led, AllocError>
        requires room { self.old.next + 1 < 2 ^ 64 }
        ensures does { Acts ready.now (instrs.Resend t row) (arity_of ready.now t) result self.old self.new }
        ensures later { IsLater self.old self.new }
    {
        let Some(table) = ready.table(t) else {
            return Ok(Led::Done(Step::Lacks));
        };
        if self.activations.operands() < table.arity as usize {
            return Ok(Led::Done(Step::Lacks));
        }
        if row as usize >= table.rows.len() {
            return Ok(Led::Done(Step::Lacks));
        }
        self.find(alloc, ready, t, table, Some(row))
    }

    /// Sends a message to a table, and performs the primitive that it finds, if it is one.
    #[inline(always)]
    pub fn perform_send(
        &mut self,
        alloc: Global,
        ready: &Ready<'a>,
        t: u32,
    ) -> Result<Step, AllocError>
        requires room { self.old.next + 1 < 2 ^ 64 }
        ensures does { Did ready.now (instrs.Send t) result self.old self.new }
        ensures later { IsLater self.old self.new }
    {
        match self.send(alloc, ready, t)? {
            Led::Done(step) => Ok(step),
            Led::Perform(number) => self.perform_top(alloc, ready, number, arity_of(ready, t)),
        }
    }

    /// Sends a message on from a row of a table, and performs the primitive that it finds, if it is one.
    pub fn perform_resend(
        &mut self,
        alloc: Global,
        ready: &Ready<'a>,
        t: u32,
        row: u8,
    ) -> Result<Step, AllocError>
        requires room { self.old.next + 1 < 2 ^ 64 }
        ensures does { Did ready.now (instrs.Resend t row) result self.old self.new }
        ensures later { IsLater self.old self.new }
    {
        match self.resend(alloc, ready, t, row)? {
            Led::Done(step) => Ok(step),
            Led::Perform(number) => self.perform_top(alloc, ready, number, arity_of(ready, t)),
        }
    }

    /// Finds a row for the topmost operands, on from a row where there is one, and does what it says.
    #[inline(always)]
    pub fn find(
        &mut self,
        alloc: Global,
        ready: &Ready<'a>,
        t: u32,
        table: &Table,
        below: Option<u8>,
    ) -> Result<Led, AllocError>
        requires table { slice_get ready.now.tables t ≡ Some table.now }
        requires row { IfSome below (λ row. row < length table.now.rows) }
        requires enough { table.now.arity ≤ length self.old.stacked.running.operands }
        requires name { IsName table.now.name }
        requires room { self.old.next + 1 < 2 ^ 64 }
        ensures does { Leads ready.now (sent_of ready.now table.now below self.old) table.now.arity result self.old self.new }
        ensures later { IsLater self.old self.new }
    {
        let count = table.arity as usize;
        match self.picked(ready, t, table, below, count)? {
            Picked::None => Ok(Led::Done(self.not_understood(alloc, table)?)),
            Picked::Many => Ok(Led::Done(self.ambiguous(alloc, table)?)),
            Picked::Row(row) => match at(table.rows.as_slice(), row as usize) {
                None => Ok(Led::Done(Step::Lacks)),
                Some(row) => self.lead(alloc, ready, table, &row.does, count),
            },
        }
    }

    // Does what a row says with the topmost operands, but performs no primitive.
    #[inline(always)]
    fn lead(
        &mut self,
        alloc: Global,
        ready: &Ready<'a>,
        table: &Table,
        deed: &Does,
        count: usize,
    ) -> Result<Led, AllocError>
        requires enough { count ≤ length self.old.stacked.running.operands }
        requires name { IsName table.now.name }
        requires room { self.old.next + 1 < 2 ^ 64 }
        ensures does { Leads ready.now (λ all. target_of ready.now table.now deed.now all count self.old) count result self.old self.new }
        ensures later { IsLater self.old self.new }
    {
        match deed {
            Does::Prim(number) => Ok(Led::Perform(*number)),
            Does::Code(code, split) => match split {
                None => Ok(Led::Done(self.enter(ready, *code, count)?)),
                Some(split) => Ok(Led::Done(self.split(ready, *code, split, count)?)),
            },
            Does::Get(field) => Ok(Led::Done(self.get_of(alloc, ready, *field, table, count)?)),
            Does::Set(field) => Ok(Led::Done(self.set_of(alloc, ready, *field, table, count)?)),
        }
    }

    // The code that a row enters for the class of an argument, or nothing where there is no such argument.
    #[inline(always)]
    fn cloned(&self, ready: &Ready<'a>, code: u32, split: &Split, count: usize) -> Option<u32>
        requires { count ≤ length self.now.stacked.running.operands }
        ensures { (all : Whole) → (table : Table) → target_of ready.now table (deeds.Code code (Some split.now)) all count self.now ≡ to_code result }
    {
        let words = self.activations.arguments(count);
        match taken(words, split.position as usize) {
            None => None,
            Some(word) => {
                let class = class_of(&ready.image().own, self.objects.as_slice(), word);
                Some(clone_for(code, class, split.pairs.as_slice()))
            }
        }
    }

    /// Enters the code of a row that depends on the class of an argument.
    #[inline(always)]
    pub fn split(
        &mut self,
        ready: &Ready<'a>,
        code: u32,
        split: &Split,
        count: usize,
    ) -> Result<Step, AllocError>
        requires enough { count ≤ length self.old.stacked.running.operands }
        requires room { self.old.next + 1 < 2 ^ 64 }
        ensures does { (table : Table) → Goes ready.now table (deeds.Code code (Some split.now)) count result self.old self.new }
        ensures later { IsLater self.old self.new }
    {
        match self.cloned(ready, code, split, count) {
            None => Ok(Step::Lacks),
            Some(code) => self.enter(ready, code, count),
        }
    }

    // Whether the operand that has so many above it is an object.
    #[inline(always)]
    fn is_object(&self, depth: usize) -> bool
        ensures { result ≡ is_object (slice_get self.now.stacked.running.operands depth) }
    {
        match self.activations.peek(depth) {
            None => false,
            Some(Word::Object(_)) => true,
            Some(Word::Int(_)) => false,
            Some(Word::Constant(_)) => false,
            Some(Word::Text(_)) => false,
            Some(Word::Closure(_)) => false,
        }
    }

    /// Reads a field of the argument, as a row says.
    #[inline(always)]
    pub fn get_of(
        &mut self,
        alloc: Global,
        ready: &Ready<'a>,
        field: u32,
        table: &Table,
        count: usize,
    ) -> Result<Step, AllocError>
        requires enough { count ≤ length self.old.stacked.running.operands }
        requires name { IsName table.now.name }
        ensures does { Goes ready.now table.now (deeds.Get field) count result self.old self.new }
        ensures later { IsLater self.old self.new }
    {
        if count != 1 {
            return Ok(Step::Lacks);
        }
        if !self.is_object(0) {
            let name = name_of(alloc, table.name.as_slice())?;
            return Ok(Step::Stops(apart(alloc, RunError::NoField(name))?));
        }
        self.get_top(ready, field)
    }

    /// Writes a field of the first argument, as a row says.
    pub fn set_of(
        &mut self,
        alloc: Global,
        ready: &Ready<'a>,
        field: u32,
        table: &Table,
        count: usize,
    ) -> Result<Step, AllocError>
        requires enough { count ≤ length self.old.stacked.running.operands }
        requires name { IsName table.now.name }
        ensures does { Goes ready.now table.now (deeds.Set field) count result self.old self.new }
        ensures later { IsLater self.old self.new }
    {
        if count != 2 {
            return Ok(Step::Lacks);
        }
        if !self.is_object(1) {
            let name = name_of(alloc, set_name(table.name.as_slice()))?;
            return Ok(Step::Stops(apart(alloc, RunError::NoField(name))?));
        }
        self.set_top(ready, field)
    }

    /// The run stops: no row of the table takes the arguments.
    #[inline(never)]
    pub fn not_understood(&self, alloc: Global, table: &Table) -> Result<Step, AllocError>
        requires { IsName table.now.name }
        ensures { (image : Image) → (count : _) → Reached image (ToError (errors.NotUnderstood (selector_of table.now))) count result self.now self.now }
    {
        let selector = selector(alloc, table)?;
        Ok(Step::Stops(apart(alloc, RunError::NotUnderstood(selector))?))
    }

    /// The run stops: more than one row of the table takes the arguments.
    #[inline(never)]
    pub fn ambiguous(&self, alloc: Global, table: &Table) -> Result<Step, AllocError>
        requires { IsName table.now.name }
        ensures { (image : Image) → (count : _) → Reached image (ToError (errors.Ambiguous (selector_of table.now))) count result self.now self.now }
    {
        let selector = selector(alloc, table)?;
        Ok(Step::Stops(apart(alloc, RunError::Ambiguous(selector))?))
    }
}

// How many operands a table takes, or none where it is missing.
#[inline(always)]
fn arity_of(ready: &Ready<'_>, t: u32) -> usize
    ensures { result ≡ arity_of ready.now t }
{
    match ready.table(t) {
        None => 0,
        Some(table) => table.arity as usize,
    }
}

/// The code for a class, its first entry counting, or the row's own.
#[inline(always)]
pub fn clone_for(code: u32, class: Option<u32>, pairs: &[(u32, u32)]) -> u32
    ensures { result ≡ clone_for code class pairs.now }
{
    let Some(own) = class else {
        return code;
    };
    for pair in pairs {
        if pair.0 == own {
            return pair.1;
        }
    }
    code
}

/// The name of the field that a table sets: without `set_` before a letter.
pub fn set_name(name: &[u8]) -> &[u8]
    requires { IsName name.now }
    ensures field { result.now ≡ set_name name.now }
    ensures name { IsName result.now }
{
    if name.len() <= 4 {
        return name;
    }
    let (first, rest) = name.split_at(4);
    if first == b"set_".as_slice() && is_letter(name[4]) {
        rest
    } else {
        name
    }
}

/// The selector of a table.
pub fn selector(alloc: Global, table: &Table) -> Result<Selector, AllocError>
    requires { IsName table.now.name }
    ensures { IfOk result (λ selector. selector ≡ selector_of table.now) }
{
    let name = name_of(alloc, table.name.as_slice())?;
    Ok(Selector {
        name,
        arity: table.arity,
    })
}
