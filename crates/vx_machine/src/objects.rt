//! Objects: their slots are read and written.
ghost use Rattle.std.specs.Prelude.{◌≡◌, ◌≤◌, ◌<◌, IfOk, length};
ghost use Rattle.vx_format.specs.declared.image.Instr.TheVariants as instrs;
ghost use Rattle.vx_machine.specs.Meaning.{Did, Gets, IsLater, Sets};
ghost use Rattle.vx_machine.specs.Slots.{Changes, held_at, place_from, put_at, word_at};

use crate::machine::Machine;
use crate::ready::Ready;
use crate::word::{Object, Step, Word};
use std::alloc::AllocError;

impl<'a> Machine<'a> {
    /// Pops an object, and pushes what a field of it holds.
    #[inline(always)]
    pub fn get(&mut self, ready: &Ready<'a>, field: u32) -> Result<Step, AllocError>
        ensures does { Did ready.now (instrs.Get field) result self.old self.new }
        ensures later { IsLater self.old self.new }
    {
        if self.activations.operands() < 1 {
            return Ok(Step::Lacks);
        }
        self.get_top(ready, field)
    }

    /// As `get`, where there is an operand.
    #[inline(always)]
    pub fn get_top(&mut self, ready: &Ready<'a>, field: u32) -> Result<Step, AllocError>
        requires { 1 ≤ length self.old.stacked.running.operands }
        ensures does { Gets ready.now field result self.old self.new }
        ensures later { IsLater self.old self.new }
    {
        match self.activations.pop() {
            None => Ok(Step::Lacks),
            Some(Word::Object(o)) => match held(self.objects.as_slice(), o, field) {
                None => Ok(Step::Finds),
                Some(word) => {
                    self.activations.push(word)?;
                    Ok(Step::On)
                }
            },
            Some(Word::Int(_)) => Ok(Step::Finds),
            Some(Word::Constant(_)) => Ok(Step::Finds),
            Some(Word::Text(_)) => Ok(Step::Finds),
            Some(Word::Closure(_)) => Ok(Step::Finds),
        }
    }

    /// Pops a value and an object, puts the value into a field of it, and pushes `nil`.
    pub fn set(&mut self, ready: &Ready<'a>, field: u32) -> Result<Step, AllocError>
        ensures does { Did ready.now (instrs.Set field) result self.old self.new }
        ensures later { IsLater self.old self.new }
    {
        if self.activations.operands() < 2 {
            return Ok(Step::Lacks);
        }
        self.set_top(ready, field)
    }

    /// As `set`, where there are two operands.
    pub fn set_top(&mut self, ready: &Ready<'a>, field: u32) -> Result<Step, AllocError>
        requires { 2 ≤ length self.old.stacked.running.operands }
        ensures does { Sets ready.now field result self.old self.new }
        ensures later { IsLater self.old self.new }
    {
        let Some(word) = self.activations.pop() else {
            return Ok(Step::Lacks);
        };
        match self.activations.pop() {
            None => Ok(Step::Lacks),
            Some(Word::Object(o)) => {
                if !change(&mut self.objects, o, field, word) {
                    return Ok(Step::Finds);
                }
                self.activations
                    .push(Word::Object(ready.image().own.nil as usize))?;
                Ok(Step::On)
            }
            Some(Word::Int(_)) => Ok(Step::Finds),
            Some(Word::Constant(_)) => Ok(Step::Finds),
            Some(Word::Text(_)) => Ok(Step::Finds),
            Some(Word::Closure(_)) => Ok(Step::Finds),
        }
    }
}

/// What the object of the number holds in a field.
#[inline(always)]
pub fn held<'a>(objects: &[Object<'a>], number: usize, field: u32) -> Option<Word<'a>>
    ensures { result ≡ held_at objects.entry.now number field }
{
    match objects.get(number) {
        None => None,
        Some(object) => slot(object.slots.as_slice(), field),
    }
}

// The first slot of a field.
#[inline(always)]
fn slot<'a>(slots: &[(u32, Word<'a>)], field: u32) -> Option<Word<'a>>
    ensures { result ≡ word_at field slots.entry.now }
{
    for slot in slots {
        if slot.0 == field {
            return Some(slot.1);
        }
    }
    None
}

/// The place of the first slot of a field.
pub fn place(slots: &[(u32, Word<'_>)], field: u32) -> Option<usize>
    ensures { result ≡ place_from field 0 slots.entry.now }
{
    for (i, slot) in slots.iter().enumerate() {
        if slot.0 == field {
            return Some(i);
        }
    }
    None
}

// Puts a word into the first slot of a field. It answers whether there is such an object and slot.
fn change<'a>(objects: &mut Vec<Object<'a>>, number: usize, field: u32, word: Word<'a>) -> bool
    ensures { Changes result number field word.entry objects.old.items objects.new.items }
{
    if number >= objects.len() {
        return false;
    }
    match place(objects[number].slots.as_slice(), field) {
        None => false,
        Some(found) => {
            put(&mut objects[number], found, field, word);
            true
        }
    }
}

// Puts a word into the slot at the place.
fn put<'a>(object: &mut Object<'a>, place: usize, field: u32, word: Word<'a>)
    requires { place < length object.old.slots }
    ensures { object.new ≡ put_at place field word.entry object.old }
{
    object.slots.set(place, (field, word));
}
