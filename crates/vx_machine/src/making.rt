//! The instruction that makes an object.
ghost use Rattle.std.specs.Prelude.{◌≡◌, ℕ, true, IfOk, length, map};
ghost use Rattle.vx_format.specs.declared.image.Instr.TheVariants as instrs;
ghost use Rattle.vx_places.specs.ImageMachine.{fresh, start_value};
ghost use Rattle.vx_machine.specs.Making.{filled_words, has_slots, slot_value};
ghost use Rattle.vx_machine.specs.Meaning.{Did, IsLater, Texts, value_of};
ghost use Rattle.vx_machine.specs.Sound.{AreSlotsSound, AreWordsSound, IsWordSound};

use crate::machine::Machine;
use crate::objects::place;
use crate::ready::Ready;
use crate::word::{Object, Step, Word};
use sqlite_items::Items;
use std::alloc::{AllocError, Global};
use vx_format::{Initial, Own, Slot};

impl<'a> Machine<'a> {
    /// Pops a value for each of the fields, and pushes a new object of the class that has them in its slots.
    #[inline(never)]
    pub fn make(
        &mut self,
        alloc: Global,
        ready: &Ready<'a>,
        class: u32,
        fields: &[u32],
    ) -> Result<Step, AllocError>
        ensures does { Did ready.now (instrs.New class fields.now) result self.old self.new }
        ensures later { IsLater self.old self.new }
    {
        let count = fields.len();
        if self.activations.operands() < count {
            return Ok(Step::Lacks);
        }
        let Some(shape) = ready.shape(class) else {
            return Ok(Step::Lacks);
        };
        let mut slots = opened(alloc, &ready.image().own, shape.as_slice())?;
        if !fill(&mut slots, fields, self.activations.arguments(count)) {
            return Ok(Step::Finds);
        }
        let place = self.objects.len();
        self.objects.push(Object { class, slots })?;
        self.activations.forget(count);
        self.activations.push(Word::Object(place))?;
        Ok(Step::On)
    }
}

// What a slot holds at first.
fn start<'a>(own: &Own, start: &'a Initial) -> Word<'a>
    ensures means { (texts : Texts) → value_of texts result ≡ start_value own.now start.entry.now }
    ensures sound { (texts : ℕ) → IsWordSound texts result }
{
    match start {
        Initial::Nil => Word::Object(own.nil as usize),
        Initial::False => Word::Object(own.false_ as usize),
        Initial::True => Word::Object(own.true_ as usize),
        Initial::Int(z) => Word::Int(*z),
        Initial::Text(bytes) => Word::Constant(bytes.as_slice()),
    }
}

/// The slots of an object, each with what it holds at first.
pub fn opened<'a>(
    alloc: Global,
    own: &Own,
    shape: &'a [Slot],
) -> Result<Items<(u32, Word<'a>)>, AllocError>
    ensures means { IfOk result (λ slots. (texts : Texts) → map (slot_value texts) slots ≡ fresh own.now shape.entry.now) }
    ensures sound { IfOk result (λ slots. (texts : ℕ) → AreSlotsSound texts slots) }
{
    let mut slots = Items::new(alloc);
    for slot in shape {
        slots.push((slot.field, start(own, &slot.start)))?;
    }
    Ok(slots)
}

// Puts the words into the slots of the fields, one after another. It answers whether each field has a slot.
fn fill<'a>(slots: &mut Items<(u32, Word<'a>)>, fields: &[u32], words: &[Word<'a>]) -> bool
    requires { length words.now ≡ length fields.now }
    ensures has { result ≡ has_slots fields.now slots.old }
    ensures filled { result ≡ true → slots.new ≡ filled_words fields.now words.entry.now slots.old }
    ensures sound { (texts : ℕ) → AreWordsSound texts words.entry.now → AreSlotsSound texts slots.old → AreSlotsSound texts slots.new }
{
    for (i, field) in fields.iter().enumerate() {
        match place(slots.as_slice(), *field) {
            None => return false,
            Some(found) => slots.set(found, (*field, words[i])),
        }
    }
    true
}
