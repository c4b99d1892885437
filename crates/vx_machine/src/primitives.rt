//! Primitives.
ghost use Rattle.std.specs.Prelude.{◌≡◌, ℕ, ◌≤◌, ◌+◌, [], ◌∷◌, Bool, IfOk, length, slice_get};
ghost use Rattle.std.specs.Option.{option_map};
ghost use Rattle.vx_format.specs.declared.image.Image.{Image};
ghost use Rattle.vx_model.specs.declared.value.Value.{Value};
ghost use Rattle.vx_model.specs.Primitives.{counts, evaluate, joined, numbered, performed, print_number, repeat, same_value, two_numbers, two_strings};
ghost use Rattle.vx_compilation.specs.Activations.{ToPrimitive};
ghost use Rattle.vx_places.specs.ImageMachine.{count_of, truth};
ghost use Rattle.vx_format.specs.declared.image.Instr.TheVariants as instrs;
ghost use Rattle.vx_machine.specs.Meaning.{Did, IsLater, Reached, Texts, value_of};
ghost use Rattle.vx_machine.specs.Cuts.{Extends};
ghost use Rattle.vx_machine.specs.Sound.{IsWordSound};
ghost use Rattle.vx_machine.specs.Deeds.{Answers, IsAnswerSound, Performs, bytes_of, closure_of, deed_of, joins, printed, same_plain, two_of};

use crate::machine::Machine;
use crate::ready::Ready;
use crate::word::{Step, Word, apart};
use sqlite_items::Items;
use std::alloc::{AllocError, Global};
use vx_model::{NoNumber, RunError, STRING_BYTES, difference, product, quotient, rest, sum};

/// What a primitive comes to that changes nothing but the operands.
#[derive(Drop)]
pub enum Answer<'a> {
    /// It answers.
    Word(Word<'a>),
    /// It fails.
    Breaks(RunError),
    /// It found an operand of a wrong class.
    Finds,
}

/// What two words come to when they are joined.
#[derive(Drop)]
pub enum Joined {
    /// A string.
    Text(Items<u8>),
    /// One that is too long.
    TooLong,
    /// They are no two strings.
    Finds,
}

impl<'a> Machine<'a> {
    // Performs a primitive of two operands, which makes no string.
    #[inline(always)]
    fn two(&mut self, alloc: Global, ready: &Ready<'a>, number: u8) -> Result<Step, AllocError>
        requires operands { 2 ≤ length self.old.stacked.running.operands }
        requires number { number ≤ 9 }
        requires other { number ≡ 8 → ⊥ }
        ensures does { Performs ready.now (performed (truth ready.now.own) number) 2 result self.old self.new }
        ensures later { IsLater self.old self.new }
    {
        let Some(b) = self.activations.pop() else {
            return Ok(Step::Lacks);
        };
        let Some(a) = self.activations.pop() else {
            return Ok(Step::Lacks);
        };
        match answer_of(ready, self.texts.as_slice(), number, a, b) {
            Answer::Word(word) => {
                self.activations.push(word)?;
                Ok(Step::On)
            }
            Answer::Breaks(error) => Ok(Step::Stops(apart(alloc, error)?)),
            Answer::Finds => Ok(Step::Finds),
        }
    }

    // Prints a line and answers `nil`.
    #[inline(never)]
    fn print(&mut self, alloc: Global, ready: &Ready<'a>, number: u8) -> Result<Step, AllocError>
        requires operands { 1 ≤ length self.old.stacked.running.operands }
        requires from { 10 ≤ number }
        requires upto { number ≤ 11 }
        ensures does { Performs ready.now (performed (truth ready.now.own) number) 1 result self.old self.new }
        ensures later { IsLater self.old self.new }
    {
        let Some(word) = self.activations.pop() else {
            return Ok(Step::Lacks);
        };
        match line_of(alloc, self.texts.as_slice(), number, word)? {
            None => Ok(Step::Finds),
            Some(line) => {
                self.lines.push(line)?;
                self.activations
                    .push(Word::Object(ready.image().own.nil as usize))?;
                Ok(Step::On)
            }
        }
    }

    // Evaluates the closure that lies below its arguments.
    #[inline(always)]
    fn evaluate_top(
        &mut self,
        alloc: Global,
        ready: &Ready<'a>,
        count: u8,
    ) -> Result<Step, AllocError>
        requires { count + 1 ≤ length self.old.stacked.running.operands }
        ensures does { Performs ready.now evaluate (count + 1) result self.old self.new }
        ensures later { IsLater self.old self.new }
    {
        let Some(word) = self.activations.peek(count as usize) else {
            return Ok(Step::Lacks);
        };
        match closure_of(word) {
            Some(closure) => self.evaluate(alloc, ready, closure, count),
            None => Ok(Step::Finds),
        }
    }

    // Repeats the closure that is on top.
    fn repeat_top(&mut self, alloc: Global, ready: &Ready<'a>) -> Result<Step, AllocError>
        requires { 1 ≤ length self.old.stacked.running.operands }
        ensures does { Performs ready.now repeat 1 result self.old self.new }
        ensures later { IsLater self.old self.new }
    {
        let Some(word) = self.activations.peek(0) else {
            return Ok(Step::Lacks);
        };
        match closure_of(word) {
            Some(closure) => self.repeat(alloc, ready, closure),
            None => Ok(Step::Finds),
        }
    }

    // Joins two strings.
    #[inline(never)]
    fn join(&mut self, alloc: Global) -> Result<Step, AllocError>
        requires { 2 ≤ length self.old.stacked.running.operands }
        ensures does { (image : Image) → Performs image (performed (truth image.own) 8) 2 result self.old self.new }
        ensures later { IsLater self.old self.new }
    {
        let Some(b) = self.activations.pop() else {
            return Ok(Step::Lacks);
        };
        let Some(a) = self.activations.pop() else {
            return Ok(Step::Lacks);
        };
        match join_of(alloc, self.texts.as_slice(), a, b)? {
            Joined::Finds => Ok(Step::Finds),
            Joined::TooLong => Ok(Step::Stops(apart(alloc, RunError::StringLimit)?)),
            Joined::Text(bytes) => {
                let place = self.texts.len();
                self.texts.push(bytes)?;
                self.activations.push(Word::Text(place))?;
                Ok(Step::On)
            }
        }
    }

    // Performs the primitive of the number, whose operands are there.
    #[inline(always)]
    fn perform(&mut self, alloc: Global, ready: &Ready<'a>, number: u8) -> Result<Step, AllocError>
        requires known { number ≤ 17 }
        requires operands { count_of number ≤ length self.old.stacked.running.operands }
        ensures does { Performs ready.now (performed (truth ready.now.own) number) (count_of number) result self.old self.new }
        ensures later { IsLater self.old self.new }
    {
        match number {
            8 => self.join(alloc),
            10 => self.print(alloc, ready, 10),
            11 => self.print(alloc, ready, 11),
            12 => self.evaluate_top(alloc, ready, 0),
            13 => self.evaluate_top(alloc, ready, 1),
            14 => self.evaluate_top(alloc, ready, 2),
            15 => self.evaluate_top(alloc, ready, 3),
            16 => self.evaluate_top(alloc, ready, 4),
            17 => self.repeat_top(alloc, ready),
            _ => self.two(alloc, ready, number),
        }
    }

    /// Performs the primitive of the number, if it takes so many operands.
    #[inline(always)]
    pub fn perform_top(
        &mut self,
        alloc: Global,
        ready: &Ready<'a>,
        number: u8,
        count: usize,
    ) -> Result<Step, AllocError>
        requires { count ≤ length self.old.stacked.running.operands }
        ensures does { Reached ready.now (ToPrimitive number) count result self.old self.new }
        ensures later { IsLater self.old self.new }
    {
        let Some(wanted) = wanted(number) else {
            return Ok(Step::Lacks);
        };
        if wanted != count {
            return Ok(Step::Lacks);
        }
        self.perform(alloc, ready, number)
    }

    /// Performs the primitive that an instruction names.
    #[inline(always)]
    pub fn prim(&mut self, alloc: Global, ready: &Ready<'a>, number: u8) -> Result<Step, AllocError>
        ensures does { Did ready.now (instrs.Prim number) result self.old self.new }
        ensures later { IsLater self.old self.new }
    {
        let count = count_of(number);
        if self.activations.operands() < count {
            return Ok(Step::Lacks);
        }
        self.perform_top(alloc, ready, number, count)
    }
}

// How many operands an instruction takes for the primitive of the number: none where there is no such primitive.
#[inline(always)]
fn count_of(number: u8) -> usize
    ensures { result ≡ count_of number }
{
    match wanted(number) {
        None => 0,
        Some(count) => count,
    }
}

// How many operands the primitive of the number takes.
#[inline(always)]
fn wanted(number: u8) -> Option<usize>
    ensures { result ≡ slice_get counts number }
{
    match number {
        10 => Some(1),
        11 => Some(1),
        12 => Some(1),
        13 => Some(2),
        14 => Some(3),
        15 => Some(4),
        16 => Some(5),
        17 => Some(1),
        0..=9 => Some(2),
        _ => None,
    }
}

// What a primitive makes of two words.
#[inline(always)]
fn answer_of<'a>(
    ready: &Ready<'a>,
    texts: &[Items<u8>],
    number: u8,
    a: Word<'a>,
    b: Word<'a>,
) -> Answer<'a>
    requires number { number ≤ 9 }
    requires other { number ≡ 8 → ⊥ }
    requires first { IsWordSound (length texts.now) a }
    requires second { IsWordSound (length texts.now) b }
    ensures is { Answers texts.now (performed (truth ready.now.own) number) a.entry b.entry result }
    ensures sound { IsAnswerSound result }
{
    match number {
        7 => same_string(ready, texts, a, b),
        9 => Answer::Word(truth(ready, same_value(texts, a, b))),
        _ => number_of(ready, number, a, b),
    }
}

// Whether two strings have the same bytes.
#[inline(never)]
fn same_string<'a>(ready: &Ready<'a>, texts: &[Items<u8>], a: Word<'a>, b: Word<'a>) -> Answer<'a>
    requires first { IsWordSound (length texts.now) a }
    requires second { IsWordSound (length texts.now) b }
    ensures is { Answers texts.now (performed (truth ready.now.own) 7) a.entry b.entry result }
    ensures sound { IsAnswerSound result }
{
    match two_strings(texts, a, b) {
        Some((a, b)) => Answer::Word(truth(ready, a == b)),
        None => Answer::Finds,
    }
}

// Whether two words are the same number, the same bytes, the same closure or the same object.
#[inline(never)]
fn same_value<'a>(texts: &[Items<u8>], a: Word<'a>, b: Word<'a>) -> bool
    requires first { IsWordSound (length texts.now) a }
    requires second { IsWordSound (length texts.now) b }
    ensures { (all : Texts) → Extends texts.now all → result ≡ same_value (value_of all a.entry) (value_of all b.entry) }
{
    match two_strings(texts, a, b) {
        Some((a, b)) => a == b,
        None => same_plain(a, b),
    }
}

// Whether two words are the same number, closure or object.
fn same_plain(a: Word<'_>, b: Word<'_>) -> bool
    ensures { (texts : Texts) → result ≡ same_plain (value_of texts a.entry) (value_of texts b.entry) }
{
    match (a, b) {
        (Word::Int(a), Word::Int(b)) => a == b,
        (Word::Closure(a), Word::Closure(b)) => a == b,
        (Word::Object(a), Word::Object(b)) => a == b,
        _ => false,
    }
}

// The bytes of two strings.
fn two_strings<'b>(texts: &'b [Items<u8>], a: Word<'b>, b: Word<'b>) -> Option<(&'b [u8], &'b [u8])>
    requires first { IsWordSound (length texts.now) a }
    requires second { IsWordSound (length texts.now) b }
    ensures { (all : Texts) → Extends texts.entry.now all
        → option_map (λ ab. (ab.0.now, ab.1.now)) result ≡ two_strings (two_of all a.entry b.entry) }
{
    match (bytes_of(texts, a), bytes_of(texts, b)) {
        (Some(a), Some(b)) => Some((a, b)),
        _ => None,
    }
}

// The bytes of a string.
fn bytes_of<'b>(texts: &'b [Items<u8>], word: Word<'b>) -> Option<&'b [u8]>
    requires { IsWordSound (length texts.now) word }
    ensures { (all : Texts) → Extends texts.entry.now all → option_map (λ b. b.now) result ≡ bytes_of (value_of all word.entry) }
{
    match word {
        Word::Constant(bytes) => Some(bytes),
        Word::Text(place) => Some(texts[place].as_slice()),
        Word::Int(_) => None,
        Word::Closure(_) => None,
        Word::Object(_) => None,
    }
}

// The closure that a word is.
#[inline(always)]
fn closure_of(word: Word<'_>) -> Option<usize>
    ensures { result ≡ closure_of word.entry }
{
    match word {
        Word::Closure(closure) => Some(closure),
        _ => None,
    }
}

// What a primitive of two numbers makes of two words.
#[inline(always)]
fn number_of<'a>(ready: &Ready<'a>, number: u8, a: Word<'a>, b: Word<'a>) -> Answer<'a>
    requires { number ≤ 6 }
    ensures sound { IsAnswerSound result }
    ensures is { (texts : Texts) → deed_of texts result ≡ performed (truth ready.now.own) number (two_of texts a.entry b.entry) }
{
    let Some((a, b)) = two_numbers(a, b) else {
        return Answer::Finds;
    };
    match number {
        0 => numbered(sum(a, b)),
        1 => numbered(difference(a, b)),
        2 => numbered(product(a, b)),
        3 => numbered(quotient(a, b)),
        4 => numbered(rest(a, b)),
        5 => Answer::Word(truth(ready, a < b)),
        _ => Answer::Word(truth(ready, a == b)),
    }
}

// What a primitive that prints makes of a word.
fn line_of(
    alloc: Global,
    texts: &[Items<u8>],
    number: u8,
    word: Word<'_>,
) -> Result<Option<Items<u8>>, AllocError>
    requires from { 10 ≤ number }
    requires upto { number ≤ 11 }
    requires sound { IsWordSound (length texts.now) word }
    ensures { IfOk result (λ line. (all : Texts) (truths : Bool → Value) → Extends texts.now all
        → printed line ≡ performed truths number (value_of all word.entry ∷ [])) }
{
    if number == 10 {
        return number_line(alloc, word);
    }
    match bytes_of(texts, word) {
        None => Ok(None),
        Some(bytes) => Ok(Some(Items::from_slice(alloc, bytes)?)),
    }
}

// A number as a line.
fn number_line(alloc: Global, word: Word<'_>) -> Result<Option<Items<u8>>, AllocError>
    ensures { IfOk result (λ line. (all : Texts) → printed line ≡ print_number (value_of all word.entry ∷ [])) }
{
    match word {
        Word::Int(n) => {
            let mut line = Vec::new(alloc);
            line.extend_from_slice(format!(in alloc; "{n}")?.as_bytes())?;
            Ok(Some(Items::from_vec(line)))
        }
        _ => Ok(None),
    }
}

// What two words come to when they are joined.
fn join_of(
    alloc: Global,
    texts: &[Items<u8>],
    a: Word<'_>,
    b: Word<'_>,
) -> Result<Joined, AllocError>
    requires first { IsWordSound (length texts.now) a }
    requires second { IsWordSound (length texts.now) b }
    ensures { IfOk result (λ what. (all : Texts) (truths : Bool → Value) → Extends texts.now all
        → joins what ≡ performed truths 8 (two_of all a.entry b.entry)) }
{
    match two_strings(texts, a, b) {
        None => Ok(Joined::Finds),
        Some((a, b)) => appended(alloc, a, b),
    }
}

// Two strings, one after the other.
fn appended(alloc: Global, a: &[u8], b: &[u8]) -> Result<Joined, AllocError>
    ensures { IfOk result (λ what. joins what ≡ joined a.now b.now) }
{
    if a.len() > STRING_BYTES || b.len() > STRING_BYTES - a.len() {
        return Ok(Joined::TooLong);
    }
    let mut bytes = Vec::from_slice(alloc, a)?;
    bytes.extend_from_slice(b)?;
    Ok(Joined::Text(Items::from_vec(bytes)))
}

// The two numbers that two words are.
#[inline(always)]
fn two_numbers(a: Word<'_>, b: Word<'_>) -> Option<(i128, i128)>
    ensures { (texts : Texts) → result ≡ two_numbers (two_of texts a.entry b.entry) }
{
    match (a, b) {
        (Word::Int(a), Word::Int(b)) => Some((a, b)),
        _ => None,
    }
}

// What comes of a number, or of why there is none.
#[inline(always)]
fn numbered<'a>(number: Result<i128, NoNumber>) -> Answer<'a>
    ensures sound { IsAnswerSound result }
    ensures is { (texts : Texts) → deed_of texts result ≡ numbered number }
{
    match number {
        Ok(n) => Answer::Word(Word::Int(n)),
        Err(NoNumber::TooLarge) => Answer::Breaks(RunError::Overflow),
        Err(NoNumber::ByZero) => Answer::Breaks(RunError::DivideByZero),
    }
}

// The object that a truth value is.
#[inline(always)]
fn truth<'a>(ready: &Ready<'a>, holds: bool) -> Word<'a>
    ensures sound { (texts : ℕ) → IsWordSound texts result }
    ensures is { (texts : Texts) → value_of texts result ≡ truth ready.now.own holds }
{
    let own = &ready.image().own;
    if holds {
        Word::Object(own.true_ as usize)
    } else {
        Word::Object(own.false_ as usize)
    }
}
