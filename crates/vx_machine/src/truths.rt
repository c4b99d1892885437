//! Tests of predicates, whose steps work on truth values.
ghost use Rattle.std.specs.Prelude.{◌≡◌, [], ◌∷◌, OnOk, OnErr, IfOk, MatchOption};
ghost use Rattle.std.specs.Option.{option_map};
ghost use Rattle.vx_places.specs.Dispatch.{compares, compared, field_at, holds_in, is_top, is_true_of, ran, stepped};
ghost use Rattle.vx_format.specs.declared.image.Step.TheVariants as s;
ghost use Rattle.vx_machine.specs.Meaning.{Texts, things_of, value_of};

use crate::objects::held;
use crate::word::{Object, Word};
use sqlite_items::at;
use std::alloc::{AllocError, Global};
use std::marker::Model;
use vx_format::{Step, Test};

/// The truth values that the steps of a test left, the last first.
#[derive(Drop)]
pub struct Truths {
    items: Vec<bool>,
}

impl Model for Truths {
    ghost use Rattle.std.specs.Prelude.{Bool, List, reverse};

    ghost Value = { List Bool };

    ghost view = { λ t. reverse t.items.items };
}

impl Truths {
    /// None yet.
    pub fn new(alloc: Global) -> Truths
        ensures { result ≡ [] }
    {
        Truths {
            items: Vec::new(alloc),
        }
    }

    /// Adds one.
    pub fn push(&mut self, truth: bool) -> Result<(), AllocError>
        ensures ok { OnOk result (self.new ≡ truth ∷ self.old) }
        ensures err { OnErr result (self.new ≡ self.old) }
    {
        self.items.push(truth)?;
        Ok(())
    }

    /// Takes the last.
    pub fn pop(&mut self) -> Option<bool>
        ensures { MatchOption result ((self.old ≡ []) × (self.new ≡ self.old)) (λ truth. self.old ≡ truth ∷ self.new) }
    {
        self.items.pop()
    }

    /// Whether there is one and the last is true.
    pub fn is_top(&self) -> bool
        ensures { result ≡ is_top self.now }
    {
        match self.items.last() {
            None => false,
            Some(truth) => *truth,
        }
    }

    /// Forgets all.
    pub fn clear(&mut self)
        ensures { self.new ≡ [] }
    {
        self.items.clear();
    }

    // Joins the last two by and.
    fn and(&mut self) -> Result<(), AllocError>
        ensures { OnOk result ((objects : _) → (value : _) → (fields : _) → self.new ≡ stepped objects value fields self.old s.And) }
    {
        match self.pop() {
            None => Ok(()),
            Some(b) => match self.pop() {
                None => self.push(b),
                Some(a) => self.push(a & b),
            },
        }
    }

    // Joins the last two by or.
    fn or(&mut self) -> Result<(), AllocError>
        ensures { OnOk result ((objects : _) → (value : _) → (fields : _) → self.new ≡ stepped objects value fields self.old s.Or) }
    {
        match self.pop() {
            None => Ok(()),
            Some(b) => match self.pop() {
                None => self.push(b),
                Some(a) => self.push(a | b),
            },
        }
    }

    // Turns the last.
    fn not(&mut self) -> Result<(), AllocError>
        ensures { OnOk result ((objects : _) → (value : _) → (fields : _) → self.new ≡ stepped objects value fields self.old s.Not) }
    {
        match self.pop() {
            None => Ok(()),
            Some(a) => self.push(!a),
        }
    }
}

// Whether the numbers compare so.
fn compares(operator: u8, a: &i128, b: &i128) -> bool
    ensures { result ≡ compares operator a.now b.now }
{
    match operator {
        0 => *a < *b,
        1 => *a <= *b,
        2 => *b < *a,
        3 => *b <= *a,
        _ => *a == *b,
    }
}

// The field that a tested name means.
fn field_at(fields: &[Option<u32>], name: u32) -> Option<u32>
    ensures { result ≡ field_at fields.now name }
{
    match at(fields, name as usize) {
        None => None,
        Some(field) => *field,
    }
}

// Whether the object has a number in the field that compares so.
fn is_true(
    objects: &[Object<'_>],
    word: Word<'_>,
    fields: &[Option<u32>],
    operator: u8,
    name: u32,
    z: &i128,
) -> bool
    ensures { (texts : Texts) → result ≡ is_true_of (things_of texts objects.entry.now) (value_of texts word.entry) fields.now operator name z.now }
{
    match field_at(fields, name) {
        None => false,
        Some(field) => match word {
            Word::Object(o) => compares_slot(held(objects, o, field), operator, z),
            Word::Int(_) => false,
            Word::Constant(_) => false,
            Word::Text(_) => false,
            Word::Closure(_) => false,
        },
    }
}

// Whether what a slot holds is a number that compares so.
fn compares_slot(held: Option<Word<'_>>, operator: u8, z: &i128) -> bool
    ensures { (texts : Texts) → result ≡ compared (option_map (value_of texts) held.entry) operator z.now }
{
    match held {
        Some(Word::Int(a)) => compares(operator, &a, z),
        Some(Word::Constant(_)) => false,
        Some(Word::Text(_)) => false,
        Some(Word::Closure(_)) => false,
        Some(Word::Object(_)) => false,
        None => false,
    }
}

// The steps of a test, on no truth values at first.
fn runs(
    objects: &[Object<'_>],
    word: Word<'_>,
    fields: &[Option<u32>],
    steps: &[Step],
    truths: &mut Truths,
) -> Result<bool, AllocError>
    ensures { IfOk result (λ holds. (texts : Texts)
        → holds ≡ is_top (ran (things_of texts objects.entry.now) (value_of texts word.entry) fields.now [] steps.now)) }
{
    truths.clear();
    for step in steps {
        run_step(objects, word, fields, step, truths)?;
    }
    Ok(truths.is_top())
}

// A step of a test.
fn run_step(
    objects: &[Object<'_>],
    word: Word<'_>,
    fields: &[Option<u32>],
    step: &Step,
    truths: &mut Truths,
) -> Result<(), AllocError>
    ensures { OnOk result ((texts : Texts)
        → truths.new ≡ stepped (things_of texts objects.entry.now) (value_of texts word.entry) fields.now truths.old step.now) }
{
    match step {
        Step::Compare(operator, name, z) => {
            let truth = is_true(objects, word, fields, *operator, *name, z);
            truths.push(truth)
        }
        Step::And => {
            truths.and()?;
            Ok(())
        }
        Step::Or => {
            truths.or()?;
            Ok(())
        }
        Step::Not => {
            truths.not()?;
            Ok(())
        }
    }
}

/// Whether a test holds of an object of the class.
pub fn holds(
    objects: &[Object<'_>],
    word: Word<'_>,
    class: u32,
    test: &Test,
    truths: &mut Truths,
) -> Result<bool, AllocError>
    ensures { IfOk result (λ holds. (texts : Texts)
        → holds ≡ holds_in (things_of texts objects.entry.now) (value_of texts word.entry) test.now.steps class test.now.classes) }
{
    for entry in test.classes.as_slice() {
        if entry.object == class {
            return runs(
                objects,
                word,
                entry.fields.as_slice(),
                test.steps.as_slice(),
                truths,
            );
        }
    }
    Ok(false)
}
