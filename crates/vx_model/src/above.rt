//! What is above a name, without taking memory.
ghost use Rattle.std.specs.Prelude.{◌≡◌, ◌<◌, ◌≤◌, List, [], ◌∷◌, Some, length, slice_get};
ghost use Rattle.vx_syntax.specs.declared.decl.Decl.{Decl};
ghost use Rattle.vx_syntax.specs.Expressions.{Bytes};
ghost use Rattle.vx_program.specs.Program.{IsProgram, leads, parents_of};
ghost use Rattle.vx_model.specs.Order.{is_above};
ghost use Rattle.vx_model.specs.Walks.{Walked, HasRoom, to_do};

use crate::marks::{Marks, PLACES};
use arrayvec::ArrayVec;
use std::marker::Model;
use vx_program::{Program, chains_are_found, parents_of};
use vx_syntax::Decl;

/// The objects and predicates above a name, which contracts see as the program and the name.
#[derive(Drop)]
pub struct Above<'a> {
    program: &'a Program,
    x: &'a [u8],
    marks: Marks,
}

impl<'a> Model for Above<'a> {
    ghost use Rattle.std.specs.Prelude.{ℕ, List};
    ghost use Rattle.std.specs.Coded.{codes};
    ghost use Rattle.vx_syntax.specs.declared.decl.Decl.{Decl};
    ghost use Rattle.vx_syntax.specs.contracts.decl.Decl as decl;
    ghost use Rattle.vx_program.specs.Program.{IsProgram};
    ghost use Rattle.vx_model.specs.Order.{AreAbove};

    ghost Value = { List Decl × List ℕ };

    ghost coded = { Prim.hlevel (codes, decl.the_row.coded) };

    ghost view = { λ a. (a.program.now, a.x.now) };

    ghost invariant = { λ a. IsProgram a.program.now × AreAbove a.program.now a.x.now a.marks };
}

impl<'a> Above<'a> {
    /// Goes up from the name, and looks at each parent of what it comes to once, however many chains lead there.
    pub fn new(program: &'a Program, x: &'a [u8]) -> Above<'a>
        ensures { result ≡ (program.now, x.now) }
    {
        chains_are_found();
        let marks = marked(program, x);
        Above { program, x, marks }
    }

    /// Whether the declaration at the place is an object or a predicate above the name.
    pub fn has(&self, place: usize) -> bool
        ensures { (decl : Decl) → slice_get self.now.0 place ≡ Some decl → result ≡ is_above self.now.0 self.now.1 decl }
    {
        self.marks.has(place)
    }

    /// Whether a chain of parents leads from the name to the other one.
    pub fn leads_to(&self, y: &[u8]) -> bool
        ensures { result ≡ leads self.now.0 self.now.1 y.now }
    {
        chains_are_found();
        if self.x == y {
            return true;
        }
        match self.program.place(y) {
            Some(place) => self.marks.has(place),
            None => false,
        }
    }
}

/// Whether a chain of parents leads from the first name to the second.
pub fn is_above(program: &Program, x: &[u8], y: &[u8]) -> bool
    ensures { result ≡ leads program.now x.now y.now }
{
    chains_are_found();
    if x == y {
        return true;
    }
    Above::new(program, x).leads_to(y)
}

// The places of all that is above the name.
fn marked(program: &Program, x: &[u8]) -> Marks
    ensures walked { Walked program.now x.now result [] [] }
    ensures program { IsProgram program.now }
{
    let decls = program.declarations();
    let mut marks = Marks::none();
    let mut left = ArrayVec::<u16, PLACES>::new();
    come(program, x, &mut marks, &mut left);
    while let Some(place) = left.pop() {
        go_up(program, place as usize, &mut marks, &mut left);
    }
    marks
}

// Comes to the parents of the declaration at the place.
fn go_up(program: &Program, place: usize, marks: &mut Marks, left: &mut ArrayVec<u16, PLACES>)
    requires within { place < length program.now }
    requires room { HasRoom program.now marks.old left.old.items }
    ensures room { HasRoom program.now marks.new left.new.items }
    ensures to_do { to_do program.now marks.new left.new.items ≡ to_do program.now marks.old left.old.items }
    ensures walked { (x : Bytes) (decl : Decl) → slice_get program.now place ≡ Some decl →
        Walked program.now x marks.old left.old.items (parents_of decl) → Walked program.now x marks.new left.new.items [] }
{
    for parent in parents_of(&program.declarations()[place]) {
        come(program, parent.bytes(), marks, left);
    }
}

// Comes to a name. Where its declaration has no mark yet it gets one, and its parents are left to be come to.
fn come(program: &Program, y: &[u8], marks: &mut Marks, left: &mut ArrayVec<u16, PLACES>)
    requires { HasRoom program.now marks.old left.old.items }
    ensures room { HasRoom program.now marks.new left.new.items }
    ensures to_do { to_do program.now marks.new left.new.items ≡ to_do program.now marks.old left.old.items }
    ensures walked { (x : Bytes) (next : List Bytes) → Walked program.now x marks.old left.old.items (y.now ∷ next) →
        Walked program.now x marks.new left.new.items next }
{
    if let Some(place) = program.place(y) {
        if !marks.has(place) {
            marks.mark(place);
            left.push(place as u16);
        }
    }
}
