//! Marks on the places of declarations.
ghost use Rattle.std.specs.Prelude.{◌≡◌, ◌<◌, ℕ, false, true, get_or, set, length};

use std::marker::Model;
use vx_program::MAX_DECLARATIONS;

/// The most declarations that a program has, with the prelude's.
pub const PLACES: usize = 4_118;

/// A mark for each place, which contracts see as a list. They lie in the value itself and take no memory.
#[derive(Drop)]
pub struct Marks {
    marks: [bool; PLACES],
}

impl Model for Marks {
    ghost use Rattle.std.specs.Prelude.{Bool, List};

    ghost Value = { List Bool };

    ghost view = { λ m. m.marks };
}

impl Marks {
    /// No place is marked.
    pub fn none() -> Marks
        ensures none { (place : ℕ) → get_or result place false ≡ false }
        ensures places { length result ≡ PLACES }
    {
        Marks {
            marks: [false; PLACES],
        }
    }

    /// Whether the place is marked.
    pub fn has(&self, place: usize) -> bool
        ensures { result ≡ get_or self.now place false }
    {
        place < PLACES && self.marks[place]
    }

    /// Marks the place.
    pub fn mark(&mut self, place: usize)
        requires { place < PLACES }
        ensures { self.new ≡ set self.old place true }
    {
        self.marks[place] = true;
    }
}
