//! Lists of at most as many as a message has arguments.
ghost use Rattle.std.specs.Prelude.{◌≡◌, ◌∷◌, ◌++◌, ◌+◌, ◌<◌, ◌≤◌, [], length, nat_lt, IfOk};
ghost use Rattle.vx_syntax.specs.Expressions.{max_arguments};

use sqlite_items::Items;
use std::alloc::{AllocError, Global};
use std::marker::Model;
use vx_syntax::MAX_ARGUMENTS;

/// The arguments of a call before the one that is read, or what stands for each of them: fewer than a call may have.
/// Contracts see their list.
#[derive(Drop)]
pub struct Arguments<T> {
    given: Items<T>,
}

impl<T> Model for Arguments<T> {
    ghost use Rattle.std.specs.Prelude.{List, length, ◌<◌};
    ghost use Rattle.std.specs.Coded.{coded_list};
    ghost use Rattle.vx_syntax.specs.Expressions.{max_arguments};

    ghost Value = { List T };

    ghost coded = { coded_list T.code };

    ghost view = { λ a. a.given };

    ghost invariant = { λ a. length a.given < max_arguments };
}

impl<T> Arguments<T> {
    /// No arguments yet.
    pub fn new(alloc: Global) -> Arguments<T>
        ensures { result ≡ [] }
    {
        Arguments {
            given: Items::new(alloc),
        }
    }

    /// Whether another argument may follow the one that is read.
    pub fn may_go_on(&self) -> bool
        ensures { result ≡ nat_lt (length self.now + 1) max_arguments }
    {
        self.given.len() + 1 < MAX_ARGUMENTS
    }
}

impl<T: Drop> Arguments<T> {
    /// The arguments with one more, after which another follows.
    pub fn with(self, a: T) -> Result<Arguments<T>, AllocError>
        requires { length self + 1 < max_arguments }
        ensures { IfOk result (λ all. all ≡ self ++ a ∷ []) }
    {
        let Arguments { mut given } = self;
        given.push(a)?;
        Ok(Arguments { given })
    }

    /// The arguments with the last one.
    pub fn with_last(self, a: T) -> Result<Items<T>, AllocError>
        ensures all { IfOk result (λ all. all ≡ self ++ a ∷ []) }
        ensures few { IfOk result (λ all. length all ≤ max_arguments) }
    {
        let Arguments { mut given } = self;
        given.push(a)?;
        Ok(given)
    }
}
