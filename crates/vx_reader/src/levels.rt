//! How deep a token lies in brackets and operators.
ghost use Rattle.std.specs.Prelude.{◌≡◌, ◌≤◌, ◌∷◌, ℕ, List, IfOk};
ghost use Rattle.vx_syntax.specs.Depth as spec;
ghost use Rattle.vx_syntax.specs.Expressions.{is_among};
ghost use Rattle.vx_syntax.specs.Tests.{joining_words};
ghost use Rattle.vx_reader.specs.OpenLevels.{all, Adds};

use std::alloc::{AllocError, Global};
use vx_bodies::Stack;
use vx_names::Name;
use vx_syntax::{Keyword, Mark, Token, is_joining};

/// The most that a token may lie deep.
pub const MOST_DEPTH: u64 = 512;

/// The open levels, each with the number of its operators so far, and how deep a token lies that begins there.
#[derive(Drop)]
pub struct Levels {
    /// The count of the innermost level.
    pub inner: u64,
    /// The counts of those outside it, the nearest first.
    pub outside: Stack<u64>,
    /// One for each open bracket and for each operator of an open level.
    pub depth: u64,
}

impl Levels {
    /// The block itself, without operators.
    pub fn new(alloc: Global) -> Levels
        ensures all { all result ≡ spec.first_levels }
        ensures adds { Adds result }
    {
        Levels {
            inner: 0,
            outside: Stack::new(alloc),
            depth: 0,
        }
    }

    // A bracket opens a level.
    fn open(mut self) -> Result<Levels, AllocError>
        requires adds { Adds self }
        requires low { self.depth ≤ spec.max_depth }
        ensures all { IfOk result (λ levels. all levels ≡ 0 ∷ all self) }
        ensures adds { IfOk result Adds }
    {
        self.outside.push(self.inner)?;
        self.inner = 0;
        self.depth += 1;
        Ok(self)
    }

    // A bracket closes a level, but never the block itself.
    fn close(mut self) -> Levels
        requires { Adds self }
        ensures all { all result ≡ spec.outer (all self) }
        ensures adds { Adds result }
    {
        if let Some(outside) = self.outside.pop() {
            self.depth -= self.inner + 1;
            self.inner = outside;
        }
        self
    }

    // The count of the innermost level begins anew.
    fn anew(mut self) -> Levels
        requires { Adds self }
        ensures all { all result ≡ spec.anew (all self) }
        ensures adds { Adds result }
    {
        self.depth -= self.inner;
        self.inner = 0;
        self
    }

    // One more operator.
    fn one_more(mut self) -> Levels
        requires adds { Adds self }
        requires low { self.depth ≤ spec.max_depth }
        ensures all { all result ≡ spec.one_more (all self) }
        ensures adds { Adds result }
    {
        self.inner += 1;
        self.depth += 1;
        self
    }

    // The count begins anew, where no bracket is open.
    fn anew_outside(self) -> Levels
        requires { Adds self }
        ensures all { all result ≡ spec.anew_outside (all self) }
        ensures adds { Adds result }
    {
        if self.outside.len() == 0 {
            self.anew()
        } else {
            self
        }
    }

    fn word(self, name: &Name) -> Levels
        requires adds { Adds self }
        requires low { self.depth ≤ spec.max_depth }
        ensures all { all result ≡ spec.word_counted (all self) (is_among joining_words name.now) (is_among spec.changing_words name.now) }
        ensures adds { Adds result }
    {
        if is_joining(name) {
            self.one_more()
        } else if is_changing(name) {
            self.anew_outside()
        } else {
            self
        }
    }

    fn keyword(self, keyword: Keyword) -> Levels
        requires { Adds self }
        ensures all { all result ≡ spec.keyword_counted (all self) keyword }
        ensures adds { Adds result }
    {
        match keyword {
            Keyword::Object | Keyword::Predicate | Keyword::Field | Keyword::Method => {
                self.anew_outside()
            }
            _ => self,
        }
    }

    fn mark(self, mark: Mark) -> Result<Levels, AllocError>
        requires adds { Adds self }
        requires low { self.depth ≤ spec.max_depth }
        ensures all { IfOk result (λ levels. all levels ≡ spec.mark_counted (all self) mark) }
        ensures adds { IfOk result Adds }
    {
        match mark {
            Mark::Open | Mark::OpenBlock => self.open(),
            Mark::Close | Mark::CloseBlock => Ok(self.close()),
            Mark::Comma | Mark::Semicolon => Ok(self.anew()),
            _ => Ok(self),
        }
    }

    /// The levels at a token, which counts from its own place on.
    pub fn at(self, token: &Token) -> Result<Levels, AllocError>
        requires adds { Adds self }
        requires low { self.depth ≤ spec.max_depth }
        ensures all { IfOk result (λ levels. all levels ≡ spec.counted (all self) token.now) }
        ensures adds { IfOk result Adds }
    {
        match token {
            Token::Word(name) => Ok(self.word(name)),
            Token::Keyword(keyword) => Ok(self.keyword(*keyword)),
            Token::Operator(_) => Ok(self.one_more()),
            Token::Mark(mark) => self.mark(*mark),
            _ => Ok(self),
        }
    }
}

/// Whether the word begins changes, whatever it stands for.
pub fn is_changing(name: &Name) -> bool
    ensures { result ≡ is_among spec.changing_words name.now }
{
    matches!(name.bytes(), b"add" | b"put" | b"drop")
}
