//! The head of a method: its name, its formals and their specialisers.
ghost use Rattle.std.specs.Prelude.{◌≡◌, ◌+◌, ◌<◌, ◌∷◌, [], length, nat_lt, IfOk};
ghost use Rattle.vx_names.specs.Operator.{spelling};
ghost use Rattle.vx_syntax.specs.Expressions.{max_arguments};
ghost use Rattle.vx_phrases.specs.DeclMachine as spec;

use crate::decl_state::Head;
use crate::words::two;
use sqlite_items::{Boxed, Items};
use std::alloc::{AllocError, Global};
use std::marker::Model;
use vx_names::{Name, Operator};
use vx_syntax::{Body, Decl, MAX_ARGUMENTS, method_key};

/// A formal and its specialiser.
#[derive(Drop)]
pub struct NewFormal {
    pub name: Option<Name>,
    pub specialiser: Name,
}

/// A head with the formals before the one that is read, fewer than a method may have. Contracts see the head.
#[derive(Drop)]
pub struct OpenHead {
    head: Head,
}

impl Model for OpenHead {
    ghost use Rattle.vx_phrases.specs.declared.decl_state.Head.{Head};
    ghost use Rattle.vx_phrases.specs.Heads.{IsOpen};

    ghost Value = { Head };

    ghost view = { λ o. o.head };

    ghost invariant = { λ o. IsOpen o.head };
}

/// A head with all of its formals, no more than a method may have. Contracts see the head.
#[derive(Drop)]
pub struct WholeHead {
    head: Boxed<Head>,
}

impl Model for WholeHead {
    ghost use Rattle.vx_phrases.specs.declared.decl_state.Head.{Head};
    ghost use Rattle.vx_phrases.specs.Heads.{IsWhole};

    ghost Value = { Head };

    ghost view = { λ w. w.head };

    ghost invariant = { λ w. IsWhole w.head };
}

impl OpenHead {
    /// A name, before its first formal.
    pub fn new(alloc: Global, name: Name) -> OpenHead
        ensures { result ≡ spec.head_of name }
    {
        OpenHead {
            head: Head {
                name,
                formals: Items::new(alloc),
                specialisers: Items::new(alloc),
            },
        }
    }

    /// The formals so far.
    pub fn formals(&self) -> &[Option<Name>]
        ensures { result.now ≡ self.now.formals }
    {
        self.head.formals.as_slice()
    }

    /// Whether another formal may follow the one that is read.
    pub fn may_go_on(&self) -> bool
        ensures { result ≡ nat_lt (length self.now.formals + 1) max_arguments }
    {
        self.head.formals.len() + 1 < MAX_ARGUMENTS
    }

    /// The head with one more formal, after which another follows.
    pub fn with(self, formal: NewFormal) -> Result<OpenHead, AllocError>
        requires { length self.formals + 1 < max_arguments }
        ensures { IfOk result (λ head. head ≡ spec.with_formal self formal.name formal.specialiser) }
    {
        let OpenHead { head } = self;
        let Head {
            name,
            mut formals,
            mut specialisers,
        } = head;
        formals.push(formal.name)?;
        specialisers.push(formal.specialiser)?;
        Ok(OpenHead {
            head: Head {
                name,
                formals,
                specialisers,
            },
        })
    }

    /// The head with its last formal.
    pub fn with_last(self, alloc: Global, formal: NewFormal) -> Result<WholeHead, AllocError>
        ensures { IfOk result (λ head. head ≡ spec.with_formal self formal.name formal.specialiser) }
    {
        let OpenHead { head } = self;
        let Head {
            name,
            mut formals,
            mut specialisers,
        } = head;
        formals.push(formal.name)?;
        specialisers.push(formal.specialiser)?;
        let head = Boxed::new(
            alloc,
            Head {
                name,
                formals,
                specialisers,
            },
        )?;
        Ok(WholeHead { head })
    }
}

impl WholeHead {
    /// A name without formals.
    pub fn plain(alloc: Global, name: Name) -> Result<WholeHead, AllocError>
        ensures { IfOk result (λ head. head ≡ spec.head_of name) }
    {
        let head = Boxed::new(
            alloc,
            Head {
                name,
                formals: Items::new(alloc),
                specialisers: Items::new(alloc),
            },
        )?;
        Ok(WholeHead { head })
    }

    /// An operator with its two formals.
    pub fn of_two(
        alloc: Global,
        operator: Operator,
        first: NewFormal,
        second: NewFormal,
    ) -> Result<WholeHead, AllocError>
        ensures { IfOk result (λ head. head ≡ record {
          name = spelling operator;
          formals = first.name ∷ second.name ∷ [];
          specialisers = first.specialiser ∷ second.specialiser ∷ [];
        }) }
    {
        let name = operator.name(alloc)?;
        let mut formals = Items::new(alloc);
        formals.push(first.name)?;
        formals.push(second.name)?;
        let specialisers = two(alloc, first.specialiser, second.specialiser)?;
        let head = Boxed::new(
            alloc,
            Head {
                name,
                formals,
                specialisers,
            },
        )?;
        Ok(WholeHead { head })
    }

    pub fn formals(&self) -> &[Option<Name>]
        ensures { result.now ≡ self.now.formals }
    {
        self.head.get().formals.as_slice()
    }

    /// The method with this body.
    pub fn method(self, body: Body) -> Decl
        ensures { result ≡ spec.method_with self body.0 }
    {
        let WholeHead { head } = self;
        let Head {
            name,
            formals,
            specialisers,
        } = head.into_inner();
        Decl::Method {
            key: method_key(name, specialisers),
            formals,
            body,
        }
    }
}
