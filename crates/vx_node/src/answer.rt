//! What nodes are answered with.
ghost use Rattle.std.specs.Prelude.{◌≡◌, IfOk};

use crate::kind::Kind;
use crate::unit::{Piece, copy_pieces};
use sqlite_items::Items;
use std::alloc::{AllocError, Global};
use vx_names::{FieldKey, MethodKey, Name, copy_names};
use vx_syntax::{Body, Start, Test, copy_formals};

/// Whether something is declared under a name, and of which kind.
#[derive(Clone, Copy, Debug, PartialEq, Eq)]
pub enum Stands {
    Nothing,
    /// An object that is no predicate.
    Plain,
    Predicate,
}

/// What is declared under a name.
#[derive(Drop)]
pub enum Known {
    Nothing,
    /// An object with its parents.
    Plain(Items<Name>),
    /// A predicate with its parents and its test.
    Predicate(Items<Name>, Test),
}

/// Which method a message is bound to.
#[derive(Drop)]
pub enum Bound {
    /// Whatever the values are, it is this method.
    One(MethodKey, Kind),
    /// It depends on the values.
    Open,
    /// Whatever the values are, no method is found.
    Nobody,
}

/// What a node is answered with, a variant for each kind of node; targets are all answered with a unit.
#[derive(Drop)]
pub enum Answer {
    Decl(Known),
    /// The names that have the node's as a parent, each with what stands there.
    Children(Items<(Name, Stands)>),
    There(Stands),
    /// The methods of a selector, each with what it is made by.
    Heads(Items<(MethodKey, Kind)>),
    /// The formals and the body of a declared method.
    Body(Option<(Items<Option<Name>>, Body)>),
    /// The fields on a name, each with its start and whether it can be changed.
    Fields(Items<(Name, Start, bool)>),
    Up(Items<Name>),
    Cone(Items<Name>),
    Base(Option<Name>),
    Slots(Items<(FieldKey, Start)>),
    Field(Option<FieldKey>),
    /// The formals and the body of a method that is put in place of its sends.
    Inline(Option<(Items<Option<Name>>, Body)>),
    Bind(Bound),
    /// The position by which a method is cloned, and the classes.
    Clones(Option<(u8, Items<Name>)>),
    Unit(Items<Piece>),
}

impl Known {
    pub fn copy(&self, alloc: Global) -> Result<Known, AllocError>
        ensures { IfOk result (λ known. known ≡ self.now) }
    {
        match self {
            Known::Nothing => Ok(Known::Nothing),
            Known::Plain(parents) => Ok(Known::Plain(copy_names(alloc, parents.as_slice())?)),
            Known::Predicate(parents, test) => { copy_predicate(alloc, parents.as_slice(), test) }
        }
    }
}

fn copy_predicate(alloc: Global, parents: &[Name], test: &Test) -> Result<Known, AllocError>
    ensures { IfOk result (λ copy. copy ≡ Known.Predicate parents.now test.now) }
{
    let parents = copy_names(alloc, parents)?;
    Ok(Known::Predicate(parents, test.copy(alloc)?))
}

impl Bound {
    pub fn copy(&self, alloc: Global) -> Result<Bound, AllocError>
        ensures { IfOk result (λ bound. bound ≡ self.now) }
    {
        match self {
            Bound::One(key, kind) => Ok(Bound::One(key.copy(alloc)?, kind.copy(alloc)?)),
            Bound::Open => Ok(Bound::Open),
            Bound::Nobody => Ok(Bound::Nobody),
        }
    }
}

fn copy_children(
    alloc: Global,
    children: &[(Name, Stands)],
) -> Result<Items<(Name, Stands)>, AllocError>
    ensures { IfOk result (λ copies. copies ≡ children.now) }
{
    let mut copies = Items::new(alloc);
    for child in children {
        copies.push((child.0.copy(alloc)?, child.1))?;
    }
    Ok(copies)
}

fn copy_heads(
    alloc: Global,
    heads: &[(MethodKey, Kind)],
) -> Result<Items<(MethodKey, Kind)>, AllocError>
    ensures { IfOk result (λ copies. copies ≡ heads.now) }
{
    let mut copies = Items::new(alloc);
    for head in heads {
        copies.push((head.0.copy(alloc)?, head.1.copy(alloc)?))?;
    }
    Ok(copies)
}

fn copy_fields(
    alloc: Global,
    fields: &[(Name, Start, bool)],
) -> Result<Items<(Name, Start, bool)>, AllocError>
    ensures { IfOk result (λ copies. copies ≡ fields.now) }
{
    let mut copies = Items::new(alloc);
    for field in fields {
        copies.push((field.0.copy(alloc)?, field.1.copy(alloc)?, field.2))?;
    }
    Ok(copies)
}

fn copy_slots(
    alloc: Global,
    slots: &[(FieldKey, Start)],
) -> Result<Items<(FieldKey, Start)>, AllocError>
    ensures { IfOk result (λ copies. copies ≡ slots.now) }
{
    let mut copies = Items::new(alloc);
    for slot in slots {
        copies.push((slot.0.copy(alloc)?, slot.1.copy(alloc)?))?;
    }
    Ok(copies)
}

fn copy_text(
    alloc: Global,
    text: &Option<(Items<Option<Name>>, Body)>,
) -> Result<Option<(Items<Option<Name>>, Body)>, AllocError>
    ensures { IfOk result (λ copy. copy ≡ text.now) }
{
    match text {
        None => Ok(None),
        Some(text) => {
            let formals = copy_formals(alloc, text.0.as_slice())?;
            Ok(Some((formals, text.1.copy(alloc)?)))
        }
    }
}

fn copy_base(alloc: Global, base: &Option<Name>) -> Result<Option<Name>, AllocError>
    ensures { IfOk result (λ copy. copy ≡ base.now) }
{
    match base {
        None => Ok(None),
        Some(name) => Ok(Some(name.copy(alloc)?)),
    }
}

fn copy_field(alloc: Global, field: &Option<FieldKey>) -> Result<Option<FieldKey>, AllocError>
    ensures { IfOk result (λ copy. copy ≡ field.now) }
{
    match field {
        None => Ok(None),
        Some(key) => Ok(Some(key.copy(alloc)?)),
    }
}

fn copy_clones(
    alloc: Global,
    clones: &Option<(u8, Items<Name>)>,
) -> Result<Option<(u8, Items<Name>)>, AllocError>
    ensures { IfOk result (λ copy. copy ≡ clones.now) }
{
    match clones {
        None => Ok(None),
        Some(clones) => Ok(Some((clones.0, copy_names(alloc, clones.1.as_slice())?))),
    }
}

impl Answer {
    pub fn copy(&self, alloc: Global) -> Result<Answer, AllocError>
        ensures { IfOk result (λ answer. answer ≡ self.now) }
    {
        match self {
            Answer::Decl(known) => Ok(Answer::Decl(known.copy(alloc)?)),
            Answer::Children(children) => Ok(Answer::Children(copy_children(
                alloc,
                children.as_slice(),
            )?)),
            Answer::There(stands) => Ok(Answer::There(*stands)),
            Answer::Heads(heads) => Ok(Answer::Heads(copy_heads(alloc, heads.as_slice())?)),
            Answer::Body(text) => Ok(Answer::Body(copy_text(alloc, text)?)),
            Answer::Fields(fields) => Ok(Answer::Fields(copy_fields(alloc, fields.as_slice())?)),
            Answer::Up(names) => Ok(Answer::Up(copy_names(alloc, names.as_slice())?)),
            Answer::Cone(names) => Ok(Answer::Cone(copy_names(alloc, names.as_slice())?)),
            Answer::Base(base) => Ok(Answer::Base(copy_base(alloc, base)?)),
            Answer::Slots(slots) => Ok(Answer::Slots(copy_slots(alloc, slots.as_slice())?)),
            Answer::Field(field) => Ok(Answer::Field(copy_field(alloc, field)?)),
            Answer::Inline(text) => Ok(Answer::Inline(copy_text(alloc, text)?)),
            Answer::Bind(bound) => Ok(Answer::Bind(bound.copy(alloc)?)),
            Answer::Clones(clones) => Ok(Answer::Clones(copy_clones(alloc, clones)?)),
            Answer::Unit(pieces) => Ok(Answer::Unit(copy_pieces(alloc, pieces.as_slice())?)),
        }
    }
}
