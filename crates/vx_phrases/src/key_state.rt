//! What the reader of keys holds between two tokens.
use vx_bodies::Arguments;
use vx_names::{DeclKey, FieldKey, Name, Operator};

/// The message of a method's key, with the specialisers before the one that is read. An operator has two.
#[derive(Drop)]
pub enum KeyMessage {
    Named(Name, Arguments<Name>),
    /// No specialiser is read yet.
    Sign(Operator),
    /// The first specialiser is read.
    Half(Operator, Name),
}

/// What is read of a key.
#[derive(Drop)]
pub enum KeyState {
    /// Nothing is read.
    Begun,
    /// `object`
    Object,
    /// `predicate`
    Predicate,
    /// `field`
    Field,
    /// `field name`
    FieldNamed(Name),
    /// `field name (`
    FieldOpen(Name),
    /// `field name ( @`
    FieldAt(Name),
    /// `field name ( @ name`
    FieldHolder(FieldKey),
    /// `method`
    Method,
    /// `method name`
    MethodNamed(Name),
    /// `method` and an operator
    MethodSign(Operator),
    /// `method name (`
    MethodOpen(Name),
    /// A specialiser is wanted.
    Specialiser(KeyMessage),
    /// `@` is read.
    At(KeyMessage),
    /// A specialiser is read.
    Specialised(KeyMessage, Name),
    /// A whole key.
    Whole(DeclKey),
}
