//! What the machine holds between two tokens. A state is moved at each token, so what is large in it and changes seldom is
//! boxed.
use crate::arguments::Arguments;
use crate::declared::Declared;
use crate::fields::Fields;
use crate::stack::Stack;
use sqlite_items::{Boxed, Items};
use vx_names::{Name, Operator};
use vx_syntax::{Body, Expr, Stmt};

/// A left operand and its operator, which wait for the right operand.
#[derive(Drop)]
pub struct Left {
    pub operand: Expr,
    pub operator: Operator,
}

/// What waits for an operand, at each level of infix operators from the loosest to the tightest.
#[derive(Drop)]
pub struct Pending {
    pub comparing: Option<Boxed<Left>>,
    pub adding: Option<Boxed<Left>>,
    pub multiplying: Option<Boxed<Left>>,
}

/// An open bracket, with what waits outside it for the operand that it makes.
#[derive(Drop)]
pub enum Bracket {
    Paren(Pending),
    /// A call: its name, and the arguments before the one that is read.
    Arguments(Pending, Name, Arguments<Expr>),
    /// A constructor: its parent, the fields before the one that is read, and that one's name.
    Fields(Pending, Name, Boxed<Fields>, Name),
}

/// What becomes of the expression that makes a statement.
#[derive(Drop)]
pub enum Kind {
    /// A `let` of this name, and whether it may be assigned.
    Value(bool, Name),
    /// An assignment to this name.
    Changed(Name),
    Plain,
    Answer,
}

/// A body outside the one that is read, and the formals of the closure that stands open in it.
#[derive(Drop)]
pub struct Level {
    pub pending: Pending,
    pub brackets: Stack<Bracket>,
    pub kind: Kind,
    pub declared: Declared,
    pub statements: Items<Stmt>,
    pub formals: Items<Name>,
}

/// An open body: those outside it, the names that its statements brought into scope, each with whether it may be
/// assigned, and its statements so far. The outermost body has the names in scope around it among its own.
#[derive(Drop)]
pub struct Block {
    pub levels: Stack<Level>,
    pub declared: Declared,
    pub statements: Items<Stmt>,
}

/// Where an expression stands: the brackets open in its statement, what the statement is, and its body.
#[derive(Drop)]
pub struct Within {
    pub brackets: Stack<Bracket>,
    pub kind: Kind,
    pub block: Boxed<Block>,
}

/// The beginning of an operand.
#[derive(Drop)]
pub enum Part {
    /// `-`, which a number follows
    Signed,
    /// A name, which may be called.
    Called(Name),
    /// `name (`
    FirstArgument(Name),
    /// `&`
    Ampersand,
    /// `& (`
    FirstFormal,
    /// `& ( .. ,`, with the formals so far
    Formal(Items<Name>),
    /// `& ( .. name`, with the formals before this one
    Formed(Items<Name>, Name),
    /// `& ( .. )`
    Formals(Items<Name>),
    /// `object`
    Object,
    /// `object isa`
    Isa,
    /// `object isa name`, which may be all
    Parent(Name),
    /// `object isa name {`
    FirstField(Name),
    /// `object isa name { .. ,`, with the fields so far
    Field(Name, Boxed<Fields>),
    /// `object isa name { .. field`, with the fields before this one
    FieldName(Name, Boxed<Fields>, Name),
    /// `resend`
    Resend,
    /// `resend (`
    ResendOpen,
    /// `resend ( ...`
    ResendDots,
}

/// What is read of a body, up to some token before its end.
#[derive(Drop)]
pub enum State {
    /// An operand is wanted.
    Operand(Pending, Within),
    /// An operand has begun.
    Inside(Part, Pending, Within),
    /// An operand is read.
    Operated(Pending, Expr, Within),
    /// A statement may begin.
    Statement(Boxed<Block>),
    /// The first name of a statement is read.
    Named(Boxed<Block>, Name),
    /// `let`
    Let(Boxed<Block>),
    /// `let var`
    LetVar(Boxed<Block>),
    /// `let name` or `let var name`, which may be assigned where the flag is true
    Bound(Boxed<Block>, bool, Name),
    /// Only the end of the body may follow.
    Closing(Boxed<Block>),
}

/// Where a token leads.
#[derive(Drop)]
pub enum Next {
    /// No body goes on with the token.
    Stuck,
    On(State),
    /// The token closed the outermost body.
    Done(Body),
}
