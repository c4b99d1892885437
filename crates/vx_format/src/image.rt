//! What an image has, decoded.
//!
//! A field, an object, a test, a table or a code is named by its place in the image's list of them, counted from 0. So are the blocks of a code and
//! the rows and positions of a table.

use sqlite_items::Items;

/// The versions of the format, which differ in the width of their masks and in how many rows a table may have.
#[derive(Clone, Copy, Debug, PartialEq, Eq)]
pub enum Version {
    /// Masks of 8 bytes, and tables of at most 64 rows.
    One,
    /// Masks of 16 bytes, and tables of at most 128 rows.
    Two,
}

/// What a slot of a named object holds when a run begins.
#[derive(Drop)]
pub enum Initial {
    /// The object `nil`.
    Nil,
    /// The object `false`.
    False,
    /// The object `true`.
    True,
    /// A whole number.
    Int(i128),
    /// A string, by its bytes.
    Text(Items<u8>),
}

/// A slot of an object.
#[derive(Drop)]
pub struct Slot {
    /// The field that is kept in the slot.
    pub field: u32,
    /// What the slot holds when a run begins.
    pub start: Initial,
}

/// A class for whose objects a test may hold.
#[derive(Drop)]
pub struct ClassTest {
    /// The class.
    pub object: u32,
    /// The field that each tested name means for this class, in the order of the names; none where it means none.
    pub fields: Items<Option<u32>>,
}

/// A step of a test in postfix form. It works on the truth values that the steps before it left.
#[derive(Drop)]
pub enum Step {
    /// Compares the field of a tested name with a number, which leaves one truth value more. The operator is 0 for less, 1 for at most, 2 for greater, 3
    /// for at least and 4 for equal; the place of the name among the tested names and the number follow.
    Compare(u8, u32, i128),
    /// Joins the last two truth values by and.
    And,
    /// Joins the last two truth values by or.
    Or,
    /// Turns the last truth value.
    Not,
}

/// The test of a predicate.
#[derive(Drop)]
pub struct Test {
    /// How many names are tested.
    pub names: u32,
    /// The classes for whose objects the test may hold.
    pub classes: Items<ClassTest>,
    /// What has to be true of the object, in postfix form.
    pub steps: Items<Step>,
}

/// A class or a test, and the rows that count where it applies.
#[derive(Drop)]
pub struct ClassMask {
    /// The object or the test.
    pub symbol: u32,
    /// Bit i, from the least, stands for row i.
    pub mask: u128,
}

/// The position on whose class it depends which code a row enters.
#[derive(Drop)]
pub struct Split {
    /// The position of the argument, below 255. It need not be one of the table's.
    pub position: u8,
    /// Classes, each with the code that is entered for it. Where a class stands twice the first entry counts.
    pub pairs: Items<(u32, u32)>,
}

/// What a row of a table leads to.
#[derive(Drop)]
pub enum Does {
    /// A code, and codes for some classes of one argument.
    Code(u32, Option<Split>),
    /// A primitive, by its number.
    Prim(u8),
    /// Reading a field.
    Get(u32),
    /// Writing a field.
    Set(u32),
}

/// A row of a table, which stands for one method.
#[derive(Drop)]
pub struct Row {
    /// What the row leads to.
    pub does: Does,
    /// The row itself and the rows that it goes before. Bit i, from the least, stands for row i.
    pub beats: u128,
}

/// What the argument at a position says of the rows that count.
#[derive(Drop)]
pub struct Position {
    /// The rows that count for a class that is not listed.
    pub default: u128,
    /// The rows that count for each listed class. Where a class stands twice the first entry counts.
    pub classes: Items<ClassMask>,
    /// The rows that count besides where a test holds.
    pub tests: Items<ClassMask>,
}

/// The methods of one selector.
#[derive(Drop)]
pub struct Table {
    /// The name of the selector.
    pub name: Items<u8>,
    /// How many arguments the selector takes.
    pub arity: u8,
    /// A row for each method.
    pub rows: Items<Row>,
    /// The positions of the arguments, as many as there are arguments.
    pub positions: Items<Position>,
}

/// An instruction. Locals, blocks and rows are named by their places, and need not be there.
#[derive(Drop)]
pub enum Instr {
    /// Pushes a whole number.
    Int(i128),
    /// Pushes a string, by its bytes.
    Text(Items<u8>),
    /// Pushes a named object.
    Object(u32),
    /// Pushes what a local holds.
    Load(u32),
    /// Pops into a local.
    Store(u32),
    /// Pops into a new cell, and puts the cell into a local.
    Cell(u32),
    /// Pushes what the cell in a local holds.
    CellGet(u32),
    /// Pops into the cell in a local.
    CellSet(u32),
    /// Pushes a closure of a block with what some locals hold.
    Closure(u32, Items<u32>),
    /// Pops the arguments of a table's selector and finds the row for them.
    Send(u32),
    /// Pops the arguments of a code and enters it.
    Call(u32),
    /// As `Send`, among the rows that one row goes before.
    Resend(u32, u8),
    /// Does a primitive, by its number.
    Prim(u8),
    /// Pops an object and pushes what a field of it holds.
    Get(u32),
    /// Pops a value and an object, puts the value into a field of it, and pushes `nil`.
    Set(u32),
    /// Pops a value for each of the fields and pushes a new object of a class.
    New(u32, Items<u32>),
    /// Drops the last value.
    Pop,
    /// Leaves the activation with the last value.
    Ret,
    /// Leaves the activation in which the closure was made.
    Home,
    /// Does nothing. It marks an inlined call.
    Mark,
    /// Ends the run with an error: its kind, 0 for a field that is not there, 1 for an unknown object, 2 for a message that is not understood; its
    /// name; and how many arguments there are, which is 0 for the kinds 0 and 1.
    Fail(u8, Items<u8>, u8),
}

/// A method's body or a closure's.
#[derive(Drop)]
pub struct Block {
    /// How many locals an activation has: captures, then formals, then the rest.
    pub locals: u32,
    /// How many of the locals are captured.
    pub captures: u32,
    /// How many of the locals are formals.
    pub formals: u8,
    /// The instructions.
    pub code: Items<Instr>,
}

/// How many fields, objects, tests, tables and codes there are.
#[derive(Clone, Copy, Debug, PartialEq, Eq)]
pub struct Roster {
    /// The number of fields.
    pub fields: u32,
    /// The number of objects.
    pub objects: u32,
    /// The number of tests.
    pub tests: u32,
    /// The number of tables.
    pub tables: u32,
    /// The number of codes.
    pub codes: u32,
}

/// The six objects that an image names itself.
#[derive(Clone, Copy, Debug, PartialEq, Eq)]
pub struct Own {
    /// The class of closures.
    pub closure: u32,
    /// The object `false`.
    pub false_: u32,
    /// The class of whole numbers.
    pub int: u32,
    /// The object `nil`.
    pub nil: u32,
    /// The class of strings.
    pub string: u32,
    /// The object `true`.
    pub true_: u32,
}

/// A whole image, whatever the version in which it is written.
#[derive(Drop)]
pub struct Image {
    /// How many fields there are. They have no parts of their own.
    pub fields: u32,
    /// The objects that the machine must know.
    pub own: Own,
    /// The table of the message that begins a run, if there is one.
    pub main: Option<u32>,
    /// The slots of each object.
    pub shapes: Items<Items<Slot>>,
    /// The tests of predicates.
    pub tests: Items<Test>,
    /// The tables of selectors.
    pub tables: Items<Table>,
    /// The blocks of each code. The first is the method's, the others are those of its closures.
    pub codes: Items<Items<Block>>,
}
