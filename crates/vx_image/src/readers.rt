//! What a loaded image has, part by part. Every number that names a part is a place, counted from 0, and must be in range. No reader takes memory, and
//! each takes the same time however large the image is.
ghost use Rattle.std.specs.Prelude.{◌≡◌, ◌<◌, List, Some, length, slice_get};
ghost use Rattle.vx_format.specs.declared.image.Slot.{Slot};
ghost use Rattle.vx_format.specs.declared.image.ClassTest.{ClassTest};
ghost use Rattle.vx_format.specs.declared.image.Test.{Test};
ghost use Rattle.vx_format.specs.declared.image.ClassMask.{ClassMask};
ghost use Rattle.vx_format.specs.declared.image.Row as rows;
ghost use Rattle.vx_format.specs.declared.image.Position.{Position};
ghost use Rattle.vx_format.specs.declared.image.Table.{Table};
ghost use Rattle.vx_format.specs.declared.image.Block.{Block};
ghost use Rattle.vx_image.specs.Parts.{IsThere, block_at, class_mask_at, code_at, image_of, pair_at, position_at, row_at, shape_at, slot_at};
ghost use Rattle.vx_image.specs.Parts.{table_at, test_at, test_class_at, test_field_at, test_mask_at};
ghost use Rattle.vx_image.specs.Views.{head_of, initial_of, pairs_of, row_of, six};

use crate::loaded::Loaded;
use crate::places::{
    block_of, class_mask_of, code_of, pair_of, position_of, row_of, shape_of, slot_of, table_of,
    test_class_of, test_field_of, test_mask_of, test_of,
};
use crate::views::{BlockHead, Initial, Row};
use vx_format::{Does, Initial as Start};

impl Loaded {
    /// How many fields there are.
    pub fn fields(&self) -> u32
        ensures { result ≡ (image_of self.now).fields }
    {
        self.image().fields
    }

    /// How many objects there are.
    pub fn objects(&self) -> u32
        ensures { result ≡ length (image_of self.now).shapes }
    {
        self.image().shapes.len() as u32
    }

    /// How many tests there are.
    pub fn tests(&self) -> u32
        ensures { result ≡ length (image_of self.now).tests }
    {
        self.image().tests.len() as u32
    }

    /// How many tables there are.
    pub fn tables(&self) -> u32
        ensures { result ≡ length (image_of self.now).tables }
    {
        self.image().tables.len() as u32
    }

    /// How many codes there are.
    pub fn codes(&self) -> u32
        ensures { result ≡ length (image_of self.now).codes }
    {
        self.image().codes.len() as u32
    }

    /// One of the six objects that an image names itself: closure, false, int, nil, string and true.
    pub fn own(&self, place: u8) -> u32
        requires { place < 6 }
        ensures { slice_get (six (image_of self.now).own) place ≡ Some result }
    {
        let own = &self.image().own;
        match place {
            0 => own.closure,
            1 => own.false_,
            2 => own.int,
            3 => own.nil,
            4 => own.string,
            _ => own.true_,
        }
    }

    /// The table of the message that begins a run, if there is one.
    pub fn main(&self) -> Option<u32>
        ensures { result ≡ (image_of self.now).main }
    {
        self.image().main
    }

    /// How many slots an object has.
    pub fn slots(&self, object: u32) -> u32
        requires { IsThere (shape_at (image_of self.now) object) }
        ensures { (slots : List Slot) → shape_at (image_of self.now) object ≡ Some slots → result ≡ length slots }
    {
        shape_of(self.image(), object).len() as u32
    }

    /// The field of a slot of an object, and what the slot holds when a run begins.
    pub fn slot(&self, object: u32, place: u32) -> (u32, Initial<'_>)
        requires { IsThere (slot_at (image_of self.now) object place) }
        ensures { slot_at (image_of self.now) object place ≡ Some (record { field = result.0; start = initial_of result.1 }) }
    {
        let slot = slot_of(self.image(), object, place);
        (slot.field, initial(&slot.start))
    }

    /// How many classes a test lists.
    pub fn test_classes(&self, test: u32) -> u32
        requires { IsThere (test_at (image_of self.now) test) }
        ensures { (t : Test) → test_at (image_of self.now) test ≡ Some t → result ≡ length t.classes }
    {
        test_of(self.image(), test).classes.len() as u32
    }

    /// How many names a test looks at.
    pub fn test_names(&self, test: u32) -> u32
        requires { IsThere (test_at (image_of self.now) test) }
        ensures { (t : Test) → test_at (image_of self.now) test ≡ Some t → result ≡ t.names }
    {
        test_of(self.image(), test).names
    }

    /// A class that a test lists.
    pub fn test_class(&self, test: u32, place: u32) -> u32
        requires { IsThere (test_class_at (image_of self.now) test place) }
        ensures { (c : ClassTest) → test_class_at (image_of self.now) test place ≡ Some c → result ≡ c.object }
    {
        test_class_of(self.image(), test, place).object
    }

    /// The field that a tested name means for a class that the test lists, if it means one.
    pub fn test_field(&self, test: u32, place: u32, name: u32) -> Option<u32>
        requires { IsThere (test_field_at (image_of self.now) test place name) }
        ensures { test_field_at (image_of self.now) test place name ≡ Some result }
    {
        *test_field_of(self.image(), test, place, name)
    }

    /// The name and the number of arguments of a table's selector.
    pub fn selector(&self, table: u32) -> (&[u8], u8)
        requires { IsThere (table_at (image_of self.now) table) }
        ensures { (t : Table) → table_at (image_of self.now) table ≡ Some t → (result.0.now ≡ t.name) × (result.1 ≡ t.arity) }
    {
        let found = table_of(self.image(), table);
        (found.name.as_slice(), found.arity)
    }

    /// How many rows a table has.
    pub fn rows(&self, table: u32) -> u8
        requires { IsThere (table_at (image_of self.now) table) }
        ensures { (t : Table) → table_at (image_of self.now) table ≡ Some t → result ≡ length t.rows }
    {
        table_of(self.image(), table).rows.len() as u8
    }

    /// What a row of a table leads to.
    pub fn row(&self, table: u32, row: u8) -> Row
        requires { IsThere (row_at (image_of self.now) table row) }
        ensures { (r : rows.Row) → row_at (image_of self.now) table row ≡ Some r → result ≡ row_of r.does }
    {
        shown(&row_of(self.image(), table, row).does)
    }

    /// A class and the code for it, of the split of a row.
    pub fn split(&self, table: u32, row: u8, place: u8) -> (u32, u32)
        requires { IsThere (pair_at (image_of self.now) table row place) }
        ensures { pair_at (image_of self.now) table row place ≡ Some result }
    {
        pair_of(self.image(), table, row, place)
    }

    /// The row itself and the rows that it goes before. Bit i, from the least, stands for row i.
    pub fn beats(&self, table: u32, row: u8) -> u128
        requires { IsThere (row_at (image_of self.now) table row) }
        ensures { (r : rows.Row) → row_at (image_of self.now) table row ≡ Some r → result ≡ r.beats }
    {
        row_of(self.image(), table, row).beats
    }

    /// The rows that count for a class that the position does not list.
    pub fn default_mask(&self, table: u32, position: u8) -> u128
        requires { IsThere (position_at (image_of self.now) table position) }
        ensures { (p : Position) → position_at (image_of self.now) table position ≡ Some p → result ≡ p.default }
    {
        position_of(self.image(), table, position).default
    }

    /// How many classes and how many tests a position lists.
    pub fn listed(&self, table: u32, position: u8) -> (u32, u32)
        requires { IsThere (position_at (image_of self.now) table position) }
        ensures { (p : Position) → position_at (image_of self.now) table position ≡ Some p
            → (result.0 ≡ length p.classes) × (result.1 ≡ length p.tests) }
    {
        let found = position_of(self.image(), table, position);
        (found.classes.len() as u32, found.tests.len() as u32)
    }

    /// A class that a position lists, and the rows that count for it.
    pub fn class_mask(&self, table: u32, position: u8, place: u32) -> (u32, u128)
        requires { IsThere (class_mask_at (image_of self.now) table position place) }
        ensures { (m : ClassMask) → class_mask_at (image_of self.now) table position place ≡ Some m
            → (result.0 ≡ m.symbol) × (result.1 ≡ m.mask) }
    {
        let found = class_mask_of(self.image(), table, position, place);
        (found.symbol, found.mask)
    }

    /// A test that a position lists, and the rows that count besides where it holds.
    pub fn test_mask(&self, table: u32, position: u8, place: u32) -> (u32, u128)
        requires { IsThere (test_mask_at (image_of self.now) table position place) }
        ensures { (m : ClassMask) → test_mask_at (image_of self.now) table position place ≡ Some m
            → (result.0 ≡ m.symbol) × (result.1 ≡ m.mask) }
    {
        let found = test_mask_of(self.image(), table, position, place);
        (found.symbol, found.mask)
    }

    /// How many blocks a code has.
    pub fn blocks(&self, code: u32) -> u32
        requires { IsThere (code_at (image_of self.now) code) }
        ensures { (blocks : List Block) → code_at (image_of self.now) code ≡ Some blocks → result ≡ length blocks }
    {
        code_of(self.image(), code).len() as u32
    }

    /// How many locals, captures and formals a block has.
    pub fn block(&self, code: u32, block: u32) -> BlockHead
        requires { IsThere (block_at (image_of self.now) code block) }
        ensures { (b : Block) → block_at (image_of self.now) code block ≡ Some b → result ≡ head_of b }
    {
        let found = block_of(self.image(), code, block);
        BlockHead {
            locals: found.locals,
            captures: found.captures,
            formals: found.formals,
        }
    }
}

// What is shown of what a row leads to. A split has so few pairs that a byte tells their number.
fn shown(does: &Does) -> Row
    requires { pairs_of does.now < 256 }
    ensures { result ≡ row_of does.now }
{
    match does {
        Does::Code(code, None) => Row::Code {
            code: *code,
            split: None,
            pairs: 0,
        },
        Does::Code(code, Some(split)) => Row::Code {
            code: *code,
            split: Some(split.position),
            pairs: split.pairs.len() as u8,
        },
        Does::Prim(prim) => Row::Prim(*prim),
        Does::Get(field) => Row::Get(*field),
        Does::Set(field) => Row::Set(*field),
    }
}

// What a slot holds at first.
fn initial(start: &Start) -> Initial<'_>
    ensures { initial_of result ≡ start.now }
{
    match start {
        Start::Nil => Initial::Nil,
        Start::False => Initial::False,
        Start::True => Initial::True,
        Start::Int(z) => Initial::Int(*z),
        Start::Text(text) => Initial::Text(text.as_slice()),
    }
}
