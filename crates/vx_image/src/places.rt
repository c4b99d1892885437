//! Parts of an image by their places, counted from 0, which must be in range.
ghost use Rattle.std.specs.Prelude.{◌≡◌, Some};
ghost use Rattle.vx_image.specs.Parts.{IsThere, block_at, class_mask_at, code_at, pair_at, position_at, row_at, shape_at, slot_at, table_at, test_at};
ghost use Rattle.vx_image.specs.Parts.{test_class_at, test_field_at, test_mask_at};

use sqlite_items::Items;
use vx_format::{Block, ClassMask, ClassTest, Does, Image, Position, Row, Slot, Table, Test};

/// The slots of the object.
pub fn shape_of(image: &Image, object: u32) -> &Items<Slot>
    requires { IsThere (shape_at image.now object) }
    ensures { shape_at image.now object ≡ Some result.now }
{
    match image.shapes.get(object as usize) {
        Some(found) => found,
        None => unreachable!(),
    }
}

/// The test.
pub fn test_of(image: &Image, test: u32) -> &Test
    requires { IsThere (test_at image.now test) }
    ensures { test_at image.now test ≡ Some result.now }
{
    match image.tests.get(test as usize) {
        Some(found) => found,
        None => unreachable!(),
    }
}

/// The table.
pub fn table_of(image: &Image, table: u32) -> &Table
    requires { IsThere (table_at image.now table) }
    ensures { table_at image.now table ≡ Some result.now }
{
    match image.tables.get(table as usize) {
        Some(found) => found,
        None => unreachable!(),
    }
}

/// The blocks of the code.
pub fn code_of(image: &Image, code: u32) -> &Items<Block>
    requires { IsThere (code_at image.now code) }
    ensures { code_at image.now code ≡ Some result.now }
{
    match image.codes.get(code as usize) {
        Some(found) => found,
        None => unreachable!(),
    }
}

/// The slot at a place of the object.
pub fn slot_of(image: &Image, object: u32, place: u32) -> &Slot
    requires { IsThere (slot_at image.now object place) }
    ensures { slot_at image.now object place ≡ Some result.now }
{
    match shape_of(image, object).get(place as usize) {
        Some(found) => found,
        None => unreachable!(),
    }
}

/// The class at a place of the test.
pub fn test_class_of(image: &Image, test: u32, place: u32) -> &ClassTest
    requires { IsThere (test_class_at image.now test place) }
    ensures { test_class_at image.now test place ≡ Some result.now }
{
    match test_of(image, test).classes.get(place as usize) {
        Some(found) => found,
        None => unreachable!(),
    }
}

/// The field that the name at a place means for a class of the test.
pub fn test_field_of(image: &Image, test: u32, place: u32, name: u32) -> &Option<u32>
    requires { IsThere (test_field_at image.now test place name) }
    ensures { test_field_at image.now test place name ≡ Some result.now }
{
    match test_class_of(image, test, place).fields.get(name as usize) {
        Some(found) => found,
        None => unreachable!(),
    }
}

/// The row of the table.
pub fn row_of(image: &Image, table: u32, row: u8) -> &Row
    requires { IsThere (row_at image.now table row) }
    ensures { row_at image.now table row ≡ Some result.now }
{
    match table_of(image, table).rows.get(row as usize) {
        Some(found) => found,
        None => unreachable!(),
    }
}

/// The position of the table.
pub fn position_of(image: &Image, table: u32, position: u8) -> &Position
    requires { IsThere (position_at image.now table position) }
    ensures { position_at image.now table position ≡ Some result.now }
{
    match table_of(image, table).positions.get(position as usize) {
        Some(found) => found,
        None => unreachable!(),
    }
}

/// The class at a place of the position, with its mask.
pub fn class_mask_of(image: &Image, table: u32, position: u8, place: u32) -> &ClassMask
    requires { IsThere (class_mask_at image.now table position place) }
    ensures { class_mask_at image.now table position place ≡ Some result.now }
{
    match position_of(image, table, position)
        .classes
        .get(place as usize)
    {
        Some(found) => found,
        None => unreachable!(),
    }
}

/// The test at a place of the position, with its mask.
pub fn test_mask_of(image: &Image, table: u32, position: u8, place: u32) -> &ClassMask
    requires { IsThere (test_mask_at image.now table position place) }
    ensures { test_mask_at image.now table position place ≡ Some result.now }
{
    match position_of(image, table, position)
        .tests
        .get(place as usize)
    {
        Some(found) => found,
        None => unreachable!(),
    }
}

/// The block of the code.
pub fn block_of(image: &Image, code: u32, block: u32) -> &Block
    requires { IsThere (block_at image.now code block) }
    ensures { block_at image.now code block ≡ Some result.now }
{
    match code_of(image, code).get(block as usize) {
        Some(found) => found,
        None => unreachable!(),
    }
}

/// The class and the code at a place of the split of a row.
pub fn pair_of(image: &Image, table: u32, row: u8, place: u8) -> (u32, u32)
    requires { IsThere (pair_at image.now table row place) }
    ensures { pair_at image.now table row place ≡ Some result }
{
    match &row_of(image, table, row).does {
        Does::Code(_, Some(split)) => match split.pairs.get(place as usize) {
            Some(found) => *found,
            None => unreachable!(),
        },
        _ => unreachable!(),
    }
}
