//! The units of codes.
ghost use Rattle.std.specs.Prelude.{◌≡◌, ◌++◌, [], ◌∷◌, map, IfOk, OnOk};
ghost use Rattle.vx_compilation.specs.Code.{statements_code, statement_code};
ghost use Rattle.vx_compilation.specs.Machine.{Leave};
ghost use Rattle.vx_units.specs.CodeUnit.{code_unit, code_signs, block_signs, blocks_signs, tree_signs};
ghost use Rattle.vx_codegen.specs.Emitted.{mode, block_of};

use crate::instructions::append_plain;
use crate::parts::append_acts;
use crate::unit::Unit;
use sqlite_items::Items;
use std::alloc::{AllocError, Global};
use vx_compilation::{Act, Tree, TreeBlock};
use vx_node::Piece;

/// The unit of a method's code: how many blocks it has, and each with its instructions. A method that is not there has
/// none, and its unit is empty.
pub fn code(alloc: Global, tree: &Tree) -> Result<Items<Piece>, AllocError>
    ensures { IfOk result (λ unit. unit ≡ code_unit tree.now) }
{
    let mut unit = Unit::new(alloc);
    append_tree(alloc, &mut unit, tree.blocks.as_slice())?;
    unit.end(alloc)
}

fn append_tree(alloc: Global, unit: &mut Unit, blocks: &[TreeBlock]) -> Result<(), AllocError>
    ensures { OnOk result (unit.new ≡ unit.old ++ tree_signs blocks.now) }
{
    if blocks.is_empty() {
        return Ok(());
    }
    unit.count(blocks.len() as u64)?;
    append_blocks(alloc, unit, blocks)
}

fn append_blocks(alloc: Global, unit: &mut Unit, blocks: &[TreeBlock]) -> Result<(), AllocError>
    ensures { OnOk result (unit.new ≡ unit.old ++ blocks_signs 0 blocks.now) }
{
    for (number, block) in blocks.iter().enumerate() {
        append_block(alloc, unit, number > 0, block)?;
    }
    Ok(())
}

// A block: the first is the method's own, the others are closures'. Its instructions are spelled apart, since their
// length stands before them.
fn append_block(
    alloc: Global,
    unit: &mut Unit,
    is_closure: bool,
    block: &TreeBlock,
) -> Result<(), AllocError>
    ensures { OnOk result (unit.new ≡ unit.old ++ block_signs (block_of is_closure block.now)) }
{
    let mut own = Unit::new(alloc);
    append_body(alloc, &mut own, is_closure, block.acts.as_slice())?;
    unit.count(block.locals)?;
    unit.count(block.captures)?;
    unit.small(block.formals.len() as u64)?;
    unit.count_size(&own)?;
    unit.append(alloc, &own)
}

fn append_body(
    alloc: Global,
    unit: &mut Unit,
    is_closure: bool,
    acts: &[Act],
) -> Result<(), AllocError>
    ensures { OnOk result (unit.new ≡ unit.old ++ code_signs (statements_code (mode is_closure) (map statement_code acts.now) (Leave ∷ []))) }
{
    let left = append_acts(alloc, unit, is_closure, acts)?;
    if is_closure && left {
        return Ok(());
    }
    append_plain(unit, 18)
}
