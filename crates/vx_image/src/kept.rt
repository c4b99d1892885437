//! The bytes of forms and blocks, which a loaded image keeps beside its parts, so that they can be lent.
ghost use Rattle.std.specs.Prelude.{◌≡◌, map, IfOk};
ghost use Rattle.vx_format.specs.declared.image.Version.TheVariants.{Two};
ghost use Rattle.vx_format.specs.Numbers.{each};
ghost use Rattle.vx_image.specs.Parts.{instruction_bytes, step_bytes};

use crate::spelling::{Spell, spell_all};
use sqlite_items::Items;
use std::alloc::{AllocError, Global};
use vx_format::{Block, Test, Version};

// The bytes of parts whose bytes are the same in both versions.
fn bytes_of<T: Spell>(alloc: Global, parts: &Items<T>) -> Result<Items<u8>, AllocError>
    ensures { IfOk result (λ bytes. bytes ≡ each (T.spelling Two) parts.now) }
{
    let mut out = Vec::new(alloc);
    spell_all(alloc, Version::Two, parts.as_slice(), &mut out)?;
    Ok(Items::from_vec(out))
}

/// The steps of each test, in bytes.
pub fn forms_of(alloc: Global, tests: &Items<Test>) -> Result<Items<Items<u8>>, AllocError>
    ensures { IfOk result (λ forms. forms ≡ map step_bytes tests.now) }
{
    let mut forms = Items::new(alloc);
    for test in tests.as_slice() {
        forms.push(bytes_of(alloc, &test.steps)?)?;
    }
    Ok(forms)
}

// The instructions of each block, in bytes.
fn code_of(alloc: Global, blocks: &Items<Block>) -> Result<Items<Items<u8>>, AllocError>
    ensures { IfOk result (λ code. code ≡ map instruction_bytes blocks.now) }
{
    let mut code = Items::new(alloc);
    for block in blocks.as_slice() {
        code.push(bytes_of(alloc, &block.code)?)?;
    }
    Ok(code)
}

/// The instructions of each block of each code, in bytes.
pub fn codes_of(
    alloc: Global,
    codes: &Items<Items<Block>>,
) -> Result<Items<Items<Items<u8>>>, AllocError>
    ensures { IfOk result (λ all. all ≡ map (map instruction_bytes) codes.now) }
{
    let mut all = Items::new(alloc);
    for blocks in codes.as_slice() {
        all.push(code_of(alloc, blocks)?)?;
    }
    Ok(all)
}
