ghost use Rattle.std.specs.Prelude.{◌≡◌, false, OnOk};
ghost use Rattle.vx_blocks.specs.Blocks.{has_end_line};

use super::*;
use std::alloc::{AllocError, Global};
use std::test::Fail;

// Takes every whole block.
fn take_whole(blocks: &mut Blocks, taken: &mut Vec<Block>) -> Result<(), AllocError>
    ensures { OnOk result (has_end_line blocks.new ≡ false) }
{
    while let Some(block) = blocks.next()? {
        taken.push(block)?;
    }
    Ok(())
}

// The blocks of input that comes in these pieces.
fn blocks_of(alloc: Global, pieces: &[&[u8]]) -> Result<Vec<Block>, AllocError> {
    let mut blocks = Blocks::new(alloc);
    let mut taken = Vec::new(alloc);
    for piece in pieces {
        blocks.feed(piece)?;
        take_whole(&mut blocks, &mut taken)?;
    }
    take_whole(&mut blocks, &mut taken)?;
    if let Some(block) = blocks.finish()? {
        taken.push(block)?;
    }
    Ok(taken)
}

// Whether those are the blocks, and no other.
fn are_whole(blocks: &[Block], wanted: &[&[u8]]) -> bool {
    blocks.len() == wanted.len()
        && blocks.iter().zip(wanted).all(|(
            block,
            bytes,
        )| matches!(block, Block::Whole(found) if found.as_slice() == *bytes))
}

// Whether the input has just these blocks, in one piece and in two, however it is cut.
fn has_blocks(alloc: Global, input: &[u8], wanted: &[&[u8]]) -> Result<bool, AllocError> {
    for place in 0..=input.len() {
        let blocks = blocks_of(alloc, &[&input[..place], &input[place..]])?;
        if !are_whole(blocks.as_slice(), wanted) {
            return Ok(false);
        }
    }
    Ok(true)
}

#[test]
fn end_lines_end_blocks(rt: HostRuntime) -> Result<(), Fail> {
    let alloc = rt.alloc();
    assert!(rt; has_blocks(alloc, b"a\n.\nb", &[b"a\n", b"b"])?);
    assert!(rt; has_blocks(alloc, b".\n", &[b""])?);
    assert!(rt; has_blocks(alloc, b".", &[b""])?);
    assert!(rt; has_blocks(alloc, b"a\r\n.\r\nb\n", &[b"a\r\n", b"b\n"])?);
    assert!(rt; has_blocks(alloc, b"a\n.\n", &[b"a\n"])?);
    assert!(rt; has_blocks(alloc, b"a\n.", &[b"a\n"])?);
    assert!(rt; has_blocks(alloc, b"a\n.\n.\r", &[b"a\n", b""])?);
    assert!(rt; has_blocks(alloc, b"", &[])?);
    assert!(rt; has_blocks(alloc, b"-- a\n.\nb", &[b"-- a\n", b"b"])?);
    assert!(rt; has_blocks(alloc, b"\"a\n.\nb\"", &[b"\"a\n", b"b\""])?);
    Ok(())
}

#[test]
fn other_lines_end_nothing(rt: HostRuntime) -> Result<(), Fail> {
    for input in [
        b"a.\nb".as_slice(),
        b"..\nb",
        b" .\nb",
        b". \nb",
        b".\r\r\nb",
        b".\rb\n",
    ] {
        assert!(rt; has_blocks(rt.alloc(), input, &[input])?);
    }
    Ok(())
}

// A block of so many bytes, and one of two bytes.
fn long_and_short(alloc: Global, len: usize) -> Result<Vec<u8>, AllocError> {
    let mut input = vec![in alloc; b'\n'; len]?;
    input.extend_from_slice(b".\nb\n")?;
    Ok(input)
}

// The number of bytes, and whether there are too many.
fn len_of(block: &Block) -> (u64, bool) {
    match block {
        Block::Whole(bytes) => (bytes.len() as u64, false),
        Block::TooLong(len) => (*len, true),
    }
}

#[test]
fn a_block_may_be_too_long(rt: HostRuntime) -> Result<(), Fail> {
    for (len, too_long) in [(1_048_576, false), (1_048_577, true)] {
        let input = long_and_short(rt.alloc(), len)?;
        let blocks = blocks_of(rt.alloc(), &[input.as_slice()])?;
        assert_eq!(rt; blocks.len(), 2);
        assert_eq!(rt; len_of(&blocks[0]), (len as u64, too_long));
        assert_eq!(rt; len_of(&blocks[1]), (2, false));
    }
    Ok(())
}

// Searching all bytes again at each, or moving them all, would take minutes.
#[test]
fn feeding_single_bytes_takes_linear_time(rt: HostRuntime) -> Result<(), Fail> {
    let input = vec![in rt.alloc(); b'a'; 1_048_577]?;
    let mut blocks = Blocks::new(rt.alloc());
    let mut taken = vec![in rt.alloc()]?;
    for byte in &input {
        blocks.feed(&[*byte])?;
        take_whole(&mut blocks, &mut taken)?;
    }
    assert!(rt; taken.is_empty());
    blocks.feed(b"\n.\n")?;
    take_whole(&mut blocks, &mut taken)?;
    assert_eq!(rt; taken.len(), 1);
    assert_eq!(rt; len_of(&taken[0]), (1_048_578, true));
    Ok(())
}

#[test]
fn taking_many_blocks_takes_linear_time(rt: HostRuntime) -> Result<(), Fail> {
    let mut input = vec![in rt.alloc()]?;
    for _ in 0..300_000 {
        input.extend_from_slice(b".\n")?;
    }
    let blocks = blocks_of(rt.alloc(), &[input.as_slice()])?;
    assert_eq!(rt; blocks.len(), 300_000);
    Ok(())
}
