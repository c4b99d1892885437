ghost use Rattle.std.specs.Prelude.{◌≡◌, ◌<◌, ◌↔◌, ℕ, List, [], ◌∷◌, ◌++◌, false, length, IsNone, IfOk, IfSome, OnOk, OnErr};
ghost use Rattle.vx_blocks.specs.Block.{IsBlock};
ghost use Rattle.vx_blocks.specs.Blocks.{blocks, has_end_line};
ghost use Rattle.vx_blocks.specs.Runs.{Event, fed, taken, TakesBlock, IsRun};
ghost use Rattle.vx_blocks.specs.Search.{IsSearched};

use crate::block::Block;
use crate::lines::{Search, find_end_line, is_end_line};
use crate::queue::Queue;
use std::alloc::{AllocError, Global};
use std::marker::Model;

/// Input that is cut into blocks, which contracts see as the bytes fed and not yet taken.
#[derive(Debug, Drop)]
pub struct Blocks {
    alloc: Global,
    bytes: Queue,
    // Where the line begins whose end is sought, and how far it was sought. So no byte is searched twice, and input
    // that comes byte by byte takes linear time.
    line: usize,
    searched: usize,
}

impl Model for Blocks {
    ghost use Rattle.std.specs.Prelude.{ℕ, List};
    ghost use Rattle.vx_blocks.specs.Search.{IsSearched};

    ghost Value = { List ℕ };

    ghost view = { λ b. b.bytes };

    ghost invariant = { λ b. IsSearched b.bytes b.line b.searched };
}

impl Blocks {
    /// No input yet.
    pub fn new(alloc: Global) -> Blocks
        ensures { result ≡ [] }
    {
        Blocks {
            alloc,
            bytes: Queue::new(alloc),
            line: 0,
            searched: 0,
        }
    }

    /// Appends the piece.
    pub fn feed(&mut self, piece: &[u8]) -> Result<(), AllocError>
        ensures ok { OnOk result (self.new ≡ self.old ++ piece.now) }
        ensures err { OnErr result (self.new ≡ self.old) }
    {
        self.bytes.push_back(piece)
    }

    /// Takes the first whole block.
    pub fn next(&mut self) -> Result<Option<Block>, AllocError>
        ensures block { IfOk result (λ found. IfSome found (λ block. (bytes : List ℕ) × IsBlock block bytes
            × TakesBlock self.old bytes self.new)) }
        ensures shorter { IfOk result (λ found. IfSome found (λ _. length self.new < length self.old)) }
        ensures none { IfOk result (λ found. IsNone found ↔ (has_end_line self.old ≡ false)) }
        ensures none_unchanged { result ≡ Ok None → self.new ≡ self.old }
        ensures err { OnErr result (self.new ≡ self.old) }
    {
        match find_end_line(self.bytes.as_slice(), self.line, self.searched) {
            Search::Found { line, end } => {
                let block = Block::new(self.alloc, &self.bytes.as_slice()[..line])?;
                self.bytes.drop_front(end);
                self.line = 0;
                self.searched = 0;
                Ok(Some(block))
            }
            Search::Missing { line } => {
                self.line = line;
                self.searched = self.bytes.as_slice().len();
                Ok(None)
            }
        }
    }

    /// Takes the rest as the last block, without an end line that stands at its end.
    pub fn finish(&mut self) -> Result<Option<Block>, AllocError>
        requires { has_end_line self.old ≡ false }
        ensures block { IfOk result (λ found. IfSome found (λ block. (bytes : List ℕ) × IsBlock block bytes
            × (blocks self.old ≡ bytes ∷ []) × (self.new ≡ []))) }
        ensures none { IfOk result (λ found. IsNone found ↔ (self.old ≡ [])) }
        ensures rest { OnOk result (self.new ≡ []) }
        ensures err { OnErr result (self.new ≡ self.old) }
    {
        let bytes = self.bytes.as_slice();
        if bytes.is_empty() {
            return Ok(None);
        }
        let Search::Missing { line } = find_end_line(bytes, self.line, self.searched) else {
            unreachable!()
        };
        let block = last_block(self.alloc, bytes, line)?;
        self.bytes.clear();
        self.line = 0;
        self.searched = 0;
        Ok(Some(block))
    }
}

/// However the input was cut into pieces, the blocks taken so far and those of what is left are the blocks of all
/// that was fed.
pub fn runs_cut_the_whole()
    ensures { (events : List Event) (left : List ℕ) → IsRun [] events left
        → blocks (fed events) ≡ taken events ++ blocks left }
{}

// The block that bytes with no end line are, where the last line begins at `line`.
fn last_block(alloc: Global, bytes: &[u8], line: usize) -> Result<Block, AllocError>
    requires some { 0 < length bytes.now }
    requires searched { IsSearched bytes.now line (length bytes.now) }
    ensures { IfOk result (λ block. (whole : List ℕ) × IsBlock block whole × (blocks bytes.now ≡ whole ∷ [])) }
{
    if is_end_line(&bytes[line..]) {
        return Block::new(alloc, &bytes[..line]);
    }
    Block::new(alloc, bytes)
}
