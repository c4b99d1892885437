ghost use Rattle.std.specs.Prelude.{◌≡◌, ◌≤◌, ◌<◌, ◌+◌, ◌^◌, ℕ, List, length, false, OnOk};
ghost use Rattle.vx_program.specs.declared.edit.Edit.{Edit};
ghost use Rattle.vx_blocks.specs.Blocks.{has_end_line};
ghost use Rattle.vx_blocks.specs.Block.{IsBlock};
ghost use Rattle.vx_io.specs.Faults.{HasRisen};
ghost use Rattle.vx_batch.specs.Steps.{IsAfter, HasReplied, HasCut, HasFinished, HasFinishedInPart, HasAnsweredBlock, HasCutBlock};

use crate::session::Session;
use std::alloc::Global;
use vx_blocks::{Block, Blocks};
use vx_io::{Sink, write_all};

/// Why the replies to a script end early.
#[derive(Clone, Copy, Debug, PartialEq, Eq)]
pub(crate) enum Stop {
    WriteFailed,
    OutOfMemory,
}

/// Answers the blocks that are whole.
pub(crate) fn answer_whole<K: Sink>(
    alloc: Global,
    session: &mut Session,
    blocks: &mut Blocks,
    sink: &mut K,
) -> Result<(), Stop>
    requires { session.old.accepted + length blocks.old < 2 ^ 63 }
    ensures ok { OnOk result ((edits : List Edit) → IsAfter session.old.program session.old.accepted edits
        → (last : List Edit) × IsAfter session.new.program session.new.accepted last
        × HasReplied edits last blocks.old blocks.new (K.taken sink.old) (K.taken sink.new)) }
    ensures none_left { OnOk result (has_end_line blocks.new ≡ false) }
    ensures few { OnOk result (session.new.accepted + length blocks.new ≤ session.old.accepted + length blocks.old) }
    ensures memory { result ≡ Err Stop.OutOfMemory → (edits : List Edit) → IsAfter session.old.program session.old.accepted edits
        → (last : List Edit) × ((rest : List ℕ) × HasReplied edits last blocks.old rest (K.taken sink.old) (K.taken sink.new)) }
    ensures cut { result ≡ Err Stop.WriteFailed → (edits : List Edit) → IsAfter session.old.program session.old.accepted edits
        → HasCut edits blocks.old (K.taken sink.old) (K.taken sink.new) }
    ensures failed { result ≡ Err Stop.WriteFailed → HasRisen (K.faults sink.old) (K.faults sink.new) }
    ensures counted { K.faults sink.old ≤ K.faults sink.new }
{
    loop {
        let block = match blocks.next() {
            Ok(Some(block)) => block,
            Ok(None) => return Ok(()),
            Err(_) => return Err(Stop::OutOfMemory),
        };
        match answer_block(alloc, session, block, sink) {
            Ok(()) => {}
            Err(stop) => return Err(stop),
        }
    }
}

/// Answers the rest of the input, the last block.
pub(crate) fn answer_rest<K: Sink>(
    alloc: Global,
    session: &mut Session,
    blocks: &mut Blocks,
    sink: &mut K,
) -> Result<(), Stop>
    requires room { session.old.accepted + length blocks.old < 2 ^ 63 }
    requires no_end { has_end_line blocks.old ≡ false }
    ensures ok { OnOk result ((edits : List Edit) → IsAfter session.old.program session.old.accepted edits
        → HasFinished edits blocks.old (K.taken sink.old) (K.taken sink.new)) }
    ensures memory { result ≡ Err Stop.OutOfMemory → K.taken sink.new ≡ K.taken sink.old }
    ensures cut { result ≡ Err Stop.WriteFailed → (edits : List Edit) → IsAfter session.old.program session.old.accepted edits
        → HasFinishedInPart edits blocks.old (K.taken sink.old) (K.taken sink.new) }
    ensures failed { result ≡ Err Stop.WriteFailed → HasRisen (K.faults sink.old) (K.faults sink.new) }
{
    let block = match blocks.finish() {
        Ok(Some(block)) => block,
        Ok(None) => return Ok(()),
        Err(_) => return Err(Stop::OutOfMemory),
    };
    match answer_block(alloc, session, block, sink) {
        Ok(()) => Ok(()),
        Err(stop) => Err(stop),
    }
}

// Answers one block.
fn answer_block<K: Sink>(
    alloc: Global,
    session: &mut Session,
    block: Block,
    sink: &mut K,
) -> Result<(), Stop>
    requires { session.old.accepted + 1 < 2 ^ 64 }
    ensures ok { OnOk result ((edits : List Edit) (bytes : List ℕ) → IsBlock block bytes
        → IsAfter session.old.program session.old.accepted edits
        → HasAnsweredBlock edits session.new.program session.new.accepted bytes (K.taken sink.old) (K.taken sink.new)) }
    ensures few { session.new.accepted ≤ session.old.accepted + 1 }
    ensures memory { result ≡ Err Stop.OutOfMemory → K.taken sink.new ≡ K.taken sink.old }
    ensures cut { result ≡ Err Stop.WriteFailed → (edits : List Edit) (bytes : List ℕ) → IsBlock block bytes
        → IsAfter session.old.program session.old.accepted edits
        → HasCutBlock edits bytes (K.taken sink.old) (K.taken sink.new) }
    ensures failed { result ≡ Err Stop.WriteFailed → HasRisen (K.faults sink.old) (K.faults sink.new) }
    ensures counted { K.faults sink.old ≤ K.faults sink.new }
{
    let answered = session.answer(alloc, &block);
    drop(block);
    let Ok(reply) = answered else {
        return Err(Stop::OutOfMemory);
    };
    match write_all(sink, reply.as_slice()) {
        Ok(()) => Ok(()),
        Err(_) => Err(Stop::WriteFailed),
    }
}
