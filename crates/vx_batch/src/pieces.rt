ghost use Rattle.std.specs.Prelude.{◌≡◌, ◌≤◌, ◌<◌, [], length, IfOk};
ghost use Rattle.vx_program.specs.Prelude.{prelude};
ghost use Rattle.vx_batch.specs.Ends.{HasEnded};

use crate::script::{Stop, answer_rest, answer_whole};
use crate::session::Session;
use std::alloc::{AllocError, Global};
use vx_blocks::Blocks;
use vx_io::{Got, Sink, Source};
use vx_reader::every_block_is_read;

/// The most bytes of input that are read.
pub const INPUT_BYTES: usize = 67_108_864;

/// The most bytes that one read asks for.
pub const PIECE_BYTES: usize = 65_536;

/// How reading and answering came to an end.
#[derive(Clone, Copy, Debug, PartialEq, Eq)]
pub(crate) enum End {
    /// The source ended, and each block has its reply.
    Answered,
    /// A read failed.
    ReadFailed,
    /// The source gave more than [`INPUT_BYTES`].
    TooLong,
    /// The replies end early.
    Stopped(Stop),
}

/// Reads the source to its end and writes the reply to each block, those of each piece before the next is read.
pub(crate) fn answer_source<S: Source, K: Sink>(alloc: Global, source: &mut S, sink: &mut K) -> End
    ensures { HasEnded result (S.left source.old) (S.left source.new) (S.has_ended source.new) (S.faults source.old) (S.faults source.new)
        (K.taken sink.old) (K.taken sink.new) (K.faults sink.old) (K.faults sink.new) }
{
    every_block_is_read();
    let Ok(mut piece) = buffer(alloc) else {
        return End::Stopped(Stop::OutOfMemory);
    };
    let Ok(mut session) = Session::new(alloc) else {
        return End::Stopped(Stop::OutOfMemory);
    };
    let mut blocks = Blocks::new(alloc);
    let piece = piece.as_mut_slice();
    answer_pieces(alloc, source, sink, &mut session, &mut blocks, piece)
}

fn buffer(alloc: Global) -> Result<Vec<u8>, AllocError>
    ensures { IfOk result (λ buffer. length buffer.items ≡ PIECE_BYTES) }
{
    vec![in alloc; 0u8; PIECE_BYTES]
}

// Answers what comes in pieces of the buffer's length at most.
fn answer_pieces<S: Source, K: Sink>(
    alloc: Global,
    source: &mut S,
    sink: &mut K,
    session: &mut Session,
    blocks: &mut Blocks,
    piece: &mut [u8],
) -> End
    requires some { 0 < length piece.old }
    requires small { length piece.old ≤ PIECE_BYTES }
    requires program { session.old.program ≡ prelude }
    requires accepted { session.old.accepted ≡ 0 }
    requires empty { blocks.old ≡ [] }
    ensures { HasEnded result (S.left source.old) (S.left source.new) (S.has_ended source.new) (S.faults source.old) (S.faults source.new)
        (K.taken sink.old) (K.taken sink.new) (K.faults sink.old) (K.faults sink.new) }
{
    every_block_is_read();
    let mut taken: usize = 0;
    loop {
        match source.read(piece) {
            Got::Bytes(count) => {
                if count > INPUT_BYTES - taken {
                    return End::TooLong;
                }
                taken += count;
                let Ok(()) = blocks.feed(&piece[..count]) else {
                    return End::Stopped(Stop::OutOfMemory);
                };
                match answer_whole(alloc, session, blocks, sink) {
                    Ok(()) => {}
                    Err(stop) => return End::Stopped(stop),
                }
            }
            Got::End => {
                return match answer_rest(alloc, session, blocks, sink) {
                    Ok(()) => End::Answered,
                    Err(stop) => End::Stopped(stop),
                };
            }
            Got::Failed => return End::ReadFailed,
        }
    }
}
