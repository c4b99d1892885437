ghost use Rattle.std.specs.Prelude.{◌≡◌, ◌≢◌, ◌≤◌, ◌<◌, ◌↔◌, ◌⊎◌, ℕ, List, [], length, true, Some, IfSome};
ghost use Rattle.std.specs.Io.KnownBytes.{Appends};
ghost use Rattle.vx_io.specs.Faults.{HasRisen};
ghost use Rattle.vx_io.specs.Sink.{AppendsPart};
ghost use Rattle.vx_batch.specs.Script.{RefusedEditsChangeNothing};
ghost use Rattle.vx_batch.specs.Ends.{HasReplies, HasFront, HasAnsweredTaken, HasAnsweredFed, given, usage_line};

use crate::pieces::{End, INPUT_BYTES, answer_source};
use crate::script::Stop;
use std::alloc::Global;
use vx_io::{Sink, Source, write_all};
use vx_reader::one_reading;

const USAGE: &[u8] = b"usage: vortex_batch\n";

/// How a run ended, with its status as the number.
#[derive(Clone, Copy, Debug, PartialEq, Eq)]
pub enum Status {
    /// Each block of the input has its reply.
    Answered = 0,
    /// The words are not listed, and the usage line was written.
    Usage = 1,
    /// A read failed.
    ReadFailed = 2,
    /// A write failed.
    WriteFailed = 3,
    OutOfMemory = 4,
    /// The source gave more than [`INPUT_BYTES`].
    TooLong = 5,
}

/// The batch compiler: reads a script piece by piece and writes the reply to each of its blocks, each
/// as soon as the block is whole. It answers with the status: 0 where all is answered, 1 where the
/// words are not listed and it wrote the usage line, 2 where a read failed and 3 where a write did, 4
/// where memory ran out, 5 where the input has more than [`INPUT_BYTES`]. No words are listed so far.
pub fn batch_top<S: Source, K: Sink>(
    alloc: Global,
    words: &[String],
    source: &mut S,
    sink: &mut K,
) -> u8
    ensures known { result ≤ 5 }

    // 0: the source ended, and the sink has, after what it had, the reply to each block of what the source gave.
    ensures listed { result ≡ 0 → words.now ≡ [] }
    ensures ended { result ≡ 0 → S.has_ended source.new ≡ true }
    ensures answered { result ≡ 0 → IfSome (S.left source.old) (λ input. (S.left source.new ≡ Some [])
        × IfSome (K.taken sink.old) (λ before. HasReplies input before (K.taken sink.new))) }
    // Only want of memory may take the place of 0 where all has its reply.
    ensures answered_always { words.now ≡ [] → S.has_ended source.new ≡ true → IfSome (S.left source.old) (λ input.
        IfSome (K.taken sink.old) (λ before. HasReplies input before (K.taken sink.new) → (result ≡ 0) ⊎ (result ≡ 4))) }

    // 1: the words are not listed, and the sink has the usage line after what it had.
    ensures unlisted { result ≡ 1 → words.now ≢ [] }
    ensures usage { result ≡ 1 → Appends (K.taken sink.old) (K.taken sink.new) usage_line }
    ensures usage_always { words.now ≢ [] → (result ≡ 1) ⊎ (result ≡ 3) }
    ensures unread { words.now ≢ [] → S.left source.new ≡ S.left source.old }

    // 2: a read failed, and each block that is whole in the bytes taken has its reply.
    ensures read_failed { result ≡ 2 → HasRisen (S.faults source.old) (S.faults source.new) }
    ensures read_failed_answered { result ≡ 2 → IfSome (S.left source.old) (λ all. IfSome (K.taken sink.old)
        (λ before. HasAnsweredTaken all (S.left source.new) before (K.taken sink.new))) }

    // 3: a write failed, and the sink has a front of what was to be written, but not all of it.
    ensures write_failed { result ≡ 3 → HasRisen (K.faults sink.old) (K.faults sink.new) }
    ensures cut_usage { result ≡ 3 → words.now ≢ [] → IfSome (K.taken sink.old) (λ before. AppendsPart before (K.taken sink.new) usage_line) }
    ensures cut { result ≡ 3 → words.now ≡ [] → IfSome (S.left source.old) (λ input. IfSome (K.taken sink.old)
        (λ before. (wanting : List ℕ) × (0 < length wanting) × HasFront input before (K.taken sink.new) wanting)) }

    // 4: memory ran out, and the sink has a front of the replies.
    ensures memory { result ≡ 4 → IfSome (S.left source.old) (λ input. IfSome (K.taken sink.old)
        (λ before. (wanting : List ℕ) × HasFront input before (K.taken sink.new) wanting)) }

    // 5: more bytes were taken than are read, the last piece among them; each block that is whole in those before it has its reply.
    ensures too_long { words.now ≡ [] → IfSome (S.left source.old) (λ all. (result ≡ 5) ↔ (INPUT_BYTES < given all (S.left source.new))) }
    ensures too_long_answered { result ≡ 5 → IfSome (S.left source.old) (λ all. IfSome (K.taken sink.old)
        (λ before. HasAnsweredFed all (S.left source.new) before (K.taken sink.new))) }

    // Without a fault, and within the limit, all is answered unless memory runs out.
    ensures complete { words.now ≡ []
        → (HasRisen (S.faults source.old) (S.faults source.new) → ⊥)
        → (HasRisen (K.faults sink.old) (K.faults sink.new) → ⊥)
        → IfSome (S.left source.old) (λ all. given all (S.left source.new) ≤ INPUT_BYTES → (result ≡ 0) ⊎ (result ≡ 4)) }

    // A law over replies, which `answered` ties to what the sink has: the reply to a refused edit names its fault, and all
    // other replies are those of the script without its block.
    ensures refused { RefusedEditsChangeNothing }
{
    one_reading();
    refused_edits_change_nothing();
    if !words.is_empty() {
        return match write_all(sink, USAGE) {
            Ok(()) => Status::Usage as u8,
            Err(_) => Status::WriteFailed as u8,
        };
    }
    match answer_source(alloc, source, sink) {
        End::Answered => Status::Answered as u8,
        End::ReadFailed => Status::ReadFailed as u8,
        End::TooLong => Status::TooLong as u8,
        End::Stopped(Stop::WriteFailed) => Status::WriteFailed as u8,
        End::Stopped(Stop::OutOfMemory) => Status::OutOfMemory as u8,
    }
}

// What `batch_top` says of refused edits, by itself.
fn refused_edits_change_nothing()
    ensures { RefusedEditsChangeNothing }
{
    one_reading();
}
