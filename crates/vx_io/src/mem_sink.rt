ghost use Rattle.std.specs.Prelude.{◌≡◌, ◌≢◌, ◌<◌, ◌≤◌, ◌↔◌, ◌⊎◌, ℕ, List, [], ◌++◌, Some, IfOk, min, length, take};
ghost use Rattle.vx_io.specs.Calls.{no_calls, FailsNext};
ghost use Rattle.vx_io.specs.Faults.{HasRisen, next_count};
ghost use Rattle.vx_io.specs.Memory.{room_left};
ghost use Rattle.vx_io.specs.Sink.{IfTook};

use crate::calls::Calls;
use crate::sink::{Put, Sink};
use std::alloc::{AllocError, Global};
use std::marker::Model;

/// A sink that holds the bytes it takes, as many as it has room for, and fails at the calls that it
/// is told to.
#[derive(Debug, Drop)]
pub struct MemSink {
    buffer: Vec<u8>,
    used: usize,
    most: usize,
    calls: Calls,
}

impl Model for MemSink {
    ghost use Rattle.std.specs.Prelude.{◌<◌, ◌≤◌, take, length};
    ghost use Rattle.vx_io.specs.Memory.{SinkState};

    ghost Value = { SinkState };

    ghost view = { λ s. record {
      taken = take s.used s.buffer.items;
      room = length s.buffer.items;
      most = s.most;
      calls = s.calls;
    } };

    ghost invariant = { λ s. (0 < s.most) × (s.used ≤ length s.buffer.items) };
}

impl MemSink {
    /// A sink with memory for `room` bytes that takes at most `most` of them a call. The calls
    /// whose numbers, counted from 0, are in `faults` fail. All calls past the greatest `u64` have
    /// that number.
    pub fn new(
        alloc: Global,
        room: usize,
        most: usize,
        faults: Vec<u64>,
    ) -> Result<MemSink, AllocError>
        requires { 0 < most }
        ensures taken { IfOk result (λ sink. sink.taken ≡ []) }
        ensures room { IfOk result (λ sink. sink.room ≡ room) }
        ensures most { IfOk result (λ sink. sink.most ≡ most) }
        ensures calls { IfOk result (λ sink. sink.calls ≡ no_calls faults.items) }
    {
        Ok(MemSink {
            buffer: vec![in alloc; 0; room]?,
            used: 0,
            most,
            calls: Calls::new(faults),
        })
    }

    /// The bytes taken so far.
    pub fn taken(&self) -> &[u8]
        ensures bytes { result.now ≡ self.now.taken }
        ensures within { length self.now.taken ≤ self.now.room }
    {
        &self.buffer[..self.used]
    }
}

impl Sink for MemSink {
    ghost taken = { λ s. Some s.taken };

    ghost faults = { λ s. s.calls.failed };

    /// Takes as many bytes as it may, in the memory that it was made with. Bytes that find no room
    /// are a fault.
    fn write(&mut self, bytes: &[u8]) -> Put
        // As the trait says.
        ensures took { IfTook result (λ n. (n ≤ length bytes.now) × (0 < length bytes.now → 0 < n)
            × (self.new.taken ≡ self.old.taken ++ take n bytes.now)) }
        ensures failed { result ≡ Put.Failed
            → HasRisen self.old.calls.failed self.new.calls.failed }
        ensures unchanged { result ≡ Put.Failed → self.new.taken ≡ self.old.taken }
        ensures counted { self.old.calls.failed ≤ self.new.calls.failed }

        // Whether it fails, and else how many bytes it takes.
        ensures fails { (result ≡ Put.Failed)
            ↔ (FailsNext self.old.calls ⊎ ((0 < length bytes.now) × (room_left self.old ≡ 0))) }
        ensures count { IfTook result
            (λ n. n ≡ min self.old.most (min (length bytes.now) (room_left self.old))) }
        ensures within { length self.new.taken ≤ self.new.room }

        // What it counts, and what it keeps. It takes no memory: its room is what it was made with.
        ensures made { self.new.calls.made ≡ next_count self.old.calls.made }
        ensures one_fault { result ≡ Put.Failed
            → self.new.calls.failed ≡ next_count self.old.calls.failed }
        ensures no_fault { result ≢ Put.Failed
            → self.new.calls.failed ≡ self.old.calls.failed }
        ensures failing { self.new.calls.failing ≡ self.old.calls.failing }
        ensures most { self.new.most ≡ self.old.most }
        ensures room { self.new.room ≡ self.old.room }
    {
        let is_listed = self.calls.begin();
        let room_left = self.buffer.len() - self.used;
        if is_listed || (room_left == 0 && !bytes.is_empty()) {
            self.calls.fail();
            return Put::Failed;
        }
        let count = self.most.min(bytes.len()).min(room_left);
        let end = self.used + count;
        self.buffer[self.used..end].copy_from_slice(&bytes[..count]);
        self.used = end;
        Put::Took(count)
    }
}
