ghost use Rattle.std.specs.Prelude.{◌≡◌, ◌≢◌, ◌<◌, ◌≤◌, ◌↔◌, ℕ, List, [], ◌++◌, true, false, Some, min, length, take};
ghost use Rattle.vx_io.specs.Calls.{no_calls, FailsNext};
ghost use Rattle.vx_io.specs.Faults.{HasRisen, next_count};
ghost use Rattle.vx_io.specs.Source.{IfBytes, OnNoBytes};

use crate::calls::Calls;
use crate::source::{Got, Source};
use std::marker::Model;

/// A source of bytes that it holds, which fails at the calls that it is told to.
#[derive(Debug, Drop)]
pub struct MemSource {
    bytes: Vec<u8>,
    position: usize,
    most: usize,
    calls: Calls,
    has_ended: bool,
}

impl Model for MemSource {
    ghost use Rattle.std.specs.Prelude.{◌<◌, ◌≤◌, drop, length};
    ghost use Rattle.vx_io.specs.Memory.{SourceState};

    ghost Value = { SourceState };

    ghost view = { λ s. record {
      left = drop s.position s.bytes.items;
      most = s.most;
      calls = s.calls;
      has_ended = s.has_ended;
    } };

    ghost invariant = { λ s. (0 < s.most) × (s.position ≤ length s.bytes.items) };
}

impl MemSource {
    /// A source of these bytes that gives at most `most` of them a call. The calls whose numbers,
    /// counted from 0, are in `faults` fail. All calls past the greatest `u64` have that number.
    pub fn new(bytes: Vec<u8>, most: usize, faults: Vec<u64>) -> MemSource
        requires { 0 < most }
        ensures left { result.left ≡ bytes.items }
        ensures most { result.most ≡ most }
        ensures calls { result.calls ≡ no_calls faults.items }
        ensures ended { result.has_ended ≡ false }
    {
        MemSource {
            bytes,
            position: 0,
            most,
            calls: Calls::new(faults),
            has_ended: false,
        }
    }
}

impl Source for MemSource {
    ghost left = { λ s. Some s.left };

    ghost has_ended = { λ s. s.has_ended };

    ghost faults = { λ s. s.calls.failed };

    /// Gives as many bytes as it may. What a call does follows from its number and the bytes left.
    fn read(&mut self, into: &mut [u8]) -> Got
        // As the trait says.
        requires { 0 < length into.old }
        ensures bytes { IfBytes result (λ n. (0 < n) × (n ≤ length into.old)
            × (self.old.left ≡ take n into.new ++ self.new.left)) }
        ensures none { OnNoBytes result (self.new.left ≡ self.old.left) }
        ensures end { result ≡ Got.End → self.old.left ≡ [] }
        ensures ended { (self.new.has_ended ≡ true) ↔ (result ≡ Got.End) }
        ensures failed { result ≡ Got.Failed
            → HasRisen self.old.calls.failed self.new.calls.failed }
        ensures counted { self.old.calls.failed ≤ self.new.calls.failed }

        // Which of the three it is.
        ensures fails { (result ≡ Got.Failed) ↔ FailsNext self.old.calls }
        ensures ends { (result ≡ Got.End) ↔ ((self.old.left ≡ []) × ¬ FailsNext self.old.calls) }
        ensures count { IfBytes result
            (λ n. n ≡ min self.old.most (min (length into.old) (length self.old.left))) }

        // What it counts, and what it keeps.
        ensures made { self.new.calls.made ≡ next_count self.old.calls.made }
        ensures one_fault { result ≡ Got.Failed
            → self.new.calls.failed ≡ next_count self.old.calls.failed }
        ensures no_fault { result ≢ Got.Failed
            → self.new.calls.failed ≡ self.old.calls.failed }
        ensures failing { self.new.calls.failing ≡ self.old.calls.failing }
        ensures most { self.new.most ≡ self.old.most }
    {
        self.has_ended = false;
        if self.calls.begin() {
            self.calls.fail();
            return Got::Failed;
        }
        let left = &self.bytes[self.position..];
        if left.is_empty() {
            self.has_ended = true;
            return Got::End;
        }
        let count = self.most.min(into.len()).min(left.len());
        into[..count].copy_from_slice(&left[..count]);
        self.position += count;
        Got::Bytes(count)
    }
}
