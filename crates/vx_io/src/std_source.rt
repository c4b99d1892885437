ghost use Rattle.std.specs.Prelude.{◌≡◌, ◌≢◌, ◌<◌, ◌≤◌, ◌↔◌, ℕ, true, false, None, length, take};
ghost use Rattle.std.specs.Io.KnownBytes.{Consumes, Keeps, IsAtEnd};
ghost use Rattle.vx_io.specs.Faults.{HasRisen, next_count};
ghost use Rattle.vx_io.specs.Source.{IfBytes, OnNoBytes};

use crate::source::{Got, Source};
use std::io::Read;
use std::marker::Model;

/// A source over a reader of std, as standard input, a file or the end of a pipe. It has no buffer.
#[derive(Debug, Drop)]
pub struct StdSource<R> {
    reader: R,
    faults: u64,
    has_ended: bool,
}

impl<R> Model for StdSource<R> {
    ghost use Rattle.vx_io.specs.Reader.{ReaderState};

    ghost Value = { ReaderState R };

    ghost view = { λ s. record { reader = s.reader; faults = s.faults; has_ended = s.has_ended } };
}

impl<R> StdSource<R> {
    /// A source of what the reader gives.
    pub fn new(reader: R) -> StdSource<R>
        ensures { result ≡ record { reader = reader; faults = 0; has_ended = false } }
    {
        StdSource {
            reader,
            faults: 0,
            has_ended: false,
        }
    }
}

impl<R: Read> Source for StdSource<R> {
    ghost left = { λ _. None };

    ghost has_ended = { λ s. s.has_ended };

    ghost faults = { λ s. s.faults };

    /// Reads once. A read of no byte is the end, and any error of the reader is a fault.
    fn read(&mut self, into: &mut [u8]) -> Got
        // As the trait says.
        requires { 0 < length into.old }
        ensures bytes { IfBytes result (λ n. (0 < n) × (n ≤ length into.old)) }
        ensures ended { (self.new.has_ended ≡ true) ↔ (result ≡ Got.End) }
        ensures failed { result ≡ Got.Failed → HasRisen self.old.faults self.new.faults }
        ensures counted { self.old.faults ≤ self.new.faults }

        // What it does to the bytes of a reader that tells them.
        ensures consumed { IfBytes result (λ n. Consumes (R.remaining self.old.reader)
            (R.remaining self.new.reader) (take n into.new)) }
        ensures kept { OnNoBytes result
            (Keeps (R.remaining self.old.reader) (R.remaining self.new.reader)) }
        ensures at_end { result ≡ Got.End → IsAtEnd (R.remaining self.old.reader) }

        // What it counts.
        ensures one_fault { result ≡ Got.Failed → self.new.faults ≡ next_count self.old.faults }
        ensures no_fault { result ≢ Got.Failed → self.new.faults ≡ self.old.faults }
    {
        self.has_ended = false;
        match self.reader.read(into) {
            Ok(0) => {
                self.has_ended = true;
                Got::End
            }
            Ok(count) => Got::Bytes(count),
            Err(_) => {
                self.faults = self.faults.saturating_add(1);
                Got::Failed
            }
        }
    }
}
