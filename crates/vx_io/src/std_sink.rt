ghost use Rattle.std.specs.Prelude.{◌≡◌, ◌≢◌, ◌<◌, ◌≤◌, ℕ, None, length, take};
ghost use Rattle.std.specs.Io.KnownBytes.{Appends, Keeps};
ghost use Rattle.vx_io.specs.Faults.{HasRisen, next_count};
ghost use Rattle.vx_io.specs.Sink.{IfTook};

use crate::sink::{Put, Sink};
use std::io::Write;
use std::marker::Model;

/// A sink over a writer of std that holds no bytes back, as `io::writer(&rt)`, a file or the end of
/// a pipe. It never flushes: a `BufWriter` could lose bytes that were told as taken.
#[derive(Debug, Drop)]
pub struct StdSink<W> {
    writer: W,
    faults: u64,
}

impl<W> Model for StdSink<W> {
    ghost use Rattle.vx_io.specs.Writer.{WriterState};

    ghost Value = { WriterState W };

    ghost view = { λ s. record { writer = s.writer; faults = s.faults } };
}

impl<W> StdSink<W> {
    /// A sink into the writer.
    pub fn new(writer: W) -> StdSink<W>
        ensures { result ≡ record { writer = writer; faults = 0 } }
    {
        StdSink { writer, faults: 0 }
    }
}

impl<W: Write> Sink for StdSink<W> {
    ghost taken = { λ _. None };

    ghost faults = { λ s. s.faults };

    /// Writes once, or not at all where there are no bytes. Any error of the writer is a fault, and
    /// so is a write that takes no byte.
    fn write(&mut self, bytes: &[u8]) -> Put
        // As the trait says.
        ensures took { IfTook result
            (λ n. (n ≤ length bytes.now) × (0 < length bytes.now → 0 < n)) }
        ensures failed { result ≡ Put.Failed → HasRisen self.old.faults self.new.faults }
        ensures counted { self.old.faults ≤ self.new.faults }

        // What it does to the bytes of a writer that tells them.
        ensures appended { IfTook result (λ n.
            Appends (W.contents self.old.writer) (W.contents self.new.writer) (take n bytes.now)) }
        ensures kept { result ≡ Put.Failed
            → Keeps (W.contents self.old.writer) (W.contents self.new.writer) }
        ensures no_call { length bytes.now ≡ 0 → (result ≡ Put.Took 0) × (self.new ≡ self.old) }

        // What it counts.
        ensures one_fault { result ≡ Put.Failed → self.new.faults ≡ next_count self.old.faults }
        ensures no_fault { result ≢ Put.Failed → self.new.faults ≡ self.old.faults }
    {
        if bytes.is_empty() {
            return Put::Took(0);
        }
        match self.writer.write(bytes) {
            Ok(count) if count > 0 => Put::Took(count),
            _ => {
                self.faults = self.faults.saturating_add(1);
                Put::Failed
            }
        }
    }
}
