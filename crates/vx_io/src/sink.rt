ghost use Rattle.std.specs.Prelude.{◌≡◌, ◌<◌, ◌≤◌, ℕ, List, Option, length, take, OnOk, OnErr, IfSome};
ghost use Rattle.std.specs.Io.KnownBytes.{Appends};
ghost use Rattle.vx_io.specs.Faults.{HasRisen};
ghost use Rattle.vx_io.specs.Sink.{IfTook, AppendsPart};

/// What a write took.
#[derive(Clone, Copy, Debug, PartialEq, Eq)]
pub enum Put {
    /// This many bytes, from the front of those that were offered.
    Took(usize),
    /// None, since the write failed. A later write may go on.
    Failed,
}

/// Where bytes go to.
pub trait Sink {
    // The bytes taken, where the sink tells them.
    ghost taken: { Self → Option (List ℕ) };

    // How many writes failed, up to the greatest number of a `u64`.
    ghost faults: { Self → ℕ };

    /// Takes a front of the bytes.
    fn write(&mut self, bytes: &[u8]) -> Put
        ensures took { IfTook result (λ n. (n ≤ length bytes.now) × (0 < length bytes.now → 0 < n)
            × Appends (taken self.old) (taken self.new) (take n bytes.now)) }
        ensures failed { result ≡ Put.Failed → HasRisen (faults self.old) (faults self.new) }
        ensures unchanged { result ≡ Put.Failed → taken self.new ≡ taken self.old }
        ensures counted { faults self.old ≤ faults self.new };
}

/// A write failed before all bytes were taken.
#[derive(Clone, Copy, Debug, PartialEq, Eq)]
pub struct WriteFault;

/// Offers the bytes until all are taken or a write fails. Each write offers all that is not yet
/// taken; no write is made with no bytes.
pub fn write_all<K: Sink>(sink: &mut K, bytes: &[u8]) -> Result<(), WriteFault>
    ensures all { OnOk result (Appends (K.taken sink.old) (K.taken sink.new) bytes.now) }
    ensures part { OnErr result (IfSome (K.taken sink.old)
        (λ before. AppendsPart before (K.taken sink.new) bytes.now)) }
    ensures failed { OnErr result (HasRisen (K.faults sink.old) (K.faults sink.new)) }
    ensures counted { K.faults sink.old ≤ K.faults sink.new }
{
    let mut rest = bytes;
    while !rest.is_empty() {
        match sink.write(rest) {
            Put::Took(count) => rest = &rest[count..],
            Put::Failed => return Err(WriteFault),
        }
    }
    Ok(())
}
