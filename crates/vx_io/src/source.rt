ghost use Rattle.std.specs.Prelude.{◌≡◌, ◌<◌, ◌≤◌, ◌↔◌, ℕ, Bool, true, List, Option, length, take};
ghost use Rattle.std.specs.Io.KnownBytes.{Consumes, IsAtEnd};
ghost use Rattle.vx_io.specs.Faults.{HasRisen};
ghost use Rattle.vx_io.specs.Source.{IfBytes, OnNoBytes};

/// What a read gave.
#[derive(Clone, Copy, Debug, PartialEq, Eq)]
pub enum Got {
    /// This many bytes, in the front of the buffer.
    Bytes(usize),
    /// No byte, since none is left.
    End,
    /// No byte, since the read failed. A later read may go on.
    Failed,
}

/// Where bytes come from.
pub trait Source {
    // The bytes left, where the source tells them.
    ghost left: { Self → Option (List ℕ) };

    // Whether the last read answered `End`.
    ghost has_ended: { Self → Bool };

    // How many reads failed, up to the greatest number of a `u64`.
    ghost faults: { Self → ℕ };

    /// Reads at least one byte into the front of the buffer.
    fn read(&mut self, into: &mut [u8]) -> Got
        requires { 0 < length into.old }
        ensures bytes { IfBytes result (λ n. (0 < n) × (n ≤ length into.old)
            × Consumes (left self.old) (left self.new) (take n into.new)) }
        ensures none { OnNoBytes result (left self.new ≡ left self.old) }
        ensures end { result ≡ Got.End → IsAtEnd (left self.old) }
        ensures ended { (has_ended self.new ≡ true) ↔ (result ≡ Got.End) }
        ensures failed { result ≡ Got.Failed → HasRisen (faults self.old) (faults self.new) }
        ensures counted { faults self.old ≤ faults self.new };
}
