ghost use Rattle.std.specs.Prelude.{◌≡◌, ◌≤◌, [], ◌++◌, length, drop, OnOk, OnErr, vec_len};

use std::alloc::{AllocError, Global};
use std::marker::Model;

// Bytes in a row: they come at the end, and go at the front.
#[derive(Debug, Drop)]
pub(crate) struct Queue {
    bytes: Vec<u8>,
    // How many of them are gone.
    start: usize,
}

impl Model for Queue {
    ghost use Rattle.std.specs.Prelude.{ℕ, List, ◌≤◌, drop, vec_len};

    ghost Value = { List ℕ };

    ghost view = { λ q. drop q.start q.bytes.items };

    ghost invariant = { λ q. q.start ≤ vec_len q.bytes };
}

impl Queue {
    pub(crate) fn new(alloc: Global) -> Queue
        ensures { result ≡ [] }
    {
        Queue {
            bytes: Vec::new(alloc),
            start: 0,
        }
    }

    pub(crate) fn as_slice(&self) -> &[u8]
        ensures { result.now ≡ self.now }
    {
        &self.bytes.as_slice()[self.start..]
    }

    pub(crate) fn push_back(&mut self, piece: &[u8]) -> Result<(), AllocError>
        ensures ok { OnOk result (self.new ≡ self.old ++ piece.now) }
        ensures err { OnErr result (self.new ≡ self.old) }
    {
        self.bytes.extend_from_slice(piece)
    }

    // The bytes that stay are moved only once they are fewer than those that went, so that each of those pays for
    // one that is moved, and all moves together take no longer than the bytes that went.
    pub(crate) fn drop_front(&mut self, count: usize)
        requires { count ≤ length self.old }
        ensures { self.new ≡ drop count self.old }
    {
        self.start += count;
        if self.start > self.bytes.len() - self.start {
            remove_front(&mut self.bytes, self.start);
            self.start = 0;
        }
    }

    pub(crate) fn clear(&mut self)
        ensures { self.new ≡ [] }
    {
        self.bytes.clear();
        self.start = 0;
    }
}

// Moves what is behind the first bytes to the front.
fn remove_front(bytes: &mut Vec<u8>, count: usize)
    requires { count ≤ vec_len bytes.old }
    ensures { bytes.new.items ≡ drop count bytes.old.items }
{
    let left = bytes.len() - count;
    bytes.copy_within(count.., 0);
    bytes.truncate(left);
}
