//! Lines that are known beforehand, as a source.

ghost use Rattle.std.specs.Prelude.{◌≡◌, ◌++◌, Some, drop, length, min, take};
ghost use Rattle.apd_io.specs.Memory.{left_with, untaken};

use apd_base::Text;
use apd_io::{Failed, Source, Tally};
use std::marker::Model;

/// A source of lines that are known beforehand, of which no read fails. Contracts see the bytes that are left, and what it gave.
#[derive(Drop)]
pub(crate) struct KnownLines {
    bytes: Text,
    at: usize,
    tally: Tally,
}

impl Model for KnownLines {
    ghost use Rattle.std.specs.Prelude.{◌≤◌, Some, drop, length};
    ghost use Rattle.apd_io.specs.Memory.{left_with};
    ghost use Rattle.apd_io.specs.Outside.{Left};

    ghost Value = { Left };

    ghost view = { λ s. left_with (Some (drop s.at s.bytes)) s.tally };

    ghost invariant = { λ s. s.at ≤ length s.bytes };
}

impl KnownLines {
    /// A source of these bytes.
    pub fn new(bytes: Text) -> KnownLines
        ensures { result ≡ left_with (Some bytes) untaken }
    {
        KnownLines {
            bytes,
            at: 0,
            tally: Tally::new(),
        }
    }
}

impl Source for KnownLines {
    ghost left = { λ s. s };

    ghost faults = { λ s. 0 };

    fn read(&mut self, buf: &mut [u8]) -> Result<usize, Failed> {
        let count = give(&self.bytes.bytes()[self.at..], buf);
        self.at += count;
        self.tally.give(count);
        Ok(count)
    }
}

/// Copies as many bytes to the front of the buffer as both have.
fn give(bytes: &[u8], buf: &mut [u8]) -> usize
    ensures count { result ≡ min (length bytes.now) (length buf.old) }
    ensures given { bytes.now ≡ take result buf.new ++ drop result bytes.now }
{
    let count = bytes.len().min(buf.len());
    buf[..count].copy_from_slice(&bytes[..count]);
    count
}
