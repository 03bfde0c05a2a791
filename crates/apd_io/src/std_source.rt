//! A source over a reader of the standard library.

ghost use Rattle.std.specs.Prelude.{◌≡◌, ◌<◌, ◌≤◌, ℕ, take, length, true, IfOk, OnErr, None, if◌then◌else◌};
ghost use Rattle.std.specs.Result.{is_err};
ghost use Rattle.std.specs.Io.KnownBytes.{Consumes, Keeps, IsAtEnd};
ghost use Rattle.apd_io.specs.Memory.{left_with, tally_after, untaken};
ghost use Rattle.apd_io.specs.Outside.{Counts, risen};

use crate::{Failed, Source, Tally};
use std::io::Read;
use std::marker::Model;

/// A reader of the standard library as a source. As a source it tells no content; what it does to a
/// reader that tells its own stands at `read`.
///
/// In contracts it is what its reader has left, where that is told, with the number of its reads that
/// failed, and what they gave.
#[derive(Drop)]
pub struct StdSource<R: Read + Drop> {
    reader: R,
    faults: u64,
    tally: Tally,
}

impl<R: Read + Drop> Model for StdSource<R> {
    ghost use Rattle.apd_io.specs.Wrapped.{Drawn};

    ghost Value = { Drawn };

    ghost view = { λ s. record { bytes = R.remaining s.reader; faults = s.faults; tally = s.tally } };
}

impl<R: Read + Drop> StdSource<R> {
    /// A source over this reader, without a fault so far.
    pub fn new(reader: R) -> StdSource<R>
        ensures { result ≡ record { bytes = R.remaining reader; faults = 0; tally = untaken } }
    {
        StdSource {
            reader,
            faults: 0,
            tally: Tally::new(),
        }
    }
}

impl<R: Read + Drop> Source for StdSource<R> {
    ghost left = { λ s. left_with None s.tally };

    ghost faults = { λ s. s.faults };

    fn read(&mut self, buf: &mut [u8]) -> Result<usize, Failed>
        requires { 0 < length buf.old }
        ensures bound { IfOk result (λ n. n ≤ length buf.new) }
        ensures consumed { IfOk result (λ n. Consumes self.old.bytes self.new.bytes
            (take n buf.new)) }
        ensures over { IfOk result (λ n. n ≡ 0 → IsAtEnd self.new.bytes) }
        ensures kept { OnErr result (Keeps self.old.bytes self.new.bytes) }
        ensures cause { Counts (λ _. true) self.old.faults self.new.faults result }
        ensures counted { self.new.faults ≡
            (if is_err result then risen self.old.faults else self.old.faults) }
        ensures given { self.new.tally ≡ tally_after result self.old.tally }
    {
        match self.reader.read(buf) {
            Ok(count) => {
                self.tally.give(count);
                Ok(count)
            }
            Err(_) => {
                self.tally.fail();
                self.faults = self.faults.saturating_add(1);
                Err(Failed)
            }
        }
    }
}
