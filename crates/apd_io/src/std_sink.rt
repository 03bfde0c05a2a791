//! A sink over a writer of the standard library.

ghost use Rattle.std.specs.Prelude.{◌≡◌, ◌<◌, ◌≤◌, ℕ, take, length, true, IfOk, OnErr, IfSome, None, if◌then◌else◌};
ghost use Rattle.std.specs.Option.{IfNone};
ghost use Rattle.std.specs.Result.{is_err};
ghost use Rattle.std.specs.Io.KnownBytes.{Appends};
ghost use Rattle.apd_io.specs.Outside.{Counts, risen};
ghost use Rattle.apd_io.specs.Wrapped.{AppendsFront};

use crate::{Failed, Sink};
use std::io::Write;
use std::marker::Model;

/// A writer of the standard library as a sink, which is flushed after each write. As a sink it tells
/// no content; what it does to a writer that tells its own stands at `write`.
///
/// In contracts it is what its writer holds, where that is told, with the number of its writes that
/// failed.
#[derive(Drop)]
pub struct StdSink<W: Write + Drop> {
    writer: W,
    faults: u64,
}

impl<W: Write + Drop> Model for StdSink<W> {
    ghost use Rattle.apd_io.specs.Wrapped.{Written};

    ghost Value = { Written };

    ghost view = { λ s. record { bytes = W.contents s.writer; faults = s.faults } };
}

impl<W: Write + Drop> StdSink<W> {
    /// A sink over this writer, without a fault so far.
    pub fn new(writer: W) -> StdSink<W>
        ensures { result ≡ record { bytes = W.contents writer; faults = 0 } }
    {
        StdSink { writer, faults: 0 }
    }
}

impl<W: Write + Drop> Sink for StdSink<W> {
    ghost held = { λ _. None };

    ghost faults = { λ s. s.faults };

    // A flush that fails is a fault, and so is a write that takes nothing. The writer may have taken
    // bytes before a flush that fails. That there is a flush is no clause: of one the library says
    // only that the writer still holds what it held.
    fn write(&mut self, bytes: &[u8]) -> Result<usize, Failed>
        requires { 0 < length bytes.now }
        ensures some { IfOk result (λ n. 0 < n) }
        ensures bound { IfOk result (λ n. n ≤ length bytes.now) }
        ensures appended { IfOk result (λ n. Appends self.old.bytes self.new.bytes
            (take n bytes.now)) }
        ensures front { OnErr result (AppendsFront self.old.bytes self.new.bytes bytes.now) }
        ensures cause { Counts (λ _. true) self.old.faults self.new.faults result }
        ensures counted { self.new.faults ≡
            (if is_err result then risen self.old.faults else self.old.faults) }
    {
        match write_flushed(&mut self.writer, bytes) {
            Some(count) => Ok(count),
            None => {
                self.faults = self.faults.saturating_add(1);
                Err(Failed)
            }
        }
    }
}

// Writes some of the bytes and flushes them, and answers how many.
fn write_flushed<W: Write>(writer: &mut W, bytes: &[u8]) -> Option<usize>
    ensures some { IfSome result (λ n. 0 < n) }
    ensures bound { IfSome result (λ n. n ≤ length bytes.now) }
    ensures appended { IfSome result (λ n. Appends (W.contents writer.old) (W.contents writer.new)
        (take n bytes.now)) }
    ensures front { IfNone result (AppendsFront (W.contents writer.old)
        (W.contents writer.new) bytes.now) }
{
    let Ok(count) = writer.write(bytes) else {
        return None;
    };
    if writer.flush().is_err() || count == 0 {
        return None;
    }
    Some(count)
}
