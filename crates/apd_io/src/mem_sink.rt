//! A sink in memory.

ghost use Rattle.std.specs.Prelude.{◌≡◌, ◌↔◌, ◌-◌, ◌<◌, ◌≤◌, ◌++◌, ◌||◌, [], take, length, min, nat_le, IfOk, OnErr, IsErr, IsTrue, true, Some, vec_capacity};
ghost use Rattle.std.specs.Result.{is_err};
ghost use Rattle.apd_io.specs.Outside.{Counts};
ghost use Rattle.apd_io.specs.Memory.{Store, is_due, called, uncalled};

use crate::calls::Calls;
use crate::{Failed, Sink};
use apd_base::Ids;
use std::alloc::{AllocError, Global};
use std::marker::Model;

/// A sink that keeps its bytes in memory, with room for so many, whose writes of given numbers
/// fail.
///
/// In contracts it is the bytes that it holds, its room, how many bytes one write takes at most, and
/// its calls.
#[derive(Drop)]
pub struct MemSink {
    bytes: Vec<u8>,
    room: u32,
    most: usize,
    calls: Calls,
}

impl Model for MemSink {
    ghost Value = { Store };

    ghost view = { λ s. record { held = s.bytes.items; room = s.room; most = s.most; calls = s.calls } };

    ghost invariant = { λ s.
        (length s.bytes.items ≤ s.room) × (s.room ≤ vec_capacity s.bytes) × (0 < s.most) };
}

impl MemSink {
    /// An empty sink for at most `room` bytes. `failing` lists the numbers of the writes that
    /// fail, from 1.
    ///
    /// # Errors
    ///
    /// Where there is no memory for `room` bytes. It is taken here, so that a write takes none.
    pub fn new(alloc: Global, room: u32, failing: Ids) -> Result<MemSink, AllocError>
        ensures { IfOk result (λ s.
            s ≡ record { held = []; room = room; most = usize.MAX; calls = uncalled failing }) }
    {
        Ok(MemSink {
            bytes: Vec::with_capacity(alloc, room as usize)?,
            room,
            most: usize::MAX,
            calls: Calls::new(failing),
        })
    }

    /// As [`MemSink::new`], but one write takes at most `most` bytes, which is 1 or more.
    ///
    /// # Errors
    ///
    /// Where there is no memory for `room` bytes.
    pub fn in_pieces(
        alloc: Global,
        room: u32,
        failing: Ids,
        most: u32,
    ) -> Result<MemSink, AllocError>
        requires { 0 < most }
        ensures { IfOk result (λ s.
            s ≡ record { held = []; room = room; most = most; calls = uncalled failing }) }
    {
        Ok(MemSink {
            bytes: Vec::with_capacity(alloc, room as usize)?,
            room,
            most: most as usize,
            calls: Calls::new(failing),
        })
    }

    /// The bytes that were written so far.
    pub fn held(&self) -> &[u8]
        ensures { result.now ≡ self.now.held }
    {
        &self.bytes
    }
}

impl Sink for MemSink {
    ghost held = { λ s. Some s.held };

    ghost faults = { λ s. s.calls.faults };

    fn write(&mut self, bytes: &[u8]) -> Result<usize, Failed>
        requires { 0 < length bytes.now }
        ensures some { IfOk result (λ n. 0 < n) }
        ensures bound { IfOk result (λ n. let space = self.old.room - length self.old.held in
            n ≡ min (min (length bytes.now) space) self.old.most) }
        ensures bytes { IfOk result (λ n. self.new.held ≡ self.old.held ++ take n bytes.now) }
        ensures kept { OnErr result (self.new.held ≡ self.old.held) }
        ensures room { self.new.room ≡ self.old.room }
        ensures most { self.new.most ≡ self.old.most }
        ensures cause { Counts (λ _. true) self.old.calls.faults self.new.calls.faults result }
        ensures fails { IsErr result ↔ IsTrue
            (is_due self.old.calls || nat_le self.old.room (length self.old.held)) }
        ensures counted { self.new.calls ≡ called self.old.calls (is_err result) }
    {
        if self.calls.begin() || self.bytes.len() >= self.room as usize {
            self.calls.fail();
            return Err(Failed);
        }
        let space = self.room as usize - self.bytes.len();
        let count = bytes.len().min(space).min(self.most);
        self.bytes.extend_from_slice(&bytes[..count]).unwrap();
        Ok(count)
    }
}
