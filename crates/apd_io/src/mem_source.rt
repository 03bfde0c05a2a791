//! A source in memory.

ghost use Rattle.std.specs.Prelude.{◌≡◌, ◌↔◌, ◌<◌, ◌≤◌, ◌++◌, [], drop, take, length, min, IfOk, OnErr, IsErr, IsTrue, true, Some};
ghost use Rattle.std.specs.Result.{is_err};
ghost use Rattle.apd_io.specs.Outside.{Counts};
ghost use Rattle.apd_io.specs.Memory.{Feed, is_due, called, left_with, tally_after, uncalled, untaken};

use crate::calls::Calls;
use crate::{Failed, Source, Tally};
use apd_base::{Ids, Text};
use std::marker::Model;

/// A source of bytes that are kept in memory, whose reads of given numbers fail.
///
/// In contracts it is the bytes that are left, how many bytes one read gives at most, its calls, and
/// what it gave.
#[derive(Drop)]
pub struct MemSource {
    bytes: Text,
    at: usize,
    most: usize,
    calls: Calls,
    tally: Tally,
}

impl Model for MemSource {
    ghost Value = { Feed };

    ghost view = { λ s. record { left = drop s.at s.bytes; most = s.most; calls = s.calls; tally = s.tally } };

    ghost invariant = { λ s. (s.at ≤ length s.bytes) × (0 < s.most) };
}

impl MemSource {
    /// A source of these bytes. `failing` lists the numbers of the reads that fail, from 1.
    pub fn new(bytes: Text, failing: Ids) -> MemSource
        ensures { result ≡
            record { left = bytes; most = usize.MAX; calls = uncalled failing; tally = untaken } }
    {
        MemSource {
            bytes,
            at: 0,
            most: usize::MAX,
            calls: Calls::new(failing),
            tally: Tally::new(),
        }
    }

    /// As [`MemSource::new`], but one read gives at most `most` bytes, which is 1 or more.
    pub fn in_pieces(bytes: Text, failing: Ids, most: u32) -> MemSource
        requires { 0 < most }
        ensures { result ≡
            record { left = bytes; most = most; calls = uncalled failing; tally = untaken } }
    {
        MemSource {
            bytes,
            at: 0,
            most: most as usize,
            calls: Calls::new(failing),
            tally: Tally::new(),
        }
    }
}

impl Source for MemSource {
    ghost left = { λ s. left_with (Some s.left) s.tally };

    ghost faults = { λ s. s.calls.faults };

    fn read(&mut self, buf: &mut [u8]) -> Result<usize, Failed>
        requires { 0 < length buf.old }
        ensures bound { IfOk result (λ n. n ≤ length buf.new) }
        ensures count { IfOk result (λ n.
            n ≡ min (length self.old.left) (min (length buf.new) self.old.most)) }
        ensures bytes { IfOk result (λ n. self.old.left ≡ take n buf.new ++ self.new.left) }
        ensures end { IfOk result (λ n. n ≡ 0 → self.old.left ≡ []) }
        ensures kept { OnErr result (self.new.left ≡ self.old.left) }
        ensures most { self.new.most ≡ self.old.most }
        ensures cause { Counts (λ _. true) self.old.calls.faults self.new.calls.faults result }
        ensures fails { IsErr result ↔ IsTrue (is_due self.old.calls) }
        ensures counted { self.new.calls ≡ called self.old.calls (is_err result) }
        ensures given { self.new.tally ≡ tally_after result self.old.tally }
    {
        if self.calls.begin() {
            self.calls.fail();
            self.tally.fail();
            return Err(Failed);
        }
        let count = give(&self.bytes.bytes()[self.at..], buf, self.most);
        self.at += count;
        self.tally.give(count);
        Ok(count)
    }
}

// Copies as many bytes to the front of the buffer as both have, and at most so many.
fn give(bytes: &[u8], buf: &mut [u8], most: usize) -> usize
    ensures count { result ≡ min (length bytes.now) (min (length buf.old) most) }
    ensures given { bytes.now ≡ take result buf.new ++ drop result bytes.now }
{
    let count = bytes.len().min(buf.len().min(most));
    buf[..count].copy_from_slice(&bytes[..count]);
    count
}
