//! A source that gives a line at a time, and notes how much was written before each read.

ghost use Rattle.std.specs.Prelude.{◌≤◌, ℕ, length, None};
ghost use Rattle.apd_io.specs.Memory.{left_with};

use apd_base::Text;
use apd_io::{Failed, Sink, Source, Tally};
use std::alloc::{AllocError, Global};
use std::cell::Cell;
use std::marker::Model;

/// A read: how many bytes were written before it, and how many bytes of the input it began and ended behind.
#[derive(Clone, Copy)]
pub struct Turn {
    pub written: usize,
    pub from: usize,
    pub to: usize,
}

/// A source that gives a line at a time.
#[derive(Drop)]
pub struct LineSource<'a> {
    written: &'a Cell<usize>,
    lines: &'a [u8],
    at: usize,
    turns: Vec<Turn>,
    faults: u64,
    tally: Tally,
}

impl<'a> Model for LineSource<'a> {
    ghost use Rattle.std.specs.Prelude.{None};
    ghost use Rattle.apd_io.specs.Wrapped.{Drawn};

    ghost Value = { Drawn };

    ghost view = { λ s. record { bytes = None; faults = s.faults; tally = s.tally } };
}

impl<'a> LineSource<'a> {
    /// The lines, and where the bytes are counted that were written.
    pub fn new(alloc: Global, lines: &'a [u8], written: &'a Cell<usize>) -> LineSource<'a> {
        LineSource {
            written,
            lines,
            at: 0,
            turns: Vec::new(alloc),
            faults: 0,
            tally: Tally::new(),
        }
    }

    /// The reads so far.
    pub fn turns(&self) -> &[Turn] {
        &self.turns
    }
}

/// How many bytes the first line has with its end, at most so many.
fn line_len(bytes: &[u8], most: usize) -> usize
    ensures within { result ≤ length bytes.now }
    ensures bound { result ≤ most }
{
    let end = match bytes.iter().position(|b| *b == b'\n') {
        Some(place) => place.saturating_add(1),
        None => bytes.len(),
    };
    end.min(bytes.len()).min(most)
}

impl<'a> Source for LineSource<'a> {
    ghost left = { λ s. left_with None s.tally };

    ghost faults = { λ s. s.faults };

    fn read(&mut self, buf: &mut [u8]) -> Result<usize, Failed> {
        let rest = self.lines.get(self.at..).unwrap_or(&[]);
        let count = line_len(rest, buf.len());
        let turn = Turn {
            written: self.written.get(),
            from: self.at,
            to: self.at.saturating_add(count),
        };
        if self.turns.push(turn).is_err() {
            self.faults = self.faults.saturating_add(1);
            self.tally.fail();
            return Err(Failed);
        }
        buf[..count].copy_from_slice(&rest[..count]);
        self.at = turn.to;
        self.tally.give(count);
        Ok(count)
    }
}

/// A sink that counts its bytes where the source sees them.
#[derive(Drop)]
pub struct CountedSink<'a> {
    written: &'a Cell<usize>,
    text: Text,
    faults: u64,
}

impl<'a> Model for CountedSink<'a> {
    ghost Value = { ℕ };

    ghost view = { λ s. s.faults };
}

impl<'a> CountedSink<'a> {
    /// An empty sink.
    pub fn new(alloc: Global, written: &'a Cell<usize>) -> CountedSink<'a> {
        CountedSink {
            written,
            text: Text::new(alloc),
            faults: 0,
        }
    }

    /// What was written.
    pub fn text(&self) -> &[u8] {
        self.text.bytes()
    }
}

impl<'a> Sink for CountedSink<'a> {
    ghost held = { λ _. None };

    ghost faults = { λ count. count };

    fn write(&mut self, bytes: &[u8]) -> Result<usize, Failed> {
        if self.text.extend(bytes).is_err() {
            self.faults = self.faults.saturating_add(1);
            return Err(Failed);
        }
        self.written.set(self.text.len());
        Ok(bytes.len())
    }
}

/// Puts what was read behind a text: `< ` and the line, or `<` where nothing was left.
fn put_turn(out: &mut Text, line: &[u8]) -> Result<(), AllocError> {
    out.push(b'<')?;
    if !line.is_empty() {
        out.push(b' ')?;
        out.extend(line)?;
    }
    if !line.ends_with(b"\n") {
        out.push(b'\n')?;
    }
    Ok(())
}

/// The bytes between two places; none where they aren't there.
fn part(bytes: &[u8], from: usize, to: usize) -> &[u8] {
    match bytes.get(from..to) {
        Some(part) => part,
        None => &[],
    }
}

/// What was written, with each line that was read where it was read, behind `< `.
pub fn transcript(
    alloc: Global,
    turns: &[Turn],
    lines: &[u8],
    text: &[u8],
) -> Result<Text, AllocError> {
    let mut out = Text::new(alloc);
    let mut at = 0;
    for turn in turns {
        let said = part(text, at, turn.written);
        out.extend(said)?;
        at = turn.written;
        let line = part(lines, turn.from, turn.to);
        put_turn(&mut out, line)?;
    }
    let rest = part(text, at, text.len());
    out.extend(rest)?;
    Ok(out)
}
