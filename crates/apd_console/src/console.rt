//! Lines from a source, and bytes to a sink.

ghost use Rattle.std.specs.Prelude.{◌≡◌, ◌≢◌, ◌==◌, ◌≤◌, ◌<◌, ◌++◌, List, ℕ, [], ◌∷◌, drop, take, length, true, false, nat_eq, IfOk, IfErr, OnOk, OnErr, IsErrOf, MatchResult, MatchOption};
ghost use Rattle.apd_io.specs.Outside.{Adds, Counts, IsOver, Loses, late_after, taken_after};
ghost use Rattle.apd_console.specs.Lines.{HasNewline, NoNewline};
ghost use Rattle.apd_console.specs.Console.{Kept, IsKept, IsOnTime, fresh, Hands, HearsLine, HearsEnd, is_read_fault};
ghost use Rattle.apd_console.specs.Draft.{IsFirstNewline, TakesPart};
ghost use Rattle.apd_console.specs.Print.{AddsFront};
ghost use Rattle.apd_base.specs.declared.limits.TheConstants.{MAX_INPUT};
ghost use Rattle.apd_console.specs.declared.console.TheConstants.{CHUNK};

use crate::draft::Draft;
use crate::{Line, LineEnd};
use apd_base::MAX_INPUT;
use apd_io::{Failed, Sink, Source};
use std::alloc::{AllocError, Global};
use std::marker::Model;

/// How many bytes are read at once.
pub const CHUNK: usize = 8192;

const NEWLINE: u8 = b'\n';

/// The lines of an input, and printing to a sink.
///
/// In contracts it is the bytes that were taken and not yet handed out, how many were taken, and
/// whether the input has ended. A console remembers that it has: a terminal may give more after
/// its end.
#[derive(Drop)]
pub struct Console {
    alloc: Global,
    chunk: Vec<u8>,
    at: usize,
    end: usize,
    taken: usize,
    ended: bool,
}

impl Model for Console {
    ghost Value = { Kept };

    ghost view = { λ c. record { kept = drop c.at (take c.end c.chunk.items); taken = c.taken; ended = c.ended } };

    ghost invariant = { λ c. (c.at ≤ c.end) × (c.end ≤ CHUNK) × (length c.chunk.items ≡ CHUNK)
        × IsKept record { kept = drop c.at (take c.end c.chunk.items); taken = c.taken; ended = c.ended } };
}

impl Console {
    /// A console that has taken nothing yet.
    ///
    /// # Errors
    ///
    /// Where there is no memory for its chunk.
    pub fn new(alloc: Global) -> Result<Console, AllocError>
        ensures { IfOk result (λ c. c ≡ fresh) }
    {
        Ok(Console {
            alloc,
            chunk: vec![in alloc; 0; CHUNK]?,
            at: 0,
            end: 0,
            taken: 0,
            ended: false,
        })
    }

    /// The law of the console: it stays within the limits of what may be taken.
    pub fn keeps_its_limits(&self)
        ensures { IsKept self.now }
    {
        let _ = &self.chunk;
    }

    /// The next line. Where the bytes that are kept have one whole, nothing is taken from the source.
    ///
    /// # Errors
    ///
    /// [`LineEnd`] where there is none. After `ReadFault`, `InputLimit` or `Memory` the bytes of
    /// the unfinished line are lost.
    pub fn line<S: Source>(&mut self, source: &mut S) -> Result<Line, LineEnd>
        ensures line { MatchResult result
            (λ line. HearsLine self.old self.new (S.left source.old) (S.left source.new) line)
            (λ end. HearsEnd self.old self.new (S.left source.old) (S.left source.new) end) }
        ensures waits { HasNewline self.old.kept →
            (source.new ≡ source.old) × (self.new.taken ≡ self.old.taken) }
        ensures sound { IsKept self.new }
        ensures cause { Counts is_read_fault (S.faults source.old) (S.faults source.new) result }
    {
        let mut draft = Draft::new(self.alloc);
        'parts: loop {
            match self.more(source) {
                Ok(true) => match self.take_part(&mut draft) {
                    Ok(true) => return Ok(draft.into_line()),
                    Ok(false) => {}
                    Err(_) => return Err(LineEnd::Memory),
                },
                Ok(false) => {
                    if draft.is_begun() {
                        return Ok(draft.into_line());
                    }
                    return Err(LineEnd::Ended);
                }
                Err(end) => return Err(end),
            }
        }
    }

    /// Writes until all is taken.
    ///
    /// # Errors
    ///
    /// [`Failed`] where a write failed: the sink's count of faults rose, and a prefix was written.
    pub fn print<K: Sink>(sink: &mut K, bytes: &[u8]) -> Result<(), Failed>
        ensures ok { OnOk result (Adds (K.held sink.old) (K.held sink.new) bytes.now) }
        ensures err { OnErr result (AddsFront (K.held sink.old) (K.held sink.new) bytes.now) }
        ensures cause { Counts (λ _. true) (K.faults sink.old) (K.faults sink.new) result }
    {
        let mut rest = bytes;
        'bytes: while !rest.is_empty() {
            match sink.write(rest) {
                Ok(count) => rest = &rest[count..],
                Err(failed) => return Err(failed),
            }
        }
        Ok(())
    }

    // Sees to it that bytes are kept; there are none only at the input's end.
    #[tactic(auto, using(crate::proofs::Bytes::Hands_same))]
    fn more<S: Source>(&mut self, source: &mut S) -> Result<bool, LineEnd>
        ensures hands { Hands self.old self.new (S.left source.old) (S.left source.new) [] }
        ensures on_time { OnOk result (IsOnTime self.old (S.left source.old) →
            IsOnTime self.new (S.left source.new)) }
        ensures late { IsOnTime self.old (S.left source.old) → (S.left source.new).late ≤ 1 }
        ensures some { result ≡ Ok true → 0 < length self.new.kept }
        ensures waits { 0 < length self.old.kept →
            (source.new ≡ source.old) × (self.new ≡ self.old) }
        ensures over { result ≡ Ok false → (self.new.ended ≡ true) × (self.new.kept ≡ []) }
        ensures none { OnErr result (self.new.kept ≡ []) }
        ensures limit { IsErrOf result LineEnd.InputLimit → self.new.taken ≡ MAX_INPUT }
        ensures below { IsErrOf result LineEnd.ReadFault → self.new.taken < MAX_INPUT }
        ensures going { OnErr result (self.new.ended ≡ false) }
        ensures only { IfErr result (λ end. (end ≢ LineEnd.Ended) × (end ≢ LineEnd.Memory)) }
        ensures sound { IsKept self.new }
        ensures cause { Counts is_read_fault (S.faults source.old) (S.faults source.new) result }
    {
        if !self.is_empty() {
            return Ok(true);
        }
        self.fill(source)?;
        Ok(!self.is_empty())
    }

    // Takes the next bytes from the source, where none are kept.
    fn fill<S: Source>(&mut self, source: &mut S) -> Result<(), LineEnd>
        requires { self.old.kept ≡ [] }
        ensures hands { Hands self.old self.new (S.left source.old) (S.left source.new) [] }
        ensures on_time { OnOk result (IsOnTime self.old (S.left source.old) →
            IsOnTime self.new (S.left source.new)) }
        ensures late { IsOnTime self.old (S.left source.old) → (S.left source.new).late ≤ 1 }
        ensures ok { OnOk result (self.new.ended ≡ nat_eq (length self.new.kept) 0) }
        ensures err { OnErr result (self.new ≡ self.old) }
        ensures limit { IsErrOf result LineEnd.InputLimit → self.old.taken ≡ MAX_INPUT }
        ensures below { IsErrOf result LineEnd.ReadFault → self.old.taken < MAX_INPUT }
        ensures going { OnErr result (self.new.ended ≡ false) }
        ensures only { IfErr result (λ end. (end ≢ LineEnd.Ended) × (end ≢ LineEnd.Memory)) }
        ensures sound { IsKept self.new }
        ensures cause { Counts is_read_fault (S.faults source.old) (S.faults source.new) result }
    {
        if self.ended {
            return Ok(());
        }
        if self.taken == MAX_INPUT {
            return Err(LineEnd::InputLimit);
        }
        let want = (MAX_INPUT - self.taken).min(CHUNK);
        self.at = 0;
        self.end = 0;
        match read_some(source, &mut self.chunk, want) {
            Ok(count) => {
                self.end = count;
                self.taken += count;
                self.ended = count == 0;
                Ok(())
            }
            Err(_) => Err(LineEnd::ReadFault),
        }
    }

    // Is no byte kept?
    fn is_empty(&self) -> bool
        ensures empty { result ≡ (length self.now.kept == 0) }
        ensures sound { IsKept self.now }
    {
        self.at == self.end
    }

    // The bytes that are kept.
    fn kept(&self) -> &[u8]
        ensures kept { result.now ≡ self.now.kept }
        ensures sound { IsKept self.now }
    {
        &self.chunk[..self.end][self.at..]
    }

    // Drops bytes that are kept.
    fn skip(&mut self, count: usize)
        requires { count ≤ length self.old.kept }
        ensures kept { self.new.kept ≡ drop count self.old.kept }
        ensures taken { self.new.taken ≡ self.old.taken }
        ensures ended { self.new.ended ≡ self.old.ended }
        ensures sound { IsKept self.new }
    {
        self.at += count;
    }

    // Moves the kept bytes to a draft, up to a newline where there is one, which is answered.
    fn take_part(&mut self, draft: &mut Draft) -> Result<bool, AllocError>
        ensures part { MatchResult result (TakesPart self.old self.new draft.old draft.new)
            (λ _. self.new ≡ self.old) }
        ensures sound { IsKept self.new }
    {
        let kept = self.kept();
        match newline_in(kept) {
            Some(count) => {
                draft.extend(&kept[..count])?;
                self.skip(count + 1);
                Ok(true)
            }
            None => {
                let count = kept.len();
                draft.extend(kept)?;
                self.skip(count);
                Ok(false)
            }
        }
    }
}

// The place of the first newline.
fn newline_in(bytes: &[u8]) -> Option<usize>
    ensures { MatchOption result (NoNewline bytes.now) (IsFirstNewline bytes.now) }
{
    for (i, byte) in bytes.iter().enumerate() {
        if *byte == NEWLINE {
            return Some(i);
        }
    }
    None
}

// Reads at most so many bytes to the front of a chunk.
fn read_some<S: Source>(source: &mut S, chunk: &mut [u8], want: usize) -> Result<usize, Failed>
    requires some { 0 < want }
    requires room { want ≤ length chunk.old }
    ensures len { length chunk.new ≡ length chunk.old }
    ensures bound { IfOk result (λ n. n ≤ want) }
    ensures within { IfOk result (λ n. n ≤ length chunk.new) }
    ensures bytes { IfOk result (λ n. Loses (S.left source.old).bytes (S.left source.new).bytes
        (take n chunk.new)) }
    ensures end { IfOk result (λ n. n ≡ 0 → IsOver (S.left source.old)) }
    ensures kept { OnErr result ((S.left source.new).bytes ≡ (S.left source.old).bytes) }
    ensures taken { (S.left source.new).taken ≡ taken_after result (S.left source.old).taken }
    ensures late { (S.left source.new).late ≡ late_after result (S.left source.old).late }
    ensures cause { Counts (λ _. true) (S.faults source.old) (S.faults source.new) result }
{
    match source.read(&mut chunk[..want]) {
        Ok(count) => Ok(count),
        Err(failed) => Err(failed),
    }
}
