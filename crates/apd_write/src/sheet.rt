//! What terms are written on.

ghost use Rattle.std.specs.Prelude.{◌≡◌, ◌≤◌, ◌+◌, ◌++◌, [], ◌∷◌, length, take, true, false, IfOk, OnOk, if◌then◌else◌};
ghost use Rattle.std.specs.List.{list_all};
ghost use Rattle.apd_token.specs.Bytes.{is_word};
ghost use Rattle.apd_write.specs.NameTexts.{is_word_name};

use apd_token::{is_small, is_word};
use std::alloc::{AllocError, Global};
use std::marker::Model;

/// The least room that is asked for at first.
const LEAST: usize = 256;

/// Bytes that are written one behind the other. What is behind their end is room, in which bytes
/// stand that say nothing: so a name is looked at and written in one pass, and the room serves for
/// one text after another. Contracts see the bytes up to the end.
#[derive(Drop)]
pub struct Sheet {
    bytes: Vec<u8>,
    end: usize,
}

impl Model for Sheet {
    ghost use Rattle.std.specs.Prelude.{◌≤◌, List, ℕ, length, take};

    ghost Value = { List ℕ };

    ghost view = { λ s. take s.end s.bytes.items };

    ghost invariant = { λ s. s.end ≤ length s.bytes.items };
}

/// Takes room up to so many bytes, and no more. It is reserved first, since a vector that is made
/// longer asks for twice its room by itself.
#[inline(never)]
#[cold]
fn enlarge_exactly(bytes: &mut Vec<u8>, end: usize, least: usize) -> Result<(), AllocError>
    requires inside { end ≤ length bytes.old.items }
    requires more { end ≤ least }
    ensures front { take end bytes.new.items ≡ take end bytes.old.items }
    ensures within { end ≤ length bytes.new.items }
    ensures room { OnOk result (least ≤ length bytes.new.items) }
{
    let more = least.saturating_sub(bytes.len());
    bytes.reserve_exact(more)?;
    bytes.resize(least, 0)
}

/// Takes room for so many bytes behind the end: twice the room or, where that is refused, as much
/// as is asked for. It isn't inlined: the room is mostly there.
#[inline(never)]
fn enlarge(bytes: &mut Vec<u8>, end: usize, count: usize) -> Result<(), AllocError>
    requires { end ≤ length bytes.old.items }
    ensures front { take end bytes.new.items ≡ take end bytes.old.items }
    ensures within { end ≤ length bytes.new.items }
    ensures room { OnOk result (end + count ≤ length bytes.new.items) }
{
    let Some(least) = end.checked_add(count) else {
        return Err(AllocError);
    };
    let twice = bytes.len().saturating_mul(2);
    match bytes.resize(least.max(twice).max(LEAST), 0) {
        Ok(()) => Ok(()),
        Err(AllocError) => enlarge_exactly(bytes, end, least),
    }
}

/// Room for so many bytes behind the end.
#[inline(always)]
fn make_room(bytes: &mut Vec<u8>, end: usize, count: usize) -> Result<(), AllocError>
    requires { end ≤ length bytes.old.items }
    ensures front { take end bytes.new.items ≡ take end bytes.old.items }
    ensures within { end ≤ length bytes.new.items }
    ensures room { OnOk result (end + count ≤ length bytes.new.items) }
{
    if count <= bytes.len() - end {
        return Ok(());
    }
    enlarge(bytes, end, count)
}

/// Copies a name to the front of a room up to the first byte that isn't a letter, a digit or `_`,
/// and tells whether there is none.
#[inline(always)]
fn copy_word(name: &[u8], room: &mut [u8]) -> bool
    requires { length name.now ≤ length room.old }
    ensures length { length room.new ≡ length room.old }
    ensures all { result ≡ list_all is_word name.now }
    ensures copied { result ≡ true → take (length name.now) room.new ≡ name.now }
{
    let mut i: usize = 0;
    'bytes: while i < name.len() {
        let byte = name[i];
        if !is_word(byte) {
            return false;
        }
        room[i] = byte;
        i += 1;
    }
    true
}

/// Whether the first byte is a small letter: a name that begins so is a word where all its bytes
/// are those of words.
#[inline(always)]
fn begins_small(name: &[u8]) -> bool
    ensures no { result ≡ false → is_word_name name.now ≡ false }
    ensures yes { result ≡ true → is_word_name name.now ≡ list_all is_word name.now }
{
    match name {
        [first, ..] => is_small(*first),
        [] => false,
    }
}

impl Sheet {
    /// Nothing is written.
    pub fn new(alloc: Global) -> Sheet
        ensures { result ≡ [] }
    {
        Sheet {
            bytes: Vec::new(alloc),
            end: 0,
        }
    }

    /// Begins anew: nothing is written.
    #[inline(always)]
    pub fn clear(&mut self)
        ensures { self.new ≡ [] }
    {
        self.end = 0;
    }

    /// How many bytes there is room for, with those that are written.
    pub fn room(&self) -> usize {
        self.bytes.len()
    }

    /// What is written.
    #[inline(always)]
    pub fn bytes(&self) -> &[u8]
        ensures { result.now ≡ self.now }
    {
        &self.bytes[..self.end]
    }

    /// Writes a byte.
    #[inline(always)]
    pub fn push(&mut self, byte: u8) -> Result<(), AllocError>
        ensures { OnOk result (self.new ≡ self.old ++ byte ∷ []) }
    {
        make_room(&mut self.bytes, self.end, 1)?;
        self.bytes[self.end] = byte;
        self.end += 1;
        Ok(())
    }

    /// Writes bytes.
    #[inline(always)]
    pub fn extend(&mut self, bytes: &[u8]) -> Result<(), AllocError>
        ensures { OnOk result (self.new ≡ self.old ++ bytes.now) }
    {
        let end = self.end;
        make_room(&mut self.bytes, end, bytes.len())?;
        self.bytes[end..end + bytes.len()].copy_from_slice(bytes);
        self.end = end + bytes.len();
        Ok(())
    }

    /// Writes a name that is a word; of any other nothing is written, and the answer is false.
    #[inline(always)]
    pub fn word(&mut self, name: &[u8]) -> Result<bool, AllocError>
        ensures is { IfOk result (λ b. b ≡ is_word_name name.now) }
        ensures written { IfOk result
            (λ b. self.new ≡ (if b then self.old ++ name.now else self.old)) }
    {
        if !begins_small(name) {
            return Ok(false);
        }
        let end = self.end;
        make_room(&mut self.bytes, end, name.len())?;
        if !copy_word(name, &mut self.bytes[end..]) {
            return Ok(false);
        }
        self.end = end + name.len();
        Ok(true)
    }
}
