//! Rows of bits, a bit for each place.

ghost use Rattle.std.specs.Prelude.{◌≡◌, ◌≢◌, ◌≤◌, ℕ, length, get_or, IfOk, IsFalse, IsTrue, OnOk};
ghost use Rattle.apd_bits.specs.Rows.{HasBit, HasBits, HasNoBits, IsClearNear, IsWithin, IsWithinBut, IsWithinEither, has_bit};

use std::alloc::{AllocError, Global};
use std::marker::Model;

/// So many bits are in a word.
const BITS: usize = 64;

/// Makes the words at least so many.
fn grow(words: &mut Vec<u64>, count: usize) -> Result<(), AllocError>
    ensures kept { IsWithin words.old.items words.new.items }
    ensures only { IsWithin words.new.items words.old.items }
    ensures ok { OnOk result (count ≤ length words.new.items) }
{
    'words: while words.len() < count {
        words.push(0)?;
    }
    Ok(())
}

/// Sets the place's bit.
fn set(words: &mut Vec<u64>, place: usize) -> Result<(), AllocError>
    ensures kept { IsWithin words.old.items words.new.items }
    ensures only { IsWithinBut words.new.items words.old.items place }
    ensures set { OnOk result (HasBit words.new.items place) }
{
    let word = place / BITS;
    grow(words, word + 1)?;
    words[word] |= 1 << (place % BITS);
    Ok(())
}

/// Clears the place's bit.
fn clear(words: &mut Vec<u64>, place: usize)
    ensures { (k : ℕ) → k ≢ place → HasBit words.old.items k → HasBit words.new.items k }
{
    let word = place / BITS;
    if word < words.len() {
        words[word] &= !(1 << (place % BITS));
    }
}

/// Whether no bit is set.
fn is_clear(words: &[u64]) -> bool
    ensures { IsTrue result → HasNoBits words.now }
{
    'words: for word in words {
        if *word != 0 {
            return false;
        }
    }
    true
}

/// Sets the bits of these places.
fn set_all(words: &mut Vec<u64>, places: &[usize]) -> Result<(), AllocError>
    ensures kept { IsWithin words.old.items words.new.items }
    ensures set { OnOk result (HasBits words.new.items places.now) }
{
    'places: for place in places {
        set(words, *place)?;
    }
    Ok(())
}

/// The word, which has no bits where it is absent.
fn word_at(words: &[u64], word: usize) -> u64
    ensures { result ≡ get_or words.now word 0 }
{
    if word >= words.len() {
        return 0;
    }
    words[word]
}

/// Whether the place's bit is set.
fn has(words: &[u64], place: usize) -> bool
    ensures { result ≡ has_bit words.now place }
{
    word_at(words, place / BITS) >> (place % BITS) & 1 == 1
}

/// Sets the bits that the other row has.
fn join(words: &mut Vec<u64>, other: &[u64]) -> Result<(), AllocError>
    ensures kept { IsWithin words.old.items words.new.items }
    ensures only { IsWithinEither words.new.items words.old.items other.now }
    ensures joined { OnOk result (IsWithin other.now words.new.items) }
{
    grow(words, other.len())?;
    'words: for i in 0..other.len() {
        words[i] |= other[i];
    }
    Ok(())
}

/// Leaves those bits that the other row has too.
fn meet(words: &mut Vec<u64>, other: &[u64])
    ensures { (k : ℕ) → HasBit words.old.items k → HasBit other.now k → HasBit words.new.items k }
{
    'words: for i in 0..words.len() {
        words[i] &= word_at(other, i);
    }
}

/// Leaves those bits that the other row hasn't.
fn leave_out(words: &mut Vec<u64>, other: &[u64])
    ensures { (k : ℕ) → HasBit words.old.items k → ¬ HasBit other.now k → HasBit words.new.items k }
{
    'words: for i in 0..words.len() {
        let word = words[i];
        words[i] = word & (word ^ word_at(other, i));
    }
}

/// A bit for each place. Contracts see the words.
#[derive(Drop)]
pub struct Row {
    words: Vec<u64>,
}

impl Model for Row {
    ghost use Rattle.std.specs.Prelude.{List, ℕ};

    ghost Value = { List ℕ };

    ghost view = { λ r. r.words.items };
}

impl Row {
    /// No bits.
    pub fn new(alloc: Global) -> Row
        ensures { HasNoBits result }
    {
        Row {
            words: Vec::new(alloc),
        }
    }

    /// A row with the same bits.
    pub fn copy(&self, alloc: Global) -> Result<Row, AllocError>
        ensures { IfOk result (λ row. row ≡ self.now) }
    {
        let words = Vec::from_slice(alloc, self.words.as_slice())?;
        Ok(Row { words })
    }

    /// Sets the place's bit.
    pub fn set(&mut self, place: usize) -> Result<(), AllocError>
        ensures kept { IsWithin self.old self.new }
        ensures only { IsWithinBut self.new self.old place }
        ensures set { OnOk result (HasBit self.new place) }
    {
        set(&mut self.words, place)
    }

    /// Sets the bits of these places.
    pub fn set_all(&mut self, places: &[usize]) -> Result<(), AllocError>
        ensures kept { IsWithin self.old self.new }
        ensures set { OnOk result (HasBits self.new places.now) }
    {
        set_all(&mut self.words, places)
    }

    /// Clears the place's bit.
    pub fn clear(&mut self, place: usize)
        ensures { (k : ℕ) → k ≢ place → HasBit self.old k → HasBit self.new k }
    {
        clear(&mut self.words, place);
    }

    /// Whether no bit is set.
    pub fn is_clear(&self) -> bool
        ensures { IsTrue result → HasNoBits self.now }
    {
        is_clear(self.words.as_slice())
    }

    /// Whether the place's bit is set.
    pub fn has(&self, place: usize) -> bool
        ensures { result ≡ has_bit self.now place }
    {
        has(self.words.as_slice(), place)
    }

    /// Whether one of the 64 places that share a word with this one has its bit set.
    pub fn has_near(&self, place: usize) -> bool
        ensures { IsFalse result → IsClearNear self.now place }
    {
        word_at(self.words.as_slice(), place / BITS) != 0
    }

    /// Sets the bits that the other row has.
    pub fn join(&mut self, other: &Row) -> Result<(), AllocError>
        ensures kept { IsWithin self.old self.new }
        ensures only { IsWithinEither self.new self.old other.now }
        ensures joined { OnOk result (IsWithin other.now self.new) }
    {
        join(&mut self.words, other.words.as_slice())
    }

    /// Leaves those bits that the other row hasn't.
    pub fn leave_out(&mut self, other: &Row)
        ensures { (k : ℕ) → HasBit self.old k → ¬ HasBit other.now k → HasBit self.new k }
    {
        leave_out(&mut self.words, other.words.as_slice());
    }

    /// Leaves those bits that the other row has too.
    pub fn meet(&mut self, other: &Row)
        ensures { (k : ℕ) → HasBit self.old k → HasBit other.now k → HasBit self.new k }
    {
        meet(&mut self.words, other.words.as_slice());
    }
}
