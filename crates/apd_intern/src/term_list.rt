//! Terms in a list: the small ones written out, the larger ones kept once.

ghost use Rattle.std.specs.Prelude.{◌≡◌, ◌<◌, ◌≤◌, ◌+◌, ◌^◌, [], ◌∷◌, ◌++◌, List, length, take, drop, IsTrue, ◌↔◌, IfOk, IfSome, OnOk, OnErr, Some, slice_get};
ghost use Rattle.apd_term.specs.Term.{Term, spell};
ghost use Rattle.apd_intern.specs.Nodes.{IsFrontOf};
ghost use Rattle.apd_intern.specs.Listed.{Keeps, MayAdd};

use crate::hints::{Hints, key_of_number, key_of_term};
use crate::terms::{TermId, Terms};
use apd_base::MOST_KEPT;
use apd_term::{Flat, Sym};
use std::alloc::{AllocError, Global};
use std::marker::Model;

/// How many symbols a term has at most that is written out.
const MOST_WRITTEN: usize = 40;

/// Where a term is kept.
#[derive(Clone, Copy, PartialEq, Eq)]
pub enum TermSpot {
    /// Its symbols begin here among all that are written out, and are so many.
    Written(u32, u8),
    /// It has this place among the terms that are kept once.
    Shared(u32),
}

/// Terms by their places. A small term is written out, a larger one shares its subterms; no contract says which are small.
/// A term that was put stands at one place as long as the guess or the hint for it holds, and else at another too.
/// Contracts see the list of the terms.
#[derive(Drop)]
pub struct TermList {
    alloc: Global,
    symbols: Vec<Sym>,
    shared: Terms,
    spots: Vec<TermSpot>,
    hints: Hints,
}

impl Model for TermList {
    ghost use Rattle.std.specs.Prelude.{List};
    ghost use Rattle.std.specs.Coded.{coded_list};
    ghost use Rattle.apd_term.specs.Term.{Term};
    ghost use Rattle.apd_term.specs.Spelling.{term_code};
    ghost use Rattle.apd_intern.specs.Listed.{listed, AreListed};

    ghost Value = { List Term };

    ghost coded = { coded_list term_code };

    ghost view = { λ l. listed l.symbols.items l.shared l.spots.items };

    ghost invariant = { λ l. AreListed l.symbols.items l.shared l.spots.items };
}

/// The symbols of a term that is written out.
fn piece(symbols: &[Sym], from: u32, size: u8) -> &[Sym]
    requires { from + size ≤ length symbols.now }
    ensures { result.now ≡ take size (drop from symbols.now) }
{
    let start = from as usize;
    let end = start + size as usize;
    &symbols[start..end]
}

/// Whether these are the same symbols.
fn are_same(a: &[Sym], b: &[Sym]) -> bool
    ensures { IsTrue result ↔ (a.now ≡ b.now) }
{
    if a.len() != b.len() {
        return false;
    }
    'symbols: for k in 0..a.len() {
        if !(a[k] == b[k]) {
            return false;
        }
    }
    true
}

/// Writes a small term's symbols out, behind all others. Want of memory too where there would be 2 ^ 32 symbols.
fn write(symbols: &mut Vec<Sym>, t: &Flat) -> Result<TermSpot, AllocError>
    requires { length (spell t.now) < 256 }
    ensures front { IsFrontOf symbols.old.items symbols.new.items }
    ensures spot { IfOk result (λ s. (terms : List Term) → Keeps symbols.new.items terms s t.now) }
{
    let more = t.symbols();
    let from = symbols.len();
    let size = more.len();
    if from >= MOST_KEPT {
        return Err(AllocError);
    }
    symbols.extend_from_slice(more)?;
    Ok(TermSpot::Written(from as u32, size as u8))
}

/// One more spot, and its place.
fn push_spot(spots: &mut Vec<TermSpot>, spot: TermSpot) -> Result<u32, AllocError>
    requires { length spots.old.items < 2 ^ 32 }
    ensures place { IfOk result (λ p. p ≡ length spots.old.items) }
    ensures ok { OnOk result (spots.new.items ≡ spots.old.items ++ spot ∷ []) }
    ensures err { OnErr result (spots.new.items ≡ spots.old.items) }
    ensures few { length spots.new.items < 2 ^ 32 }
{
    let place = spots.len();
    if place >= MOST_KEPT {
        return Err(AllocError);
    }
    spots.push(spot)?;
    Ok(place as u32)
}

/// The spot at a place, if there is one.
fn spot_at(spots: &[TermSpot], place: u32) -> Option<TermSpot>
    ensures { IfSome result (λ s. slice_get spots.now place ≡ Some s) }
{
    let spot = spots.get(place as usize)?;
    Some(*spot)
}

/// The place, if this spot stands there.
fn found_spot(spots: &[TermSpot], spot: TermSpot, place: Option<u32>) -> Option<u32>
    ensures { IfSome result (λ p. slice_get spots.now p ≡ Some spot) }
{
    let place = place?;
    let kept = spot_at(spots, place)?;
    if kept == spot { Some(place) } else { None }
}

impl TermList {
    /// No term.
    pub fn new(alloc: Global) -> TermList
        ensures { result ≡ [] }
    {
        TermList {
            alloc,
            symbols: Vec::new(alloc),
            shared: Terms::new(alloc),
            spots: Vec::new(alloc),
            hints: Hints::new(alloc),
        }
    }

    /// The place, if the term is written out there.
    fn found(&self, t: &Flat, place: Option<u32>) -> Option<u32>
        ensures { IfSome result (λ p. slice_get self.now p ≡ Some t.now) }
    {
        let place = place?;
        let TermSpot::Written(from, size) = spot_at(&self.spots, place)? else {
            return None;
        };
        if are_same(piece(&self.symbols, from, size), t.symbols()) {
            Some(place)
        } else {
            None
        }
    }

    /// The place of a small term, which is written out where neither the guess nor a hint holds.
    fn put_written(&mut self, t: &Flat, guess: Option<u32>) -> Result<u32, AllocError>
        requires { length (spell t.now) < 256 }
        ensures place { IfOk result (λ p. slice_get self.new p ≡ Some t.now) }
        ensures grown { MayAdd t.now self.old self.new }
        ensures err { OnErr result (self.new ≡ self.old) }
    {
        if let Some(place) = self.found(t, guess) {
            return Ok(place);
        }
        let key = key_of_term(t);
        if let Some(place) = self.found(t, self.hints.get(key)) {
            return Ok(place);
        }
        let spot = write(&mut self.symbols, t)?;
        let place = push_spot(&mut self.spots, spot)?;
        self.hints.note(key, place);
        Ok(place)
    }

    /// The place of a larger term, which shares its subterms.
    fn put_shared(&mut self, t: &Flat, guess: Option<u32>) -> Result<u32, AllocError>
        ensures place { IfOk result (λ p. slice_get self.new p ≡ Some t.now) }
        ensures grown { MayAdd t.now self.old self.new }
        ensures err { OnErr result (self.new ≡ self.old) }
    {
        let number = self.shared.put(t)?.0 as u32;
        let spot = TermSpot::Shared(number);
        if let Some(place) = found_spot(&self.spots, spot, guess) {
            return Ok(place);
        }
        let key = key_of_number(number as u64);
        if let Some(place) = found_spot(&self.spots, spot, self.hints.get(key)) {
            return Ok(place);
        }
        let place = push_spot(&mut self.spots, spot)?;
        self.hints.note(key, place);
        Ok(place)
    }

    /// The place of the term, which is looked for at the guess first, and put at the end where it isn't found. Want of
    /// memory too where there would be 2 ^ 32 terms, or symbols that are written out.
    pub fn put(&mut self, t: &Flat, guess: Option<u32>) -> Result<u32, AllocError>
        ensures place { IfOk result (λ p. slice_get self.new p ≡ Some t.now) }
        ensures grown { MayAdd t.now self.old self.new }
        ensures err { OnErr result (self.new ≡ self.old) }
    {
        self.hints.make_room(self.alloc)?;
        if t.symbols().len() > MOST_WRITTEN {
            return self.put_shared(t, guess);
        }
        self.put_written(t, guess)
    }

    /// The term at a place.
    pub fn get(&self, place: u32) -> Result<Flat, AllocError>
        requires { place < length self.now }
        ensures { IfOk result (λ t. slice_get self.now place ≡ Some t) }
    {
        match self.spots[place as usize] {
            TermSpot::Written(from, size) => Flat::copy_of(
                self.alloc,
                piece(&self.symbols, from, size),
            ),
            TermSpot::Shared(number) => self.shared.get(TermId(number as usize)),
        }
    }
}
