//! Skips over a term's subterms (flatterms, Christian 1993): where each ends, and where one begins that is equal to it.

ghost use Rattle.std.specs.Prelude.{◌≡◌, ◌+◌, ◌<◌, length, IfOk, IsTrue};
ghost use Rattle.apd_term.specs.Term.{IsWhole, arity_of, spell};
ghost use Rattle.apd_skips.specs.Skips.{AreSkipsFrom, HasSkips, IsSkip, end_behind, subterm_at, terms_from};

use apd_term::{Flat, Sym};
use std::alloc::{AllocError, Global};

/// Of the subterm that begins at a place: where it ends, and a place where one begins that is equal to it.
#[derive(Clone, Copy)]
pub(crate) struct Skip {
    pub end: usize,
    pub equal: usize,
}

/// How many arguments the symbol has.
pub fn arity_of(symbol: Sym) -> usize
    ensures { result ≡ arity_of symbol }
{
    match symbol {
        Sym::Fun(_, arity) => arity as usize,
        _ => 0,
    }
}

/// Whether the symbol is a term that has neither arguments nor a variable.
fn is_constant(symbol: Sym) -> bool {
    match symbol {
        Sym::Var(_) => false,
        _ => arity_of(symbol) == 0,
    }
}

/// Where so many of the terms end that begin at a place.
fn pass(symbols: &[Sym], skips: &[Skip], from: usize, count: usize) -> usize
    requires whole { IsWhole symbols.now }
    requires same { length skips.now ≡ length symbols.now }
    requires skips { AreSkipsFrom symbols.now skips.now from }
    ensures { result ≡ end_behind symbols.now from count }
{
    let mut end = from;
    'terms: for _k in 0..count {
        if end >= symbols.len() {
            return end;
        }
        end = skips[end].end;
    }
    end
}

/// Whether one place stands for the terms at two places, or both are one symbol and no more.
fn is_one(symbols: &[Sym], one: usize, other: usize, left: &Skip, right: &Skip) -> bool
    requires one { one < length symbols.now }
    requires other { other < length symbols.now }
    requires left { IsSkip symbols.now one left.now }
    requires right { IsSkip symbols.now other right.now }
    ensures { IsTrue result → subterm_at symbols.now one ≡ subterm_at symbols.now other }
{
    if left.equal == right.equal {
        return true;
    }
    if symbols[one] != symbols[other] {
        return false;
    }
    arity_of(symbols[other]) == 0
}

/// Whether so many terms that begin at the one place and at the other are one by one the same, by what stands for them.
fn are_equal(symbols: &[Sym], skips: &[Skip], one: usize, other: usize, count: usize) -> bool
    requires whole { IsWhole symbols.now }
    requires same { length skips.now ≡ length symbols.now }
    requires ones { AreSkipsFrom symbols.now skips.now one }
    requires others { AreSkipsFrom symbols.now skips.now other }
    ensures { IsTrue result →
        terms_from symbols.now one count ≡ terms_from symbols.now other count }
{
    let mut i = one;
    let mut j = other;
    'terms: for _k in 0..count {
        let (Some(left), Some(right)) = (skips.get(i), skips.get(j)) else {
            return false;
        };
        if !is_one(symbols, i, j, left, right) {
            return false;
        }
        i = left.end;
        j = right.end;
    }
    true
}

/// A place whose subterm is equal to the one at this place: the place behind, where their symbols are the same and the same places
/// stand for their arguments, else this one.
fn equal_place(symbols: &[Sym], skips: &[Skip], at: usize, behind: usize) -> usize
    requires whole { IsWhole symbols.now }
    requires same { length skips.now ≡ length symbols.now }
    requires there { at < length symbols.now }
    requires skips { AreSkipsFrom symbols.now skips.now (at + 1) }
    ensures { subterm_at symbols.now result ≡ subterm_at symbols.now at }
{
    if behind <= at || behind >= symbols.len() || symbols[behind] != symbols[at] {
        return at;
    }
    let count = arity_of(symbols[at]);
    if are_equal(symbols, skips, behind + 1, at + 1, count) {
        return behind;
    }
    at
}

/// How many places are tried for a digest. At most half of them are used, so each is free by an even chance.
const TRIES: usize = 64;

/// Of the places that were put by their digests the one that has this digest; else the place is put, and is this one. Places are counted
/// from 1, and 0 is none. Where to begin and how far to go on are told by different bits of a digest. It may be missed by chance.
fn behind(places: &mut [u32], digests: &[u64], at: usize) -> usize {
    let Some(digest) = digests.get(at) else {
        return at;
    };
    let mask = places.len().saturating_sub(1);
    let step = (*digest >> 32) as usize | 1;
    let mut i = *digest as usize;
    'tries: for _k in 0..TRIES {
        let Some(place) = places.get_mut(i & mask) else {
            return at;
        };
        if *place == 0 {
            *place = u32::try_from(at.saturating_add(1)).unwrap_or(0);
            return at;
        }
        let there = *place as usize - 1;
        if digests.get(there) == Some(digest) {
            return there;
        }
        i = i.wrapping_add(step);
    }
    at
}

/// The skip of a place, where those of the places behind it are known. A constant needs no place that stands for it.
fn skip_at(symbols: &[Sym], skips: &[Skip], digests: &[u64], places: &mut [u32], at: usize) -> Skip
    requires whole { IsWhole symbols.now }
    requires same { length skips.now ≡ length symbols.now }
    requires there { at < length symbols.now }
    requires skips { AreSkipsFrom symbols.now skips.now (at + 1) }
    ensures { IsSkip symbols.now at result }
{
    let symbol = symbols[at];
    let end = pass(symbols, skips, at + 1, arity_of(symbol));
    if is_constant(symbol) {
        return Skip { end, equal: at };
    }
    let behind = behind(places, digests, at);
    let equal = equal_place(symbols, skips, at, behind);
    Skip { end, equal }
}

/// Room for the places of so many symbols: a power of two, of which at most half is used.
fn room_for(count: usize) -> usize {
    let mut room: usize = 4;
    'doubled: for _k in 0..60 {
        if room / 2 >= count {
            return room;
        }
        room = room.saturating_mul(2);
    }
    room
}

/// The skips of the term's symbols, found from the last one to the first.
pub(crate) fn skips_of(alloc: Global, term: &Flat, digests: &[u64]) -> Result<Vec<Skip>, AllocError>
    ensures { IfOk result (λ skips. HasSkips (spell term.now) skips.items) }
{
    let symbols = term.symbols();
    let mut places = vec![in alloc; 0u32; room_for(symbols.len())]?;
    let mut skips = vec![in alloc; Skip { end: 0, equal: 0 }; symbols.len()]?;
    'symbols: for at in (0..symbols.len()).rev() {
        let skip = skip_at(
            symbols,
            skips.as_slice(),
            digests,
            places.as_mut_slice(),
            at,
        );
        skips[at] = skip;
    }
    Ok(skips)
}
