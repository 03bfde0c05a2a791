//! Where nodes, links and terms were found last, so that most look-ups need no search.

use crate::node::{ArgumentsLink, TermNode};
use apd_term::{Flat, Sym};
use std::alloc::{AllocError, Global};

/// How many hints there are, a power of two.
const COUNT: u32 = 32_768;

/// An odd number by which the symbols of a term are mixed, 2 ^ 64 by the golden ratio.
const MIXER: u64 = 11_400_714_819_323_198_485;

/// What tells the integers from the variables, and the names.
const INTEGERS: u64 = 2_654_435_769;

const NAMES: u64 = 3_266_489_917;

/// The odd numbers by which the bits of a place, of two places, and of these with a name are spread.
const BY_PLACE: u32 = 2_654_435_769;

const BY_PLACES: u32 = 2_246_822_519;

const BY_ALL: u32 = 3_266_489_917;

/// How many marks there are, those of 32 bits.
const MARKS: u64 = 4_294_967_296;

/// How many marks have the same number.
const MARKS_OF_NUMBER: u32 = (MARKS / COUNT as u64) as u32;

/// Where to look first, and what is noted there: two numbers that equal nodes share, equal links, and equal terms.
#[derive(Clone, Copy)]
pub struct Key {
    number: usize,
    mark: u32,
}

/// What was noted: the mark of a node, of a link or of a term, and its place.
#[derive(Clone, Copy)]
struct Hint {
    mark: u32,
    place: u32,
}

/// Hints of nodes, of links, or of terms. No contract speaks of them, since each is tried before it is taken. A mark that
/// differs saves the look at a place that is far in memory.
#[derive(Drop)]
pub struct Hints {
    hints: Vec<Hint>,
}

/// The key with this mark, whose greatest bits are taken.
fn of_mark(mark: u32) -> Key {
    Key {
        number: (mark / MARKS_OF_NUMBER) as usize,
        mark,
    }
}

/// The key for two places and a name: their bits are spread by three odd numbers.
fn spread(first: u32, rest: u32, name: u32) -> Key {
    let places = first.wrapping_mul(BY_PLACE).wrapping_add(rest);
    let all = places.wrapping_mul(BY_PLACES).wrapping_add(name);
    of_mark(all.wrapping_mul(BY_ALL))
}

/// The key of a number.
pub fn key_of_number(n: u64) -> Key {
    Key {
        number: (n % COUNT as u64) as usize,
        mark: (n % MARKS) as u32,
    }
}

/// The key of a node.
pub fn key_of(node: TermNode) -> Key {
    match node {
        TermNode::Variable(v) => key_of_number(v),
        TermNode::Integer(i) => key_of_number(i.unsigned_abs()),
        TermNode::Compound(name, _, first, rest) => spread(first, rest, name.0),
    }
}

/// The key of a link.
pub fn key_of_link(link: ArgumentsLink) -> Key {
    spread(link.first, link.rest, 0)
}

/// A number for a symbol.
fn number_of(symbol: Sym) -> u64 {
    match symbol {
        Sym::Var(v) => v,
        Sym::Int(i) => i.unsigned_abs().wrapping_add(INTEGERS),
        Sym::Fun(name, arity) => (name.0 as u64 * 256 + arity as u64).wrapping_add(NAMES),
    }
}

/// The key of a term: its symbols are mixed one after another.
pub fn key_of_term(t: &Flat) -> Key {
    let mut all: u64 = 0;
    for symbol in t.symbols() {
        all = all.wrapping_add(number_of(*symbol)).wrapping_mul(MIXER);
    }
    of_mark((all / MARKS) as u32)
}

impl Hints {
    /// No hint.
    pub fn new(alloc: Global) -> Hints {
        Hints {
            hints: Vec::new(alloc),
        }
    }

    /// Room for hints, if there is none yet.
    pub fn make_room(&mut self, alloc: Global) -> Result<(), AllocError> {
        if self.hints.is_empty() {
            let none = Hint { mark: 0, place: 0 };
            self.hints = vec![in alloc; none; COUNT as usize]?;
        }
        Ok(())
    }

    /// Where to look, if something with this key was noted.
    pub fn get(&self, key: Key) -> Option<u32> {
        match self.hints.get(key.number) {
            Some(hint) if hint.mark == key.mark => Some(hint.place),
            _ => None,
        }
    }

    /// Notes where it was found.
    pub fn note(&mut self, key: Key, place: u32) {
        if let Some(hint) = self.hints.get_mut(key.number) {
            *hint = Hint {
                mark: key.mark,
                place,
            };
        }
    }
}
