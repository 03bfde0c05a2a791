//! Terms that are spelled: their symbols in prefix order, each a word.

use apd_rows::Scene;
use apd_term::{Atoms, Flat, NameId, Sym};
use std::alloc::Global;
use std::str;

/// The most arguments of a compound.
const MOST_ARGUMENTS: usize = 255;

/// A name before so many arguments.
pub fn function(scene: &mut Scene, name: &str, arity: u8) -> Option<Sym> {
    let name = scene.name(name).ok()?;
    Some(Sym::Fun(name, arity))
}

/// The symbol of a word with a mark: `f/2`, `_1` or `-7`.
fn marked(scene: &mut Scene, word: &str) -> Option<Sym> {
    if let Some((name, arity)) = word.rsplit_once('/') {
        return function(scene, name, arity.parse::<u8>().ok()?);
    }
    if let Some(number) = word.strip_prefix('_') {
        return Some(Sym::Var(number.parse::<u64>().ok()?));
    }
    Some(Sym::Int(word.parse::<i64>().ok()?))
}

/// The symbol of a word: `f/2`, `_1` or `-7`; any other word is the name of an atom.
pub fn symbol_of(scene: &mut Scene, word: &str) -> Option<Sym> {
    match marked(scene, word) {
        Some(symbol) => Some(symbol),
        None => function(scene, word, 0),
    }
}

/// How many arguments the symbol takes.
pub fn arity_of(symbol: Sym) -> u8 {
    match symbol {
        Sym::Fun(_, arity) => arity,
        _ => 0,
    }
}

/// The symbols of words.
pub fn symbols_of(alloc: Global, scene: &mut Scene, words: &[Vec<u8>]) -> Option<Vec<Sym>> {
    let mut symbols = Vec::new(alloc);
    for word in words {
        let symbol = symbol_of(scene, str::from_utf8(word.as_slice()).unwrap_or("?"))?;
        symbols.push(symbol).ok()?;
    }
    Some(symbols)
}

/// The arguments on the stack, the first one on top, where there are so many.
fn arguments(alloc: Global, arity: u8, terms: &mut Vec<Flat>) -> Option<Atoms> {
    let mut args = Atoms::new(alloc);
    for _ in 0..arity {
        match terms.pop() {
            Some(arg) => args.push(arg).ok()?,
            None => return None,
        }
    }
    Some(args)
}

/// A compound of the terms on the stack, its first argument on top.
fn compound(alloc: Global, name: NameId, arity: u8, terms: &mut Vec<Flat>) -> Option<Flat> {
    let args = arguments(alloc, arity, terms)?;
    if args.len() > MOST_ARGUMENTS {
        return None;
    }
    Flat::compound(alloc, name, &args).ok()
}

/// The term that a symbol begins, with its arguments on the stack.
fn term_of(alloc: Global, symbol: Sym, terms: &mut Vec<Flat>) -> Option<Flat> {
    match symbol {
        Sym::Var(v) => Flat::variable(alloc, v).ok(),
        Sym::Int(i) => Flat::integer(alloc, i).ok(),
        Sym::Fun(name, arity) => compound(alloc, name, arity, terms),
    }
}

/// Puts the term that a symbol begins on the stack, in the place of its arguments.
fn push_term(alloc: Global, symbol: Sym, terms: &mut Vec<Flat>) -> Option<()> {
    let term = term_of(alloc, symbol, terms)?;
    terms.push(term).ok()
}

/// The terms that the symbols spell, the first one last.
fn all_spelled(alloc: Global, symbols: &[Sym]) -> Option<Vec<Flat>> {
    let mut terms = Vec::new(alloc);
    for symbol in symbols.iter().rev() {
        push_term(alloc, *symbol, &mut terms)?;
    }
    Some(terms)
}

/// The term that the symbols spell; none where they spell no term, or more than one.
pub fn spelled(alloc: Global, symbols: &[Sym]) -> Option<Flat> {
    let mut terms = all_spelled(alloc, symbols)?;
    match terms.pop() {
        Some(whole) if terms.is_empty() => Some(whole),
        _ => None,
    }
}
