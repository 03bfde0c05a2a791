//! Terms in functional notation: `f(a,_1)`, with no operators and no quotes but round the comma.

use apd_rows::Builder;
use apd_term::standard::COMMA;
use apd_term::{Flat, Names, Sym};
use std::alloc::AllocError;

fn put_symbol(given: &mut Builder, names: &Names, symbol: Sym) {
    match symbol {
        Sym::Var(v) => {
            given.put("_");
            given.put_shown(&v);
        }
        Sym::Int(i) => given.put_shown(&i),
        Sym::Fun(COMMA, _) => given.put("','"),
        Sym::Fun(name, _) => given.put_bytes(names.text(name)),
    }
}

/// Ends the compounds whose arguments are all there; where one goes on, a comma follows.
fn close(given: &mut Builder, open: &mut Vec<u8>) -> Result<(), AllocError> {
    for _ in 0..open.len() {
        let left = open.pop().unwrap_or(0);
        if left > 1 {
            given.put(",");
            open.push(left - 1)?;
            return Ok(());
        }
        given.put(")");
    }
    Ok(())
}

/// Ends the symbol: with arguments, its compound is open.
fn end_symbol(given: &mut Builder, open: &mut Vec<u8>, symbol: Sym) -> Result<(), AllocError> {
    match symbol {
        Sym::Fun(_, count) if count > 0 => {
            given.put("(");
            open.push(count)?;
            Ok(())
        }
        _ => close(given, open),
    }
}

/// Adds the term in functional notation.
pub fn put_functional(given: &mut Builder, names: &Names, term: &Flat) {
    let mut open = Vec::new(given.alloc);
    for symbol in term.symbols() {
        put_symbol(given, names, *symbol);
        if end_symbol(given, &mut open, *symbol).is_err() {
            given.put("out of memory");
        }
    }
}
