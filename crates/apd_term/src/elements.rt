//! The elements of a list.

ghost use Rattle.std.specs.Prelude.{◌≡◌, ◌↔◌, IsTrue, IfOk};
ghost use Rattle.apd_term.specs.declared.standard.TheConstants as names;
ghost use Rattle.apd_term.specs.declared.term.Sym.TheVariants as symbols;
ghost use Rattle.apd_term.specs.Listed.{listed};

use crate::list::Atoms;
use crate::matching::piece_at;
use crate::standard::{CELL, NIL};
use crate::term::{Flat, Sym, term_end};
use std::alloc::{AllocError, Global};

/// Whether a symbol is that of a list's cell, `'.'` with two arguments.
pub fn is_cell(symbol: Sym) -> bool
    ensures { IsTrue result ↔ (symbol ≡ symbols.Fun names.CELL 2) }
{
    match symbol {
        Sym::Fun(name, arity) => name == CELL && arity == 2,
        Sym::Var(_) | Sym::Int(_) => false,
    }
}

/// Whether a symbol is that of the empty list.
fn is_end(symbol: Sym) -> bool
    ensures { IsTrue result ↔ (symbol ≡ symbols.Fun names.NIL 0) }
{
    match symbol {
        Sym::Fun(name, arity) => name == NIL && arity == 0,
        Sym::Var(_) | Sym::Int(_) => false,
    }
}

/// The elements of a list that ends in `[]`; none of another term.
pub fn listed(alloc: Global, list: &Flat) -> Result<Option<Atoms>, AllocError>
    ensures { IfOk result (λ ts. ts ≡ listed list.now) }
{
    let symbols = list.symbols();
    let mut elements = Atoms::new(alloc);
    let mut at = 0;
    'cells: while is_cell(symbols[at]) {
        let end = term_end(symbols, at + 1);
        elements.push(piece_at(alloc, symbols, at + 1, end)?)?;
        at = end;
    }
    if is_end(symbols[at]) {
        return Ok(Some(elements));
    }
    Ok(None)
}
