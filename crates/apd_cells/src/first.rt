//! Keys: what a term's first argument begins with, by which most clauses that can't be entered are
//! told before their instances are loaded.

ghost use Rattle.std.specs.Prelude.{◌≡◌, ◌<◌, ◌↔◌, length, IsTrue};
ghost use Rattle.apd_cells.specs.First.{AreClashing, key_of, first_symbol};
ghost use Rattle.apd_cells.specs.Store.{term_at};

use crate::heap::Heap;
use crate::walk::arity_of;
use apd_term::{Flat, Sym};

/// The key of a term that tells nothing.
const NO_KEY: Sym = Sym::Var(0);

/// Whether terms that begin with these symbols have different names, numbers of arguments or
/// integers; then they have no unifier.
pub fn are_clashing(x: Sym, y: Sym) -> bool
    ensures { IsTrue result ↔ AreClashing x y }
{
    match (x, y) {
        (Sym::Var(_), _) => false,
        (_, Sym::Var(_)) => false,
        _ => x != y,
    }
}

/// The first symbol of a term's first argument; a variable where it has none.
pub fn key_of(t: &Flat) -> Sym
    ensures { result ≡ key_of t.now }
{
    match t.symbols().get(1) {
        Some(symbol) => *symbol,
        None => NO_KEY,
    }
}

/// The first symbol of the term at a cell, behind the bindings.
pub fn first_symbol(heap: &Heap, at: usize) -> Sym
    requires { at < length heap.now.cells }
    ensures { result ≡ first_symbol (term_at heap.now at) }
{
    heap.symbol(heap.follow(at))
}

/// The key of the term at a cell, behind the bindings.
pub fn key_at(heap: &Heap, at: usize) -> Sym
    requires { at < length heap.now.cells }
    ensures { result ≡ key_of (term_at heap.now at) }
{
    let top = heap.follow(at);
    if arity_of(heap.symbol(top)) == 0 {
        return NO_KEY;
    }
    first_symbol(heap, top + 1)
}
