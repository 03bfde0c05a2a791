//! Terms without variables that stand in the cells already. Where such a term stands in a term of a clause, it isn't put
//! behind the cells again: one symbol that means it is (structure sharing, Boyer and Moore 1972).

ghost use Rattle.std.specs.Prelude.{◌≡◌, ◌<◌, length, IfSome, OnOk};
ghost use Rattle.std.specs.Bool.{OnTrue};
ghost use Rattle.apd_cells.specs.Store.{meaning, term_at};
ghost use Rattle.apd_cells.specs.Stretches.{AreMeant, AreStretches};
ghost use Rattle.apd_unify.specs.Copies.{AreSame, Begins, IsCopied};

use apd_cells::heap::Heap;
use apd_cells::slots::Stretch;
use apd_cells::walk::arity_of;
use apd_term::Sym;
use std::alloc::AllocError;

/// The term that begins at a place of a clause's term is expected to be that at a cell, without variables.
#[derive(Clone, Copy)]
pub struct Hint {
    pub from: usize,
    pub cell: usize,
}

/// Whether two lists have the same symbols, and no variable.
fn are_same(ours: &[Sym], theirs: &[Sym]) -> bool
    requires { length theirs.now ≡ length ours.now }
    ensures { OnTrue result (AreSame ours.now theirs.now) }
{
    let mut at: usize = 0;
    'symbols: while at < ours.len() {
        let symbol = ours[at];
        if let Sym::Var(_) = symbol {
            return false;
        }
        if symbol != theirs[at] {
            return false;
        }
        at += 1;
    }
    true
}

/// How many of the symbols spell the term at a cell, where they begin with it, it is written without variables, and its
/// size is known; none says nothing.
fn spelled_by(heap: &Heap, cell: usize, symbols: &[Sym]) -> Option<usize>
    requires { cell < length heap.now.cells }
    ensures { IfSome result (Begins (term_at heap.now cell) symbols.now) }
{
    let at = heap.follow(cell);
    let extent = heap.known(at)?;
    let cells = heap.live().cells;
    let size = extent.size as usize;
    if size > symbols.len() || size > cells.len() - at {
        return None;
    }
    if !are_same(&cells[at..at + size], &symbols[..size]) {
        return None;
    }
    Some(size)
}

/// What a hint says, if it is so. The symbols are those of the clause's term from a place on.
fn checked(heap: &Heap, symbols: &[Sym], begin: usize, hint: Hint) -> Option<Stretch>
    ensures { IfSome result (IsCopied (meaning heap.now.cells heap.now.trail) symbols.now) }
{
    let from = hint.from.checked_sub(begin)?;
    if from >= symbols.len() || hint.cell >= heap.cells() {
        return None;
    }
    let symbol = heap.symbol(hint.cell);
    if arity_of(symbol) > 0 {
        return None;
    }
    let size = spelled_by(heap, hint.cell, &symbols[from..])?;
    Some(Stretch { from, size, symbol })
}

/// Finds the terms of a clause's term that stand in the cells, by hints on that term. The symbols are its own from a place
/// on.
pub fn find_copied(
    heap: &Heap,
    symbols: &[Sym],
    begin: usize,
    hints: &[Hint],
    found: &mut Vec<Stretch>,
) -> Result<(), AllocError>
    ensures stretches { OnOk result (AreStretches symbols.now found.new.items) }
    ensures meant { OnOk result
        (AreMeant (meaning heap.now.cells heap.now.trail) symbols.now found.new.items) }
{
    found.clear();
    'hints: for hint in hints {
        if let Some(stretch) = checked(heap, symbols, begin, *hint) {
            found.push(stretch)?;
        }
    }
    Ok(())
}
