//! A term's positions, whatever stands there.

ghost use Rattle.std.specs.Prelude.{◌≡◌, IfOk, slice_get};
ghost use Rattle.apd_marks.specs.Positions.{noted};
ghost use Rattle.apd_index.specs.Subterms.{position_below, positions};

use apd_marks::{Parent, TOP, mixed, put_parent, put_parents};
use apd_term::{Flat, Sym};
use std::alloc::{AllocError, Global};

/// What the mark of the next symbol of a parent begins with.
pub(crate) fn next_position(parent: Parent) -> u64
    ensures { result ≡ position_below parent.mark parent.left }
{
    mixed(parent.mark, Sym::Var(parent.left))
}

/// The mark of a symbol that is read as the next one of a parent; a variable has none.
pub(crate) fn mark_of(parent: Parent, symbol: Sym) -> Option<u64>
    ensures { result ≡ slice_get (noted parent symbol) 0 }
{
    match symbol {
        Sym::Var(_) => None,
        _ => Some(mixed(next_position(parent), symbol)),
    }
}

/// The positions of the term's symbols, in prefix order.
pub(crate) fn positions_of(alloc: Global, term: &Flat) -> Result<Vec<Parent>, AllocError>
    ensures { IfOk result (λ ps. ps.items ≡ positions term.now) }
{
    let mut positions = Vec::new(alloc);
    let mut parents = Vec::new(alloc);
    put_parent(&mut parents, TOP, 1)?;
    'symbols: for symbol in term.symbols() {
        let Some(parent) = parents.pop() else {
            return Ok(positions);
        };
        positions.push(parent)?;
        put_parents(&mut parents, parent, *symbol)?;
    }
    Ok(positions)
}
