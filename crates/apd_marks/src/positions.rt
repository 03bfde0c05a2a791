//! Marks of a term's positions: numbers for what stands in a term, and where.
//!
//! What a term has at a position, each of its instances has there too. So the instances of a term are among the terms that share
//! one of its marks, whichever.

ghost use Rattle.std.specs.Prelude.{◌≡◌, ◌++◌, IfOk, OnOk};
ghost use Rattle.apd_marks.specs.Positions.{all_marks, below, marks_of, noted, onward, waiting, whole};

use crate::mixing::{mixed, with_term};
use apd_term::{Flat, Sym};
use std::alloc::{AllocError, Global};

/// What marks of positions begin with.
pub const TOP: u64 = 7;

/// What the mark of a whole term begins with.
const WHOLE: u64 = 1;

/// The mark that all terms have.
pub const ANY_TERM: u64 = 0;

/// A symbol's mark, and how many of the terms below it are still to be read: the position of the next one.
#[derive(Clone, Copy)]
pub struct Parent {
    pub mark: u64,
    pub left: u64,
}

/// The mark of a symbol that stands at this place, counted from the end, below one with this mark.
fn below(mark: u64, place: u64, symbol: Sym) -> u64
    ensures { result ≡ below mark place symbol }
{
    mixed(mixed(mark, Sym::Var(place)), symbol)
}

/// Puts a parent, where terms are left to be read.
pub fn put_parent(parents: &mut Vec<Parent>, mark: u64, left: u64) -> Result<(), AllocError>
    ensures { OnOk result (parents.new.items ≡ waiting mark left parents.old.items) }
{
    if left == 0 {
        return Ok(());
    }
    parents.push(Parent { mark, left })?;
    Ok(())
}

/// Notes the mark of a symbol that is read as the next one of a parent; a variable has none.
fn note(marks: &mut Vec<u64>, parent: Parent, symbol: Sym) -> Result<(), AllocError>
    ensures { OnOk result (marks.new.items ≡ marks.old.items ++ noted parent symbol) }
{
    match symbol {
        Sym::Var(_) => Ok(()),
        _ => {
            marks.push(below(parent.mark, parent.left, symbol))?;
            Ok(())
        }
    }
}

/// Puts the parents that are left after a symbol was read as the next one of a parent.
pub fn put_parents(parents: &mut Vec<Parent>, parent: Parent, symbol: Sym) -> Result<(), AllocError>
    ensures { OnOk result (parents.new.items ≡ onward parent symbol parents.old.items) }
{
    put_parent(parents, parent.mark, parent.left.saturating_sub(1))?;
    match symbol {
        Sym::Fun(_, arity) => {
            let mark = below(parent.mark, parent.left, symbol);
            put_parent(parents, mark, arity as u64)
        }
        _ => Ok(()),
    }
}

/// The marks of the term's positions, in prefix order.
pub fn marks_of(alloc: Global, term: &Flat) -> Result<Vec<u64>, AllocError>
    ensures { IfOk result (λ marks. marks.items ≡ marks_of term.now) }
{
    let mut marks = Vec::new(alloc);
    let mut parents = Vec::new(alloc);
    put_parent(&mut parents, TOP, 1)?;
    'symbols: for symbol in term.symbols() {
        let Some(parent) = parents.pop() else {
            return Ok(marks);
        };
        note(&mut marks, parent, *symbol)?;
        put_parents(&mut parents, parent, *symbol)?;
    }
    Ok(marks)
}

/// The mark of the whole term, which others may have too.
pub fn whole(term: &Flat) -> u64
    ensures { result ≡ whole term.now }
{
    with_term(WHOLE, term)
}

/// The marks of the term's positions, that of the whole term, and the one that all have.
pub fn all_marks(alloc: Global, term: &Flat) -> Result<Vec<u64>, AllocError>
    ensures { IfOk result (λ marks. marks.items ≡ all_marks term.now) }
{
    let mut marks = marks_of(alloc, term)?;
    marks.push(whole(term))?;
    marks.push(ANY_TERM)?;
    Ok(marks)
}
