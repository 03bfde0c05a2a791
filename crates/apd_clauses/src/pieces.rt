//! Where clauses have large terms without variables, which the store of a run has once. It is a guess: who loads a clause
//! compares.

ghost use Rattle.std.specs.Prelude.{◌<◌, ◌≤◌, length};

use crate::small::has_small_variables;
use apd_base::MOST_KEPT;
use apd_term::{Flat, Sym, Tuple};
use std::alloc::{AllocError, Global};

/// A large term without variables: the number of its clause, the goal that it stands in, counted from 1, or 0 for the head,
/// and where it begins there.
#[derive(Clone, Copy)]
pub struct Piece {
    pub clause: u32,
    pub goal: u32,
    pub from: u32,
}

/// Terms of so many symbols and more are pieces.
const LARGE: usize = 16;

/// What is seen of a term: how many symbols it has, and whether no variable stands in it.
#[derive(Clone, Copy)]
struct Seen {
    size: usize,
    is_ground: bool,
}

/// What is seen of the term that begins with a symbol; `behind` has what was seen of the terms that begin behind it, the
/// nearest last.
fn see(symbol: Sym, behind: &[Seen]) -> Seen {
    let (arity, is_ground) = match symbol {
        Sym::Var(_) => (0, false),
        Sym::Int(_) => (0, true),
        Sym::Fun(_, arity) => (arity, true),
    };
    let mut seen = Seen { size: 1, is_ground };
    'arguments: for _ in 0..arity {
        let place = behind.len().saturating_sub(seen.size);
        if let Some(argument) = behind.get(place) {
            seen.size = seen.size.saturating_add(argument.size);
            seen.is_ground = seen.is_ground && argument.is_ground;
        }
    }
    seen
}

/// What is seen of the terms that begin at the symbols, the last first.
fn see_all(alloc: Global, symbols: &[Sym]) -> Result<Vec<Seen>, AllocError> {
    let mut seen = Vec::with_capacity(alloc, symbols.len())?;
    'symbols: for symbol in symbols.iter().rev() {
        let newest = see(*symbol, seen.as_slice());
        seen.push(newest)?;
    }
    Ok(seen)
}

/// How many symbols the term that begins before so many symbols has, if it is a piece; otherwise 1.
fn step(seen: &[Seen], behind: usize) -> usize
    ensures { 0 < result }
{
    match seen.get(behind) {
        Some(term) if term.is_ground && term.size >= LARGE => term.size,
        _ => 1,
    }
}

/// Notes the pieces of an atom: of its proper subterms that are pieces those that are no other's.
fn note_atom(
    alloc: Global,
    pieces: &mut Vec<Piece>,
    atom: &Flat,
    clause: u32,
    goal: u32,
) -> Result<(), AllocError> {
    let symbols = atom.symbols();
    if symbols.len() <= LARGE || symbols.len() > MOST_KEPT {
        return Ok(());
    }
    let seen = see_all(alloc, symbols)?;
    let mut at: usize = 1;
    'symbols: while at < symbols.len() {
        let size = step(seen.as_slice(), symbols.len() - 1 - at);
        if size > 1 {
            pieces.push(Piece {
                clause,
                goal,
                from: at as u32,
            })?;
        }
        at = at.saturating_add(size);
    }
    Ok(())
}

/// How many of the pieces are of clauses before this one.
fn count_before(pieces: &[Piece], clause: u32) -> usize
    ensures { result ≤ length pieces.now }
{
    pieces.partition_point(|piece| piece.clause < clause)
}

/// Notes the pieces of a clause behind those of the clauses before it. A clause with great variables has none, since its
/// canonical form is loaded.
pub(crate) fn note(
    alloc: Global,
    pieces: &mut Vec<Piece>,
    clause: u32,
    tuple: &Tuple,
) -> Result<(), AllocError> {
    let before = count_before(pieces.as_slice(), clause);
    pieces.truncate(before);
    if !has_small_variables(tuple) {
        return Ok(());
    }
    note_atom(alloc, pieces, &tuple.head, clause, 0)?;
    let mut goal: u32 = 0;
    'goals: for atom in tuple.body.as_slice() {
        goal = goal.saturating_add(1);
        note_atom(alloc, pieces, atom, clause, goal)?;
    }
    Ok(())
}
