//! The floor of a run's store: large terms without variables of the program's clauses, each once. Instances of the clauses
//! refer to them.

ghost use Rattle.std.specs.Prelude.{◌≡◌, OnOk};
ghost use Rattle.apd_frames.specs.Instances.{HasLaid};

use apd_clauses::{Piece, Program};
use apd_term::matching::piece_at;
use apd_term::term::term_end;
use apd_term::{Flat, Tuple};
use apd_unify::copies::Hint;
use apd_unify::store::{Cell, Store};
use std::alloc::{AllocError, Global};

/// A piece of the program, and its cell.
#[derive(Clone, Copy)]
pub struct Laid {
    piece: Piece,
    cell: Cell,
}

/// The goal with this number, counted from 1, or the head.
fn atom_of(tuple: &Tuple, goal: u32) -> Option<&Flat> {
    match (goal as usize).checked_sub(1) {
        None => Some(&tuple.head),
        Some(place) => tuple.body.as_slice().get(place),
    }
}

/// Puts the term that begins at a place of an atom into the store, if it has no variable, and tells its cell.
fn lay_term(
    store: &mut Store,
    alloc: Global,
    atom: &Flat,
    from: usize,
) -> Result<Option<Cell>, AllocError>
    ensures { OnOk result (HasLaid store.old store.new) }
{
    let symbols = atom.symbols();
    if from >= symbols.len() {
        return Ok(None);
    }
    let end = term_end(symbols, from);
    let term = piece_at(alloc, symbols, from, end)?;
    if !term.is_ground() {
        return Ok(None);
    }
    let cell = store.share(&term)?;
    Ok(Some(cell))
}

/// Puts a piece of the program into the store, and tells its cell.
fn lay_piece(
    store: &mut Store,
    alloc: Global,
    program: &Program,
    piece: Piece,
) -> Result<Option<Cell>, AllocError>
    ensures { OnOk result (HasLaid store.old store.new) }
{
    if piece.clause == 0 || piece.clause > program.count() {
        return Ok(None);
    }
    let clause = program.clause(piece.clause);
    let Some(atom) = atom_of(&clause.tuple, piece.goal) else {
        return Ok(None);
    };
    lay_term(store, alloc, atom, piece.from as usize)
}

/// Pieces are put into the store till they have more symbols than these together: each run begins with them, and may be
/// short.
const MOST_LAID: usize = 16_384;

/// Puts a piece of the program into the store, if it isn't behind too many others, and tells its cell.
fn lay_next(
    store: &mut Store,
    alloc: Global,
    program: &Program,
    piece: Piece,
    taken: &mut usize,
) -> Result<Option<Cell>, AllocError>
    ensures { OnOk result (HasLaid store.old store.new) }
{
    if *taken > MOST_LAID {
        return Ok(None);
    }
    let before = store.cells();
    let cell = lay_piece(store, alloc, program, piece)?;
    *taken = taken.saturating_add(store.cells().saturating_sub(before));
    Ok(cell)
}

/// Puts the pieces of a program into the store, and their cells behind those of `floor`.
fn lay_all(
    store: &mut Store,
    floor: &mut Vec<Laid>,
    alloc: Global,
    program: &Program,
) -> Result<(), AllocError>
    ensures { OnOk result (HasLaid store.old store.new) }
{
    let mut taken: usize = 0;
    'pieces: for piece in program.pieces() {
        if let Some(cell) = lay_next(store, alloc, program, *piece, &mut taken)? {
            floor.push(Laid {
                piece: *piece,
                cell,
            })?;
        }
    }
    Ok(())
}

/// Lays the pieces of a program as [`lay_all`] does, where there is one.
pub fn lay(
    store: &mut Store,
    floor: &mut Vec<Laid>,
    alloc: Global,
    program: Option<&Program>,
) -> Result<(), AllocError>
    ensures { OnOk result (HasLaid store.old store.new) }
{
    match program {
        Some(program) => lay_all(store, floor, alloc, program),
        None => Ok(()),
    }
}

/// Whether the clause may have pieces: it is none before the first one that has some, and none behind the last.
#[inline(always)]
pub fn may_share(floor: &[Laid], clause: u32) -> bool {
    let (Some(first), Some(last)) = (floor.first(), floor.last()) else {
        return false;
    };
    first.piece.clause <= clause && clause <= last.piece.clause
}

/// The pieces of a clause, which stand together.
fn laid_of(floor: &[Laid], clause: u32) -> &[Laid] {
    let from = floor.partition_point(|laid| laid.piece.clause < clause);
    let behind = &floor[from..];
    let count = behind.partition_point(|laid| laid.piece.clause <= clause);
    &behind[..count]
}

/// So many pieces of a goal or a head are expected: each is looked at for each of its terms that is loaded.
const MOST_EXPECTED: usize = 32;

/// Tells the store where the first pieces of a clause's goal, or of its head, are expected.
fn expect_laid(
    store: &mut Store,
    hints: &mut Vec<Hint>,
    laid: &[Laid],
    goal: u32,
) -> Result<(), AllocError>
    ensures { store.new ≡ store.old }
{
    hints.clear();
    'pieces: for one in laid {
        if one.piece.goal == goal && hints.len() < MOST_EXPECTED {
            hints.push(Hint {
                from: one.piece.from as usize,
                cell: one.cell.0,
            })?;
        }
    }
    store.expect(hints.as_slice())
}

/// Tells the store where the first pieces of a clause's head are expected: none where the clause can't have pieces.
#[inline(always)]
pub fn expect_head(
    store: &mut Store,
    hints: &mut Vec<Hint>,
    floor: &[Laid],
    clause: u32,
) -> Result<(), AllocError>
    ensures { store.new ≡ store.old }
{
    if !may_share(floor, clause) {
        return store.expect(&[]);
    }
    expect_laid(store, hints, laid_of(floor, clause), 0)
}

/// Tells the store where the first pieces of a clause's goal, counted from 1, are expected.
pub fn expect_goal(
    store: &mut Store,
    hints: &mut Vec<Hint>,
    floor: &[Laid],
    clause: u32,
    goal: u32,
) -> Result<(), AllocError>
    ensures { store.new ≡ store.old }
{
    expect_laid(store, hints, laid_of(floor, clause), goal)
}
