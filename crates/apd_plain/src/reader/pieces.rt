//! The operands and operators of an item, and their split at the main operator.

ghost use Rattle.std.specs.Prelude.{IfSome, ◌<◌, length};

use crate::reader::words::pair;
use apd_ops::{Op, OpKind};
use apd_term::{Atoms, Flat};
use std::alloc::{AllocError, Global};

/// A term, and the greatest level in it, counted from its own level 0.
#[derive(Drop)]
pub struct Part {
    pub term: Flat,
    pub level: u32,
}

/// An operand or an operator of an item.
#[derive(Drop)]
pub enum Piece {
    Operand(Part),
    Operator(Op),
}

fn priority_of(piece: &Piece) -> u16 {
    match piece {
        Piece::Operand(_) => 0,
        Piece::Operator(o) => o.priority,
    }
}

fn groups_left(piece: &Piece) -> bool {
    match piece {
        Piece::Operand(_) => false,
        Piece::Operator(o) => o.kind == OpKind::Yfx,
    }
}

/// The place of the main operator: of those with the greatest priority the last where a yfx one is
/// among them, else the first.
fn main_of(pieces: &[Piece]) -> Option<usize>
    ensures { IfSome result (λ place. place < length pieces.now) }
{
    let mut highest = 0;
    let mut first = 0;
    let mut last = 0;
    let mut left = false;
    for (place, piece) in pieces.iter().enumerate() {
        let priority = priority_of(piece);
        if priority > highest {
            highest = priority;
            first = place;
            left = false;
        }
        if priority == highest {
            last = place;
            left = left || groups_left(piece);
        }
    }
    let main = if left { last } else { first };
    if highest == 0 || main >= pieces.len() {
        return None;
    }
    Some(main)
}

fn prefixed(alloc: Global, o: Op, right: Part) -> Result<Part, AllocError> {
    let mut args = Atoms::new(alloc);
    args.push(right.term)?;
    Ok(Part {
        term: Flat::compound(alloc, o.name, &args)?,
        level: right.level.saturating_add(1),
    })
}

fn infixed(alloc: Global, o: Op, left: Part, right: Part) -> Result<Part, AllocError> {
    let level = left.level.max(right.level).saturating_add(1);
    let term = pair(alloc, o.name, left.term, right.term)?;
    Ok(Part { term, level })
}

/// The part that is the only piece.
fn only(alloc: Global, pieces: &[Piece]) -> Result<Option<Part>, AllocError> {
    match pieces {
        [Piece::Operand(part)] => Ok(Some(Part {
            term: part.term.copy(alloc)?,
            level: part.level,
        })),
        _ => Ok(None),
    }
}

/// The pieces read for a priority; none where they have no reading.
pub fn split(alloc: Global, max: u16, pieces: &[Piece]) -> Result<Option<Part>, AllocError> {
    let Some(place) = main_of(pieces) else {
        return only(alloc, pieces);
    };
    let Piece::Operator(o) = &pieces[place] else {
        return Ok(None);
    };
    if o.priority > max || o.is_prefix() && place > 0 {
        return Ok(None);
    }
    let Some(right) = split(alloc, o.right(), &pieces[place + 1..])? else {
        return Ok(None);
    };
    if o.is_prefix() {
        return Ok(Some(prefixed(alloc, *o, right)?));
    }
    match split(alloc, o.left(), &pieces[..place])? {
        Some(left) => Ok(Some(infixed(alloc, *o, left, right)?)),
        None => Ok(None),
    }
}
