//! What the arguments of `op/3` tell.

ghost use Rattle.std.specs.Prelude.{◌≡◌, ◌<◌, length};
ghost use Rattle.apd_term.specs.Term.{arguments};

use crate::load::stop::Stop;
use apd_base::ListOf;
use apd_causes::OpCause;
use apd_ops::{MOST_PRIORITY, OpKind};
use apd_term::standard::{CELL, NIL};
use apd_term::{Flat, NameId, Names, Pred, Sym};
use std::alloc::{AllocError, Global};

/// The name that a term without arguments is.
fn name_alone(term: &Flat) -> Option<NameId> {
    match term.pred() {
        Some(Pred { name, arity: 0 }) => Some(name),
        _ => None,
    }
}

/// The name that a term has as its first argument.
fn first_name(alloc: Global, term: &Flat) -> Result<Option<NameId>, AllocError>
    requires { 0 < length (arguments term.now) }
{
    let first = term.arg(alloc, 0)?;
    Ok(name_alone(&first))
}

/// Puts the name that a list begins with behind these; the rest of the list, or none where it doesn't begin with a name.
fn take_name(
    alloc: Global,
    names: &mut ListOf<NameId>,
    list: &Flat,
) -> Result<Option<Flat>, AllocError> {
    match list.pred() {
        Some(
            Pred {
                name: CELL,
                arity: 2,
            },
        ) => {
            let Some(name) = first_name(alloc, list)? else {
                return Ok(None);
            };
            names.push(name)?;
            Ok(Some(list.arg(alloc, 1)?))
        }
        _ => Ok(None),
    }
}

/// The names that a list of names has, of at most this many cells.
fn listed(alloc: Global, cells: usize, list: &Flat) -> Result<Option<ListOf<NameId>>, AllocError> {
    let mut names = ListOf::new(alloc);
    let mut rest = list.copy(alloc)?;
    for _ in 0..cells {
        match take_name(alloc, &mut names, &rest)? {
            Some(behind) => rest = behind,
            None => break,
        }
    }
    if name_alone(&rest) == Some(NIL) {
        return Ok(Some(names));
    }
    Ok(None)
}

/// The kind of operators that a text tells.
fn kind_of_text(text: &[u8]) -> Result<OpKind, OpCause> {
    match text {
        b"fx" => Ok(OpKind::Fx),
        b"fy" => Ok(OpKind::Fy),
        b"xfx" => Ok(OpKind::Xfx),
        b"xfy" => Ok(OpKind::Xfy),
        b"yfx" => Ok(OpKind::Yfx),
        b"xf" | b"yf" => Err(OpCause::Postfix),
        _ => Err(OpCause::BadKind),
    }
}

/// The priority that the first argument tells.
pub(crate) fn priority_of(alloc: Global, goal: &Flat) -> Result<u16, Stop>
    requires { length (arguments goal.now) ≡ 3 }
{
    let term = goal.arg(alloc, 0)?;
    match term.symbols() {
        [Sym::Int(priority)] if *priority >= 0 && *priority <= MOST_PRIORITY as i64 => {
            Ok(*priority as u16)
        }
        _ => Err(Stop::from(OpCause::BadPriority)),
    }
}

/// The kind that the second argument tells.
pub(crate) fn kind_of(alloc: Global, names: &Names, goal: &Flat) -> Result<OpKind, Stop>
    requires { length (arguments goal.now) ≡ 3 }
{
    let term = goal.arg(alloc, 1)?;
    let Some(name) = name_alone(&term) else {
        return Err(Stop::from(OpCause::BadKind));
    };
    Ok(kind_of_text(names.text(name))?)
}

/// One name, or those of a list of at most this many cells.
fn names_in(
    alloc: Global,
    cells: usize,
    term: &Flat,
) -> Result<Option<ListOf<NameId>>, AllocError> {
    let Some(name) = name_alone(term) else {
        return listed(alloc, cells, term);
    };
    let mut names = ListOf::new(alloc);
    names.push(name)?;
    Ok(Some(names))
}

/// The names that the third argument tells, in a list of at most this many cells.
pub(crate) fn names_of(alloc: Global, cells: usize, goal: &Flat) -> Result<ListOf<NameId>, Stop>
    requires { length (arguments goal.now) ≡ 3 }
{
    let term = goal.arg(alloc, 2)?;
    match names_in(alloc, cells, &term)? {
        Some(names) => Ok(names),
        None => Err(Stop::from(OpCause::BadName)),
    }
}
