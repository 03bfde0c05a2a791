//! The elements of a list, each copied out of it, and the bindings of an answer by them.

ghost use Rattle.std.specs.Prelude.{◌≡◌, IfOk, ◌↔◌, IsTrue};
ghost use Rattle.apd_text.specs.Elements.{IsCell};
ghost use Rattle.apd_text.specs.Lines.{binding, bindings, elements};

use crate::clauses::{alone, joined};
use crate::term::both;
use apd_base::{ListOf, Text};
use apd_ops::Ops;
use apd_term::names::Names;
use apd_term::standard::CELL;
use apd_term::{Atoms, Flat};
use apd_write::write_term;
use std::alloc::{AllocError, Global};

/// Whether a term is a list's cell: an element, and the rest of the list.
fn is_cell(term: &Flat) -> bool
    ensures { IsTrue result ↔ IsCell term.now }
{
    match term.pred() {
        Some(pred) => pred.name == CELL && pred.arity == 2,
        None => false,
    }
}

/// The elements of a list, each copied out of it: the first, and then those of the rest.
pub fn elements(alloc: Global, list: &Flat) -> Result<Atoms, AllocError>
    ensures { IfOk result (λ terms. terms ≡ elements list.now) }
{
    if is_cell(list) {
        let sides = both(alloc, list)?;
        let first = match alone(alloc, &sides.left) {
            Ok(first) => first,
            Err(fault) => {
                // Dropped by calls, here and below: else each part is a step to check.
                drop(sides);
                return Err(fault);
            }
        };
        let rest = match elements(alloc, &sides.right) {
            Ok(rest) => rest,
            Err(fault) => {
                drop(first);
                drop(sides);
                return Err(fault);
            }
        };
        let all = joined(alloc, first, rest.as_slice());
        drop(rest);
        drop(sides);
        return all;
    }
    Ok(Atoms::new(alloc))
}

/// A variable's name and its value.
fn binding(
    alloc: Global,
    names: &Names,
    ops: &Ops,
    name: &Text,
    value: &Flat,
) -> Result<Text, AllocError>
    ensures { IfOk result (λ t. t ≡ binding ops.now names.now name.now value.now) }
{
    let mut text = Text::copy_of(alloc, name.bytes())?;
    text.extend(b" = ")?;
    write_term(alloc, ops, names, value, 699, &mut text)?;
    Ok(text)
}

/// Each variable's name and its value in a list of values, by the list of all its elements.
pub fn bindings(
    alloc: Global,
    names: &Names,
    ops: &Ops,
    vars: &[Text],
    list: &Flat,
) -> Result<ListOf<Text>, AllocError>
    ensures { IfOk result (λ texts. texts ≡ bindings ops.now names.now vars.now
        (elements list.now)) }
{
    let terms = elements(alloc, list)?;
    let values = terms.as_slice();
    let mut texts = ListOf::new(alloc);
    'vars: for i in 0..vars.len() {
        let Some(value) = values.get(i) else {
            return Ok(texts);
        };
        texts.push(binding(alloc, names, ops, &vars[i], value)?)?;
    }
    Ok(texts)
}
