//! Terms that were read, with how deep they are.

ghost use Rattle.std.specs.Prelude.{◌≡◌, ◌<◌, ◌≤◌, length, IfOk, max, map};
ghost use Rattle.apd_term.specs.Term.{compound, terms_of, more, none};
ghost use Rattle.apd_read.specs.Phrases.{atom, leaf, too_deep, raised, highest, terms_in, unary, binary, enclosed, braced, call, list_term, listing};

use apd_ops::Op;
use apd_term::standard::{CELL, CURLY, NIL};
use apd_term::{Atoms, Flat, NameId, Sym, Syms};
use std::alloc::{AllocError, Global};

/// No clause has a term so many levels below its own level 0.
pub const TOO_MANY_LEVELS: u16 = 1000;

/// The greatest level that a term may have in it.
const MOST_LEVEL: u16 = TOO_MANY_LEVELS - 1;

/// A term that was read, with the greatest level in it, counted from its own level 0.
///
/// Where that is [`TOO_MANY_LEVELS`] or more it is that, and the term is left out.
#[derive(Drop)]
pub struct Phrase {
    pub term: Flat,
    pub height: u16,
}

pub(crate) fn atom(alloc: Global, name: NameId) -> Result<Flat, AllocError>
    ensures { IfOk result (λ t. t ≡ atom name) }
{
    let args = Atoms::new(alloc);
    Flat::compound(alloc, name, &args)
}

/// What has no level below its own.
pub(crate) fn leaf(term: Flat) -> Phrase
    ensures { result ≡ leaf term }
{
    Phrase { term, height: 0 }
}

fn too_deep(alloc: Global) -> Result<Phrase, AllocError>
    ensures { IfOk result (λ p. p ≡ too_deep) }
{
    Ok(Phrase {
        term: atom(alloc, NIL)?,
        height: TOO_MANY_LEVELS,
    })
}

fn unary_term(alloc: Global, name: NameId, t: Flat) -> Result<Flat, AllocError>
    ensures { IfOk result (λ r. r ≡ compound name (more t none)) }
{
    let mut args = Atoms::new(alloc);
    args.push(t)?;
    Flat::compound(alloc, name, &args)
}

fn binary_term(alloc: Global, name: NameId, a: Flat, b: Flat) -> Result<Flat, AllocError>
    ensures { IfOk result (λ r. r ≡ compound name (more a (more b none))) }
{
    let mut args = Atoms::new(alloc);
    args.push(a)?;
    args.push(b)?;
    Flat::compound(alloc, name, &args)
}

/// A prefix operator's term.
pub(crate) fn unary(alloc: Global, o: Op, p: Phrase) -> Result<Phrase, AllocError>
    ensures { IfOk result (λ r. r ≡ unary o p) }
{
    let Phrase { term, height } = p;
    if height >= MOST_LEVEL {
        return too_deep(alloc);
    }
    Ok(Phrase {
        term: unary_term(alloc, o.name, term)?,
        height: height + 1,
    })
}

/// An infix operator's term.
pub(crate) fn binary(alloc: Global, o: Op, p: Phrase, q: Phrase) -> Result<Phrase, AllocError>
    ensures { IfOk result (λ r. r ≡ binary o p q) }
{
    let height = p.height.max(q.height);
    if height >= MOST_LEVEL {
        return too_deep(alloc);
    }
    Ok(Phrase {
        term: binary_term(alloc, o.name, p.term, q.term)?,
        height: height + 1,
    })
}

/// What stands in parentheses.
pub(crate) fn enclosed(alloc: Global, p: Phrase) -> Result<Phrase, AllocError>
    ensures { IfOk result (λ r. r ≡ enclosed p) }
{
    let Phrase { term, height } = p;
    if height >= MOST_LEVEL {
        return too_deep(alloc);
    }
    Ok(Phrase {
        term,
        height: height + 1,
    })
}

/// What stands in braces.
pub(crate) fn braced(alloc: Global, p: Phrase) -> Result<Phrase, AllocError>
    ensures { IfOk result (λ r. r ≡ braced p) }
{
    let Phrase { term, height } = p;
    if height >= MOST_LEVEL {
        return too_deep(alloc);
    }
    Ok(Phrase {
        term: unary_term(alloc, CURLY, term)?,
        height: height + 1,
    })
}

fn highest(phrases: &[Phrase]) -> u16
    ensures { result ≡ highest phrases.now }
{
    let mut height = 0;
    'phrases: for p in phrases {
        height = height.max(p.height);
    }
    height
}

fn terms(alloc: Global, phrases: Vec<Phrase>) -> Result<Atoms, AllocError>
    ensures { IfOk result (λ ts. ts ≡ terms_in phrases.items) }
{
    let mut terms = Atoms::of_items(Vec::with_capacity(alloc, phrases.len())?);
    'phrases: for p in phrases {
        terms.push(p.term)?;
    }
    Ok(terms)
}

/// A name in functional notation.
pub(crate) fn call(
    alloc: Global,
    name: NameId,
    arguments: Vec<Phrase>,
) -> Result<Phrase, AllocError>
    requires { length arguments.items < 256 }
    ensures { IfOk result (λ r. r ≡ call name arguments.items) }
{
    let height = highest(&arguments);
    if height >= MOST_LEVEL {
        return too_deep(alloc);
    }
    let terms = terms(alloc, arguments)?;
    Ok(Phrase {
        term: Flat::compound(alloc, name, &terms)?,
        height: height + 1,
    })
}

/// The list of the terms, which ends with a tail. There is room at once for elements of one symbol each.
pub(crate) fn list_term(alloc: Global, terms: &[Flat], tail: &Flat) -> Result<Flat, AllocError>
    ensures { IfOk result (λ r. r ≡ list_term terms.now tail.now) }
{
    let room = terms.len().saturating_mul(2).saturating_add(1);
    let mut spelled = Syms::of_items(Vec::with_capacity(alloc, room)?);
    'terms: for t in terms {
        spelled.push(Sym::Fun(CELL, 2))?;
        spelled.extend(t.symbols())?;
    }
    spelled.extend(tail.symbols())?;
    Ok(Flat::of_symbols(spelled))
}

/// A list in brackets.
pub(crate) fn listing(
    alloc: Global,
    elements: Vec<Phrase>,
    tail: Phrase,
) -> Result<Phrase, AllocError>
    ensures { IfOk result (λ r. r ≡ listing elements.items tail) }
{
    let height = highest(&elements).max(tail.height);
    if height >= MOST_LEVEL {
        return too_deep(alloc);
    }
    let terms = terms(alloc, elements)?;
    Ok(Phrase {
        term: list_term(alloc, terms.as_slice(), &tail.term)?,
        height: height + 1,
    })
}
