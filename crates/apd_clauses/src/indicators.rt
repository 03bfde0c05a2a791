//! Predicate indicators: terms `Name/Arity`.

ghost use Rattle.std.specs.Prelude.{◌≡◌, IfOk};
ghost use Rattle.apd_clauses.specs.Indicators.{indicator_of, predicate_from};
ghost use Rattle.apd_clauses.specs.IndicatorSymbols.{arity_in, named_in, predicate_in};

use apd_term::standard::DIVIDE;
use apd_term::{Atoms, Flat, Pred, Sym};
use std::alloc::{AllocError, Global};

/// The indicator of a predicate.
pub fn indicator_of(alloc: Global, pred: Pred) -> Result<Flat, AllocError>
    ensures { IfOk result (λ t. t ≡ indicator_of pred) }
{
    let mut arguments = Atoms::new(alloc);
    arguments.push(Flat::compound(alloc, pred.name, &Atoms::new(alloc))?)?;
    arguments.push(Flat::integer(alloc, pred.arity as i64)?)?;
    Flat::compound(alloc, DIVIDE, &arguments)
}

/// The number of arguments that the first symbol is: an integer from 0 to 255.
fn arity_in(symbols: &[Sym]) -> Option<u8>
    ensures { result ≡ arity_in symbols.now }
{
    match symbols {
        [Sym::Int(arity), ..] if *arity >= 0 && *arity <= 255 => Some(*arity as u8),
        _ => None,
    }
}

/// The name alone that the symbols begin with, and the number of arguments behind it.
fn named_in(symbols: &[Sym]) -> Option<Pred>
    ensures { result ≡ named_in symbols.now }
{
    match symbols {
        [Sym::Fun(name, 0), rest @ ..] => match arity_in(rest) {
            Some(arity) => Some(Pred { name: *name, arity }),
            None => None,
        },
        _ => None,
    }
}

/// The predicate that the symbols begin with: `Name/Arity`.
pub fn predicate_in(symbols: &[Sym]) -> Option<Pred>
    ensures { result ≡ predicate_in symbols.now }
{
    match symbols {
        [Sym::Fun(DIVIDE, 2), rest @ ..] => named_in(rest),
        _ => None,
    }
}

/// The predicate of a term `Name/Arity`.
pub fn predicate_from(term: &Flat) -> Option<Pred>
    ensures { result ≡ predicate_from term.now }
{
    predicate_in(term.symbols())
}
