//! The filter that a command tells.

ghost use Rattle.std.specs.Prelude.{ℕ, ◌≡◌, ◌<◌, length, IfOk};
ghost use Rattle.apd_clauses.specs.Indicators.{predicate_from};
ghost use Rattle.apd_term.specs.Listed.{each_as, listed_as};
ghost use Rattle.apd_term.specs.Named.{IsNamed};
ghost use Rattle.apd_term.specs.Term.{arguments};
ghost use Rattle.apd_commands.specs.Filters.{box_from, filter_at, filter_from, filter_named, filter_of, trace_asked};
ghost use Rattle.apd_commands.specs.Obeying.{CanObey};

use crate::commands::Command;
use apd_clauses::indicators::predicate_from;
use apd_ports::Filter;
use apd_term::elements::listed;
use apd_term::standard::{ALL, LEAP, OFF, SKIP};
use apd_term::{Flat, NameId, Pred, Preds, Sym};
use apd_text::Refusal;
use std::alloc::{AllocError, Global};

/// The greatest number that a box may have.
const MOST_BOX: i64 = 4_294_967_295;

/// The predicates that some terms are, where each is one.
fn predicates(alloc: Global, terms: &[Flat]) -> Result<Option<Preds>, AllocError>
    ensures { IfOk result (λ preds. preds ≡ each_as predicate_from terms.now) }
{
    let mut preds = Preds::new(alloc);
    'terms: for term in terms {
        let Some(pred) = predicate_from(term) else {
            return Ok(None);
        };
        preds.push(pred)?;
    }
    Ok(Some(preds))
}

/// The predicates that are the elements of a list, where all elements are predicates and the list ends in `[]`.
fn listed_predicates(alloc: Global, list: &Flat) -> Result<Option<Preds>, AllocError>
    ensures { IfOk result (λ preds. preds ≡ listed_as predicate_from list.now) }
{
    match listed(alloc, list)? {
        Some(terms) => predicates(alloc, terms.as_slice()),
        None => Ok(None),
    }
}

/// The box that a term is: an integer from 1 to 4,294,967,295.
fn box_of(term: &Flat) -> Option<u32>
    ensures { result ≡ box_from term.now }
{
    match term.symbols() {
        [Sym::Int(box_no), ..] if *box_no >= 1 && *box_no <= MOST_BOX => Some(*box_no as u32),
        _ => None,
    }
}

/// The filter that a name without arguments is.
fn filter_named(name: NameId) -> Option<Filter>
    ensures { result ≡ filter_named name }
{
    match name {
        OFF => Some(Filter::Off),
        ALL => Some(Filter::All),
        _ => None,
    }
}

/// The filter that a name with one argument is.
fn filter_of(alloc: Global, name: NameId, argument: &Flat) -> Result<Option<Filter>, AllocError>
    ensures { IfOk result (λ f. f ≡ filter_of name argument.now) }
{
    match name {
        LEAP => Ok(listed_predicates(alloc, argument)?.map(Filter::Leap)),
        SKIP => Ok(box_of(argument).map(Filter::Skip)),
        _ => Ok(None),
    }
}

/// The filter that a term tells: `off`, `all`, `leap` of a list of predicates, or `skip` of a box.
fn filter_from(alloc: Global, term: &Flat) -> Result<Option<Filter>, AllocError>
    ensures { IfOk result (λ f. f ≡ filter_from term.now) }
{
    match term.pred() {
        Some(Pred { name, arity: 0 }) => Ok(filter_named(name)),
        Some(Pred { name, arity: 1 }) => {
            let argument = term.arg(alloc, 0)?;
            filter_of(alloc, name, &argument)
        }
        _ => Ok(None),
    }
}

/// The filter that the first argument of a term tells, if it tells one.
fn filter_at(alloc: Global, term: &Flat) -> Result<Option<Filter>, AllocError>
    requires { 0 < length (arguments term.now) }
    ensures { IfOk result (λ f. f ≡ filter_at term.now) }
{
    let argument = term.arg(alloc, 0)?;
    filter_from(alloc, &argument)
}

/// The command of a term `trace(F)`.
pub(crate) fn trace_command(alloc: Global, term: &Flat) -> Result<Command, AllocError>
    requires { length (arguments term.now) ≡ 1 }
    ensures command { IfOk result (λ c. c ≡ trace_asked (filter_at term.now)) }
    ensures can { (n : ℕ) → IsNamed n term.now → IfOk result (CanObey n) }
{
    let told = filter_at(alloc, term)?;
    match told {
        Some(filter) => Ok(Command::Trace(filter)),
        None => Ok(Command::Refused(Refusal::NotACommand)),
    }
}
