//! Loading in the plainest way. At each definition of an operator all operators are made anew, by all definitions so far, and
//! the line of each byte is kept in a list.

mod conjunction;
mod grammar;
mod op_terms;
mod stop;

ghost use Rattle.std.specs.Prelude.{◌≡◌, ◌≤◌, IfOk, length, IsUtf8};
ghost use Rattle.apd_term.specs.Term.{arguments};
ghost use Rattle.apd_token.specs.Grammar.{HasTokens};
ghost use Rattle.apd_base.specs.declared.limits.TheConstants.{MAX_FILE};

use crate::load::conjunction::goals;
use crate::load::grammar::clause_of_rule;
use crate::load::op_terms::{kind_of, names_of, priority_of};
use crate::load::stop::Stop;
use apd_base::{ListOf, MOST_CLAUSES};
use apd_causes::{BodyFault, LoadCause, ReadFault, TokenFault};
use apd_clauses::{Clause, clause_of};
use apd_load::{LoadText, Note, Notes};
use apd_ops::{OpFault, OpKind, Ops};
use apd_read::read_clause;
use apd_term::standard::{GRAMMAR_ARROW, NECK, OP, QUERY};
use apd_term::{Flat, NameId, Names, Pred, Tuple};
use apd_token::{Tokens, tokens};
use std::alloc::{AllocError, Global};

/// The most bytes that a text may have.
const MOST_TEXT: usize = 1_000_000;

/// The most names that there may be where a clause is read.
const MOST_TEXT_NAMES: usize = 1_000_000;

/// A definition of an operator.
#[derive(Clone, Copy)]
struct Definition {
    priority: u16,
    kind: OpKind,
    name: NameId,
}

/// What a text makes: its clauses, the operators, the definitions that made them and the goals that were passed over, each in
/// order.
#[derive(Drop)]
pub struct Plain {
    pub clauses: ListOf<Clause>,
    pub ops: Ops,
    definitions: ListOf<Definition>,
    pub passed: Notes,
}

/// The standard operators and these.
fn operators(alloc: Global, definitions: &[Definition]) -> Result<Ops, OpFault> {
    let mut ops = Ops::standard(alloc)?;
    for d in definitions {
        ops.define(i64::from(d.priority), d.kind, d.name)?;
    }
    Ok(ops)
}

/// The line of each byte of a text, and that of its end.
fn lines_of(alloc: Global, text: &[u8]) -> Result<Vec<u32>, AllocError> {
    let mut lines = Vec::new(alloc);
    let mut line = 1u32;
    for byte in text {
        lines.push(line)?;
        if *byte == b'\n' {
            line = line.saturating_add(1);
        }
    }
    lines.push(line)?;
    Ok(lines)
}

fn line_at(lines: &[u32], place: u32) -> u32 {
    lines.get(place as usize).copied().unwrap_or(0)
}

/// Where a fault is told.
fn place_of(fault: ReadFault) -> u32 {
    match fault {
        ReadFault::NoTerm(at)
        | ReadFault::Priority(at)
        | ReadFault::Unclosed(at)
        | ReadFault::Stray(at)
        | ReadFault::NoEnd(at)
        | ReadFault::ArityOver(at)
        | ReadFault::Wide(at)
        | ReadFault::TooDeep(at) => at,
        ReadFault::Memory => 0,
    }
}

/// Where a fault is told.
fn place_of_token(fault: TokenFault) -> u32 {
    match fault {
        TokenFault::NotUtf8(at)
        | TokenFault::BadChar(at)
        | TokenFault::OpenQuote(at)
        | TokenFault::OpenComment(at)
        | TokenFault::BadEscape(at)
        | TokenFault::NumberTooWide(at)
        | TokenFault::FloatLiteral(at) => at,
        TokenFault::Memory => 0,
    }
}

/// The answer where loading stops in a line.
fn told(line: u32, stop: Stop) -> LoadText {
    match stop {
        Stop::Cause(cause) => LoadText::Refused { line, cause },
        Stop::Memory => LoadText::Memory,
    }
}

/// Puts a definition behind all others, and makes the operators anew.
fn define(alloc: Global, made: &mut Plain, definition: Definition) -> Result<(), Stop> {
    made.definitions.push(definition)?;
    made.ops = operators(alloc, made.definitions.as_slice())?;
    Ok(())
}

/// Makes the definitions of these names in turn.
fn define_all(
    alloc: Global,
    made: &mut Plain,
    priority: u16,
    kind: OpKind,
    names: &[NameId],
) -> Result<(), Stop> {
    for name in names {
        let definition = Definition {
            priority,
            kind,
            name: *name,
        };
        define(alloc, made, definition)?;
    }
    Ok(())
}

/// Where a term of a text is added: the names, the term's line, and a number of steps that is enough for it.
#[derive(Clone, Copy)]
struct At<'a> {
    names: &'a Names,
    line: u32,
    steps: usize,
}

/// Obeys a goal of `op/3`.
fn obey_op(alloc: Global, at: At<'_>, made: &mut Plain, goal: &Flat) -> Result<(), Stop>
    requires { length (arguments goal.now) ≡ 3 }
{
    let priority = priority_of(alloc, goal)?;
    let kind = kind_of(alloc, at.names, goal)?;
    let names = names_of(alloc, at.steps, goal)?;
    define_all(alloc, made, priority, kind, names.as_slice())
}

/// Obeys a goal of a directive.
fn obey(alloc: Global, at: At<'_>, made: &mut Plain, goal: &Flat) -> Result<(), Stop> {
    match goal.pred() {
        None => Err(Stop::from(BodyFault::NotCallable)),
        Some(Pred { name: OP, arity: 3 }) => obey_op(alloc, at, made, goal),
        Some(pred) => {
            let line = at.line;
            made.passed.push(Note { line, pred })?;
            Ok(())
        }
    }
}

/// Obeys the goals of a directive in turn.
fn obey_all(alloc: Global, at: At<'_>, made: &mut Plain, body: &Flat) -> Result<(), Stop> {
    let goals = goals(alloc, at.steps, body)?;
    for goal in goals.iter() {
        obey(alloc, at, made, goal)?;
    }
    Ok(())
}

/// The clause that a term is.
fn clause_made(alloc: Global, steps: usize, term: &Flat) -> Result<Tuple, BodyFault> {
    match term.pred() {
        Some(
            Pred {
                name: GRAMMAR_ARROW,
                arity: 2,
            },
        ) => clause_of_rule(alloc, steps, term),
        _ => clause_of(alloc, term),
    }
}

/// Adds a clause.
fn add_clause(alloc: Global, at: At<'_>, made: &mut Plain, term: &Flat) -> Result<(), Stop> {
    let tuple = clause_made(alloc, at.steps, term)?;
    let line = at.line;
    if made.clauses.len() >= MOST_CLAUSES as usize {
        return Err(Stop::Cause(LoadCause::ClausesOver));
    }
    made.clauses.push(Clause { tuple, line })?;
    Ok(())
}

/// Adds what a term makes.
fn add(alloc: Global, at: At<'_>, made: &mut Plain, term: &Flat) -> Result<(), Stop> {
    match term.pred() {
        Some(
            Pred {
                name: NECK | QUERY,
                arity: 1,
            },
        ) => {
            let body = term.arg(alloc, 0)?;
            obey_all(alloc, at, made, &body)
        }
        _ => add_clause(alloc, at, made, term),
    }
}

/// Nothing yet but the standard operators.
fn at_first(alloc: Global) -> Result<Plain, AllocError> {
    Ok(Plain {
        clauses: ListOf::new(alloc),
        ops: Ops::standard(alloc)?,
        definitions: ListOf::new(alloc),
        passed: Notes::new(alloc),
    })
}

/// Reads the clause or directive at a token and adds what it makes; the token behind it is told.
fn step(
    alloc: Global,
    names: &mut Names,
    made: &mut Plain,
    text: &[u8],
    tokens: &Tokens,
    lines: &[u32],
    at: usize,
) -> Result<usize, LoadText>
    requires size { length text.now ≤ MAX_FILE }
    requires utf8 { IsUtf8 text.now }
    requires tokens { HasTokens text.now tokens.now }
{
    if at >= tokens.len() || names.count() > MOST_TEXT_NAMES {
        return Err(LoadText::Memory);
    }
    let read = match read_clause(alloc, &made.ops, names, text, tokens, at) {
        Ok(read) => read,
        Err(fault) => {
            let line = line_at(lines, place_of(fault));
            return Err(told(line, Stop::from(fault)));
        }
    };
    let line = line_at(lines, read.start);
    let place = At {
        names,
        line,
        steps: text.len(),
    };
    match add(alloc, place, made, &read.term) {
        Ok(()) => Ok(read.next),
        Err(stop) => Err(told(line, stop)),
    }
}

/// The tokens of a text.
fn tokens_of(alloc: Global, text: &[u8], lines: &[u32]) -> Result<Tokens, LoadText>
    requires size { length text.now ≤ MAX_FILE }
    ensures utf8 { IfOk result (λ _. IsUtf8 text.now) }
    ensures tokens { IfOk result (λ tokens. HasTokens text.now tokens) }
{
    match tokens(alloc, text) {
        Ok(tokens) => Ok(tokens),
        Err(fault) => {
            let line = line_at(lines, place_of_token(fault));
            Err(told(line, Stop::from(fault)))
        }
    }
}

/// Adds what the clauses and directives at the tokens make.
fn add_all(
    alloc: Global,
    names: &mut Names,
    made: &mut Plain,
    text: &[u8],
    tokens: &Tokens,
    lines: &[u32],
) -> Result<(), LoadText>
    requires size { length text.now ≤ MAX_FILE }
    requires utf8 { IsUtf8 text.now }
    requires tokens { HasTokens text.now tokens.now }
{
    let mut at = 0;
    for _ in 0..tokens.len() {
        if at >= tokens.len() {
            break;
        }
        at = step(alloc, names, made, text, tokens, lines, at)?;
    }
    Ok(())
}

/// What the clauses and directives at the tokens of a text make.
fn made_of(
    alloc: Global,
    names: &mut Names,
    text: &[u8],
    tokens: &Tokens,
    lines: &[u32],
) -> Result<Plain, LoadText>
    requires size { length text.now ≤ MAX_FILE }
    requires utf8 { IsUtf8 text.now }
    requires tokens { HasTokens text.now tokens.now }
{
    let mut made = at_first(alloc)?;
    add_all(alloc, names, &mut made, text, tokens, lines)?;
    Ok(made)
}

/// What a text makes. Want of memory too where it is too long.
pub fn plain_load(alloc: Global, names: &mut Names, text: &[u8]) -> Result<Plain, LoadText> {
    if text.len() > MOST_TEXT {
        return Err(LoadText::Memory);
    }
    let lines = lines_of(alloc, text)?;
    let tokens = tokens_of(alloc, text, &lines)?;
    made_of(alloc, names, text, &tokens, &lines)
}
