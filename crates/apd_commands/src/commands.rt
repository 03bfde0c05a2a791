//! What a line asks for in a command's place.

ghost use Rattle.std.specs.Prelude.{◌≡◌, ◌≢◌, ◌<◌, ◌≤◌, ℕ, length, slice_get, IfOk, OnOk};
ghost use Rattle.apd_term.specs.Named.{IsNamed};
ghost use Rattle.apd_clauses.specs.Queries.{IsQueryTerm, query_from};
ghost use Rattle.apd_read.specs.Reader.{Reader};
ghost use Rattle.apd_term.specs.Term.{arguments, predicate_of};
ghost use Rattle.apd_lines.specs.Lines.{IsOfLine, LineFits, LineGrows, LineIsNamed};
ghost use Rattle.apd_commands.specs.Commands.{command_in, command_of, integer_at, integer_of, missing_asked, query_asked, term_asked, wrong_asked};
ghost use Rattle.apd_talk.specs.Speech.{Lasting};
ghost use Rattle.apd_commands.specs.Obeying.{CanObey};

use crate::filters::trace_command;
use apd_causes::Query;
use apd_clauses::{BodyFault, query_of};
use apd_console::Line;
use apd_lines::{LineRead, read_line};
use apd_ops::Ops;
use apd_ports::Filter;
use apd_read::Read;
use apd_term::names::Names;
use apd_term::standard::{KNOWN, LOOP, MISSING, QUERY, QUIT, TRACE, WRONG};
use apd_term::{Flat, Pred, Sym};
use apd_text::Refusal;
use std::alloc::{AllocError, Global};

/// A command.
#[derive(Drop)]
pub enum Command {
    /// The line has no token.
    Nothing,
    /// The session ends.
    Quit,
    /// The line is no command.
    Refused(Refusal),
    /// A query is run.
    Query(Query),
    /// An exit of a box isn't true; both are told by their numbers, counted from 1.
    Wrong { box_no: i64, exit: i64 },
    /// A box, told by its number, counted from 1, didn't give this atom, which is true.
    Missing { box_no: i64, atom: Flat },
    /// The last run doesn't end.
    Loop,
    /// The ports of later runs are printed by this filter.
    Trace(Filter),
    /// What is known is printed.
    Known,
}

/// What is said to a term that is refused for this fault, which want of memory is not.
fn goal_refused(fault: BodyFault) -> Result<Command, AllocError>
    ensures command { IfOk result (λ c. c ≡ Command.Refused (Refusal.GoalRefused fault)) }
    ensures fault { OnOk result (fault ≢ BodyFault.Memory) }
{
    match fault {
        BodyFault::Memory => Err(AllocError),
        _ => Ok(Command::Refused(Refusal::GoalRefused(fault))),
    }
}

/// The query of a term `?- B`, or why it is refused.
fn query_command(alloc: Global, read: &Read) -> Result<Command, AllocError>
    requires { IsQueryTerm read.now.term }
    ensures command { IfOk result (λ c. c ≡ query_asked (query_from read.now)) }
    ensures can { (n : ℕ) → IsOfLine n read.now.term → IfOk result (CanObey n) }
{
    match query_of(alloc, read) {
        Ok(query) => Ok(Command::Query(query)),
        Err(fault) => goal_refused(fault),
    }
}

/// The integer that a term is.
fn integer_of(term: &Flat) -> Option<i64>
    ensures { result ≡ integer_of term.now }
{
    match term.symbols() {
        [Sym::Int(value), ..] => Some(*value),
        _ => None,
    }
}

/// The integer that an argument of a term is.
fn integer_at(alloc: Global, term: &Flat, place: u8) -> Result<Option<i64>, AllocError>
    requires { place < length (arguments term.now) }
    ensures { IfOk result (λ i. i ≡ integer_at term.now place) }
{
    let argument = term.arg(alloc, place)?;
    Ok(integer_of(&argument))
}

/// The command of a term `wrong(B, K)`.
fn wrong_command(alloc: Global, term: &Flat) -> Result<Command, AllocError>
    requires { length (arguments term.now) ≡ 2 }
    ensures command { IfOk result (λ c.
        c ≡ wrong_asked (integer_at term.now 0) (integer_at term.now 1)) }
    ensures can { (n : ℕ) → IfOk result (CanObey n) }
{
    let (Some(box_no), Some(exit)) = (integer_at(alloc, term, 0)?, integer_at(alloc, term, 1)?)
    else {
        return Ok(Command::Refused(Refusal::NotACommand));
    };
    Ok(Command::Wrong { box_no, exit })
}

/// The command of a term `missing(B, A)`.
fn missing_command(alloc: Global, term: &Flat) -> Result<Command, AllocError>
    requires { length (arguments term.now) ≡ 2 }
    ensures command { IfOk result (λ c.
        c ≡ missing_asked (integer_at term.now 0) (slice_get (arguments term.now) 1)) }
    ensures can { (n : ℕ) → IsNamed n term.now → IfOk result (CanObey n) }
{
    let Some(box_no) = integer_at(alloc, term, 0)? else {
        return Ok(Command::Refused(Refusal::NotACommand));
    };
    let atom = term.arg(alloc, 1)?;
    Ok(Command::Missing { box_no, atom })
}

/// The command that a term is.
fn term_command(alloc: Global, read: &Read) -> Result<Command, AllocError>
    ensures command { IfOk result (λ c. c ≡ term_asked read.now (predicate_of read.now.term)) }
    ensures can { (n : ℕ) → IsOfLine n read.now.term → IfOk result (CanObey n) }
{
    match read.term.pred() {
        Some(
            Pred {
                name: QUIT,
                arity: 0,
            },
        ) => Ok(Command::Quit),
        Some(
            Pred {
                name: QUERY,
                arity: 1,
            },
        ) => query_command(alloc, read),
        Some(
            Pred {
                name: WRONG,
                arity: 2,
            },
        ) => wrong_command(alloc, &read.term),
        Some(
            Pred {
                name: MISSING,
                arity: 2,
            },
        ) => missing_command(alloc, &read.term),
        Some(
            Pred {
                name: LOOP,
                arity: 0,
            },
        ) => Ok(Command::Loop),
        Some(
            Pred {
                name: TRACE,
                arity: 1,
            },
        ) => trace_command(alloc, &read.term),
        Some(
            Pred {
                name: KNOWN,
                arity: 0,
            },
        ) => Ok(Command::Known),
        _ => Ok(Command::Refused(Refusal::NotACommand)),
    }
}

/// The command that a line is of which this was read.
fn line_command(alloc: Global, read: LineRead) -> Result<Command, AllocError>
    ensures command { IfOk result (λ c. c ≡ command_of read) }
    ensures can { (n : ℕ) → LineIsNamed n read → IfOk result (CanObey n) }
{
    match read {
        LineRead::Empty => Ok(Command::Nothing),
        LineRead::TooLong => Ok(Command::Refused(Refusal::TooLong)),
        LineRead::Bad(cause) => Ok(Command::Refused(Refusal::Syntax(cause))),
        LineRead::Clause(read) => term_command(alloc, &read),
    }
}

/// The command that a line is, read with these operators. Where there is no memory, too, the names have only grown.
pub(crate) fn read_command(
    alloc: Global,
    ops: &Ops,
    names: &mut Names,
    line: &Line,
) -> Result<Command, AllocError>
    requires fits { LineFits (length names.old) line.now }
    ensures names { LineGrows line.now names.old names.new }
    ensures command { IfOk result (λ c. Lasting names.new (λ n. (reader : Reader n) →
        c ≡ command_in reader ops.now line.now)) }
    ensures can { IfOk result (CanObey (length names.new)) }
{
    let read = read_line(alloc, ops, names, line)?;
    line_command(alloc, read)
}
