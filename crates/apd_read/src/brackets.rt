//! The brackets of a clause, and the items in them.

ghost use Rattle.std.specs.Prelude.{◌≡◌, ◌<◌, ◌≤◌, ◌+◌, ◌^◌, length, IfOk, OnOk, MatchResult, Some, None, [], ◌∷◌, IsTrue, ◌↔◌};
ghost use Rattle.apd_read.specs.Reading.{Reads};
ghost use Rattle.apd_read.specs.Stack.{closed};
ghost use Rattle.apd_read.specs.Clause.{most, made, HasRoom, IsReading, IsClauseFault, HasAtMost};
ghost use Rattle.apd_read.specs.Places.{goes};
ghost use Rattle.apd_read.specs.State.{IsReady, IsNext, IsOpened};
ghost use Rattle.apd_read.specs.declared.places.Go.TheVariants.{Closes};
ghost use Rattle.apd_base.specs.declared.limits.TheConstants.{MAX_FILE};

use crate::frames::{OperatorFrame, closed, put_infix, put_prefix};
use crate::lexeme::Lexeme;
use crate::phrase::{Phrase, atom, braced, call, enclosed, leaf, listing};
use crate::places::{Begin, Go, Inside, begins, goes};
use apd_base::stack::Stack;
use apd_ops::{ARGUMENT_PRIORITY, MOST_PRIORITY, Ops};
use apd_term::standard::NIL;
use std::alloc::{AllocError, Global};
use std::mem;

/// A clause's phrase, and the place behind its end.
#[derive(Drop)]
pub(crate) struct Whole {
    pub phrase: Phrase,
    pub next: usize,
}

/// Why there is no phrase, and the token that the fault names, by its place among the lexemes.
#[derive(Drop)]
pub(crate) enum ClauseFault {
    NoTerm(usize),
    Wide(usize),
    Stray(usize),
    Unclosed(usize),
    NoEnd(usize),
    Priority(usize),
    ArityOver(usize),
    Memory,
}

impl From<AllocError> for ClauseFault {
    ghost use Rattle.std.specs.Prelude.{◌≡◌};
    ghost use Rattle.apd_read.specs.declared.brackets.ClauseFault.TheVariants.{Memory};

    ghost from_gives = { λ _ e. e ≡ Memory };

    fn from(_: AllocError) -> Self {
        ClauseFault::Memory
    }
}

/// An open bracket: what its items stand in, the place behind it, its elements so far, and its
/// operators that wait.
#[derive(Drop)]
pub(crate) struct Level {
    inside: Inside,
    from: usize,
    done: Stack<Phrase>,
    frames: Stack<OperatorFrame>,
}

fn most(inside: Inside) -> u16
    ensures { result ≡ most inside }
{
    match inside {
        Inside::Clause => MOST_PRIORITY,
        Inside::Paren => MOST_PRIORITY,
        Inside::Curly => MOST_PRIORITY,
        _ => ARGUMENT_PRIORITY,
    }
}

/// Whether one more argument may come behind the item that stands behind these elements.
fn has_room(inside: Inside, done: &Stack<Phrase>) -> bool
    ensures { IsTrue result ↔ HasRoom inside done.now }
{
    match inside {
        Inside::Args(_) => done.len() < 254,
        _ => true,
    }
}

/// The operand that a bracket makes of its elements and its last item.
fn made(alloc: Global, inside: Inside, done: Stack<Phrase>, p: Phrase) -> Result<Phrase, AllocError>
    requires { HasAtMost inside done }
    ensures { IfOk result (λ r. r ≡ made inside done p) }
{
    let mut done = done;
    match inside {
        Inside::Clause => Ok(p),
        Inside::Paren => enclosed(alloc, p),
        Inside::Curly => braced(alloc, p),
        Inside::Args(name) => {
            done.push(p)?;
            call(alloc, name, done.into_vec())
        }
        Inside::Listing => {
            done.push(p)?;
            let nil = leaf(atom(alloc, NIL)?);
            listing(alloc, done.into_vec(), nil)
        }
        Inside::Tail => listing(alloc, done.into_vec(), p),
    }
}

/// What is read so far: the brackets that are open, the innermost apart, and the next token's place.
#[derive(Drop)]
pub(crate) struct ReadSoFar {
    outer: Stack<Level>,
    level: Level,
    at: usize,
}

/// What the next token is for.
#[derive(Drop)]
pub(crate) enum TokenUse {
    Operand,
    Operator(Phrase),
    Done(Whole),
}

/// Opens a bracket.
fn open(
    alloc: Global,
    state: &mut ReadSoFar,
    inside: Inside,
    count: usize,
) -> Result<(), AllocError>
    requires { state.old.at + count < 2 ^ 63 }
    ensures { OnOk result (IsOpened state.old inside count state.new) }
{
    let from = state.at + count;
    let level = mem::replace(
        &mut state.level,
        Level {
            inside,
            from,
            done: Stack::new(alloc),
            frames: Stack::new(alloc),
        },
    );
    state.outer.push(level)?;
    state.at = from;
    Ok(())
}

/// The innermost item's phrase, whose last operand is this; no frame is left.
fn item(alloc: Global, level: &mut Level, last: Phrase) -> Result<Phrase, AllocError>
    ensures { IfOk result (λ t. (t ≡ closed level.old.frames last) ×
        (level.new ≡ record level.old { frames = [] })) }
{
    let frames = mem::replace(&mut level.frames, Stack::new(alloc));
    closed(alloc, frames, last)
}

/// Takes what begins at the next token in operand place.
fn operand_step(
    alloc: Global,
    ops: &Ops,
    lexemes: &[Lexeme],
    state: &mut ReadSoFar,
) -> Result<TokenUse, ClauseFault>
    requires short { length lexemes.now ≤ MAX_FILE }
    requires ready { IsReady ops.now lexemes.now state.old None }
    ensures { MatchResult result (IsNext ops.now lexemes.now state.old.at state.new)
        (IsClauseFault Reads ops.now lexemes.now) }
{
    let at = state.at;
    match begins(alloc, ops, lexemes, at)? {
        Begin::Word(p, count) => {
            state.at = at + count;
            Ok(TokenUse::Operator(p))
        }
        Begin::Opens(inside, count) => {
            open(alloc, state, inside, count)?;
            Ok(TokenUse::Operand)
        }
        Begin::Prefix(o) => {
            if !put_prefix(&mut state.level.frames, o, most(state.level.inside))? {
                return Err(ClauseFault::Priority(at));
            }
            state.at = at + 1;
            Ok(TokenUse::Operand)
        }
        Begin::Wide => Err(ClauseFault::Wide(at)),
        Begin::Nothing => Err(ClauseFault::NoTerm(at)),
        Begin::NoMore => Err(ClauseFault::NoEnd(at)),
    }
}

/// Ends the innermost bracket.
fn close(
    alloc: Global,
    ops: &Ops,
    lexemes: &[Lexeme],
    state: &mut ReadSoFar,
    last: Phrase,
) -> Result<TokenUse, AllocError>
    requires short { state.old.at < 2 ^ 63 }
    requires ready { IsReady ops.now lexemes.now state.old (Some last) }
    requires closes { goes ops.now state.old.level.inside lexemes.now state.old.at ≡ Closes }
    ensures { IfOk result (IsNext ops.now lexemes.now state.old.at state.new) }
{
    let at = state.at;
    let t = item(alloc, &mut state.level, last)?;
    match state.outer.pop() {
        None => {
            let done = mem::replace(&mut state.level.done, Stack::new(alloc));
            let phrase = made(alloc, state.level.inside, done, t)?;
            Ok(TokenUse::Done(Whole {
                phrase,
                next: at + 1,
            }))
        }
        Some(outer) => {
            let level = mem::replace(&mut state.level, outer);
            let Level {
                inside,
                from: _,
                done,
                frames: _,
            } = level;
            state.at = at + 1;
            Ok(TokenUse::Operator(made(alloc, inside, done, t)?))
        }
    }
}

/// Takes what goes on at the next token in operator place.
fn operator_step(
    alloc: Global,
    ops: &Ops,
    lexemes: &[Lexeme],
    state: &mut ReadSoFar,
    last: Phrase,
) -> Result<TokenUse, ClauseFault>
    requires short { length lexemes.now ≤ MAX_FILE }
    requires ready { IsReady ops.now lexemes.now state.old (Some last) }
    ensures { MatchResult result (IsNext ops.now lexemes.now state.old.at state.new)
        (IsClauseFault Reads ops.now lexemes.now) }
{
    let at = state.at;
    let inside = state.level.inside;
    match goes(ops, inside, lexemes, at) {
        Go::Infix(o) => {
            if !put_infix(alloc, &mut state.level.frames, last, o, most(inside))? {
                return Err(ClauseFault::Priority(at));
            }
            state.at = at + 1;
            Ok(TokenUse::Operand)
        }
        Go::Separates => {
            if !has_room(inside, &state.level.done) {
                return Err(ClauseFault::ArityOver(at));
            }
            let t = item(alloc, &mut state.level, last)?;
            state.level.done.push(t)?;
            state.at = at + 1;
            Ok(TokenUse::Operand)
        }
        Go::Turns => {
            let t = item(alloc, &mut state.level, last)?;
            state.level.done.push(t)?;
            state.level.inside = Inside::Tail;
            state.at = at + 1;
            Ok(TokenUse::Operand)
        }
        Go::Closes => Ok(close(alloc, ops, lexemes, state, last)?),
        Go::Unclosed => Err(ClauseFault::Unclosed(state.level.from.saturating_sub(1))),
        Go::Stray => Err(ClauseFault::Stray(at)),
        Go::Ends => Err(ClauseFault::NoEnd(at)),
    }
}

/// Reads the lexemes until the clause is whole.
fn read_on(
    alloc: Global,
    ops: &Ops,
    lexemes: &[Lexeme],
    state: &mut ReadSoFar,
) -> Result<Whole, ClauseFault>
    requires short { length lexemes.now ≤ MAX_FILE }
    requires ready { IsReady ops.now lexemes.now state.old None }
    ensures { IsReading Reads ops.now lexemes.now result }
{
    let mut last = None;
    'lexemes: loop {
        let next = match last {
            None => operand_step(alloc, ops, lexemes, state)?,
            Some(t) => operator_step(alloc, ops, lexemes, state, t)?,
        };
        match next {
            TokenUse::Operand => last = None,
            TokenUse::Operator(t) => last = Some(t),
            TokenUse::Done(whole) => return Ok(whole),
        }
    }
}

/// The clause that the lexemes begin with, in one pass.
pub(crate) fn read(alloc: Global, ops: &Ops, lexemes: &[Lexeme]) -> Result<Whole, ClauseFault>
    requires { length lexemes.now ≤ MAX_FILE }
    ensures { IsReading Reads ops.now lexemes.now result }
{
    ops.has_no_clash();
    let mut state = ReadSoFar {
        outer: Stack::new(alloc),
        level: Level {
            inside: Inside::Clause,
            from: 0,
            done: Stack::new(alloc),
            frames: Stack::new(alloc),
        },
        at: 0,
    };
    let read = read_on(alloc, ops, lexemes, &mut state);
    // Dropped by a call: else each part of it is a step to check, at each end of the loop.
    drop(state);
    read
}
