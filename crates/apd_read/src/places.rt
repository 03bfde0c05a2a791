//! What begins in operand place, and what goes on in operator place.

ghost use Rattle.std.specs.Prelude.{◌≡◌, ◌+◌, ◌<◌, IfOk, slice_get, ◌-ℤ◌, pos, ◌≤◌, ◌^◌};
ghost use Rattle.apd_term.specs.Term.{integer};
ghost use Rattle.apd_read.specs.Phrases.{list_term, atom};
ghost use Rattle.apd_read.specs.Places.{prefix_op, infix_op, is_direct, is_close_list, is_close_curly, only_infix, stands_alone, named, name_begins, integer_next, unquoted_begins, code_terms, begin_by, begins, named_go, comma_goes, bar_goes, close_goes, close_list_goes, close_curly_goes, end_goes, goes};

use crate::lexeme::{Lexeme, Sort};
use crate::phrase::{Phrase, atom, leaf, list_term};
use apd_ops::{Op, Ops};
use apd_term::standard::{COMMA, CURLY, MINUS, NIL};
use apd_term::{Atoms, Flat, NameId};
use std::alloc::{AllocError, Global};

/// The amount of the least integer.
const LEAST_AMOUNT: u64 = 9_223_372_036_854_775_808;

/// What an item stands in.
#[derive(Clone, Copy)]
pub enum Inside {
    Clause,
    Paren,
    Curly,
    Args(NameId),
    Listing,
    /// Behind a list's bar.
    Tail,
}

/// What begins in operand place; the number counts its tokens.
#[derive(Drop)]
pub enum Begin {
    Word(Phrase, usize),
    Opens(Inside, usize),
    Prefix(Op),
    Wide,
    Nothing,
    NoMore,
}

/// What goes on in operator place.
#[derive(Clone, Copy)]
pub enum Go {
    Infix(Op),
    /// A comma between arguments or elements.
    Separates,
    /// The bar before a list's tail.
    Turns,
    Closes,
    Unclosed,
    Stray,
    Ends,
}

fn prefix_op(ops: &Ops, name: NameId) -> Option<Op>
    ensures { result ≡ prefix_op ops.now name }
{
    match ops.prefix(name) {
        None => None,
        Some((priority, kind)) => Some(Op {
            name,
            priority,
            kind,
        }),
    }
}

fn infix_op(ops: &Ops, name: NameId) -> Option<Op>
    ensures { result ≡ infix_op ops.now name }
{
    match ops.infix(name) {
        None => None,
        Some((priority, kind)) => Some(Op {
            name,
            priority,
            kind,
        }),
    }
}

/// Whether an opening parenthesis that isn't spaced stands at the place.
fn is_direct(lexemes: &[Lexeme], at: usize) -> bool
    ensures { result ≡ is_direct (slice_get lexemes.now at) }
{
    match lexemes.get(at) {
        None => false,
        Some(l) => match l.sort {
            Sort::Open => !l.spaced,
            _ => false,
        },
    }
}

fn is_close_list(lexemes: &[Lexeme], at: usize) -> bool
    ensures { result ≡ is_close_list (slice_get lexemes.now at) }
{
    match lexemes.get(at) {
        None => false,
        Some(l) => match l.sort {
            Sort::CloseList => true,
            _ => false,
        },
    }
}

fn is_close_curly(lexemes: &[Lexeme], at: usize) -> bool
    ensures { result ≡ is_close_curly (slice_get lexemes.now at) }
{
    match lexemes.get(at) {
        None => false,
        Some(l) => match l.sort {
            Sort::CloseCurly => true,
            _ => false,
        },
    }
}

/// Whether the name before the place is an infix and no prefix operator, with no parenthesis directly behind it.
fn only_infix(ops: &Ops, name: NameId, lexemes: &[Lexeme], at: usize) -> bool
    ensures { result ≡ only_infix ops.now name (slice_get lexemes.now at) }
{
    infix_op(ops, name).is_some() && prefix_op(ops, name).is_none() && !is_direct(lexemes, at)
}

/// Whether a prefix operator before the place is an atom.
fn stands_alone(ops: &Ops, lexemes: &[Lexeme], at: usize) -> bool
    requires { at < usize.MAX }
    ensures { result ≡ stands_alone ops.now (slice_get lexemes.now at)
        (slice_get lexemes.now (at + 1)) }
{
    match lexemes.get(at) {
        None => false,
        Some(l) => match &l.sort {
            Sort::Name(g) => only_infix(ops, *g, lexemes, at + 1),
            Sort::Quoted(g) => only_infix(ops, *g, lexemes, at + 1),
            Sort::Close => true,
            Sort::CloseList => true,
            Sort::CloseCurly => true,
            Sort::Comma => true,
            Sort::Bar => true,
            Sort::End => true,
            _ => false,
        },
    }
}

fn named(alloc: Global, name: NameId, prefix: Option<Op>, alone: bool) -> Result<Begin, AllocError>
    ensures { IfOk result (λ b. b ≡ named name prefix alone) }
{
    match prefix {
        None => Ok(Begin::Word(leaf(atom(alloc, name)?), 1)),
        Some(o) => {
            if alone {
                Ok(Begin::Word(leaf(atom(alloc, name)?), 1))
            } else {
                Ok(Begin::Prefix(o))
            }
        }
    }
}

/// What the name before the place begins.
fn name_begins(
    alloc: Global,
    ops: &Ops,
    name: NameId,
    lexemes: &[Lexeme],
    at: usize,
) -> Result<Begin, AllocError>
    requires { at < usize.MAX }
    ensures { IfOk result (λ b. b ≡ name_begins ops.now name (slice_get lexemes.now at)
        (slice_get lexemes.now (at + 1))) }
{
    if is_direct(lexemes, at) {
        return Ok(Begin::Opens(Inside::Args(name), 2));
    }
    named(
        alloc,
        name,
        prefix_op(ops, name),
        stands_alone(ops, lexemes, at),
    )
}

/// The integer of at most 2 ^ 63 that stands at the place and isn't spaced.
fn integer_next(lexemes: &[Lexeme], at: usize) -> Option<u64>
    ensures { result ≡ integer_next (slice_get lexemes.now at) }
{
    match lexemes.get(at) {
        None => None,
        Some(l) => match l.sort {
            Sort::Integer(i) => {
                if !l.spaced && i <= LEAST_AMOUNT {
                    Some(i)
                } else {
                    None
                }
            }
            _ => None,
        },
    }
}

fn negative(i: u64) -> i64
    requires { i ≤ 2 ^ 63 }
    ensures { result ≡ pos 0 -ℤ pos i }
{
    (0 - i128::from(i)) as i64
}

/// What the unquoted name before the place begins.
fn unquoted_begins(
    alloc: Global,
    ops: &Ops,
    name: NameId,
    lexemes: &[Lexeme],
    at: usize,
) -> Result<Begin, AllocError>
    requires { at < usize.MAX }
    ensures { IfOk result (λ b. b ≡ unquoted_begins ops.now name (slice_get lexemes.now at)
        (slice_get lexemes.now (at + 1))) }
{
    if name.0 == MINUS.0 {
        if let Some(i) = integer_next(lexemes, at) {
            if i <= LEAST_AMOUNT {
                return Ok(Begin::Word(leaf(Flat::integer(alloc, negative(i))?), 2));
            }
        }
    }
    name_begins(alloc, ops, name, lexemes, at)
}

fn code_terms(alloc: Global, codes: &[u32]) -> Result<Atoms, AllocError>
    ensures { IfOk result (λ ts. ts ≡ code_terms codes.now) }
{
    let mut terms = Atoms::new(alloc);
    'codes: for c in codes {
        terms.push(Flat::integer(alloc, i64::from(*c))?)?;
    }
    Ok(terms)
}

/// The list of characters' codes.
fn codes_term(alloc: Global, codes: &[u32]) -> Result<Flat, AllocError>
    ensures { IfOk result (λ t. t ≡ list_term (code_terms codes.now) (atom NIL)) }
{
    let terms = code_terms(alloc, codes)?;
    let nil = atom(alloc, NIL)?;
    list_term(alloc, terms.as_slice(), &nil)
}

/// What a token begins in operand place; `next` is the place behind it.
fn begin_by(
    alloc: Global,
    ops: &Ops,
    sort: &Sort,
    lexemes: &[Lexeme],
    next: usize,
) -> Result<Begin, AllocError>
    requires { next < usize.MAX }
    ensures { IfOk result (λ b. b ≡ begin_by ops.now sort.now (slice_get lexemes.now next)
        (slice_get lexemes.now (next + 1))) }
{
    match sort {
        Sort::Name(f) => unquoted_begins(alloc, ops, *f, lexemes, next),
        Sort::Quoted(f) => name_begins(alloc, ops, *f, lexemes, next),
        Sort::Codes(codes) => Ok(Begin::Word(leaf(codes_term(alloc, codes.as_slice())?), 1)),
        Sort::Variable(v) => Ok(Begin::Word(leaf(Flat::variable(alloc, *v)?), 1)),
        Sort::Integer(i) => {
            if *i < LEAST_AMOUNT {
                Ok(Begin::Word(leaf(Flat::integer(alloc, *i as i64)?), 1))
            } else {
                Ok(Begin::Wide)
            }
        }
        Sort::Open => Ok(Begin::Opens(Inside::Paren, 1)),
        Sort::OpenList => {
            if is_close_list(lexemes, next) {
                Ok(Begin::Word(leaf(atom(alloc, NIL)?), 2))
            } else {
                Ok(Begin::Opens(Inside::Listing, 1))
            }
        }
        Sort::OpenCurly => {
            if is_close_curly(lexemes, next) {
                Ok(Begin::Word(leaf(atom(alloc, CURLY)?), 2))
            } else {
                Ok(Begin::Opens(Inside::Curly, 1))
            }
        }
        _ => Ok(Begin::Nothing),
    }
}

/// What begins at a token in operand place.
pub(crate) fn begins(
    alloc: Global,
    ops: &Ops,
    lexemes: &[Lexeme],
    at: usize,
) -> Result<Begin, AllocError>
    requires { at + 1 < usize.MAX }
    ensures { IfOk result (λ b. b ≡ begins ops.now lexemes.now at) }
{
    match lexemes.get(at) {
        None => Ok(Begin::NoMore),
        Some(l) => {
            let begin = begin_by(alloc, ops, &l.sort, lexemes, at + 1)?;
            Ok(begin)
        }
    }
}

fn infix_or_stray(o: Option<Op>) -> Go
    ensures { result ≡ named_go o }
{
    match o {
        None => Go::Stray,
        Some(o) => Go::Infix(o),
    }
}

fn comma_goes(ops: &Ops, inside: Inside) -> Go
    ensures { result ≡ comma_goes ops.now inside }
{
    match inside {
        Inside::Args(_) => Go::Separates,
        Inside::Listing => Go::Separates,
        Inside::Tail => Go::Stray,
        _ => infix_or_stray(infix_op(ops, COMMA)),
    }
}

fn bar_goes(inside: Inside) -> Go
    ensures { result ≡ bar_goes inside }
{
    match inside {
        Inside::Listing => Go::Turns,
        _ => Go::Stray,
    }
}

fn close_goes(inside: Inside) -> Go
    ensures { result ≡ close_goes inside }
{
    match inside {
        Inside::Paren => Go::Closes,
        Inside::Args(_) => Go::Closes,
        _ => Go::Stray,
    }
}

fn close_list_goes(inside: Inside) -> Go
    ensures { result ≡ close_list_goes inside }
{
    match inside {
        Inside::Listing => Go::Closes,
        Inside::Tail => Go::Closes,
        _ => Go::Stray,
    }
}

fn close_curly_goes(inside: Inside) -> Go
    ensures { result ≡ close_curly_goes inside }
{
    match inside {
        Inside::Curly => Go::Closes,
        _ => Go::Stray,
    }
}

fn end_goes(inside: Inside) -> Go
    ensures { result ≡ end_goes inside }
{
    match inside {
        Inside::Clause => Go::Closes,
        _ => Go::Unclosed,
    }
}

/// What goes on at a token in operator place.
pub(crate) fn goes(ops: &Ops, inside: Inside, lexemes: &[Lexeme], at: usize) -> Go
    ensures { result ≡ goes ops.now inside lexemes.now at }
{
    let Some(l) = lexemes.get(at) else {
        return Go::Ends;
    };
    match &l.sort {
        Sort::Name(f) => infix_or_stray(infix_op(ops, *f)),
        Sort::Quoted(f) => infix_or_stray(infix_op(ops, *f)),
        Sort::Comma => comma_goes(ops, inside),
        Sort::Bar => bar_goes(inside),
        Sort::Close => close_goes(inside),
        Sort::CloseList => close_list_goes(inside),
        Sort::CloseCurly => close_curly_goes(inside),
        Sort::End => end_goes(inside),
        _ => Go::Stray,
    }
}
