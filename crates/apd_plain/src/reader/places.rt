//! What a token begins in operand place.

use crate::reader::words::{Word, atom};
use apd_causes::ReadFault;
use apd_ops::{Op, OpKind, Ops};
use apd_term::standard::{CURLY, MINUS, NIL};
use apd_term::{Flat, NameId};
use apd_token::TokenKind;
use std::alloc::{AllocError, Global};

/// What begins in operand place, with how many tokens it is.
#[derive(Drop)]
pub enum Begin {
    Operand(Flat, usize),
    /// A bracket, with the name before it if that takes what is inside as its arguments.
    Opens(Option<NameId>, TokenKind, usize),
    Prefix(Op),
}

/// The tokens of a clause, and the operators to read them by.
#[derive(Drop)]
pub struct Clause<'a> {
    pub ops: &'a Ops,
    pub words: &'a [Word],
    /// The text's length.
    pub end: u32,
}

fn operator(name: Option<NameId>, meaning: Option<(u16, OpKind)>) -> Option<Op> {
    let (priority, kind) = meaning?;
    Some(Op {
        name: name?,
        priority,
        kind,
    })
}

/// The integer with the minus before it; none where it is less than any of 64 bits.
fn negative(value: u64) -> Option<i64> {
    i64::try_from(0 - i128::from(value)).ok()
}

impl<'a> Clause<'a> {
    /// The place of a token, or the text's end.
    pub fn start(&self, at: usize) -> u32 {
        match self.words.get(at) {
            Some(word) => word.start,
            None => self.end,
        }
    }

    fn kind(&self, at: usize) -> Option<TokenKind> {
        let word = self.words.get(at)?;
        Some(word.kind)
    }

    fn prefix(&self, word: &Word) -> Option<Op> {
        operator(word.name, self.ops.prefix(word.name?))
    }

    /// The word as an infix operator.
    pub fn infix(&self, word: &Word) -> Option<Op> {
        operator(word.name, self.ops.infix(word.name?))
    }

    /// Whether an opening parenthesis that isn't spaced stands at the place.
    fn is_direct(&self, at: usize) -> bool {
        match self.words.get(at) {
            Some(word) => word.kind == TokenKind::Open && !word.spaced,
            None => false,
        }
    }

    /// Whether a prefix operator before the place is an atom.
    fn stands_alone(&self, at: usize) -> bool {
        let Some(word) = self.words.get(at) else {
            return false;
        };
        match word.kind {
            TokenKind::End
            | TokenKind::Close
            | TokenKind::CloseList
            | TokenKind::CloseCurly
            | TokenKind::Comma
            | TokenKind::Bar => true,
            TokenKind::Name | TokenKind::Quoted => {
                self.infix(word).is_some()
                    && self.prefix(word).is_none()
                    && !self.is_direct(at.saturating_add(1))
            }
            _ => false,
        }
    }

    /// The integer that a minus and the integer directly behind it are.
    fn negative(&self, at: usize) -> Option<i64> {
        let minus = self.words.get(at)?;
        let next = self.words.get(at.saturating_add(1))?;
        match (minus.kind, minus.name, next.kind) {
            (TokenKind::Name, Some(MINUS), TokenKind::Integer(value)) if !next.spaced => negative(
                value,
            ),
            _ => None,
        }
    }

    fn name_begins(&self, alloc: Global, at: usize, name: NameId) -> Result<Begin, ReadFault> {
        let next = at.saturating_add(1);
        if let Some(value) = self.negative(at) {
            return Ok(Begin::Operand(Flat::integer(alloc, value)?, 2));
        }
        if self.is_direct(next) {
            return Ok(Begin::Opens(Some(name), TokenKind::Open, 2));
        }
        match operator(Some(name), self.ops.prefix(name)) {
            Some(o) if !self.stands_alone(next) => Ok(Begin::Prefix(o)),
            _ => Ok(Begin::Operand(atom(alloc, name)?, 1)),
        }
    }

    /// What the token begins in operand place.
    pub fn begins(&self, alloc: Global, at: usize) -> Result<Begin, ReadFault> {
        let Some(word) = self.words.get(at) else {
            return Err(ReadFault::NoEnd(self.end));
        };
        let next = self.kind(at.saturating_add(1));
        match (word.kind, word.name, &word.term) {
            (TokenKind::Name | TokenKind::Quoted, Some(name), _) => self.name_begins(
                alloc, at, name,
            ),
            (_, None, Some(term)) => Ok(Begin::Operand(term.copy(alloc)?, 1)),
            (TokenKind::Integer(value), _, _) => match i64::try_from(value) {
                Ok(value) => Ok(Begin::Operand(Flat::integer(alloc, value)?, 1)),
                Err(_) => Err(ReadFault::Wide(word.start)),
            },
            (TokenKind::OpenList, _, _) if next == Some(TokenKind::CloseList) => Ok(Begin::Operand(
                atom(alloc, NIL)?,
                2,
            )),
            (TokenKind::OpenCurly, _, _) if next == Some(TokenKind::CloseCurly) => Ok(
                Begin::Operand(atom(alloc, CURLY)?, 2),
            ),
            (TokenKind::Open | TokenKind::OpenList | TokenKind::OpenCurly, _, _) => Ok(Begin::Opens(
                None, word.kind, 1,
            )),
            _ => Err(ReadFault::NoTerm(word.start)),
        }
    }
}
