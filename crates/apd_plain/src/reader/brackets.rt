//! Open brackets, and what they are once they are closed.

use crate::reader::pieces::{Part, Piece, split};
use crate::reader::words::{atom, pair};
use apd_ops::{MOST_PRIORITY, Op};
use apd_term::standard::{CELL, CURLY, NIL};
use apd_term::{Atoms, Flat, NameId};
use apd_token::TokenKind;
use std::alloc::{AllocError, Global};

/// The greatest priority of an argument, in a number of its own, so that rows compare it.
const MOST_OF_ARGUMENT: u16 = 999;

/// An open bracket with what was read inside.
#[derive(Drop)]
pub struct Bracket {
    /// The token that opened it; `End` for the clause itself.
    pub opened: TokenKind,
    /// The place of that token.
    pub start: u32,
    /// The name directly before a parenthesis, if these are its arguments.
    pub call: Option<NameId>,
    /// The items that are done.
    pub done: Vec<Part>,
    /// Whether a list's bar has come.
    pub tail: bool,
    /// The pieces of the last item.
    pub pieces: Vec<Piece>,
}

impl Bracket {
    pub fn new(alloc: Global, opened: TokenKind, start: u32, call: Option<NameId>) -> Bracket {
        Bracket {
            opened,
            start,
            call,
            done: Vec::new(alloc),
            tail: false,
            pieces: Vec::new(alloc),
        }
    }

    /// The greatest priority of an item.
    fn most(&self) -> u16 {
        match self.opened {
            TokenKind::End | TokenKind::OpenCurly => MOST_PRIORITY,
            TokenKind::Open if self.call.is_none() => MOST_PRIORITY,
            _ => MOST_OF_ARGUMENT,
        }
    }

    /// Whether commas separate what stands directly inside.
    pub fn has_elements(&self) -> bool {
        self.most() == MOST_OF_ARGUMENT
    }

    pub fn is_closed_by(&self, kind: TokenKind) -> bool {
        match (self.opened, kind) {
            (TokenKind::End, TokenKind::End)
            | (TokenKind::Open, TokenKind::Close)
            | (TokenKind::OpenList, TokenKind::CloseList)
            | (TokenKind::OpenCurly, TokenKind::CloseCurly) => true,
            _ => false,
        }
    }

    /// Puts an operand behind the pieces.
    pub fn put_operand(&mut self, part: Part) -> Result<(), AllocError> {
        self.pieces.push(Piece::Operand(part))?;
        Ok(())
    }

    /// Puts an operator behind the pieces; false where they have no reading then, whatever operand
    /// follows.
    pub fn put_operator(&mut self, alloc: Global, o: Op) -> Result<bool, AllocError> {
        self.pieces.push(Piece::Operator(o))?;
        let any = Part {
            term: Flat::variable(alloc, 0)?,
            level: 0,
        };
        self.put_operand(any)?;
        let front = split(alloc, self.most(), self.pieces.as_slice())?;
        self.pieces.pop();
        Ok(front.is_some())
    }

    /// Puts the last item behind those that are done; false where it has no reading.
    pub fn end_item(&mut self, alloc: Global) -> Result<bool, AllocError> {
        let Some(item) = split(alloc, self.most(), self.pieces.as_slice())? else {
            return Ok(false);
        };
        self.done.push(item)?;
        self.pieces.clear();
        Ok(true)
    }

    /// What the bracket is, all its items done; none where it has too many.
    pub fn whole(&mut self, alloc: Global) -> Result<Option<Part>, AllocError> {
        match (self.call, self.opened) {
            (Some(name), _) => call(alloc, name, self.done.as_slice()),
            (None, TokenKind::OpenCurly) => call(alloc, CURLY, self.done.as_slice()),
            (None, TokenKind::OpenList) => Ok(Some(self.list(alloc)?)),
            (None, TokenKind::Open) => match self.done.pop() {
                Some(part) => Ok(Some(deeper(part))),
                None => Ok(None),
            },
            _ => Ok(self.done.pop()),
        }
    }

    /// The list of the items, of which the last is the tail behind a bar.
    fn list(&self, alloc: Global) -> Result<Part, AllocError> {
        let mut term = atom(alloc, NIL)?;
        let mut level = 0u32;
        let mut is_tail = self.tail;
        for item in self.done.iter().rev() {
            let first = item.term.copy(alloc)?;
            level = level.max(item.level);
            term = if is_tail {
                first
            } else {
                pair(alloc, CELL, first, term)?
            };
            is_tail = false;
        }
        Ok(deeper(Part { term, level }))
    }
}

/// The part one level below what it stands in.
fn deeper(part: Part) -> Part {
    Part {
        term: part.term,
        level: part.level.saturating_add(1),
    }
}

/// The name with its arguments; none for more than 255 of them.
fn call(alloc: Global, name: NameId, arguments: &[Part]) -> Result<Option<Part>, AllocError> {
    let mut args = Atoms::new(alloc);
    let mut level = 0u32;
    for part in arguments {
        args.push(part.term.copy(alloc)?)?;
        level = level.max(part.level);
    }
    if args.len() > 255 {
        return Ok(None);
    }
    let term = Flat::compound(alloc, name, &args)?;
    Ok(Some(deeper(Part { term, level })))
}
