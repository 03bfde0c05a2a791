//! Reading of a clause in the plainest way, to compare with `read_clause` of `apd_read`.
//!
//! [`plain_read`] keeps no stack of operators. It collects the operands and operators of an item as
//! they stand, splits them at the main operator, and each side again, and does so anew for each
//! operator that comes. So its time grows with the cube of an item's length, and it is for short
//! texts.

mod brackets;
mod pieces;
mod places;
mod words;

ghost use Rattle.std.specs.Prelude.{◌≤◌, length, IsUtf8};
ghost use Rattle.apd_token.specs.Grammar.{HasTokens};
ghost use Rattle.apd_base.specs.declared.limits.TheConstants.{MAX_FILE};

use crate::reader::brackets::Bracket;
use crate::reader::pieces::Part;
use crate::reader::places::{Begin, Clause};
use crate::reader::words::{Word, words};
use apd_causes::ReadFault;
use apd_ops::Ops;
use apd_term::{Flat, Names};
use apd_token::{TokenKind, Tokens};
use std::alloc::{AllocError, Global};
use std::mem;

/// No clause has a term so many levels below its own level 0.
const TOO_MANY_LEVELS: u32 = 1_000;

/// What is read so far.
#[derive(Drop)]
struct Reading {
    /// The innermost open bracket, and those around it, the outermost first.
    inner: Bracket,
    around: Vec<Bracket>,
    /// The next token.
    at: usize,
    /// Whether an operand is due.
    operand: bool,
}

impl Reading {
    fn open(&mut self, bracket: Bracket) -> Result<(), AllocError> {
        let outer = mem::replace(&mut self.inner, bracket);
        self.around.push(outer)?;
        Ok(())
    }

    /// Takes what begins at the next token in operand place.
    fn take_operand(&mut self, alloc: Global, clause: &Clause<'_>) -> Result<(), ReadFault> {
        let start = clause.start(self.at);
        match clause.begins(alloc, self.at)? {
            Begin::Operand(term, count) => {
                self.at = self.at.saturating_add(count);
                self.operand = false;
                self.inner.put_operand(Part { term, level: 0 })?;
            }
            Begin::Opens(call, kind, count) => {
                self.at = self.at.saturating_add(count);
                let start = clause.start(self.at.saturating_sub(1));
                let opened = Bracket::new(alloc, kind, start, call);
                self.open(opened)?;
            }
            Begin::Prefix(o) => {
                self.at = self.at.saturating_add(1);
                if !self.inner.put_operator(alloc, o)? {
                    return Err(ReadFault::Priority(start));
                }
            }
        }
        Ok(())
    }

    /// Ends the innermost bracket; the clause's own gives the clause.
    fn close(&mut self, alloc: Global, start: u32) -> Result<Option<Part>, ReadFault> {
        if !self.inner.end_item(alloc)? {
            return Err(ReadFault::Priority(start));
        }
        let Some(whole) = self.inner.whole(alloc)? else {
            return Err(ReadFault::ArityOver(start));
        };
        let Some(outer) = self.around.pop() else {
            return Ok(Some(whole));
        };
        self.inner = outer;
        self.inner.put_operand(whole)?;
        self.operand = false;
        Ok(None)
    }

    /// Ends an item of the innermost bracket at a comma or a bar.
    fn next_item(&mut self, alloc: Global, word: &Word) -> Result<(), ReadFault> {
        if word.kind == TokenKind::Comma
            && self.inner.call.is_some()
            && self.inner.done.len() >= 254
        {
            return Err(ReadFault::ArityOver(word.start));
        }
        if !self.inner.end_item(alloc)? {
            return Err(ReadFault::Priority(word.start));
        }
        self.inner.tail = word.kind == TokenKind::Bar;
        Ok(())
    }

    /// Whether the token ends an item of the innermost bracket and another follows.
    fn separates(&self, kind: TokenKind) -> bool {
        match kind {
            TokenKind::Comma => self.inner.has_elements() && !self.inner.tail,
            TokenKind::Bar => self.inner.opened == TokenKind::OpenList && !self.inner.tail,
            _ => false,
        }
    }

    /// Takes what goes on at the next token behind an operand; the clause where it ends there.
    fn take_operator(
        &mut self,
        alloc: Global,
        clause: &Clause<'_>,
    ) -> Result<Option<Part>, ReadFault> {
        let Some(word) = clause.words.get(self.at) else {
            return Err(ReadFault::NoEnd(clause.end));
        };
        self.at = self.at.saturating_add(1);
        self.operand = true;
        if self.inner.is_closed_by(word.kind) {
            return self.close(alloc, word.start);
        }
        if word.kind == TokenKind::End {
            return Err(ReadFault::Unclosed(self.inner.start));
        }
        if self.separates(word.kind) {
            self.next_item(alloc, word)?;
            return Ok(None);
        }
        match clause.infix(word) {
            Some(o) if word.kind != TokenKind::Comma || !self.inner.has_elements() => {
                if !self.inner.put_operator(alloc, o)? {
                    return Err(ReadFault::Priority(word.start));
                }
                Ok(None)
            }
            _ => Err(ReadFault::Stray(word.start)),
        }
    }

    /// Takes the next token; gives the clause where it ends there.
    fn step(&mut self, alloc: Global, clause: &Clause<'_>) -> Result<Option<Part>, ReadFault> {
        if self.operand {
            self.take_operand(alloc, clause)?;
            return Ok(None);
        }
        self.take_operator(alloc, clause)
    }
}

/// The clause with its greatest level.
fn read(alloc: Global, clause: &Clause<'_>) -> Result<Part, ReadFault> {
    let mut reading = Reading {
        inner: Bracket::new(alloc, TokenKind::End, 0, None),
        around: Vec::new(alloc),
        at: 0,
        operand: true,
    };
    for _ in 0..clause.words.len() {
        if let Some(whole) = reading.step(alloc, clause)? {
            return Ok(whole);
        }
    }
    Err(ReadFault::NoEnd(clause.end))
}

/// The first clause of the tokens as a term, its variables numbered from 1 by their first places, or
/// its first fault from the left.
///
/// `TooDeep` comes only where there is no other fault, and `Memory` wherever there is no memory left.
/// New names are put at the end of the names, at most one for each token, also where a fault is told.
pub fn plain_read(
    alloc: Global,
    ops: &Ops,
    names: &mut Names,
    text: &[u8],
    tokens: &Tokens,
) -> Result<Flat, ReadFault>
    requires small { length text.now ≤ MAX_FILE }
    requires utf8 { IsUtf8 text.now }
    requires tokens { HasTokens text.now tokens.now }
{
    let words = words(alloc, names, text, tokens)?;
    let clause = Clause {
        ops,
        words: words.as_slice(),
        end: text.len() as u32,
    };
    let whole = read(alloc, &clause)?;
    if whole.level >= TOO_MANY_LEVELS {
        return Err(ReadFault::TooDeep(clause.start(0)));
    }
    Ok(whole.term)
}
