//! The first clause of a text, or why there is none.

use crate::builder::Builder;
use crate::scene::{MOST_ROW_NAMES, Scene};
use apd_base::MAX_FILE;
use apd_causes::{Read, ReadFault, TokenFault};
use apd_read::read_clause;
use apd_token::tokens;
use std::alloc::Global;

/// Why a text has no first clause.
#[derive(Clone, Copy)]
pub enum Unread {
    Tokens(TokenFault),
    Clause(ReadFault),
    /// It has no token, or is longer than any text that is read.
    Nothing,
}

impl Unread {
    /// Adds the fault.
    pub fn put(self, given: &mut Builder) {
        match self {
            Unread::Tokens(fault) => given.put_debug(&fault),
            Unread::Clause(fault) => given.put_debug(&fault),
            Unread::Nothing => {}
        }
    }
}

/// The first clause of a text.
#[derive(Drop)]
pub struct First {
    pub read: Read,
    /// Whether no token stands behind it.
    pub alone: bool,
}

impl Scene {
    /// Reads the first clause of a text.
    pub fn first(&mut self, alloc: Global, text: &[u8]) -> Result<First, Unread> {
        if text.len() > MAX_FILE || self.names.count() > MOST_ROW_NAMES {
            return Err(Unread::Nothing);
        }
        let tokens = match tokens(alloc, text) {
            Ok(tokens) => tokens,
            Err(fault) => return Err(Unread::Tokens(fault)),
        };
        let count = tokens.len();
        if count == 0 {
            // Dropped by calls: else each part is a step to check.
            drop(tokens);
            return Err(Unread::Nothing);
        }
        let read = read_clause(alloc, &self.ops, &mut self.names, text, &tokens, 0);
        drop(tokens);
        match read {
            Err(fault) => Err(Unread::Clause(fault)),
            Ok(read) => {
                let alone = read.next == count;
                Ok(First { read, alone })
            }
        }
    }
}
