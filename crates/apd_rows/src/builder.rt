//! Texts that are built piece by piece.

use crate::scene::Scene;
use apd_base::Text;
use apd_ops::MOST_PRIORITY;
use apd_term::{Flat, Pred, Tuple};
use apd_write::write_term;
use std::alloc::{AllocError, Global};
use std::fmt::{Debug, Display};
use std::str;

/// A text that is built piece by piece. Want of memory is noted, since the text then lacks a piece.
#[derive(Drop)]
pub struct Builder {
    /// Where the text gets its memory.
    pub alloc: Global,
    text: Text,
    lacks: bool,
}

impl Builder {
    /// No piece yet.
    pub fn new(alloc: Global) -> Builder {
        Builder {
            alloc,
            text: Text::new(alloc),
            lacks: false,
        }
    }

    /// Adds bytes.
    pub fn put_bytes(&mut self, piece: &[u8]) {
        if self.text.extend(piece).is_err() {
            self.lacks = true;
        }
    }

    /// Adds a piece.
    pub fn put(&mut self, piece: &str) {
        self.put_bytes(piece.as_bytes());
    }

    /// Adds a piece that was formatted.
    pub fn put_made(&mut self, made: Result<String, AllocError>) {
        match made {
            Ok(piece) => {
                self.put(piece.as_str());
                // Dropped by calls, here and below: else each part is a step to check.
                drop(piece);
            }
            Err(_) => self.lacks = true,
        }
    }

    /// Adds a value as `{}` shows it.
    pub fn put_shown<T: Display>(&mut self, value: &T) {
        let made = format!(in self.alloc; "{value}");
        self.put_made(made);
    }

    /// Adds a value as `{:?}` shows it.
    pub fn put_debug<T: Debug>(&mut self, value: &T) {
        let made = format!(in self.alloc; "{value:?}");
        self.put_made(made);
    }

    /// Adds a text that a call made.
    pub fn put_made_text(&mut self, made: Result<Text, AllocError>) {
        match made {
            Ok(text) => {
                self.put_bytes(text.bytes());
                drop(text);
            }
            Err(_) => self.lacks = true,
        }
    }

    /// Adds a piece so many times.
    pub fn put_times(&mut self, piece: &str, count: u32) {
        if piece.is_empty() {
            return;
        }
        for _ in 0..count {
            self.put(piece);
        }
    }

    /// Adds a term's text.
    pub fn put_term(&mut self, scene: &Scene, term: &Flat) {
        let Scene { names, ops } = scene;
        if write_term(self.alloc, ops, names, term, MOST_PRIORITY, &mut self.text).is_err() {
            self.lacks = true;
        }
    }

    /// Adds the text of a term that a call made.
    pub fn put_made_term(&mut self, scene: &Scene, made: Result<Flat, AllocError>) {
        match made {
            Ok(term) => {
                self.put_term(scene, &term);
                drop(term);
            }
            Err(_) => self.lacks = true,
        }
    }

    /// Adds the texts of terms, with `; ` between them.
    pub fn put_terms(&mut self, scene: &Scene, terms: &[Flat]) {
        let mut between = "";
        for term in terms {
            self.put(between);
            self.put_term(scene, term);
            between = "; ";
        }
    }

    /// Adds the text of a head, and those of the goals.
    pub fn put_tuple(&mut self, scene: &Scene, tuple: &Tuple) {
        self.put_term(scene, &tuple.head);
        if tuple.body.len() > 0 {
            self.put("; ");
        }
        self.put_terms(scene, tuple.body.as_slice());
    }

    /// Adds a predicate's indicator.
    pub fn put_indicator(&mut self, scene: &Scene, pred: Pred) {
        self.put_bytes(scene.names.text(pred.name));
        self.put("/");
        self.put_shown(&pred.arity);
    }

    /// The bytes so far.
    pub fn bytes(&self) -> &[u8] {
        self.text.bytes()
    }

    /// The text, where it lacks no piece and is UTF-8.
    pub fn shown(&self) -> &str {
        if self.lacks {
            return "out of memory";
        }
        str::from_utf8(self.bytes()).unwrap_or("not UTF-8")
    }

    /// Whether these bytes are the whole text.
    pub fn is(&self, bytes: &[u8]) -> bool {
        !self.lacks && self.bytes() == bytes
    }
}
