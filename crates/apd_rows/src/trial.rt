//! What a row is tried with.

ghost use Rattle.std.specs.Prelude.{◌≡◌, length};
ghost use Rattle.apd_term.specs.Term.{arguments};

use crate::builder::Builder;
use crate::rows::Row;
use crate::scene::Scene;
use apd_causes::Read;
use apd_term::{Flat, Pred, Tuple};
use std::alloc::{AllocError, Global};
use std::boxed::Box;

/// A row that is tried, with its names and operators and what it has given so far.
#[derive(Drop)]
pub struct Trial {
    pub alloc: Global,
    pub scene: Box<Scene>,
    pub row: Row,
    pub given: Builder,
}

/// The two arguments of a term, as of `a = b`.
#[derive(Drop)]
pub struct Sides {
    pub left: Flat,
    pub right: Flat,
}

fn sides_of(alloc: Global, term: &Flat) -> Result<Box<Sides>, AllocError>
    requires { length (arguments term.now) ≡ 2 }
{
    let sides = Sides {
        left: term.arg(alloc, 0)?,
        right: term.arg(alloc, 1)?,
    };
    Ok(Box::new(alloc, sides)?)
}

impl Trial {
    /// The row with the standard names and operators, before it gives anything.
    pub fn new(alloc: Global, row: Row) -> Result<Box<Trial>, AllocError> {
        let scene = match Scene::new(alloc) {
            Ok(scene) => scene,
            Err(fault) => {
                // Dropped by calls, here and below: else each part is a step to check.
                drop(row);
                return Err(fault);
            }
        };
        let trial = Trial {
            alloc,
            scene,
            row,
            given: Builder::new(alloc),
        };
        Ok(Box::new(alloc, trial)?)
    }

    /// Has the operators hold that the first field names.
    pub fn change(&mut self) -> Option<()> {
        self.scene.change(self.row.text(0))
    }

    /// The clause that a field is, with its end or without.
    pub fn read(&mut self, at: usize) -> Option<Read> {
        self.scene.read(self.alloc, self.row.text(at))
    }

    /// The term that a field is.
    pub fn term(&mut self, at: usize) -> Option<Flat> {
        let Read { term, vars, .. } = self.read(at)?;
        drop(vars);
        Some(term)
    }

    /// The two arguments of the term that a field is.
    pub fn sides(&mut self, at: usize) -> Option<Box<Sides>> {
        let term = self.term(at)?;
        let sides = match term.pred() {
            Some(Pred { arity: 2, .. }) => sides_of(self.alloc, &term).ok(),
            _ => None,
        };
        drop(term);
        sides
    }

    /// The predicate of the term that a field is.
    pub fn pred(&mut self, at: usize) -> Option<Pred> {
        let term = self.term(at)?;
        let pred = term.pred();
        drop(term);
        pred
    }

    /// Gives a term's text.
    pub fn put_term(&mut self, term: &Flat) {
        self.given.put_term(&self.scene, term);
    }

    /// Gives the text of a term that a call made.
    pub fn put_made_term(&mut self, made: Result<Flat, AllocError>) {
        self.given.put_made_term(&self.scene, made);
    }

    /// Gives the text of a head, and those of the goals.
    pub fn put_tuple(&mut self, tuple: &Tuple) {
        self.given.put_tuple(&self.scene, tuple);
    }

    /// Whether what is given is what the row wants.
    pub fn is_alike(&self) -> bool {
        self.given.is(self.row.wanted())
    }
}
