//! A past as it was at a moment.

ghost use Rattle.std.specs.Prelude.{◌≡◌, ◌⊎◌, ◌<◌, ◌^◌, length, MatchOption};
ghost use Rattle.apd_cells.specs.declared.heap.Binding.TheVariants.{Free, At};
ghost use Rattle.apd_cells.specs.Heap.{IsVariable};
ghost use Rattle.apd_cells.specs.Store.{term_at, binding_of, symbol_at, IsSound, IsEnd};
ghost use Rattle.apd_past.specs.History.{at_moment};

use crate::past::{Moment, Past};
use apd_term::Sym;
use std::marker::Model;

/// A past as it was at a moment. Contracts see the store that it was then.
#[derive(Drop)]
pub struct Then<'a> {
    past: &'a Past,
    moment: Moment,
}

impl<'a> Model for Then<'a> {
    ghost use Rattle.apd_cells.specs.Stored.{Stored, stored_code};
    ghost use Rattle.apd_past.specs.History.{at_moment};

    ghost Value = { Stored };

    ghost coded = { stored_code };

    ghost view = { λ t. at_moment t.moment.0 t.past.now };
}

impl Past {
    /// The past as it was at a moment.
    pub fn at(&self, moment: Moment) -> Then<'_>
        ensures { result ≡ at_moment moment.0 self.now }
    {
        Then { past: self, moment }
    }
}

impl<'a> Then<'a> {
    /// The symbol at a cell.
    pub fn symbol(&self, at: usize) -> Sym
        requires { at < length self.now.cells }
        ensures symbol { result ≡ symbol_at self.now at }
        ensures store { IsSound self.now }
        ensures fits { length self.now.cells < 2 ^ 64 }
    {
        let past = self.past;
        past.symbol(at)
    }

    /// The cell that a variable was bound to; none exactly where it was free.
    pub fn binding(&self, v: u64) -> Option<u32>
        ensures { MatchOption result
            (binding_of self.now.trail v ≡ Free)
            (λ c. binding_of self.now.trail v ≡ At c) }
    {
        let past = self.past;
        past.bound_at(self.moment, v)
    }

    /// The cell that a cell led to through variables that were bound.
    pub fn follow(&self, from: usize) -> usize
        requires { from < length self.now.cells }
        ensures inside { result < length self.now.cells }
        ensures same { term_at self.now result ≡ term_at self.now from }
        ensures end { IsEnd self.now result }
        ensures start { (result ≡ from) ⊎ IsVariable (symbol_at self.now from) }
        ensures store { IsSound self.now }
        ensures fits { length self.now.cells < 2 ^ 64 }
    {
        let mut at = from;
        'bindings: while let Sym::Var(v) = self.symbol(at) {
            match self.binding(v) {
                None => return at,
                Some(next) => at = next as usize,
            }
        }
        at
    }
}
