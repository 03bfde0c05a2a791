//! What was done to variables, and which of them are bound at present.

ghost use Rattle.std.specs.Prelude.{◌≡◌, ℕ, ◌+◌, List, [], ◌∷◌, ◌<◌, ◌≤◌, length, drop, MatchOption, OnOk, OnErr};
ghost use Rattle.std.specs.List.{flat_map};
ghost use Rattle.apd_term.specs.Spelling.{variable_in};
ghost use Rattle.apd_term.specs.declared.term.Sym.{Sym};
ghost use Rattle.apd_cells.specs.declared.heap.Binding.TheVariants.{Free, At};
ghost use Rattle.apd_cells.specs.declared.heap.TrailNote.TheVariants.{Bound};
ghost use Rattle.apd_cells.specs.Live.{store_of};
ghost use Rattle.apd_cells.specs.Store.{binding_of, MayBind};
ghost use Rattle.apd_past.specs.Done.{with_room, with_span, with_variables};
ghost use Rattle.apd_past.specs.Follows.{Follows, MayFollow};
ghost use Rattle.apd_past.specs.History.{bindings_at, bindings_of, freed, HasDoneMore, IsNewestBound, IsRight};

use crate::past::{Moment, narrow};
use crate::spans::Spans;
use apd_base::stack::Stack;
use apd_cells::heap::TrailNote;
use apd_cells::live::Live;
use apd_term::Sym;
use std::alloc::{AllocError, Global};
use std::marker::Model;

/// The bindings of variables, and those variables that are bound at present. Contracts see the former. Where a call answers an error,
/// it is want of memory, or there would be 2 ^ 32 variables or moments, or a variable be bound to a cell of such a number.
#[derive(Drop)]
pub struct Journal {
    spans: Spans,
    /// The variables that are bound at present, the newest first.
    bound: Stack<u32>,
}

impl Model for Journal {
    ghost use Rattle.apd_past.specs.Done.{Done, done_code};
    ghost use Rattle.apd_past.specs.History.{IsJournal};

    ghost Value = { Done };

    ghost coded = { done_code };

    ghost view = { λ j. j.spans };

    ghost invariant = { λ j. IsJournal j.spans j.bound };
}

impl Journal {
    /// No variable.
    pub fn new(alloc: Global) -> Journal
        ensures { result ≡ record { variables = 0; moments = 0; spans = [] } }
    {
        Journal {
            spans: Spans::new(alloc),
            bound: Stack::new(alloc),
        }
    }

    /// How many variables there are.
    pub fn variables(&self) -> usize
        ensures { result ≡ self.now.variables }
    {
        self.spans.variables()
    }

    /// The present moment.
    pub fn moment(&self) -> Moment
        ensures { result.0 ≡ self.now.moments }
    {
        Moment(self.spans.moments())
    }

    /// The variable that was bound last of those that are bound at present.
    pub fn newest(&self) -> Option<u64>
        ensures { MatchOption result
            (bindings_of self.now ≡ [])
            (λ v. IsNewestBound v (bindings_of self.now)) }
    {
        match self.bound.top() {
            None => None,
            Some(variable) => Some(*variable as u64),
        }
    }

    /// The cell that a variable was bound to at a moment; none exactly where it was free.
    pub fn to_at(&self, moment: Moment, v: u64) -> Option<u32>
        ensures { MatchOption result
            (binding_of (bindings_at moment.0 self.now.spans) v ≡ Free)
            (λ c. binding_of (bindings_at moment.0 self.now.spans) v ≡ At c) }
    {
        self.spans.to_at(v, moment.0)
    }

    /// Makes room for so many variables.
    pub fn make_room(&mut self, count: usize) -> Result<(), AllocError>
        ensures ok { OnOk result (self.new ≡ with_room self.old count) }
        ensures moments { self.new.moments ≡ self.old.moments }
        ensures spans { self.new.spans ≡ self.old.spans }
        ensures more { self.old.variables ≤ self.new.variables }
    {
        self.spans.make_room(count)
    }

    /// Makes room for the variables of symbols.
    pub fn add_variables(&mut self, symbols: &[Sym]) -> Result<(), AllocError>
        ensures ok { OnOk result
            (self.new ≡ with_variables self.old (flat_map variable_in symbols.now)) }
        ensures moments { self.new.moments ≡ self.old.moments }
        ensures spans { self.new.spans ≡ self.old.spans }
        ensures more { self.old.variables ≤ self.new.variables }
    {
        self.spans.add_variables(symbols)
    }

    /// A variable is bound to a cell.
    pub(crate) fn bind(&mut self, v: u64, to: usize) -> Result<(), AllocError>
        requires below { v < self.old.variables }
        requires free { binding_of (bindings_of self.old) v ≡ Free }
        ensures ok { OnOk result (self.new ≡ with_span self.old v to) }
        ensures bindings { OnOk result
            (bindings_of self.new ≡ Bound v to ∷ bindings_of self.old) }
        ensures right { OnOk result ((cells : List Sym) (n : ℕ) →
            MayBind cells n (bindings_of self.old) v to →
            IsRight cells n self.old.spans → IsRight cells n self.new.spans) }
        ensures err { OnErr result (self.new ≡ self.old) }
    {
        let variable = narrow(v)?;
        let cell = narrow(to as u64)?;
        self.bound.push(variable)?;
        if let Err(e) = self.spans.bind(variable, cell) {
            let _ = self.bound.pop();
            return Err(e);
        }
        Ok(())
    }

    /// Frees the variable that was bound last, if one is bound.
    pub fn unbind(&mut self) -> Result<(), AllocError>
        ensures ok { OnOk result (self.new ≡ freed self.old) }
        ensures bindings { OnOk result (bindings_of self.new ≡ drop 1 (bindings_of self.old)) }
        ensures right { (cells : List Sym) (n : ℕ) →
            IsRight cells n self.old.spans → IsRight cells n self.new.spans }
        ensures more { HasDoneMore self.old self.new }
        ensures err { OnErr result (self.new ≡ self.old) }
    {
        let Some(variable) = self.bound.top() else {
            return Ok(());
        };
        let variable = *variable;
        self.spans.free(variable)?;
        let _ = self.bound.pop();
        Ok(())
    }

    /// Does what the note at a place of a store's trail says.
    fn step(&mut self, live: &Live<'_>, at: usize) -> Result<(), AllocError>
        requires there { at < length live.now.notes.now }
        requires may { MayFollow self.old (store_of live.now) at }
        ensures may { OnOk result (MayFollow self.new (store_of live.now) (at + 1)) }
        ensures more { OnOk result (HasDoneMore self.old self.new) }
        ensures err { OnErr result (self.new ≡ self.old) }
    {
        match live.notes[at].get() {
            TrailNote::Bound(v, to) => self.bind(v, to),
            TrailNote::Loaded(..) => Ok(()),
        }
    }

    /// Does what a store's trail says from a place on, where it has done what it says before. After want of memory it has done
    /// a part of that.
    pub fn follow(&mut self, live: &Live<'_>, from: usize) -> Result<(), AllocError>
        requires { MayFollow self.old (store_of live.now) from }
        ensures follows { OnOk result (Follows self.new (store_of live.now)) }
        ensures right { IsRight live.now.cells.now self.new.variables self.new.spans }
        ensures more { HasDoneMore self.old self.new }
    {
        'notes: for at in from..live.notes.len() {
            self.step(live, at)?;
        }
        Ok(())
    }
}
