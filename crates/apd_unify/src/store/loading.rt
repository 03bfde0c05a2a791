//! Terms that are loaded into a store.

ghost use Rattle.std.specs.Prelude.{◌≡◌, ℕ, ◌<◌, ◌≤◌, ◌^◌, length, IfOk, OnOk, OnErr};
ghost use Rattle.apd_term.specs.Term.{integer, IsGround, Occurs};
ghost use Rattle.apd_term.specs.Canonical.{shifted};
ghost use Rattle.apd_cells.specs.Slots.{AreSlots};
ghost use Rattle.apd_cells.specs.Store.{term_at, under_bindings, loaded, Keeps};
ghost use Rattle.apd_unify.specs.Copies.{HasShared};
ghost use Rattle.apd_unify.specs.Heads.{HasBody, IsLoadedFor};

use super::{Cell, Store};
use crate::copies::Hint;
use crate::heads::load_part;
use apd_base::room::room_for;
use apd_cells::slots::Slot;
use apd_term::Flat;
use std::alloc::AllocError;

/// Keeps these hints alone.
#[inline(always)]
fn keep_hints(kept: &mut Vec<Hint>, hints: &[Hint]) -> Result<(), AllocError> {
    kept.clear();
    for hint in hints {
        kept.push(*hint)?;
    }
    Ok(())
}

impl Store {
    /// Loads a term, whose variables are the store's variables of these numbers. Memory is taken for all
    /// variables up to the greatest. All other cells keep their terms. After want of memory nothing
    /// has changed.
    pub fn load(&mut self, t: &Flat) -> Result<Cell, AllocError>
        requires { (v : ℕ) → Occurs v t.now → v < 2 ^ 64 }
        ensures ok { OnOk result (self.new ≡ loaded self.old t.now 0) }
        ensures cell { IfOk result (λ c. c.0 ≡ length self.old.cells) }
        ensures made { IfOk result
            (λ c. term_at self.new c.0 ≡ under_bindings self.old (shifted 0 t.now)) }
        ensures others { (c : ℕ) → c < length self.old.cells →
            term_at self.new c ≡ term_at self.old c }
        ensures kept { Keeps self.old self.new }
        ensures err { OnErr result (self.new ≡ self.old) }
    {
        let cell = self.heap.load(t, 0)?;
        Ok(Cell(cell))
    }

    /// Loads a term without variables and a variable that is bound to it, whose cell it tells. The term's size is counted
    /// once.
    pub fn share(&mut self, t: &Flat) -> Result<Cell, AllocError>
        requires { IsGround t.now }
        ensures shared { OnOk result (HasShared self.old self.new) }
        ensures kept { OnOk result (Keeps self.old self.new) }
    {
        let v = self.heap.variables() as u64;
        let variable = Flat::variable(self.alloc, v)?;
        let at = self.heap.load(&variable, 0)?;
        let to = self.heap.load(t, 0)?;
        self.heap.bind(v, to)?;
        self.measure(Cell(at), u64::MAX)?;
        Ok(Cell(at))
    }

    /// Of the clause's terms that are loaded next, and of its head, this is expected: where it is so, a term that stands in
    /// the store isn't copied.
    #[inline(always)]
    pub fn expect(&mut self, hints: &[Hint]) -> Result<(), AllocError>
        ensures { self.new ≡ self.old }
    {
        keep_hints(&mut self.solver.hints, hints)
    }

    /// Loads an integer. All other cells keep their terms. After want of memory nothing has changed.
    pub fn load_integer(&mut self, value: i64) -> Result<Cell, AllocError>
        ensures made { IfOk result (λ c. term_at self.new c.0 ≡ integer value) }
        ensures cell { IfOk result (λ c. c.0 ≡ length self.old.cells) }
        ensures there { IfOk result (λ c. c.0 < length self.new.cells) }
        ensures others { OnOk result ((c : ℕ) → c < length self.old.cells →
            term_at self.new c ≡ term_at self.old c) }
        ensures kept { Keeps self.old self.new }
        ensures cells { length self.old.cells ≤ length self.new.cells }
        ensures err { OnErr result (self.new ≡ self.old) }
    {
        let cell = self.heap.load_integer(value)?;
        Ok(Cell(cell))
    }

    /// Loads a term of the clause, with what stands for its variables in their places. After want of memory the store is
    /// as it was, and more may stand for variables than before.
    pub fn load_for(&mut self, t: &Flat, slots: &mut Vec<Slot>) -> Result<Cell, AllocError>
        requires { AreSlots self.old.cells self.old.variables slots.old.items }
        ensures ok { IfOk result
            (λ c. IsLoadedFor self.old self.new slots.old.items slots.new.items t.now c.0) }
        ensures kept { Keeps self.old self.new }
        ensures more { length self.old.cells ≤ length self.new.cells }
        ensures err { OnErr result (self.new ≡ self.old) }
    {
        let cell = load_part(&mut self.heap, &mut self.solver, slots, 0, t.symbols())?;
        Ok(Cell(cell))
    }

    /// Loads the goals of a clause at once, with what stands for its variables in their places, and leaves their cells alone
    /// in `cells`. After want of memory the store is as it was, and more may stand for variables than before.
    pub fn load_body(
        &mut self,
        body: &[Flat],
        slots: &mut Vec<Slot>,
        cells: &mut Vec<Cell>,
    ) -> Result<(), AllocError>
        requires { AreSlots self.old.cells self.old.variables slots.old.items }
        ensures loaded { OnOk result (HasBody self.old self.new
            slots.old.items slots.new.items body.now cells.new.items) }
        ensures kept { Keeps self.old self.new }
        ensures more { length self.old.cells ≤ length self.new.cells }
        ensures err { OnErr result (self.new ≡ self.old) }
    {
        cells.clear();
        if body.is_empty() {
            return Ok(());
        }
        room_for(cells, body.len())?;
        let first = self.heap.load_all(body, slots)?;
        let mut at = first;
        'goals: for goal in body {
            cells.push_reserved(Cell(at));
            at += goal.symbols().len();
        }
        Ok(())
    }
}
