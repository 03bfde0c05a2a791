//! Terms that are put behind the others.

ghost use Rattle.std.specs.Prelude.{◌≡◌, ℕ, ◌+◌, ◌<◌, ◌^◌, length, IfOk, OnOk, OnErr};
ghost use Rattle.apd_term.specs.Term.{IsWhole, Occurs, integer, term_of};
ghost use Rattle.apd_cells.specs.Slots.{AreSlots, HasLoaded, HasLoadedAll};
ghost use Rattle.apd_cells.specs.Store.{meaning, loaded, IsSound};
ghost use Rattle.apd_cells.specs.Stretches.{AreMeant, AreStretches};

use super::Heap;
use crate::front::Front;
use crate::kept::KeptNote;
use crate::slots::{Slot, Stretch, append_all, append_for};
use crate::symbols::append;
use apd_base::room::room_for_one;
use apd_term::{Flat, Sym};
use std::alloc::AllocError;

impl Heap {
    /// Puts a term behind the others, its variables raised by `base`. After want of memory nothing has changed.
    pub fn load(&mut self, t: &Flat, base: u64) -> Result<usize, AllocError>
        requires { (v : ℕ) → Occurs v t.now → base + v < 2 ^ 64 }
        ensures cell { IfOk result (λ c. c ≡ length self.old.cells) }
        ensures ok { OnOk result (self.new ≡ loaded self.old t.now base) }
        ensures store { IsSound self.old }
        ensures err { OnErr result (self.new ≡ self.old) }
    {
        let cells = self.cells.len();
        let variables = self.bindings.len();
        let note = KeptNote::loaded(cells, variables)?;
        self.trail.push(note)?;
        if let Err(e) = append(&mut self.cells, &mut self.bindings, t, base) {
            self.cells.truncate(cells);
            self.bindings.truncate(variables);
            let _ = self.trail.pop();
            return Err(e);
        }
        self.front = Front { cells, variables };
        self.longest = self.longest.max(self.cells.len() - cells);
        Ok(cells)
    }

    /// Loads a term of a clause by slots and stretches. After want of memory nothing has changed but slots.
    pub fn load_for(
        &mut self,
        symbols: &[Sym],
        slots: &mut Vec<Slot>,
        copied: &[Stretch],
    ) -> Result<usize, AllocError>
        requires whole { IsWhole symbols.now }
        requires slots { AreSlots self.old.cells self.old.variables slots.old.items }
        requires stretches { AreStretches symbols.now copied.now }
        requires meant { AreMeant (meaning self.old.cells self.old.trail) symbols.now copied.now }
        ensures cell { IfOk result (λ c. c ≡ length self.old.cells) }
        ensures ok { OnOk result
            (HasLoaded self.old self.new slots.old.items slots.new.items (term_of symbols.now)) }
        ensures store { IsSound self.old }
        ensures err { OnErr result (self.new ≡ self.old) }
    {
        let cells = self.cells.len();
        let variables = self.bindings.len();
        let note = KeptNote::loaded(cells, variables)?;
        self.trail.push(note)?;
        if let Err(e) = append_for(&mut self.cells, &mut self.bindings, slots, symbols, copied) {
            self.cells.truncate(cells);
            self.bindings.truncate(variables);
            let _ = self.trail.pop();
            return Err(e);
        }
        self.front = Front { cells, variables };
        self.longest = self.longest.max(self.cells.len() - cells);
        Ok(cells)
    }

    /// Loads terms of a clause by slots, one behind the other and with one note. After want of memory nothing has changed but
    /// slots.
    pub fn load_all(&mut self, terms: &[Flat], slots: &mut Vec<Slot>) -> Result<usize, AllocError>
        requires { AreSlots self.old.cells self.old.variables slots.old.items }
        ensures cell { IfOk result (λ c. c ≡ length self.old.cells) }
        ensures ok { OnOk result
            (HasLoadedAll self.old self.new slots.old.items slots.new.items terms.now) }
        ensures store { IsSound self.old }
        ensures fits { OnOk result (length self.new.cells < 2 ^ 64) }
        ensures err { OnErr result (self.new ≡ self.old) }
    {
        let cells = self.cells.len();
        let variables = self.bindings.len();
        let note = KeptNote::loaded(cells, variables)?;
        self.trail.push(note)?;
        if let Err(e) = append_all(&mut self.cells, &mut self.bindings, slots, terms) {
            self.cells.truncate(cells);
            self.bindings.truncate(variables);
            let _ = self.trail.pop();
            return Err(e);
        }
        self.front = Front { cells, variables };
        self.longest = self.longest.max(self.cells.len() - cells);
        Ok(cells)
    }

    /// Loads an integer. After want of memory nothing has changed.
    pub fn load_integer(&mut self, value: i64) -> Result<usize, AllocError>
        ensures cell { IfOk result (λ c. c ≡ length self.old.cells) }
        ensures ok { OnOk result (self.new ≡ loaded self.old (integer value) 0) }
        ensures store { IsSound self.old }
        ensures err { OnErr result (self.new ≡ self.old) }
    {
        let cells = self.cells.len();
        let variables = self.bindings.len();
        let note = KeptNote::loaded(cells, variables)?;
        self.trail.push(note)?;
        if let Err(e) = room_for_one(&mut self.cells) {
            let _ = self.trail.pop();
            return Err(e);
        }
        self.cells.push_reserved(Sym::Int(value));
        self.front = Front { cells, variables };
        self.longest = self.longest.max(1);
        Ok(cells)
    }
}
