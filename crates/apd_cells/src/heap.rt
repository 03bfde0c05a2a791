//! Cells, bindings and the trail.

ghost use Rattle.std.specs.Prelude.{◌≡◌, ℕ, ◌+◌, ◌<◌, ◌≤◌, ◌^◌, ◌⊎◌, [], length, min, max, IfSome, OnOk, OnErr, MatchOption};
ghost use Rattle.std.specs.Bool.{OnTrue};
ghost use Rattle.apd_term.specs.Term.{Occurs, size, spell};
ghost use Rattle.apd_term.specs.declared.term.Sym.TheVariants.{Var};
ghost use Rattle.apd_cells.specs.Known.{HasExtent};
ghost use Rattle.apd_cells.specs.Heap.{IsVariable};
ghost use Rattle.apd_cells.specs.Live.{store_of};
ghost use Rattle.apd_cells.specs.Undone.{undone, without_note, IsFront};
ghost use Rattle.apd_cells.specs.declared.heap.Binding.TheVariants.{Free, At};
ghost use Rattle.apd_cells.specs.Store.{term_at, written, symbol_at, binding_of, MayBind, bound, IsSound, IsEnd, IsTwin};

mod loading;

use crate::extents::Extents;
use crate::front::{Front, NO_FRONT, above_term};
use crate::kept::{KeptBinding, KeptNote};
use crate::known::Extent;
use crate::live::Live;
use crate::symbols::{compound_at, constant_at};
use apd_base::stack::Stack;
use apd_term::Sym;
use apd_term::term::term_end;
use std::alloc::{AllocError, Global};
use std::marker::Model;

/// What a variable is bound to.
#[derive(Clone, Copy)]
pub enum Binding {
    Free,
    /// The term at a cell.
    At(usize),
}

/// A note of the trail.
#[derive(Clone, Copy)]
pub enum TrailNote {
    /// Terms were loaded where so many cells and so many variables were.
    Loaded(usize, usize),
    /// A variable was bound to a cell.
    Bound(u64, usize),
}

/// Terms in cells, with their bindings. An error is want of memory, or there would be 2 ^ 31 cells or variables.
#[derive(Drop)]
pub struct Heap {
    cells: Vec<Sym>,
    bindings: Vec<KeptBinding>,
    trail: Stack<KeptNote>,
    /// No binding's term has a variable from this number on.
    touched: usize,
    /// A front of the cells: those before the newest load, or none.
    front: Front,
    /// How many bindings lead to a term that has arguments.
    compounds: usize,
    /// No term that is written has more symbols.
    longest: usize,
    /// What is known of the sizes of terms.
    sizes: Extents,
}

impl Model for Heap {
    ghost use Rattle.std.specs.Prelude.{length, ◌≡◌};
    ghost use Rattle.apd_cells.specs.Flat.{compound_count, AreShort};
    ghost use Rattle.apd_cells.specs.Stored.{Stored, stored_code};
    ghost use Rattle.apd_cells.specs.Heap.{IsHeap, IsMarked};
    ghost use Rattle.apd_cells.specs.Known.{IsSized};

    ghost Value = { Stored };

    ghost coded = { stored_code };

    ghost view = { λ h. record { cells = h.cells.items; variables = length h.bindings.items; trail = h.trail } };

    ghost invariant = { λ h. IsHeap h.cells.items h.bindings.items h.trail × IsMarked h.cells.items h.trail h.touched h.front × (h.compounds ≡ compound_count h.cells.items h.trail) × AreShort h.cells.items h.longest × IsSized (record { cells = h.cells.items; variables = length h.bindings.items; trail = h.trail }) h.sizes };
}

impl Heap {
    /// No term.
    pub fn new(alloc: Global) -> Heap
        ensures { result ≡ record { cells = []; variables = 0; trail = [] } }
    {
        Heap {
            cells: Vec::new(alloc),
            bindings: Vec::new(alloc),
            trail: Stack::new(alloc),
            touched: 0,
            front: NO_FRONT,
            compounds: 0,
            longest: 0,
            sizes: Extents::new(alloc),
        }
    }

    /// How many cells there are.
    pub fn cells(&self) -> usize
        ensures { result ≡ length self.now.cells }
    {
        self.cells.len()
    }

    /// How many variables there are.
    pub fn variables(&self) -> usize
        ensures count { result ≡ self.now.variables }
        ensures room { result < 2 ^ 63 }
        ensures store { IsSound self.now }
    {
        self.bindings.len()
    }

    /// Its parts, to be read.
    pub fn live(&self) -> Live<'_>
        ensures parts { store_of result ≡ self.now }
        ensures store { IsSound self.now }
    {
        Live {
            cells: self.cells.as_slice(),
            notes: self.trail.as_slice(),
            variables: self.bindings.len(),
        }
    }

    /// Its cells. The rest is given up.
    pub fn into_cells(self) -> Vec<Sym>
        ensures { result.items ≡ self.cells }
    {
        self.cells
    }

    /// The symbol at a cell.
    pub fn symbol(&self, at: usize) -> Sym
        requires { at < length self.now.cells }
        ensures symbol { result ≡ symbol_at self.now at }
        ensures store { IsSound self.now }
    {
        self.cells[at]
    }

    /// Whether the variable that is written at a cell is written at the next one again.
    pub fn is_twin(&self, at: usize) -> bool
        requires { at + 1 < length self.now.cells }
        ensures twin { OnTrue result (IsTwin self.now at) }
        ensures store { IsSound self.now }
        ensures fits { length self.now.cells < 2 ^ 64 }
    {
        match self.cells[at] {
            Sym::Var(v) => self.cells[at + 1] == Sym::Var(v),
            _ => false,
        }
    }

    /// The cell that a cell leads to through variables that are bound.
    #[inline(always)]
    pub fn follow(&self, from: usize) -> usize
        requires { from < length self.now.cells }
        ensures inside { result < length self.now.cells }
        ensures same { term_at self.now result ≡ term_at self.now from }
        ensures end { IsEnd self.now result }
        ensures start { (result ≡ from) ⊎ IsVariable (symbol_at self.now from) }
        ensures store { IsSound self.now }
        ensures fits { length self.now.cells < 2 ^ 64 }
    {
        let mut at = from;
        'bindings: while let Sym::Var(v) = self.cells[at] {
            match self.bindings[v as usize].get() {
                Binding::Free => return at,
                Binding::At(next) => at = next,
            }
        }
        at
    }

    /// The cell behind the term that is written at a cell.
    pub fn end(&self, at: usize) -> usize
        requires { at < length self.now.cells }
        ensures end { result ≡ at + size (written self.now.cells at) }
        ensures store { IsSound self.now }
    {
        term_end(self.cells.as_slice(), at)
    }

    /// The symbols of the term that is written at a cell.
    pub fn written(&self, at: usize) -> &[Sym]
        requires { at < length self.now.cells }
        ensures symbols { result.now ≡ spell (written self.now.cells at) }
        ensures store { IsSound self.now }
    {
        let cells = self.cells.as_slice();
        let end = term_end(cells, at);
        &cells[at..end]
    }

    /// The cell that a variable is bound to; none where it is free.
    pub fn bound_to(&self, v: u64) -> Option<usize>
        ensures { MatchOption result
            (binding_of self.now.trail v ≡ Free)
            (λ c. (c < length self.now.cells) × (binding_of self.now.trail v ≡ At c)) }
    {
        if v as usize >= self.bindings.len() {
            return None;
        }
        match self.bindings[v as usize].get() {
            Binding::Free => None,
            Binding::At(to) => Some(to),
        }
    }

    /// Whether no binding leads to a term with arguments: then bindings leave sizes as they are. False says nothing.
    pub fn is_flat(&self) -> bool
        ensures { OnTrue result ((c : ℕ) → size (term_at self.now c) ≡
            size (written self.now.cells c)) }
    {
        if self.compounds > 0 {
            return false;
        }
        true
    }

    /// Whether no term has more symbols than this, with all bindings applied. False says nothing.
    pub fn are_within(&self, most: usize) -> bool
        ensures { OnTrue result
            ((c : ℕ) → c < length self.now.cells → size (term_at self.now c) ≤ most) }
    {
        if self.longest > most {
            return false;
        }
        self.is_flat()
    }

    /// Whether a constant is at the cell, or the variable is too new to stand in the term there; false says nothing.
    pub fn is_apart(&self, v: u64, at: usize) -> bool
        requires { at < length self.now.cells }
        ensures { OnTrue result (¬ Occurs v (term_at self.now at)) }
    {
        if constant_at(self.cells.as_slice(), at) {
            return true;
        }
        if at >= self.front.cells || v < self.front.variables as u64 || v < self.touched as u64 {
            return false;
        }
        true
    }

    /// The extent of the term at a cell, where it is known; none says nothing.
    #[inline(always)]
    pub fn known(&self, at: usize) -> Option<Extent>
        ensures { IfSome result (HasExtent self.now at) }
    {
        self.sizes.known(at)
    }

    /// The extent of the term at a cell, where it was measured lately; none says nothing.
    #[inline(always)]
    pub fn recalled(&self, at: usize) -> Option<Extent>
        ensures { IfSome result (HasExtent self.now at) }
    {
        self.sizes.recalled(at)
    }

    /// Notes the extent of a term that was measured.
    #[inline(always)]
    pub fn remember(&mut self, at: usize, extent: Extent) -> Result<(), AllocError>
        requires { HasExtent self.old at extent }
        ensures { self.new ≡ self.old }
    {
        let since = self.trail.len();
        self.sizes.remember(at, extent, since)
    }

    /// Keeps the extent of the term at a cell, or nothing.
    pub fn keep(&mut self, at: usize, extent: Extent) -> Result<(), AllocError>
        requires { HasExtent self.old at extent }
        ensures { self.new ≡ self.old }
    {
        let since = self.trail.len();
        self.sizes.keep(at, extent, since)
    }

    /// Binds a free variable to the term at a cell.
    pub fn bind(&mut self, v: u64, to: usize) -> Result<(), AllocError>
        requires { MayBind self.old.cells self.old.variables self.old.trail v to }
        ensures ok { OnOk result (self.new ≡ bound self.old v to) }
        ensures err { OnErr result (self.new ≡ self.old) }
    {
        let count = self.bindings.len();
        let above = above_term(self.front, to, count);
        let compound = compound_at(self.cells.as_slice(), to);
        let note = KeptNote::bound(v, to)?;
        self.trail.push(note)?;
        let _notes = self.trail.len();
        self.bindings[v as usize] = KeptBinding::at(to);
        self.compounds += compound;
        self.touched = self.touched.max(above);
        self.sizes.forget_bound(self.cells.as_slice(), v, to);
        Ok(())
    }

    /// How many notes the trail has.
    pub fn mark(&self) -> usize
        ensures { result ≡ length self.now.trail }
    {
        self.trail.len()
    }

    /// Takes back what the newest note says, but for a front of the cells.
    fn undo_note(&mut self, kept: Front)
        requires { IsFront kept self.old.cells }
        ensures { self.new ≡ without_note kept self.old.cells self.old.variables self.old.trail }
    {
        let notes = self.trail.len();
        self.sizes.forget_since_note(notes);
        let Some(newest) = self.trail.pop() else {
            return;
        };
        match newest.get() {
            TrailNote::Loaded(cells, variables) => {
                let least_cells = cells.max(kept.cells);
                let least_variables = variables.max(kept.variables);
                self.cells.truncate(least_cells);
                self.bindings.truncate(least_variables);
                self.front = NO_FRONT;
                self.touched = self.touched.min(variables);
            }
            TrailNote::Bound(v, to) => {
                self.bindings[v as usize] = KeptBinding::free();
                self.compounds -= compound_at(self.cells.as_slice(), to);
            }
        }
    }

    /// Takes back all that was done since the trail had so many notes, but for a front of the cells and their variables.
    #[inline(always)]
    pub fn undo(&mut self, mark: usize, kept: Front)
        requires there { mark ≤ length self.old.trail }
        requires front { IsFront kept self.old.cells }
        ensures { self.new ≡ undone kept mark self.old }
    {
        'notes: while self.trail.len() > mark {
            self.undo_note(kept);
        }
    }
}
