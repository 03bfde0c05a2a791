//! The store: terms in cells, which unification binds and which can be taken back.

ghost use Rattle.std.specs.Prelude.{◌≡◌, ℕ, ◌<◌, ◌≤◌, ◌^◌, [], length, IfOk, MatchBool, OnOk};
ghost use Rattle.std.specs.Bool.{OnTrue};
ghost use Rattle.apd_term.specs.Term.{arguments, IsGround, size};
ghost use Rattle.apd_cells.specs.First.{key_of, first_symbol};
ghost use Rattle.apd_cells.specs.Live.{store_of};
ghost use Rattle.apd_cells.specs.Numbered.{IsNumbered};
ghost use Rattle.apd_cells.specs.Ordered.{Numbers};
ghost use Rattle.apd_cells.specs.Store.{term_at, binding_of, at_mark, Keeps, IsSound, SizeWithin};
ghost use Rattle.apd_cells.specs.Undone.{IsFront, undone};
ghost use Rattle.apd_cells.specs.declared.heap.Binding.TheVariants.{Free};
ghost use Rattle.apd_resolved.specs.Counting.{MeasuredWithin};
ghost use Rattle.apd_unify.specs.Arguments.{HasOne, HasTwo};
ghost use Rattle.apd_unify.specs.Heads.{HasGoneOn, Matches};
ghost use Rattle.apd_unify.specs.Unified.{IsUnification};

mod loading;

use crate::arguments::{only_argument, two_arguments};
use crate::heads::{Solver, unify_head};
use crate::scratch::{Scratch, numbered_within};
use crate::unify::unify;
use apd_base::stack::Stack;
use apd_cells::first::{first_symbol, key_at};
use apd_cells::front::{Front, NO_FRONT};
use apd_cells::heap::Heap;
use apd_cells::known::Extent;
use apd_cells::live::Live;
use apd_cells::slots::Slot;
use apd_cells::walk::Run;
use apd_resolved::counting::measured_within;
use apd_resolved::reading::{Looking, is_ground_within, resolved, size_within};
use apd_term::{Flat, Sym};
use std::alloc::{AllocError, Global};
use std::marker::Model;

/// The place of a term in a store.
#[derive(Clone, Copy)]
pub struct Cell(pub usize);

/// A place in a store's trail: how many notes stand before it.
#[derive(Clone, Copy)]
pub struct Mark(pub usize);

/// Terms in cells, with their bindings and a trail. Where a call answers an error, it is want of
/// memory.
#[derive(Drop)]
pub struct Store {
    heap: Heap,
    solver: Solver,
    runs: Stack<Run>,
    alloc: Global,
}

impl Model for Store {
    ghost use Rattle.apd_cells.specs.Stored.{Stored, stored_code};

    ghost Value = { Stored };

    ghost coded = { stored_code };

    ghost view = { λ s. s.heap };
}

impl Store {
    /// The store without a term.
    pub fn new(alloc: Global) -> Store
        ensures { result ≡ record { cells = []; variables = 0; trail = [] } }
    {
        Store {
            heap: Heap::new(alloc),
            solver: Solver {
                looking: Looking::new(alloc),
                pairs: Stack::new(alloc),
                hints: Vec::new(alloc),
                copied: Vec::new(alloc),
            },
            runs: Stack::new(alloc),
            alloc,
        }
    }

    /// Applies a most general unifier of the terms at two cells to the terms of all cells; false
    /// exactly where they have none. After false or want of memory some variables may be bound.
    pub fn unify(&mut self, a: Cell, b: Cell) -> Result<bool, AllocError>
        requires a { a.0 < length self.old.cells }
        requires b { b.0 < length self.old.cells }
        ensures answer { IfOk result (λ r. IsUnification r self.old self.new a.0 b.0) }
        ensures cells { self.new.cells ≡ self.old.cells }
        ensures kept { Keeps self.old self.new }
    {
        unify(
            &mut self.heap,
            &mut self.solver.looking,
            &mut self.solver.pairs,
            a.0,
            b.0,
        )
    }

    /// Applies a most general unifier of the term at a cell and the head of a clause, whose variables are none of the
    /// store's, to the terms of all cells, and tells what stands for the clause's variables then; false exactly where they
    /// have none. Of the head are loaded only subterms that meet a free variable of the goal, and variables that first meet
    /// a term with arguments. After false or want of memory more terms may be there, and some variables may be bound.
    pub fn unify_head(
        &mut self,
        goal: Cell,
        head: &Flat,
        slots: &mut Vec<Slot>,
    ) -> Result<bool, AllocError>
        requires { goal.0 < length self.old.cells }
        ensures answer { IfOk result
            (λ r. Matches r self.old self.new [] slots.new.items goal.0 head.now) }
        ensures gone { OnOk result (HasGoneOn self.old self.new [] slots.new.items) }
        ensures sound { IsSound self.old }
        ensures kept { Keeps self.old self.new }
        ensures more { length self.old.cells ≤ length self.new.cells }
    {
        let _variables = self.heap.variables();
        unify_head(
            &mut self.heap,
            &mut self.solver,
            &mut self.runs,
            slots,
            goal.0,
            head,
        )
    }

    /// How many cells there are.
    pub fn cells(&self) -> usize
        ensures { result ≡ length self.now.cells }
    {
        self.heap.cells()
    }

    /// How many variables there are: a number above those of all terms.
    pub fn variables(&self) -> usize
        ensures count { result ≡ self.now.variables }
        ensures room { result < 2 ^ 63 }
        ensures numbered { IsNumbered self.now }
    {
        self.heap.variables()
    }

    /// Its parts, to be read.
    pub fn live(&self) -> Live<'_>
        ensures parts { store_of result ≡ self.now }
        ensures sound { IsSound self.now }
    {
        self.heap.live()
    }

    /// What the first argument of the term at a cell begins with; a variable where it has none.
    pub fn key(&self, cell: Cell) -> Sym
        requires { cell.0 < length self.now.cells }
        ensures { result ≡ key_of (term_at self.now cell.0) }
    {
        key_at(&self.heap, cell.0)
    }

    /// The first symbol of the term at a cell.
    pub fn symbol(&self, cell: Cell) -> Sym
        requires { cell.0 < length self.now.cells }
        ensures { result ≡ first_symbol (term_at self.now cell.0) }
    {
        first_symbol(&self.heap, cell.0)
    }

    /// The cell of the argument of a term that has one.
    pub fn only_argument(&self, cell: Cell) -> Cell
        requires inside { cell.0 < length self.now.cells }
        requires one { length (arguments (term_at self.now cell.0)) ≡ 1 }
        ensures { HasOne self.now cell.0 result.0 }
    {
        Cell(only_argument(&self.heap, cell.0))
    }

    /// The cells of the arguments of a term that has two.
    #[inline(always)]
    pub fn two_arguments(&self, cell: Cell) -> (Cell, Cell)
        requires inside { cell.0 < length self.now.cells }
        requires two { length (arguments (term_at self.now cell.0)) ≡ 2 }
        ensures { HasTwo self.now cell.0 result.0.0 result.1.0 }
    {
        let (first, second) = two_arguments(&self.heap, cell.0);
        (Cell(first), Cell(second))
    }

    /// Where the trail ends.
    pub fn mark(&self) -> Mark
        ensures { result.0 ≡ length self.now.trail }
    {
        Mark(self.heap.mark())
    }

    /// Gives the store at a mark back, so that every cell is as it was there.
    #[inline(always)]
    pub fn undo(&mut self, mark: Mark)
        requires { mark.0 ≤ length self.old.trail }
        ensures { self.new ≡ at_mark mark.0 self.old }
    {
        // It tells that the store is sound.
        let _variables = self.heap.variables();
        self.heap.undo(mark.0, NO_FRONT);
    }

    /// The same, but for a front of the cells: these stay, and so do their variables.
    pub fn go_back(&mut self, mark: Mark, kept: Front)
        requires there { mark.0 ≤ length self.old.trail }
        requires front { IsFront kept self.old.cells }
        ensures undone { self.new ≡ undone kept mark.0 self.old }
        ensures sound { IsSound self.old }
    {
        // It tells that the store is sound.
        let _variables = self.heap.variables();
        self.heap.undo(mark.0, kept);
    }

    /// Whether a variable is free.
    pub fn is_free(&self, v: u64) -> bool
        ensures { MatchBool result
            (binding_of self.now.trail v ≡ Free)
            (¬ (binding_of self.now.trail v ≡ Free)) }
    {
        match self.heap.bound_to(v) {
            None => true,
            Some(_) => false,
        }
    }

    /// Its cells. The rest is given up.
    pub fn into_cells(self) -> Vec<Sym>
        ensures { result.items ≡ self.cells }
    {
        self.heap.into_cells()
    }

    /// The size of the term at a cell; none exactly where it is over the limit.
    pub fn size_within(&self, cell: Cell, limit: u64) -> Result<Option<u64>, AllocError>
        requires { cell.0 < length self.now.cells }
        ensures { IfOk result (SizeWithin (term_at self.now cell.0) limit) }
    {
        size_within(&self.heap, self.alloc, cell.0, limit)
    }

    /// Whether no variable stands in the term at a cell. False says nothing; it comes where the term's size is
    /// over the limit too.
    pub fn is_ground_within(&self, cell: Cell, limit: u64) -> Result<bool, AllocError>
        requires { cell.0 < length self.now.cells }
        ensures { IfOk result (λ b. OnTrue b (IsGround (term_at self.now cell.0))) }
    {
        is_ground_within(&self.heap, self.alloc, cell.0, limit)
    }

    /// The extent of the term at a cell; none exactly where its size is over the limit. What is counted of long terms
    /// is kept, so that later counts needn't pass them.
    #[inline(always)]
    pub fn measure(&mut self, cell: Cell, limit: u64) -> Result<Option<Extent>, AllocError>
        requires { cell.0 < length self.old.cells }
        ensures extent { IfOk result (MeasuredWithin self.old cell.0 limit) }
        ensures same { self.new ≡ self.old }
    {
        measured_within(&mut self.heap, self.alloc, cell.0, limit)
    }

    /// Whether no cell's term has more symbols than this; false says nothing.
    pub fn are_within(&self, most: usize) -> bool
        ensures { OnTrue result
            ((c : ℕ) → c < length self.now.cells → size (term_at self.now c) ≤ most) }
    {
        self.heap.are_within(most)
    }

    /// The term at a cell, with all bindings applied and its variables numbered behind those that
    /// have numbers; none exactly where it is over the limit.
    pub fn number_within(
        &self,
        scratch: &mut Scratch,
        cell: Cell,
        limit: u64,
    ) -> Result<Option<Flat>, AllocError>
        requires { cell.0 < length self.now.cells }
        ensures { IfOk result (Numbers scratch.old scratch.new (term_at self.now cell.0) limit) }
    {
        numbered_within(&self.heap, scratch, self.alloc, cell.0, limit)
    }

    /// The term at a cell, with all bindings applied.
    pub fn resolve(&self, cell: Cell) -> Result<Flat, AllocError>
        requires { cell.0 < length self.now.cells }
        ensures { IfOk result (λ t. t ≡ term_at self.now cell.0) }
    {
        resolved(&self.heap, self.alloc, cell.0)
    }
}
