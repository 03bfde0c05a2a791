//! Terms as they were at a moment, written out with their variables numbered by first appearance.

ghost use Rattle.std.specs.Prelude.{◌≡◌, [], ◌<◌, length, IfOk};
ghost use Rattle.apd_term.specs.Canonical.{canonical};
ghost use Rattle.apd_term.specs.Tuple.{canonical_tuple};
ghost use Rattle.apd_past.specs.Tuples.{tuple_at, AreInside, IsNumbered};
ghost use Rattle.apd_cells.specs.Ordered.{Numbers, Writes};
ghost use Rattle.apd_cells.specs.Store.{term_at};

use crate::passing::pass;
use crate::past::PastCell;
use crate::then::Then;
use apd_base::stack::Stack;
use apd_cells::order::Order;
use apd_cells::walk::{Run, next_run};
use apd_term::{Atoms, Flat, Sym, Tuple};
use std::alloc::{AllocError, Global};
use std::marker::Model;

/// What terms are written out with, kept from term to term so that its memory is taken once. Clauses
/// see the variables that have numbers, in the order of these.
#[derive(Drop)]
pub struct Page {
    order: Order,
    runs: Stack<Run>,
    symbols: Vec<Sym>,
}

impl Model for Page {
    ghost use Rattle.std.specs.Prelude.{List, ℕ};

    ghost Value = { List ℕ };

    ghost view = { λ p. p.order };
}

impl Page {
    /// No variable has a number.
    pub fn new(alloc: Global) -> Page
        ensures { result ≡ [] }
    {
        Page {
            order: Order::new(alloc),
            runs: Stack::new(alloc),
            symbols: Vec::new(alloc),
        }
    }

    /// Forgets all numbers.
    pub fn clear(&mut self)
        ensures { self.new ≡ [] }
    {
        self.order.clear();
    }
}

/// Writes the symbols of the term at a cell, with the places of its variables in the order; false
/// exactly where it is over the limit. It passes at most one symbol more than that.
fn write_within(
    then: &Then<'_>,
    runs: &mut Stack<Run>,
    order: &mut Order,
    symbols: &mut Vec<Sym>,
    at: usize,
    limit: u64,
) -> Result<bool, AllocError>
    requires { at < length then.now.cells }
    ensures { IfOk result
        (λ b. Writes b order.old order.new (term_at then.now at) limit symbols.new.items) }
{
    runs.clear();
    symbols.clear();
    let mut here = Run { at, left: 1 };
    'symbols: while let Some(run) = next_run(runs, here) {
        let passed = pass(then, runs, run)?;
        if symbols.len() as u64 == limit {
            return Ok(false);
        }
        let placed = order.placed(passed.symbol)?;
        symbols.push(placed)?;
        here = passed.next;
    }
    Ok(true)
}

impl<'a> Then<'a> {
    /// The term at a cell, with all bindings of the moment applied and its variables numbered behind
    /// those that have numbers; none exactly where it is over the limit.
    pub fn number_within(
        &self,
        page: &mut Page,
        alloc: Global,
        cell: PastCell,
        limit: u64,
    ) -> Result<Option<Flat>, AllocError>
        requires { cell.0 < length self.now.cells }
        ensures { IfOk result (Numbers page.old page.new (term_at self.now cell.0) limit) }
    {
        let written = write_within(
            self,
            &mut page.runs,
            &mut page.order,
            &mut page.symbols,
            cell.0 as usize,
            limit,
        )?;
        if !written {
            return Ok(None);
        }
        let term = Flat::copy_of(alloc, page.symbols.as_slice())?;
        Ok(Some(term))
    }

    /// The term at a cell, with all bindings of the moment applied and its variables numbered behind those that have numbers.
    fn number(&self, page: &mut Page, alloc: Global, cell: PastCell) -> Result<Flat, AllocError>
        requires { cell.0 < length self.now.cells }
        ensures { IfOk result (IsNumbered page.old page.new (term_at self.now cell.0)) }
    {
        match self.number_within(page, alloc, cell, u64::MAX)? {
            Some(term) => Ok(term),
            None => Err(AllocError),
        }
    }

    /// The term at a cell, with all bindings of the moment applied, in canonical form.
    pub fn term(&self, page: &mut Page, alloc: Global, cell: PastCell) -> Result<Flat, AllocError>
        requires { cell.0 < length self.now.cells }
        ensures { IfOk result (λ t. t ≡ canonical (term_at self.now cell.0)) }
    {
        page.clear();
        self.number(page, alloc, cell)
    }

    /// The tuple of the terms at a head's cell and at goals' cells, with all bindings of the moment
    /// applied, in canonical form.
    pub fn tuple(
        &self,
        page: &mut Page,
        alloc: Global,
        head: PastCell,
        goals: &[PastCell],
    ) -> Result<Tuple, AllocError>
        requires head { head.0 < length self.now.cells }
        requires goals { AreInside (length self.now.cells) goals.now }
        ensures { IfOk result (λ t. t ≡ canonical_tuple (tuple_at self.now head.0 goals.now)) }
    {
        page.clear();
        let head = self.number(page, alloc, head)?;
        let mut body = Atoms::of_items(Vec::with_capacity(alloc, goals.len())?);
        'goals: for goal in goals {
            let atom = self.number(page, alloc, *goal)?;
            body.push(atom)?;
        }
        Ok(Tuple { head, body })
    }
}
