//! Terms that are written out with their variables numbered by first appearance.

ghost use Rattle.std.specs.Prelude.{◌≡◌, [], ◌<◌, length, IfOk};
ghost use Rattle.apd_cells.specs.Ordered.{Numbers, Writes};
ghost use Rattle.apd_cells.specs.Store.{term_at};

use apd_base::stack::Stack;
use apd_cells::heap::Heap;
use apd_cells::order::Order;
use apd_cells::walk::{Run, next_run, pass};
use apd_term::{Flat, Sym, Syms};
use std::alloc::{AllocError, Global};
use std::marker::Model;
use std::mem::replace;

/// Room for so many symbols is taken before a term is written, so that most are written without asking for more.
const ROOM: usize = 64;

/// What terms are written out with, kept from term to term so that its memory is taken once. Clauses
/// see the variables that have numbers, in the order of these.
#[derive(Drop)]
pub struct Scratch {
    order: Order,
    runs: Stack<Run>,
    /// The room of a term that was given up: the next term is written there.
    room: Vec<Sym>,
}

impl Model for Scratch {
    ghost use Rattle.std.specs.Prelude.{List, ℕ};

    ghost Value = { List ℕ };

    ghost view = { λ s. s.order };
}

impl Scratch {
    /// No variable has a number.
    pub fn new(alloc: Global) -> Scratch
        ensures { result ≡ [] }
    {
        Scratch {
            order: Order::new(alloc),
            runs: Stack::new(alloc),
            room: Vec::new(alloc),
        }
    }

    /// Forgets all numbers.
    pub fn clear(&mut self)
        ensures { self.new ≡ [] }
    {
        self.order.clear();
    }

    /// Room for symbols: that of a term that was given up, where there is one.
    #[inline(always)]
    fn take_room(&mut self, alloc: Global) -> Result<Vec<Sym>, AllocError>
        ensures { self.new ≡ self.old }
    {
        if self.room.capacity() == 0 {
            return Vec::with_capacity(alloc, ROOM);
        }
        Ok(replace(&mut self.room, Vec::new(alloc)))
    }

    /// Gives up a term that isn't needed any more: the next one is written in its room.
    pub fn give_up(&mut self, term: Flat)
        ensures { self.new ≡ self.old }
    {
        drop(replace(&mut self.room, term.into_symbols()));
    }
}

/// Writes the symbols of the term at a cell, with the places of its variables in the order; false
/// exactly where it is over the limit. It passes at most one symbol more than that.
#[inline(always)]
fn write_within(
    heap: &Heap,
    runs: &mut Stack<Run>,
    order: &mut Order,
    symbols: &mut Vec<Sym>,
    at: usize,
    limit: u64,
) -> Result<bool, AllocError>
    requires { at < length heap.now.cells }
    ensures { IfOk result
        (λ b. Writes b order.old order.new (term_at heap.now at) limit symbols.new.items) }
{
    runs.clear();
    symbols.clear();
    let mut here = Run { at, left: 1 };
    'symbols: while let Some(run) = next_run(runs, here) {
        let passed = pass(heap, runs, run)?;
        if symbols.len() as u64 == limit {
            return Ok(false);
        }
        let placed = order.placed(passed.symbol)?;
        symbols.push(placed)?;
        here = passed.next;
    }
    Ok(true)
}

/// The term at a cell with its variables numbered behind those that have numbers; none exactly where
/// it is over the limit.
pub fn numbered_within(
    heap: &Heap,
    scratch: &mut Scratch,
    alloc: Global,
    at: usize,
    limit: u64,
) -> Result<Option<Flat>, AllocError>
    requires { at < length heap.now.cells }
    ensures { IfOk result (Numbers scratch.old scratch.new (term_at heap.now at) limit) }
{
    let mut symbols = scratch.take_room(alloc)?;
    let written = write_within(
        heap,
        &mut scratch.runs,
        &mut scratch.order,
        &mut symbols,
        at,
        limit,
    )?;
    if !written {
        return Ok(None);
    }
    Ok(Some(Flat::of_symbols(Syms::of_items(symbols))))
}
