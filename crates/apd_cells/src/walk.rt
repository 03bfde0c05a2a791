//! A walk over the symbols of a term, with all bindings applied.

ghost use Rattle.std.specs.Prelude.{◌≡◌, ◌∷◌, ◌<◌, ◌^◌, length, IfOk, OnOk};
ghost use Rattle.apd_term.specs.Term.{arity_of, spell};
ghost use Rattle.apd_cells.specs.Store.{term_at};
ghost use Rattle.apd_cells.specs.Work.{AreRuns, IsWalk, Leads, walk_symbols, Passes, PassesOn, GoesTo, HasSameVariables};

use crate::heap::Heap;
use apd_base::stack::Stack;
use apd_term::Sym;
use std::alloc::{AllocError, Global};

/// Terms that are written one after another: the cell of the first, and how many they are.
#[derive(Clone, Copy)]
pub struct Run {
    pub at: usize,
    pub left: usize,
}

/// The terms that are still to be passed: those of the run that the walk is in, and then those of
/// the others, the newest first.
#[derive(Drop)]
pub struct Walk {
    pub at: usize,
    pub left: usize,
    pub rest: Stack<Run>,
}

/// What a walk has passed: a symbol, and the run that it is in then.
#[derive(Clone, Copy)]
pub struct Passed {
    pub symbol: Sym,
    pub next: Run,
}

/// How many terms stand under a symbol.
pub fn arity_of(symbol: Sym) -> usize
    ensures { result ≡ arity_of symbol }
{
    match symbol {
        Sym::Fun(_, arity) => arity as usize,
        _ => 0,
    }
}

/// Goes on to a waiting run where this one is done.
#[inline(always)]
pub fn next_run(rest: &mut Stack<Run>, here: Run) -> Option<Run>
    ensures { GoesTo here rest.old result rest.new }
{
    let mut next = here;
    'done: while next.left == 0 {
        match rest.pop() {
            None => return None,
            Some(waiting) => next = waiting,
        }
    }
    Some(next)
}

/// Passes the first symbol of a run, whose first cell leads to this one.
#[inline(always)]
pub fn pass_from(
    heap: &Heap,
    rest: &mut Stack<Run>,
    here: Run,
    at: usize,
) -> Result<Passed, AllocError>
    requires right { AreRuns heap.now.cells (here ∷ rest.old) }
    requires some { 0 < here.left }
    requires leads { Leads heap.now here.at at }
    requires fits { length heap.now.cells < 2 ^ 64 }
    ensures { IfOk result
        (λ p. PassesOn heap.now (here ∷ rest.old) p.symbol (p.next ∷ rest.new)) }
{
    let symbol = heap.symbol(at);
    let arity = arity_of(symbol);
    if at == here.at || arity == 0 {
        let next = Run {
            at: here.at + 1,
            left: here.left - 1 + arity,
        };
        return Ok(Passed { symbol, next });
    }
    if here.left > 1 {
        rest.push(Run {
            at: here.at + 1,
            left: here.left - 1,
        })?;
    }
    let next = Run {
        at: at + 1,
        left: arity,
    };
    Ok(Passed { symbol, next })
}

/// Passes the first symbol of a run, behind the bindings.
#[inline(always)]
pub fn pass(heap: &Heap, rest: &mut Stack<Run>, here: Run) -> Result<Passed, AllocError>
    requires right { AreRuns heap.now.cells (here ∷ rest.old) }
    requires some { 0 < here.left }
    ensures { IfOk result
        (λ p. PassesOn heap.now (here ∷ rest.old) p.symbol (p.next ∷ rest.new)) }
{
    let at = heap.follow(here.at);
    pass_from(heap, rest, here, at)
}

impl Walk {
    /// The walk over the term at a cell.
    pub fn over(heap: &Heap, alloc: Global, at: usize) -> Walk
        requires { at < length heap.now.cells }
        ensures right { IsWalk heap.now.cells result }
        ensures symbols { walk_symbols heap.now result ≡ spell (term_at heap.now at) }
    {
        Walk {
            at,
            left: 1,
            rest: Stack::new(alloc),
        }
    }

    /// Begins anew, over the term at a cell.
    pub fn start(&mut self, heap: &Heap, at: usize)
        requires { at < length heap.now.cells }
        ensures right { IsWalk heap.now.cells self.new }
        ensures symbols { walk_symbols heap.now self.new ≡ spell (term_at heap.now at) }
    {
        self.at = at;
        self.left = 1;
        self.rest.clear();
    }

    /// Passes over each variable that is written again right behind it: the variables of what is
    /// left stay the same, and a term whose bindings double isn't passed twice.
    pub fn skip_twins(&mut self, heap: &Heap)
        requires { IsWalk heap.now.cells self.old }
        ensures right { IsWalk heap.now.cells self.new }
        ensures same { HasSameVariables
            (walk_symbols heap.now self.old) (walk_symbols heap.now self.new) }
    {
        'twins: while self.left > 1 && heap.is_twin(self.at) {
            self.at += 1;
            self.left -= 1;
        }
    }

    /// Passes the next symbol; none where the walk is at its end.
    #[inline(always)]
    pub fn next(&mut self, heap: &Heap) -> Result<Option<Sym>, AllocError>
        requires { IsWalk heap.now.cells self.old }
        ensures right { OnOk result (IsWalk heap.now.cells self.new) }
        ensures symbol { IfOk result
            (λ x. Passes x (walk_symbols heap.now self.old) (walk_symbols heap.now self.new)) }
    {
        let run = Run {
            at: self.at,
            left: self.left,
        };
        let Some(here) = next_run(&mut self.rest, run) else {
            return Ok(None);
        };
        let passed = pass(heap, &mut self.rest, here)?;
        self.at = passed.next.at;
        self.left = passed.next.left;
        Ok(Some(passed.symbol))
    }
}
