//! What the term at a cell is, with all bindings applied.

ghost use Rattle.std.specs.Prelude.{◌≡◌, ◌<◌, ◌≤◌, ◌↔◌, length, IfOk, IfSome, IsTrue, MatchOption};
ghost use Rattle.std.specs.Bool.{OnTrue};
ghost use Rattle.apd_term.specs.Term.{IsGround, Occurs};
ghost use Rattle.apd_cells.specs.Store.{term_at, SizeWithin};

use crate::counting::counted_within;
use crate::reaching::reaches;
use apd_base::stack::Stack;
use apd_cells::heap::Heap;
use apd_cells::order::Order;
use apd_cells::walk::Walk;
use apd_term::{Flat, Sym, Syms};
use std::alloc::{AllocError, Global};

/// The term at a cell.
pub fn resolved(heap: &Heap, alloc: Global, at: usize) -> Result<Flat, AllocError>
    requires { at < length heap.now.cells }
    ensures { IfOk result (λ t. t ≡ term_at heap.now at) }
{
    let mut walk = Walk::over(heap, alloc, at);
    let mut symbols = Syms::new(alloc);
    'symbols: while let Some(symbol) = walk.next(heap)? {
        symbols.push(symbol)?;
    }
    Ok(Flat::of_symbols(symbols))
}

/// The number, if it is within the limit.
fn at_most(n: u64, limit: u64) -> Option<u64>
    ensures { MatchOption result (limit < n) (λ k. (k ≡ n) × (k ≤ limit)) }
{
    if n > limit {
        return None;
    }
    Some(n)
}

/// The size of the term at a cell; none exactly where it is over the limit. It passes at most one
/// symbol more than that, and none of a term whose size is known. Where no binding leads to a term that has arguments
/// it passes what is written.
pub fn size_within(
    heap: &Heap,
    alloc: Global,
    at: usize,
    limit: u64,
) -> Result<Option<u64>, AllocError>
    requires { at < length heap.now.cells }
    ensures { IfOk result (SizeWithin (term_at heap.now at) limit) }
{
    if heap.is_flat() {
        return Ok(at_most((heap.end(at) - at) as u64, limit));
    }
    if let Some(extent) = heap.recalled(at) {
        return Ok(at_most(extent.size, limit));
    }
    let Some(count) = counted_within(heap, alloc, at, limit)? else {
        return Ok(None);
    };
    Ok(Some(count.extent.size))
}

/// Whether no variable stands in the term at a cell, as far as it is seen: false says nothing. It passes
/// what [`size_within`] passes, and asks for nothing that was measured lately.
pub fn is_ground_within(
    heap: &Heap,
    alloc: Global,
    at: usize,
    limit: u64,
) -> Result<bool, AllocError>
    requires { at < length heap.now.cells }
    ensures { IfOk result (λ b. OnTrue b (IsGround (term_at heap.now at))) }
{
    let Some(count) = counted_within(heap, alloc, at, limit)? else {
        return Ok(false);
    };
    if count.extent.above > 0 {
        return Ok(false);
    }
    Ok(true)
}

/// What a variable is looked for with, kept from term to term so that its memory is taken once.
#[derive(Drop)]
pub struct Looking {
    pub walk: Walk,
    pub seen: Order,
}

impl Looking {
    pub fn new(alloc: Global) -> Looking {
        Looking {
            walk: Walk {
                at: 0,
                left: 0,
                rest: Stack::new(alloc),
            },
            seen: Order::new(alloc),
        }
    }
}

/// A walk that has passed so many symbols may be passing some terms again and again.
const MANY: usize = 256;

/// Whether the variable stands in the term at a cell, if a walk over so many symbols tells it; none
/// says nothing.
fn mentioned_soon(
    walk: &mut Walk,
    heap: &Heap,
    at: usize,
    v: u64,
) -> Result<Option<bool>, AllocError>
    requires { at < length heap.now.cells }
    ensures { IfOk result
        (λ found. IfSome found (λ b. IsTrue b ↔ Occurs v (term_at heap.now at))) }
{
    walk.start(heap, at);
    walk.skip_twins(heap);
    'symbols: for _passed in 0..MANY {
        let Some(symbol) = walk.next(heap)? else {
            return Ok(Some(false));
        };
        if symbol == Sym::Var(v) {
            return Ok(Some(true));
        }
        walk.skip_twins(heap);
    }
    Ok(None)
}

/// Whether the variable stands in the term at a cell. Where a walk doesn't tell it soon, no variable is
/// passed twice.
pub fn mentions(looking: &mut Looking, heap: &Heap, at: usize, v: u64) -> Result<bool, AllocError>
    requires { at < length heap.now.cells }
    ensures { IfOk result (λ b. IsTrue b ↔ Occurs v (term_at heap.now at)) }
{
    if let Some(found) = mentioned_soon(&mut looking.walk, heap, at, v)? {
        return Ok(found);
    }
    reaches(heap, &mut looking.seen, at, v)
}
