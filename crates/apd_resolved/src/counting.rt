//! How many symbols terms have, with all bindings applied.

ghost use Rattle.std.specs.Prelude.{◌≡◌, [], ◌∷◌, ◌<◌, length, IfOk};
ghost use Rattle.apd_cells.specs.Known.{HasExtent};
ghost use Rattle.apd_cells.specs.Work.{AreRuns};
ghost use Rattle.apd_resolved.specs.Counting.{CountedWithin, MeasuredWithin, MeasuresPart, PassesPart};

use crate::quick::{CountedPart, extent_of, fixed_part, pass_front};
use apd_base::stack::Stack;
use apd_cells::heap::Heap;
use apd_cells::known::Extent;
use apd_cells::walk::{Run, arity_of, next_run, pass_from};
use apd_term::Sym;
use std::alloc::{AllocError, Global};

/// A term's extent, and how many steps it took to count it.
#[derive(Clone, Copy)]
pub struct Count {
    pub extent: Extent,
    pub steps: u64,
}

/// Passes the first symbol of a run, behind the bindings, or the first term, where its extent is known and a binding
/// leads to it, or it is the run's last and that is looked for.
fn pass_part(
    heap: &Heap,
    rest: &mut Stack<Run>,
    here: Run,
    looks: bool,
) -> Result<CountedPart, AllocError>
    requires right { AreRuns heap.now.cells (here ∷ rest.old) }
    requires some { 0 < here.left }
    ensures { IfOk result
        (λ p. PassesPart heap.now (here ∷ rest.old) p.extent (p.next ∷ rest.new)) }
{
    let at = heap.follow(here.at);
    if at != here.at && arity_of(heap.symbol(at)) > 0 {
        if let Some(extent) = heap.known(at) {
            let next = Run {
                at: here.at + 1,
                left: here.left - 1,
            };
            return Ok(CountedPart { extent, next });
        }
    }
    if looks && here.left == 1 {
        if let Some(extent) = heap.known(at) {
            let next = Run {
                at: here.at + 1,
                left: 0,
            };
            return Ok(CountedPart { extent, next });
        }
    }
    let passed = pass_from(heap, rest, here, at)?;
    Ok(CountedPart {
        extent: extent_of(passed.symbol)?,
        next: passed.next,
    })
}

/// A count looks for known extents of last arguments when it has taken so many steps, and such extents are kept so far
/// apart.
const STRIDE: u64 = 16;

/// The extent of the term at a cell; none exactly where its size is over the limit. It passes at most one symbol more
/// than that, and none of a term whose extent is known.
pub fn counted_within(
    heap: &Heap,
    alloc: Global,
    at: usize,
    limit: u64,
) -> Result<Option<Count>, AllocError>
    requires { at < length heap.now.cells }
    ensures { IfOk result (CountedWithin heap.now at limit) }
{
    let mut runs = Stack::new(alloc);
    let mut here = Run { at, left: 1 };
    let mut extent = Extent { size: 0, above: 0 };
    let mut steps: u64 = 0;
    'parts: while let Some(run) = next_run(&mut runs, here) {
        let part = pass_part(heap, &mut runs, run, steps >= STRIDE)?;
        if part.extent.size > limit - extent.size {
            return Ok(None);
        }
        extent = extent.and(part.extent);
        steps += 1;
        here = part.next;
    }
    Ok(Some(Count { extent, steps }))
}

/// The places of a written term's tails, some symbols apart: of its last argument, of that one's last argument and so on,
/// as the tails of a list are.
fn tails_of(alloc: Global, symbols: &[Sym]) -> Result<Stack<usize>, AllocError> {
    let mut tails = Stack::new(alloc);
    let mut left: usize = 1;
    let mut wait = STRIDE;
    for (place, symbol) in symbols.iter().enumerate() {
        if left == 1 && wait == 0 {
            tails.push(place)?;
            wait = STRIDE;
        }
        left = left.saturating_sub(1).saturating_add(arity_of(*symbol));
        wait = wait.saturating_sub(1);
    }
    Ok(tails)
}

/// Keeps the extents of the tails of the term that is written at a cell, the last one's first, so that each takes few
/// steps to count. So who walks down a long list counts few symbols of it at each step.
fn keep_tails(heap: &mut Heap, alloc: Global, at: usize, limit: u64) -> Result<(), AllocError>
    requires { at < length heap.old.cells }
    ensures { heap.new ≡ heap.old }
{
    let mut tails = tails_of(alloc, heap.written(at))?;
    'tails: while let Some(place) = tails.pop() {
        let tail = at.saturating_add(place);
        if tail < heap.cells() {
            if let Some(count) = counted_within(heap, alloc, tail, limit)? {
                heap.keep(tail, count.extent)?;
            }
        }
    }
    Ok(())
}

/// The extent of a term is kept where it takes more steps than these to count it.
const FEW_STEPS: u64 = 2;

/// That of a term with variables, which the next binding may change, where it takes more steps than these.
const FEW_OPEN_STEPS: u64 = 8;

/// Whether it is long to count a term anew.
fn is_long(count: Count) -> bool {
    if count.extent.above == 0 {
        return count.steps > FEW_STEPS;
    }
    count.steps > FEW_OPEN_STEPS
}

/// The extents of a term's tails are kept too where it takes more steps than these to count it.
const MANY_STEPS: u64 = 64;

/// The extent of the term at a cell; none exactly where its size is over the limit. It is kept if it takes long to count
/// it.
#[inline(never)]
fn kept_anew(
    heap: &mut Heap,
    alloc: Global,
    at: usize,
    limit: u64,
) -> Result<Option<Extent>, AllocError>
    requires { at < length heap.old.cells }
    ensures extent { IfOk result (MeasuredWithin heap.old at limit) }
    ensures same { heap.new ≡ heap.old }
{
    let Some(count) = count_with_front(heap, alloc, at, limit)? else {
        return Ok(None);
    };
    if count.steps > MANY_STEPS && count.extent.above == 0 {
        keep_tails(heap, alloc, at, limit)?;
    }
    if is_long(count) {
        heap.keep(at, count.extent)?;
    }
    Ok(Some(count.extent))
}

/// The extent of the term at a cell, up to a limit: what is known of it, or else a count, as [`kept_anew`] makes it.
#[inline(always)]
fn kept_within(
    heap: &mut Heap,
    alloc: Global,
    at: usize,
    limit: u64,
) -> Result<Option<Extent>, AllocError>
    requires { at < length heap.old.cells }
    ensures extent { IfOk result (MeasuredWithin heap.old at limit) }
    ensures same { heap.new ≡ heap.old }
{
    if let Some(extent) = heap.known(at) {
        if extent.size > limit {
            return Ok(None);
        }
        return Ok(Some(extent));
    }
    kept_anew(heap, alloc, at, limit)
}

/// The same as [`counted_within`] tells, which is asked where the terms that bindings lead to aren't known.
fn count_with_front(
    heap: &Heap,
    alloc: Global,
    at: usize,
    limit: u64,
) -> Result<Option<Count>, AllocError>
    requires { at < length heap.now.cells }
    ensures { IfOk result (CountedWithin heap.now at limit) }
{
    let front = pass_front(heap, Run { at, left: 1 }, limit);
    if front.next.left == 0 {
        let steps = (front.next.at - at) as u64;
        let extent = front.extent;
        return Ok(Some(Count { extent, steps }));
    }
    counted_within(heap, alloc, at, limit)
}

/// Passes the first symbol of a run, or the first term, where a binding leads to it; none only where that is over the
/// limit.
#[inline(always)]
fn measure_led(
    heap: &mut Heap,
    alloc: Global,
    here: Run,
    limit: u64,
) -> Result<Option<CountedPart>, AllocError>
    requires right { AreRuns heap.old.cells (here ∷ []) }
    requires some { 0 < here.left }
    ensures part { IfOk result (MeasuresPart heap.old here limit) }
    ensures same { heap.new ≡ heap.old }
{
    let at = heap.follow(here.at);
    let symbol = heap.symbol(at);
    let arity = arity_of(symbol);
    if at == here.at || arity == 0 {
        let extent = extent_of(symbol)?;
        let next = Run {
            at: here.at + 1,
            left: here.left - 1 + arity,
        };
        return Ok(Some(CountedPart { extent, next }));
    }
    let Some(extent) = kept_within(heap, alloc, at, limit)? else {
        return Ok(None);
    };
    let next = Run {
        at: here.at + 1,
        left: here.left - 1,
    };
    Ok(Some(CountedPart { extent, next }))
}

/// The same as [`measure_led`], which isn't asked where no variable is written.
#[inline(always)]
fn measure_part(
    heap: &mut Heap,
    alloc: Global,
    here: Run,
    limit: u64,
) -> Result<Option<CountedPart>, AllocError>
    requires right { AreRuns heap.old.cells (here ∷ []) }
    requires some { 0 < here.left }
    ensures part { IfOk result (MeasuresPart heap.old here limit) }
    ensures same { heap.new ≡ heap.old }
{
    if let Some(part) = fixed_part(heap, here) {
        return Ok(Some(part));
    }
    measure_led(heap, alloc, here, limit)
}

/// A term of no more symbols than these is measured again as soon as it is recalled.
const FEW_SYMBOLS: u64 = 3;

/// Notes the extent of a term that was measured, where it isn't short, and some terms have more symbols than are written.
#[inline(always)]
fn note_long(heap: &mut Heap, at: usize, extent: Extent) -> Result<(), AllocError>
    requires { HasExtent heap.old at extent }
    ensures { heap.new ≡ heap.old }
{
    if extent.size > FEW_SYMBOLS && !heap.is_flat() {
        heap.remember(at, extent)?;
    }
    Ok(())
}

/// The same as [`measured_within`] tells, by a count.
#[inline(always)]
fn measured_anew(
    heap: &mut Heap,
    alloc: Global,
    at: usize,
    limit: u64,
) -> Result<Option<Extent>, AllocError>
    requires { at < length heap.old.cells }
    ensures extent { IfOk result (MeasuredWithin heap.old at limit) }
    ensures same { heap.new ≡ heap.old }
{
    let mut here = Run { at, left: 1 };
    let mut extent = Extent { size: 0, above: 0 };
    'parts: while here.left > 0 {
        let Some(part) = measure_part(heap, alloc, here, limit - extent.size)? else {
            return Ok(None);
        };
        if part.extent.size > limit - extent.size {
            return Ok(None);
        }
        extent = extent.and(part.extent);
        here = part.next;
    }
    note_long(heap, at, extent)?;
    Ok(Some(extent))
}

/// The same as [`counted_within`] tells. The extents of long terms that bindings lead to are kept, and that of the term is
/// noted, so that later counts needn't pass them.
#[inline(always)]
pub fn measured_within(
    heap: &mut Heap,
    alloc: Global,
    at: usize,
    limit: u64,
) -> Result<Option<Extent>, AllocError>
    requires { at < length heap.old.cells }
    ensures extent { IfOk result (MeasuredWithin heap.old at limit) }
    ensures same { heap.new ≡ heap.old }
{
    if let Some(extent) = heap.recalled(at) {
        if extent.size > limit {
            return Ok(None);
        }
        return Ok(Some(extent));
    }
    measured_anew(heap, alloc, at, limit)
}
