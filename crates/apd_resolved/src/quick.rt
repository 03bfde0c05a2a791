//! Symbols and terms that are passed by a count at once: nothing is counted for them.

ghost use Rattle.std.specs.Prelude.{◌≡◌, [], ◌∷◌, ◌<◌, ◌≤◌, length, IfOk, IfSome};
ghost use Rattle.std.specs.Bool.{OnTrue};
ghost use Rattle.apd_cells.specs.First.{IsFixed};
ghost use Rattle.apd_cells.specs.Work.{AreRuns};
ghost use Rattle.apd_resolved.specs.Counting.{IsOfSymbol, PassesFront, PassesPart};

use apd_cells::heap::Heap;
use apd_cells::known::Extent;
use apd_cells::walk::{Run, arity_of};
use apd_term::Sym;
use std::alloc::AllocError;

/// What a count passes at once: a symbol, or a term whose extent is known; and the run that it is in then.
#[derive(Clone, Copy)]
pub struct CountedPart {
    pub extent: Extent,
    pub next: Run,
}

/// The extent of a symbol. No store has a variable with the greatest number.
#[inline(always)]
pub fn extent_of(symbol: Sym) -> Result<Extent, AllocError>
    ensures { IfOk result (IsOfSymbol symbol) }
{
    match symbol {
        Sym::Var(v) => match v.checked_add(1) {
            Some(above) => Ok(Extent { size: 1, above }),
            None => Err(AllocError),
        },
        _ => Ok(Extent { size: 1, above: 0 }),
    }
}

/// Whether a symbol is no variable.
#[inline(always)]
fn is_fixed(symbol: Sym) -> bool
    ensures { OnTrue result (IsFixed symbol) }
{
    match symbol {
        Sym::Var(_) => false,
        Sym::Int(_) => true,
        Sym::Fun(..) => true,
    }
}

/// Passes the first symbol of a run, where no variable is written there; none says nothing.
#[inline(always)]
pub fn fixed_part(heap: &Heap, here: Run) -> Option<CountedPart>
    requires right { AreRuns heap.now.cells (here ∷ []) }
    requires some { 0 < here.left }
    ensures { IfSome result
        (λ p. PassesPart heap.now (here ∷ []) p.extent (p.next ∷ [])) }
{
    let symbol = heap.symbol(here.at);
    let _fits = heap.cells();
    if is_fixed(symbol) {
        let next = Run {
            at: here.at + 1,
            left: here.left - 1 + arity_of(symbol),
        };
        let extent = Extent { size: 1, above: 0 };
        return Some(CountedPart { extent, next });
    }
    None
}

/// Passes the first symbol of a run, or the first term, where a binding leads to it and its extent is known; none says
/// nothing.
#[inline(always)]
fn known_part(heap: &Heap, here: Run) -> Option<CountedPart>
    requires right { AreRuns heap.now.cells (here ∷ []) }
    requires some { 0 < here.left }
    ensures part { IfSome result
        (λ p. PassesPart heap.now (here ∷ []) p.extent (p.next ∷ [])) }
    ensures ahead { IfSome result (λ p. here.at ≤ p.next.at) }
{
    let at = heap.follow(here.at);
    let symbol = heap.symbol(at);
    let arity = arity_of(symbol);
    if at == here.at || arity == 0 {
        let Ok(extent) = extent_of(symbol) else {
            return None;
        };
        let next = Run {
            at: here.at + 1,
            left: here.left - 1 + arity,
        };
        return Some(CountedPart { extent, next });
    }
    let extent = heap.known(at)?;
    let next = Run {
        at: here.at + 1,
        left: here.left - 1,
    };
    Some(CountedPart { extent, next })
}

/// Passes what stands first in a run, as far as nothing is to be counted for it and it is within the limit.
pub fn pass_front(heap: &Heap, here: Run, limit: u64) -> CountedPart
    requires { AreRuns heap.now.cells (here ∷ []) }
    ensures front { PassesFront heap.now (here ∷ []) result.extent (result.next ∷ []) }
    ensures within { result.extent.size ≤ limit }
    ensures ahead { here.at ≤ result.next.at }
{
    let mut next = here;
    let mut extent = Extent { size: 0, above: 0 };
    'parts: while next.left > 0 {
        let Some(part) = known_part(heap, next) else {
            return CountedPart { extent, next };
        };
        if part.extent.size > limit - extent.size {
            return CountedPart { extent, next };
        }
        extent = extent.and(part.extent);
        next = part.next;
    }
    CountedPart { extent, next }
}
