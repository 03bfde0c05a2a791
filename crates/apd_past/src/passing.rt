//! A walk over the symbols of a term as it was at a moment.

ghost use Rattle.std.specs.Prelude.{◌∷◌, ◌<◌, IfOk};
ghost use Rattle.apd_cells.specs.Work.{AreRuns, PassesOn};

use crate::then::Then;
use apd_base::stack::Stack;
use apd_cells::walk::{Passed, Run, arity_of};
use std::alloc::AllocError;

/// Passes the first symbol of a run, behind the bindings.
pub fn pass(then: &Then<'_>, rest: &mut Stack<Run>, here: Run) -> Result<Passed, AllocError>
    requires right { AreRuns then.now.cells (here ∷ rest.old) }
    requires some { 0 < here.left }
    ensures { IfOk result
        (λ p. PassesOn then.now (here ∷ rest.old) p.symbol (p.next ∷ rest.new)) }
{
    let at = then.follow(here.at);
    let symbol = then.symbol(at);
    let arity = arity_of(symbol);
    if at == here.at || arity == 0 {
        let next = Run {
            at: here.at + 1,
            left: here.left - 1 + arity,
        };
        return Ok(Passed { symbol, next });
    }
    if here.left > 1 {
        rest.push(Run {
            at: here.at + 1,
            left: here.left - 1,
        })?;
    }
    let next = Run {
        at: at + 1,
        left: arity,
    };
    Ok(Passed { symbol, next })
}
