//! Whether a variable stands in a term, found from variable to variable: each is passed once, however
//! often bindings lead to it.

ghost use Rattle.std.specs.Prelude.{◌<◌, ◌↔◌, length, IfOk, OnOk, IsTrue};
ghost use Rattle.apd_term.specs.Term.{Occurs, variables};
ghost use Rattle.apd_cells.specs.Store.{term_at, written, IsSound};
ghost use Rattle.apd_resolved.specs.Noticed.{Sees};

use apd_cells::heap::Heap;
use apd_cells::order::Order;
use std::alloc::AllocError;

/// Puts the variables that are written in the term at a cell to those that were seen.
fn see_written(heap: &Heap, seen: &mut Order, at: usize) -> Result<(), AllocError>
    requires { at < length heap.now.cells }
    ensures seen { OnOk result
        (Sees seen.old seen.new (variables (written heap.now.cells at))) }
    ensures store { IsSound heap.now }
{
    let symbols = heap.written(at);
    for symbol in symbols {
        seen.placed(*symbol)?;
    }
    Ok(())
}

/// Whether the variable stands in the term at a cell.
pub fn reaches(heap: &Heap, seen: &mut Order, at: usize, v: u64) -> Result<bool, AllocError>
    requires { at < length heap.now.cells }
    ensures { IfOk result (λ b. IsTrue b ↔ Occurs v (term_at heap.now at)) }
{
    seen.clear();
    see_written(heap, seen, at)?;
    let mut done: usize = 0;
    'variables: while let Some(w) = seen.get(done) {
        match heap.bound_to(w) {
            Some(to) => see_written(heap, seen, to)?,
            None => {
                if w == v {
                    return Ok(true);
                }
            }
        }
        done += 1;
    }
    Ok(false)
}
