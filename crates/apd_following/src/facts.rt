//! What is known of a tuple when it is kept.

ghost use Rattle.std.specs.Prelude.{◌≡◌, ◌≢◌, ◌<◌, List, length, IfOk};
ghost use Rattle.apd_term.specs.Term.{size};
ghost use Rattle.apd_cells.specs.Store.{term_at};
ghost use Rattle.apd_trace.specs.declared.frame.Frame.{Frame};
ghost use Rattle.apd_frames.specs.Measures.{MeasuresInnermost};
ghost use Rattle.apd_following.specs.Followed.{HoldsInnermost};

use apd_base::MOST_INSTANCE_SYMBOLS;
use apd_frames::measuring::Measure;
use apd_tuples::spots::Fact;
use apd_unify::store::{Cell, Store};
use std::alloc::AllocError;

/// How many symbols the term at a cell has; 0 where it is larger than an instance may be.
#[inline(always)]
pub fn size_of(store: &Store, cell: Cell) -> Result<u32, AllocError>
    requires { cell.0 < length store.now.cells }
    ensures { IfOk result (λ n. n ≢ 0 → n ≡ size (term_at store.now cell.0)) }
{
    match store.size_within(cell, MOST_INSTANCE_SYMBOLS)? {
        None => Ok(0),
        Some(size) => Ok(size as u32),
    }
}

/// What is known of an instance that was measured.
pub fn fact_of_measure(measure: Measure) -> Fact
    ensures { (F : List Frame) → MeasuresInnermost measure F → HoldsInnermost result F }
{
    match measure {
        Measure::Ground => Fact::Ground,
        Measure::TooLarge => Fact::Nothing,
        Measure::Fits => Fact::Nothing,
    }
}
