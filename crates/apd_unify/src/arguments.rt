//! The cells of a term's arguments, behind the bindings.

ghost use Rattle.std.specs.Prelude.{◌≡◌, ◌<◌, length};
ghost use Rattle.apd_term.specs.Term.{arguments};
ghost use Rattle.apd_cells.specs.Store.{term_at};
ghost use Rattle.apd_unify.specs.Arguments.{HasOne, HasTwo};

use apd_cells::heap::Heap;

/// The cell of the argument of a term that has one.
pub fn only_argument(heap: &Heap, at: usize) -> usize
    requires inside { at < length heap.now.cells }
    requires one { length (arguments (term_at heap.now at)) ≡ 1 }
    ensures { HasOne heap.now at result }
{
    heap.follow(at) + 1
}

/// The cells of the arguments of a term that has two.
pub fn two_arguments(heap: &Heap, at: usize) -> (usize, usize)
    requires inside { at < length heap.now.cells }
    requires two { length (arguments (term_at heap.now at)) ≡ 2 }
    ensures { HasTwo heap.now at result.0 result.1 }
{
    let first = heap.follow(at) + 1;
    (first, heap.end(first))
}
