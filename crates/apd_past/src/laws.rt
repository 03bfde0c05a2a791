//! Laws of pasts.

ghost use Rattle.std.specs.Prelude.{◌≡◌, ◌<◌, ◌≤◌, ℕ, List, length};
ghost use Rattle.apd_past.specs.Done.{Done};
ghost use Rattle.apd_past.specs.Follows.{Follows};
ghost use Rattle.apd_past.specs.History.{History, KeepsMoments, at_moment, history_of, present};
ghost use Rattle.apd_past.specs.Tuples.{AreInside, tuple_at};
ghost use Rattle.apd_past.specs.declared.past.PastCell.{PastCell};
ghost use Rattle.apd_cells.specs.Store.{IsSound};
ghost use Rattle.apd_cells.specs.Stored.{Stored};

/// Where a journal has followed a store, a tuple of the store's cells is at present what it is in the store.
pub fn tuples_are_the_same_there()
    ensures { (d : Done) (s : Stored) (head : ℕ) (goals : List PastCell) → IsSound s → Follows d s →
        tuple_at (present (history_of s.cells d)) head goals ≡ tuple_at s head goals }
{}

/// Where moments are kept, a tuple at cells that were there is at each of them what it was.
pub fn tuples_stay()
    ensures { (old new : History) (m head : ℕ) (goals : List PastCell) → KeepsMoments old new →
        m ≤ old.moments → head < length old.cells → AreInside (length old.cells) goals →
        tuple_at (at_moment m new) head goals ≡ tuple_at (at_moment m old) head goals }
{}
