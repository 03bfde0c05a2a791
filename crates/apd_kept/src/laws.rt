//! The law of the text of what is known, the contract of a function without a body.

ghost use Rattle.std.specs.Prelude.{ℕ, List};
ghost use Rattle.apd_answers.specs.Store.{Store};
ghost use Rattle.apd_kept.specs.Law.{IsWritableStore, ReadsBackAs};
ghost use Rattle.apd_known.specs.declared.file.Stated.{Stated};
ghost use Rattle.apd_ops.specs.Table.{IsTable, Table};
ghost use Rattle.apd_reading_back.specs.Law.{AreNames};

/// The law of reading back. The text of what is known states, as an oracle file read by the same operators, the same trust and
/// the same replies to the same questions up to their canonical form, whatever names come later.
///
/// Each pair and each predicate may be stated and is kept once, and each statement can be written: its names are kept, its
/// numbers are those of symbols, and its text has no term at level 1,000.
pub fn known_reads_back()
    ensures { (ops : Table) (names : List (List ℕ)) (store : Store) →
        IsTable ops → AreNames names → IsWritableStore ops names store →
        (s : Stated) × ReadsBackAs ops names store s }
{}
