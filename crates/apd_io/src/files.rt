//! Files by name.

ghost use Rattle.std.specs.Prelude.{◌≡◌, ◌<◌, ◌≤◌, List, ℕ, length, IfOk, IfErr, Option};
ghost use Rattle.apd_base.specs.declared.limits.TheConstants.{MAX_FILE, OVER_MAX_FILE};

use crate::LoadFault;
use apd_base::Text;
use std::alloc::Global;

/// Files by name.
pub trait Files {
    ghost use Rattle.apd_io.specs.Outside.{Counts, is_load_fault, Tells, TellsLong};
    ghost use Rattle.apd_io.specs.declared.fault.LoadFault.TheVariants.{TooLong};

    /// The content of the file of a name, where that is told.
    ghost content: { Self → List ℕ → Option (List ℕ) };

    /// How many loads have failed.
    ghost faults: { Self → ℕ };

    /// From the files, by a load of the file of this name, to the files after it. A function over any
    /// files says by it which it loaded, in order: `LoadsInTurn` in specs/Outside.
    ghost step: { Self → List ℕ → Self → Type 0 };

    /// The whole content of the file of this name.
    ///
    /// # Errors
    ///
    /// [`LoadFault::Failed`] where it isn't there or can't be read: the count of faults rose
    /// by one. [`LoadFault::TooLong`] with 1,048,577 exactly where the call doesn't fail and the content
    /// is longer than [`MAX_FILE`] bytes. [`LoadFault::Memory`] where memory ran out.
    fn load(&mut self, alloc: Global, name: &str) -> Result<Text, LoadFault>
        ensures whole { IfOk result (λ text. Tells (content self.old name.now) text) }
        ensures bound { IfOk result (λ text. length text ≤ MAX_FILE) }
        ensures number { IfErr result (λ e. (n : ℕ) → e ≡ TooLong n → n ≡ OVER_MAX_FILE) }
        ensures long { IfErr result (λ e. (n : ℕ) → e ≡ TooLong n →
            TellsLong (content self.old name.now)) }
        ensures same { content self.new ≡ content self.old }
        ensures step { step self.old name.now self.new }
        ensures cause { Counts is_load_fault (faults self.old) (faults self.new) result };
}
