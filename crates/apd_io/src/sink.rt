//! Where bytes are written to.

ghost use Rattle.std.specs.Prelude.{◌≡◌, ◌<◌, ◌≤◌, List, ℕ, length, take, true, IfOk, OnErr, Option};
ghost use Rattle.apd_io.specs.Outside.{Adds};

use crate::Failed;

/// Something to write bytes to.
pub trait Sink {
    ghost use Rattle.apd_io.specs.Outside.{Counts};

    /// The bytes that were written, where that is told.
    ghost held: { Self → Option (List ℕ) };

    /// How many writes have failed.
    ghost faults: { Self → ℕ };

    /// Appends at least the first of `bytes`, which aren't none, and answers how many: each write puts a
    /// byte or more, or fails.
    ///
    /// # Errors
    ///
    /// [`Failed`] where the write failed or took nothing: the count of faults rose by one, and nothing
    /// was appended.
    fn write(&mut self, bytes: &[u8]) -> Result<usize, Failed>
        requires { 0 < length bytes.now }
        ensures some { IfOk result (λ n. 0 < n) }
        ensures bound { IfOk result (λ n. n ≤ length bytes.now) }
        ensures bytes { IfOk result (λ n. Adds (held self.old) (held self.new) (take n bytes.now)) }
        ensures kept { OnErr result (held self.new ≡ held self.old) }
        ensures cause { Counts (λ _. true) (faults self.old) (faults self.new) result };
}
