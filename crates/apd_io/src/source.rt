//! Where bytes are read from.

ghost use Rattle.std.specs.Prelude.{◌≡◌, ◌<◌, ◌≤◌, ℕ, length, take, true, IfOk, OnErr};
ghost use Rattle.apd_io.specs.Outside.{IsOver, Left, Loses, late_after, taken_after};

use crate::Failed;

/// Something to read bytes from.
pub trait Source {
    ghost use Rattle.apd_io.specs.Outside.{Counts};

    /// The bytes that are left to read, where that is told; how many bytes its reads gave so far; and how
    /// many reads there were from the first on that gave none, at the end or since it failed.
    ghost left: { Self → Left };

    /// How many reads have failed.
    ghost faults: { Self → ℕ };

    /// Reads the next bytes to the front of `buf`, which isn't empty, and answers how many.
    ///
    /// It is 0 exactly where nothing was left: the read met the end. Each read is counted: it gave a byte
    /// or more, met the end or failed.
    ///
    /// # Errors
    ///
    /// [`Failed`] where the read failed: the count of faults rose by one, and what is left is unchanged.
    fn read(&mut self, buf: &mut [u8]) -> Result<usize, Failed>
        requires { 0 < length buf.old }
        ensures bound { IfOk result (λ n. n ≤ length buf.new) }
        ensures bytes { IfOk result (λ n. Loses (left self.old).bytes (left self.new).bytes
            (take n buf.new)) }
        ensures end { IfOk result (λ n. n ≡ 0 → IsOver (left self.old)) }
        ensures kept { OnErr result ((left self.new).bytes ≡ (left self.old).bytes) }
        ensures taken { (left self.new).taken ≡ taken_after result (left self.old).taken }
        ensures late { (left self.new).late ≡ late_after result (left self.old).late }
        ensures cause { Counts (λ _. true) (faults self.old) (faults self.new) result };
}
