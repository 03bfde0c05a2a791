//! What a source gave so far.

ghost use Rattle.std.specs.Prelude.{◌≡◌, nat_eq};
ghost use Rattle.apd_io.specs.Memory.{untaken};
ghost use Rattle.apd_io.specs.Outside.{late_by, raised, risen};

/// How many bytes the reads of a source gave, and how many reads there were from the first on that gave
/// none. Each stops at the greatest `u64`.
#[derive(Drop)]
pub struct Tally {
    pub taken: u64,
    pub late: u64,
}

impl Tally {
    /// Before the first read.
    pub fn new() -> Tally
        ensures { result ≡ untaken }
    {
        Tally { taken: 0, late: 0 }
    }

    /// Counts a read that gave so many bytes.
    pub fn give(&mut self, count: usize)
        ensures taken { self.new.taken ≡ raised count self.old.taken }
        ensures late { self.new.late ≡ late_by (nat_eq count 0) self.old.late }
    {
        self.taken = self.taken.saturating_add(count as u64);
        self.note(count == 0);
    }

    /// Counts a read that failed.
    pub fn fail(&mut self)
        ensures taken { self.new.taken ≡ self.old.taken }
        ensures late { self.new.late ≡ risen self.old.late }
    {
        self.note(true);
    }

    // Counts a read that gave no byte, or is behind one that didn't.
    fn note(&mut self, none: bool)
        ensures taken { self.new.taken ≡ self.old.taken }
        ensures late { self.new.late ≡ late_by none self.old.late }
    {
        if none || self.late > 0 {
            self.late = self.late.saturating_add(1);
        }
    }
}
