//! The calls on something in memory: those of given numbers fail.

ghost use Rattle.std.specs.Prelude.{◌≡◌, ◌≤◌};
ghost use Rattle.apd_io.specs.Outside.{risen};

use apd_base::Ids;

/// The numbers of the calls that fail, counted from 1, and how many calls were made and failed.
#[derive(Drop)]
pub struct Calls {
    pub failing: Ids,
    pub made: u64,
    pub faults: u64,
}

impl Calls {
    ghost use Rattle.apd_io.specs.Memory.{is_due, uncalled};

    /// The calls before the first.
    pub fn new(failing: Ids) -> Calls
        ensures { result ≡ uncalled failing }
    {
        Calls {
            failing,
            made: 0,
            faults: 0,
        }
    }

    /// Counts a call, and answers whether it is one of those that fail.
    pub fn begin(&mut self) -> bool
        ensures due { result ≡ is_due self.old }
        ensures counted { self.new ≡ record self.old { made = risen self.old.made } }
    {
        self.made = self.made.saturating_add(1);
        let number = self.made;
        self.failing
            .as_slice()
            .iter()
            .any(|id| *id as u64 == number)
    }

    /// Counts a fault.
    pub fn fail(&mut self)
        ensures counted { self.new ≡ record self.old { faults = risen self.old.faults } }
        ensures later { self.old.faults ≤ self.new.faults }
    {
        self.faults = self.faults.saturating_add(1);
    }
}
