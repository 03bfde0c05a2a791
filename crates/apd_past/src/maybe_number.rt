//! A number or none, in four bytes.

ghost use Rattle.std.specs.Prelude.{◌≡◌, ◌<◌, ◌-◌, ◌^◌, None, Some};

use std::marker::Model;

/// A number below 2 ^ 32 - 1, or none. Contracts see the option.
#[derive(Drop)]
pub struct MaybeNumber {
    /// One more than the number; 0 for none.
    raw: u32,
}

impl Model for MaybeNumber {
    ghost use Rattle.std.specs.Prelude.{Option, ℕ};
    ghost use Rattle.apd_past.specs.MaybeNumbers.{number_in};

    ghost Value = { Option ℕ };

    ghost view = { λ s. number_in s.raw };
}

impl MaybeNumber {
    /// No number.
    pub fn none() -> MaybeNumber
        ensures { result ≡ None }
    {
        MaybeNumber { raw: 0 }
    }

    /// This number.
    pub fn at(number: u32) -> MaybeNumber
        requires { number < 2 ^ 32 - 1 }
        ensures { result ≡ Some number }
    {
        MaybeNumber { raw: number + 1 }
    }

    /// The number, if there is one.
    pub fn get(&self) -> Option<u32>
        ensures { result ≡ self.now }
    {
        if self.raw == 0 {
            None
        } else {
            Some(self.raw - 1)
        }
    }
}
