//! Rows in 8 bytes each.

ghost use Rattle.std.specs.Prelude.{◌≡◌, ◌≤◌};
ghost use Rattle.apd_tuples.specs.Packed.{bit, fact_in};

use crate::spots::{Fact, SpotRow};
use apd_past::past::Moment;
use std::marker::Model;
use std::mem::size_of;

/// A row as it is kept. Contracts see the row.
#[derive(Drop)]
pub struct KeptRow {
    moment: Moment,
    /// Its place, and two bits: whether it has goals, and whether it is known that no variable stands in it.
    at: u32,
}

impl Model for KeptRow {
    ghost use Rattle.std.specs.Prelude.{◌/◌, ◌%◌, ◌==◌};
    ghost use Rattle.apd_tuples.specs.declared.spots.SpotRow.{SpotRow};
    ghost use Rattle.apd_tuples.specs.Packed.{fact_in};

    ghost Value = { SpotRow };

    ghost view = { λ r. record {
      moment = r.moment;
      at = r.at / 4;
      has_goals = r.at / 2 % 2 == 1;
      fact = fact_in (r.at % 2 == 1);
    } };
}

const _: () = prove!(size_of::<KeptRow>() == 8);

/// The greatest place that is kept.
pub const MOST_PLACE: usize = 1_073_741_823;

/// Whether a fact says that no variable stands in a tuple.
fn says_ground(fact: Fact) -> bool
    ensures { fact_in result ≡ fact }
{
    match fact {
        Fact::Nothing => false,
        Fact::Ground => true,
    }
}

/// What is known of a tuple of which that is known or isn't.
fn fact_in(is_ground: bool) -> Fact
    ensures { result ≡ fact_in is_ground }
{
    if is_ground {
        return Fact::Ground;
    }
    Fact::Nothing
}

/// A truth value as a bit.
fn bit(truth: bool) -> u32
    ensures is { result ≡ bit truth }
    ensures small { result ≤ 1 }
{
    if truth {
        return 1;
    }
    0
}

impl KeptRow {
    /// The row as it is kept.
    #[inline(always)]
    pub fn of(row: SpotRow) -> KeptRow
        requires { row.at ≤ MOST_PLACE }
        ensures { result ≡ row }
    {
        KeptRow {
            moment: row.moment,
            at: row.at * 4 + bit(row.has_goals) * 2 + bit(says_ground(row.fact)),
        }
    }

    /// The row.
    #[inline(always)]
    pub fn read(&self) -> SpotRow
        ensures { result ≡ self.now }
    {
        SpotRow {
            moment: self.moment,
            at: self.at / 4,
            has_goals: self.at / 2 % 2 == 1,
            fact: fact_in(self.at % 2 == 1),
        }
    }
}
