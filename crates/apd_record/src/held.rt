//! The point that a run holds back until a port or an answer is passed after it.

ghost use Rattle.std.specs.Prelude.{◌≡◌, None, Some};
ghost use Rattle.apd_record.specs.Open.{point_of_row};

use crate::ongoing::{OpenPoint, row_of};
use apd_points::{KeptPoint, PlacedPoint, TuplePlace};
use apd_tuples::spots::Numbered;
use std::marker::Model;

/// What is held: nothing, a point that its row tells, or one that is kept whole.
#[derive(Clone, Copy)]
pub enum Holds {
    Nothing,
    Row,
    Whole,
}

/// A point that is held back, if there is one. It is kept as its row, and whole only where that
/// doesn't tell it. Contracts see the option.
#[derive(Drop)]
pub struct Held {
    pub(crate) holds: Holds,
    pub(crate) placed: PlacedPoint,
    pub(crate) whole: Option<OpenPoint>,
}

impl Model for Held {
    ghost use Rattle.std.specs.Prelude.{Option};
    ghost use Rattle.apd_record.specs.declared.ongoing.OpenPoint.{OpenPoint};
    ghost use Rattle.apd_record.specs.Open.{held_in};

    ghost Value = { Option OpenPoint };

    ghost view = { λ h. held_in h.holds h.placed h.whole };
}

/// A point whose instance is a kept tuple, as it is kept.
#[inline(always)]
pub(crate) fn point_of_row(point: KeptPoint) -> OpenPoint
    ensures { result ≡ point_of_row point }
{
    let tuple = match point.tuple {
        TuplePlace::Written(_) => Numbered {
            number: 0,
            goals: 0,
        },
        TuplePlace::Kept(tuple) => tuple,
    };
    OpenPoint {
        owner: point.owner,
        clause: point.clause,
        done: point.done,
        tuple,
        before: point.before,
    }
}

impl Held {
    /// No point.
    pub fn none() -> Held
        ensures { result ≡ None }
    {
        Held {
            holds: Holds::Nothing,
            placed: PlacedPoint::blank(),
            whole: None,
        }
    }

    /// This point is held from now on.
    #[inline(always)]
    pub fn put(&mut self, point: OpenPoint)
        ensures { self.new ≡ Some point }
    {
        if self.placed.put(&row_of(&point)) {
            self.holds = Holds::Row;
            return;
        }
        // Put together here: else it would stand in memory where its row tells it, too.
        self.put_whole(OpenPoint {
            owner: point.owner,
            clause: point.clause,
            done: point.done,
            tuple: point.tuple,
            before: point.before,
        });
    }

    /// A point that its row doesn't tell is held from now on. No search makes one.
    #[inline(never)]
    #[cold]
    fn put_whole(&mut self, point: OpenPoint)
        ensures { self.new ≡ Some point }
    {
        self.holds = Holds::Whole;
        self.whole = Some(point);
    }

    /// Takes the point, if there is one.
    pub fn take(&mut self) -> Option<OpenPoint>
        ensures taken { result ≡ self.old }
        ensures none { self.new ≡ None }
    {
        let holds = self.holds;
        self.holds = Holds::Nothing;
        match holds {
            Holds::Nothing => None,
            Holds::Row => Some(point_of_row(self.placed.get())),
            Holds::Whole => self.whole,
        }
    }
}
