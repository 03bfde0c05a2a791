//! A point that its row tells, before it is put among the others.

ghost use Rattle.std.specs.Prelude.{◌≡◌};
ghost use Rattle.std.specs.Bool.{OnTrue};

use crate::kept::{KeptPoint, TuplePlace};
use crate::packed::{PackedPoint, fits, step_in};
use apd_past::maybe_number::MaybeNumber;
use std::marker::Model;

/// A point that its row tells at the place that is its tuple's number, where none of its box
/// without solved goals is before it. It is kept as that row. Contracts see the point.
#[derive(Drop)]
pub struct PlacedPoint {
    pub(crate) row: PackedPoint,
    pub(crate) place: u32,
}

impl Model for PlacedPoint {
    ghost use Rattle.apd_points.specs.declared.kept.KeptPoint.{KeptPoint};
    ghost use Rattle.apd_points.specs.Packed.{own, IsPlaced};

    ghost Value = { KeptPoint };

    ghost view = { λ p. (own p.place p.row).point };

    ghost invariant = { λ p. IsPlaced p.place p.row };
}

impl PlacedPoint {
    /// A point that stands for none.
    pub fn blank() -> PlacedPoint {
        PlacedPoint {
            row: PackedPoint {
                owner: 0,
                number: MaybeNumber::none(),
                clause: 0,
                done: 0,
                goals: 0,
            },
            place: 0,
        }
    }

    /// Puts a point here, if its row tells it, and tells whether it does.
    #[inline(always)]
    pub fn put(&mut self, point: &KeptPoint) -> bool
        ensures { OnTrue result (self.new ≡ point.now) }
    {
        let tuple = match point.tuple {
            TuplePlace::Written(_) => return false,
            TuplePlace::Kept(tuple) => tuple,
        };
        let earlier = MaybeNumber::none();
        if !fits(point, tuple.number as usize, &earlier) {
            return false;
        }
        *self = PlacedPoint {
            row: PackedPoint::of(point, earlier),
            place: tuple.number,
        };
        true
    }

    /// The point.
    #[inline(always)]
    pub fn get(&self) -> KeptPoint
        ensures { result ≡ self.now }
    {
        let number = self.row.number.get();
        let before = if self.row.done == 0 {
            None
        } else {
            step_in(self.place, number)
        };
        self.row.told_as(self.place, before, None).point
    }
}
