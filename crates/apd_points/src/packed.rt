//! Points in 12 bytes each.

ghost use Rattle.std.specs.Prelude.{◌≡◌, ◌<◌, ◌-◌, ◌^◌, IfSome};
ghost use Rattle.std.specs.Bool.{OnTrue};
ghost use Rattle.apd_points.specs.Packed.{behind, clause_in, goals_in, row_of, step_in, told_as, Fits, HasPlace, HasRoom};

use crate::kept::{KeptPoint, TuplePlace};
use apd_base::MOST_CLAUSES;
use apd_past::maybe_number::MaybeNumber;
use apd_ports::{BUILTIN, PointId, Step};
use apd_tuples::spots::Numbered;
use std::mem::size_of;

/// A point as it is kept. Its tuple is the kept one with the number that is the point's own. Where no goal is solved it came
/// about by no step, else by one whose exit is the point right before it, and then it is none of those without solved goals.
/// One that is otherwise is kept whole elsewhere.
#[derive(Drop)]
pub struct PackedPoint {
    pub owner: u32,
    /// Where no goal is solved, the point before it among those of its box without solved goals; else the step's point. Of one
    /// that is kept whole, its place there.
    pub number: MaybeNumber,
    /// [`KEPT_BUILTIN`] for a built-in goal, and [`WHOLE`] for a point that is kept whole.
    pub clause: u16,
    pub done: u8,
    pub goals: u8,
}

const _: () = prove!(size_of::<PackedPoint>() == 12);

/// A point, and the point before it among those of its box without solved goals, if it is one.
#[derive(Clone, Copy)]
pub struct WholePoint {
    pub point: KeptPoint,
    pub earlier: Option<u32>,
}

/// What stands in a row in place of [`BUILTIN`]: its lower 16 bits.
const KEPT_BUILTIN: u16 = 65_535;

/// What stands in a row in place of a clause's number where the point is kept whole.
pub const WHOLE: u16 = 65_534;

const _: () = prove!(MOST_CLAUSES < WHOLE as u32);

/// The greatest number, for which a row has no room.
const MOST_NUMBER: u32 = 4_294_967_295;

/// Whether a row has room for the number of a clause.
#[inline(always)]
fn has_place(clause: u32) -> bool
    ensures { OnTrue result (HasPlace clause) }
{
    clause < WHOLE as u32 || clause == BUILTIN
}

/// The number of a clause that is kept so.
#[inline(always)]
fn clause_in(kept: u16) -> u32
    ensures { result ≡ clause_in kept }
{
    if kept == KEPT_BUILTIN {
        return BUILTIN;
    }
    kept as u32
}

/// Whether a row tells the point at this place.
#[inline(always)]
pub fn fits(point: &KeptPoint, place: usize, earlier: &MaybeNumber) -> bool
    ensures { OnTrue result (Fits place point.now earlier.now) }
{
    let tuple = match point.tuple {
        TuplePlace::Written(_) => return false,
        TuplePlace::Kept(tuple) => tuple,
    };
    if tuple.number as usize != place || tuple.goals > 255 || !has_place(point.clause) {
        return false;
    }
    match point.before {
        None => point.done == 0,
        Some(step) => {
            point.done > 0
                && step.exit.0 as usize + 1 == place
                && step.point.0 != MOST_NUMBER
                && earlier.get().is_none()
        }
    }
}

/// The step by which the point at a place came about: it followed the point with this number.
#[inline(always)]
pub fn step_in(place: u32, number: Option<u32>) -> Option<Step>
    ensures { result ≡ step_in place number }
{
    match number {
        None => None,
        Some(number) => Some(Step {
            point: PointId(number),
            exit: PointId(place.saturating_sub(1)),
        }),
    }
}

impl PackedPoint {
    /// The row that tells the point.
    #[inline(always)]
    pub fn of(point: &KeptPoint, earlier: MaybeNumber) -> PackedPoint
        requires goals { goals_in point.now.tuple < 256 }
        requires number { HasRoom point.now.before }
        ensures { result ≡ row_of point.now earlier }
    {
        let goals = match point.tuple {
            TuplePlace::Written(_) => 0,
            TuplePlace::Kept(tuple) => tuple.goals as u8,
        };
        let number = match point.before {
            None => earlier,
            Some(step) => MaybeNumber::at(step.point.0),
        };
        PackedPoint {
            owner: point.owner,
            number,
            clause: (point.clause % 65_536) as u16,
            done: point.done,
            goals,
        }
    }

    /// The row of the same point, where this is before it among those of its box without solved
    /// goals, if it is one.
    #[inline(always)]
    pub fn behind(&self, earlier: MaybeNumber) -> PackedPoint
        requires { IfSome self.now.number (λ n. n < 2 ^ 32 - 1) }
        ensures { result ≡ behind self.now earlier }
    {
        let number = match self.number.get() {
            None => earlier,
            Some(number) => MaybeNumber::at(number),
        };
        PackedPoint {
            owner: self.owner,
            number,
            clause: self.clause,
            done: self.done,
            goals: self.goals,
        }
    }

    /// What the row at this place tells of a point that came about so.
    #[inline(always)]
    pub fn told_as(&self, place: u32, before: Option<Step>, earlier: Option<u32>) -> WholePoint
        ensures { result ≡ told_as place self.now before earlier }
    {
        WholePoint {
            point: KeptPoint {
                owner: self.owner,
                clause: clause_in(self.clause),
                done: self.done,
                tuple: TuplePlace::Kept(Numbered {
                    number: place,
                    goals: self.goals as u32,
                }),
                before,
            },
            earlier,
        }
    }
}
