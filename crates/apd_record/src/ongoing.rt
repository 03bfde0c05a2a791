//! The record of a search that goes on.

ghost use Rattle.std.specs.Prelude.{◌≡◌, ◌<◌, ◌≤◌, ◌+◌, ◌-◌, ◌^◌, length, nat_lt, not, None, IfOk, OnOk, OnErr};
ghost use Rattle.apd_points.specs.Packed.{Fits};
ghost use Rattle.apd_record.specs.Index.{IsBelow};
ghost use Rattle.apd_record.specs.Open.{no_rows, noted_row, point_row, rows_held, with_box_row, with_point_row, MayAdd};

use crate::held::{Held, Holds, point_of_row};
use crate::order::{NONE_YET, Order, note_call, stays_in_turn};
use apd_boxes::{Boxes, Call};
use apd_points::{KeptPoint, PlacedPoint, Points, TuplePlace};
use apd_ports::{PointId, Port, Step};
use apd_tuples::spots::Numbered;
use std::alloc::{AllocError, Global};
use std::marker::Model;

/// A point whose instance is a kept tuple.
#[derive(Clone, Copy)]
pub struct OpenPoint {
    pub owner: u32,
    pub clause: u32,
    pub done: u8,
    pub tuple: Numbered,
    pub before: Option<Step>,
}

/// The boxes and points of a search that goes on. Their terms are kept tuples: no term is looked at
/// before the search is over.
#[derive(Drop)]
pub struct Open {
    pub(crate) alloc: Global,
    pub(crate) boxes: Boxes,
    pub(crate) points: Points,
    pub(crate) order: Order,
}

impl Model for Open {
    ghost use Rattle.apd_record.specs.Open.{Rows, IsBeside};
    ghost use Rattle.apd_points.specs.Packed.{links_of, points_of};

    ghost Value = { Rows };

    ghost view = { λ o. record { boxes = o.boxes.boxes; points = points_of o.points } };

    ghost invariant = { λ o. IsBeside (record { boxes = o.boxes.boxes; points = points_of o.points }) o.boxes.owned (links_of o.points) o.order };
}

/// Whether all goals are solved.
fn are_solved(done: u8, goals: u32) -> bool
    ensures { result ≡ not (nat_lt done goals) }
{
    done as u32 >= goals
}

/// The point as it is kept.
#[inline(always)]
pub(crate) fn row_of(point: &OpenPoint) -> KeptPoint
    ensures { result ≡ point_row point.now }
{
    KeptPoint {
        owner: point.owner,
        clause: point.clause,
        done: point.done,
        tuple: TuplePlace::Kept(point.tuple),
        before: point.before,
    }
}

impl Open {
    /// No box and no point.
    pub fn new(alloc: Global) -> Open
        ensures { result ≡ no_rows }
    {
        Open {
            alloc,
            boxes: Boxes::new(alloc),
            points: Points::new(alloc),
            order: NONE_YET,
        }
    }

    /// Calls the next goal of a point, which has so many symbols, or 0 where that isn't known: a new box, and its number.
    #[inline(always)]
    pub fn open_box(&mut self, from: PointId, user: bool, size: u32) -> Result<u32, AllocError>
        requires from { from.0 < length self.old.points }
        requires few { length self.old.boxes < 2 ^ 32 - 1 }
        ensures number { IfOk result (λ b. b ≡ length self.old.boxes + 1) }
        ensures opened { OnOk result (self.new ≡ with_box_row self.old from.0 user size) }
        ensures err { OnErr result (self.new ≡ self.old) }
    {
        let place = self.boxes.len() as u32;
        let call = Call {
            from: from.0,
            number: size,
            is_written: false,
        };
        self.boxes.open(call, user)?;
        note_call(&mut self.order, from.0);
        Ok(place + 1)
    }

    /// A new point that its row tells, and that is kept so already.
    #[inline(always)]
    fn add_row(&mut self, point: OpenPoint, row: &PlacedPoint) -> Result<(), AllocError>
        requires owner { point.owner ≤ length self.old.boxes }
        requires before { IsBelow (length self.old.points) point.before }
        requires few { length self.old.points < 2 ^ 32 - 1 }
        requires row { row.now ≡ point_row point }
        requires fits { Fits (length self.old.points) (point_row point) None }
        ensures added { OnOk result (self.new ≡ with_point_row self.old point) }
        ensures err { OnErr result (self.new ≡ self.old) }
    {
        let number = self.points.len() as u32;
        self.points.room_for_row()?;
        let is_exit = are_solved(point.done, point.tuple.goals);
        let is_first = point.done == 0;
        let earlier = self.boxes.add(point.owner, number, is_first, is_exit)?;
        self.points.push_placed(row, earlier);
        Ok(())
    }

    /// A new point that is put by its fields. A search comes here for none.
    #[inline(never)]
    fn add_point(&mut self, point: OpenPoint) -> Result<(), AllocError>
        requires owner { point.owner ≤ length self.old.boxes }
        requires before { IsBelow (length self.old.points) point.before }
        requires few { length self.old.points < 2 ^ 32 - 1 }
        ensures added { OnOk result (self.new ≡ with_point_row self.old point) }
        ensures err { OnErr result (self.new ≡ self.old) }
    {
        let number = self.points.len() as u32;
        self.points.room()?;
        let is_exit = are_solved(point.done, point.tuple.goals);
        let is_first = point.done == 0;
        let earlier = self.boxes.add(point.owner, number, is_first, is_exit)?;
        self.order.in_turn = stays_in_turn(self.order.in_turn, point.before, number);
        self.points.push_reserved(row_of(&point), earlier);
        Ok(())
    }

    /// Makes a point that was held back, if there is one, in whichever way it is held. It is a
    /// function of its own, so that its parts stand in no loop of a run.
    #[inline(never)]
    #[cold]
    fn add_taken(&mut self, held: &mut Held) -> Result<(), AllocError>
        requires may { MayAdd self.old held.old }
        requires few { length self.old.points < 2 ^ 32 - 1 }
        ensures added { OnOk result (self.new ≡ rows_held self.old held.old) }
        ensures err { OnErr result (self.new ≡ self.old) }
        ensures none { held.new ≡ None }
    {
        match held.take() {
            None => Ok(()),
            Some(point) => {
                self.add_point(point)?;
                Ok(())
            }
        }
    }

    /// A point that was held back is made.
    #[inline(always)]
    pub fn add_held(&mut self, held: &mut Held) -> Result<(), AllocError>
        requires may { MayAdd self.old held.old }
        requires few { length self.old.points < 2 ^ 32 - 1 }
        ensures added { OnOk result (self.new ≡ rows_held self.old held.old) }
        ensures err { OnErr result (self.new ≡ self.old) }
        ensures none { held.new ≡ None }
    {
        match held.holds {
            Holds::Nothing => Ok(()),
            Holds::Row => {
                if self.points.is_next(&held.placed) {
                    held.holds = Holds::Nothing;
                    return self.add_row(point_of_row(held.placed.get()), &held.placed);
                }
                self.add_taken(held)
            }
            Holds::Whole => self.add_taken(held),
        }
    }

    /// The port was passed last by the box; `Fail` makes it complete.
    pub fn note(&mut self, box_no: u32, port: Port)
        requires from { 0 < box_no }
        requires to { box_no ≤ length self.old.boxes }
        ensures { self.new ≡ noted_row self.old box_no port }
    {
        self.boxes.pass(box_no as usize - 1, port);
    }
}
