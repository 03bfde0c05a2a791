//! The points of a record.

ghost use Rattle.std.specs.Prelude.{◌≡◌, ◌<◌, ◌-◌, ◌^◌, ◌++◌, ◌∷◌, [], length, slice_get, None, Some, OnOk};
ghost use Rattle.std.specs.Bool.{IsTrue, OnTrue};
ghost use Rattle.apd_points.specs.declared.packed.WholePoint.{WholePoint};
ghost use Rattle.apd_points.specs.Packed.{links_of, points_of, whole_in, Fits, IsPlace};

use crate::kept::KeptPoint;
use crate::packed::{PackedPoint, WHOLE, WholePoint, fits, step_in};
use crate::placed::PlacedPoint;
use apd_base::room::room_for_one;
use apd_past::maybe_number::MaybeNumber;
use std::alloc::{AllocError, Global};
use std::marker::Model;

/// The point that is kept whole at this place.
fn whole_at(others: &Vec<WholePoint>, place: Option<u32>) -> WholePoint
    requires { IsPlace (length others.now.items) place }
    ensures { (w : WholePoint) → result ≡ whole_in others.now.items place w }
{
    match place {
        None => unreachable!(),
        Some(place) => others[place as usize],
    }
}

/// The points of a record, with the point before each among those of its box without solved goals. Contracts see their list,
/// and whether there is room for one more.
#[derive(Drop)]
pub struct Points {
    rows: Vec<PackedPoint>,
    /// Those that their rows don't tell.
    others: Vec<WholePoint>,
}

impl Model for Points {
    ghost use Rattle.std.specs.Prelude.{nat_lt, ◌&&◌, vec_len, vec_capacity};
    ghost use Rattle.apd_points.specs.Packed.{unpacked_from, IsPacked, Listed};

    ghost Value = { Listed };

    ghost view = { λ p. record {
      rows = unpacked_from p.others.items 0 p.rows.items;
      has_row = nat_lt (vec_len p.rows) (vec_capacity p.rows);
      has_room = nat_lt (vec_len p.rows) (vec_capacity p.rows) && nat_lt (vec_len p.others) (vec_capacity p.others);
    } };

    ghost invariant = { λ p. IsPacked p.rows.items p.others.items };
}

impl Points {
    /// No point.
    pub fn new(alloc: Global) -> Points
        ensures { result.rows ≡ [] }
    {
        Points {
            rows: Vec::new(alloc),
            others: Vec::new(alloc),
        }
    }

    /// How many there are.
    pub fn len(&self) -> usize
        ensures { result ≡ length self.now.rows }
    {
        self.rows.len()
    }

    /// The point at this place, with the point before it among those of its box without solved goals, if it is one.
    #[inline(always)]
    pub fn read(&self, place: u32) -> WholePoint
        requires { place < length self.now.rows }
        ensures point { slice_get (points_of self.now) place ≡ Some result.point }
        ensures earlier { slice_get (links_of self.now) place ≡ Some result.earlier }
    {
        let row = &self.rows[place as usize];
        let number = row.number.get();
        if row.clause == WHOLE {
            return whole_at(&self.others, number);
        }
        if row.done == 0 {
            return row.told_as(place, None, number);
        }
        row.told_as(place, step_in(place, number), None)
    }

    /// Room for a point that its row tells.
    #[inline(always)]
    pub fn room_for_row(&mut self) -> Result<(), AllocError>
        ensures rows { self.new.rows ≡ self.old.rows }
        ensures room { OnOk result (IsTrue self.new.has_row) }
    {
        room_for_one(&mut self.rows)
    }

    /// Whether the point comes next here.
    #[inline(always)]
    pub fn is_next(&self, point: &PlacedPoint) -> bool
        ensures { OnTrue result (Fits (length self.now.rows) point.now None) }
    {
        point.place as usize == self.len()
    }

    /// Puts a point at the end that its row tells, as it is kept.
    #[inline(always)]
    pub fn push_placed(&mut self, point: &PlacedPoint, earlier: MaybeNumber)
        requires room { IsTrue self.old.has_row }
        requires fits { Fits (length self.old.rows) point.now earlier }
        ensures { self.new.rows ≡ self.old.rows
            ++ record { point = point.now; earlier = earlier } ∷ [] }
    {
        self.rows.push_reserved(point.row.behind(earlier));
    }

    /// Room for a point.
    #[inline(always)]
    pub fn room(&mut self) -> Result<(), AllocError>
        ensures rows { self.new.rows ≡ self.old.rows }
        ensures room { OnOk result (IsTrue self.new.has_room) }
    {
        room_for_one(&mut self.rows)?;
        room_for_one(&mut self.others)
    }

    /// Puts a point at the end that its row doesn't tell.
    fn push_other(&mut self, point: WholePoint)
        requires room { IsTrue self.old.has_room }
        requires few { length self.old.rows < 2 ^ 32 - 1 }
        ensures { self.new.rows ≡ self.old.rows ++ point ∷ [] }
    {
        let number = self.others.len() as u32;
        self.others.push_reserved(point);
        self.rows.push_reserved(PackedPoint {
            owner: 0,
            number: MaybeNumber::at(number),
            clause: WHOLE,
            done: 0,
            goals: 0,
        });
    }

    /// Puts a point at the end.
    #[inline(always)]
    pub fn push_reserved(&mut self, point: KeptPoint, earlier: MaybeNumber)
        requires room { IsTrue self.old.has_room }
        requires few { length self.old.rows < 2 ^ 32 - 1 }
        ensures { self.new.rows ≡ self.old.rows
            ++ record { point = point; earlier = earlier } ∷ [] }
    {
        if fits(&point, self.rows.len(), &earlier) {
            self.rows.push_reserved(PackedPoint::of(&point, earlier));
            return;
        }
        let earlier = earlier.get();
        self.push_other(WholePoint { point, earlier });
    }
}
