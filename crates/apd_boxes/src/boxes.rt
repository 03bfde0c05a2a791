//! The boxes of a record.

ghost use Rattle.std.specs.Prelude.{◌≡◌, ◌<◌, ◌-◌, ◌^◌, ◌∷◌, length, slice_get, Some, IfOk, IfSome, OnOk, OnErr};
ghost use Rattle.apd_boxes.specs.Owned.{earlier_of};
ghost use Rattle.apd_boxes.specs.Boxes.{adding, called_box, no_boxes, passing, with_box};
ghost use Rattle.apd_boxes.specs.Packed.{call_in, IsCallThere};

use crate::facts::{MOST_SYMBOLS, PackedFacts};
use crate::few::Several;
use crate::packed::PackedBox;
use apd_base::MOST_KEPT;
use apd_base::room::room_for_one;
use apd_past::maybe_number::MaybeNumber;
use apd_ports::{PointId, Port};
use std::alloc::{AllocError, Global};
use std::marker::Model;

/// The call of a box. Its goal was written, or it is the one that its point called, in canonical form, and isn't kept.
#[derive(Clone, Copy)]
pub struct Call {
    /// The number of the point whose next goal was called.
    pub from: u32,
    /// The place of its goal, if that was written; else how many symbols it has, or 0 where that isn't known.
    pub number: u32,
    pub is_written: bool,
}

/// A box, without what it owns.
#[derive(Clone, Copy)]
pub struct KeptBox {
    pub from: u32,
    pub number: u32,
    pub is_written: bool,
    pub is_user: bool,
    pub last: Port,
    pub complete: bool,
}

/// The call of a box that is kept so.
#[inline(always)]
fn call_in(calls: &Vec<Call>, row: &PackedBox) -> Call
    requires { IsCallThere (length calls.now.items) row.now }
    ensures { result ≡ call_in calls.now.items row.now }
{
    if row.facts.is_whole() {
        return calls[row.from as usize];
    }
    Call {
        from: row.from,
        number: row.facts.size(),
        is_written: false,
    }
}

/// A box with this number, as it is kept.
fn row_of<'a>(query: &'a PackedBox, rows: &'a Vec<PackedBox>, b: u32) -> &'a PackedBox
    requires { b < length (query.now ∷ rows.now.items) }
    ensures { slice_get (query.now ∷ rows.now.items) b ≡ Some result.now }
{
    if b == 0 { query } else { &rows[b as usize - 1] }
}

/// The boxes without the query's, and what each box owns, the query's first. Contracts see the two lists.
#[derive(Drop)]
pub struct Boxes {
    alloc: Global,
    query: PackedBox,
    rows: Vec<PackedBox>,
    /// The calls that rows have no room for.
    calls: Vec<Call>,
    /// The exits of the boxes that have several.
    lists: Vec<Several>,
}

impl Model for Boxes {
    ghost use Rattle.apd_boxes.specs.Boxes.{BoxList};
    ghost use Rattle.apd_boxes.specs.Packed.{boxes_in, AreBoxes};

    ghost Value = { BoxList };

    ghost view = { λ b. boxes_in b.calls.items b.lists.items b.query b.rows.items };

    ghost invariant = { λ b. AreBoxes b.calls.items b.lists.items b.query b.rows.items };
}

impl Boxes {
    /// The query's box alone, which owns nothing.
    pub fn new(alloc: Global) -> Boxes
        ensures { result ≡ no_boxes }
    {
        Boxes {
            alloc,
            query: PackedBox::new(0, PackedFacts::called(0, false, false)),
            rows: Vec::new(alloc),
            calls: Vec::new(alloc),
            lists: Vec::new(alloc),
        }
    }

    /// How many there are, not counting the query's.
    #[inline(always)]
    pub fn len(&self) -> usize
        ensures { result ≡ length self.now.boxes }
    {
        self.rows.len()
    }

    /// The point whose next goal was called in the box at this place.
    #[inline(always)]
    pub fn from(&self, place: usize) -> u32
        requires { place < length self.now.boxes }
        ensures { IfSome (slice_get self.now.boxes place) (λ b. result ≡ b.from) }
    {
        let row = &self.rows[place];
        call_in(&self.calls, row).from
    }

    /// The box at this place.
    pub fn read(&self, place: usize) -> KeptBox
        requires { place < length self.now.boxes }
        ensures { slice_get self.now.boxes place ≡ Some result }
    {
        let row = &self.rows[place];
        let call = call_in(&self.calls, row);
        KeptBox {
            from: call.from,
            number: call.number,
            is_written: call.is_written,
            is_user: row.facts.is_user(),
            last: row.facts.last(),
            complete: row.facts.is_complete(),
        }
    }

    /// One more box, whose call its row has no room for. Want of memory too where there would be 2 ^ 32 such calls.
    #[inline(never)]
    fn open_whole(&mut self, call: Call, is_user: bool) -> Result<(), AllocError>
        ensures ok { OnOk result (self.new ≡ with_box self.old
            (called_box call.from call.number call.is_written is_user)) }
        ensures err { OnErr result (self.new ≡ self.old) }
    {
        let place = self.calls.len();
        if place >= MOST_KEPT {
            return Err(AllocError);
        }
        room_for_one(&mut self.rows)?;
        room_for_one(&mut self.calls)?;
        self.calls.push_reserved(call);
        let facts = PackedFacts::called(0, is_user, true);
        self.rows.push_reserved(PackedBox::new(place as u32, facts));
        Ok(())
    }

    /// One more box, which owns nothing. After want of memory all is as before.
    #[inline(always)]
    pub fn open(&mut self, call: Call, is_user: bool) -> Result<(), AllocError>
        ensures ok { OnOk result (self.new ≡ with_box self.old
            (called_box call.from call.number call.is_written is_user)) }
        ensures err { OnErr result (self.new ≡ self.old) }
    {
        if call.is_written || call.number > MOST_SYMBOLS {
            return self.open_whole(call, is_user);
        }
        room_for_one(&mut self.rows)?;
        let facts = PackedFacts::called(call.number, is_user, false);
        self.rows.push_reserved(PackedBox::new(call.from, facts));
        Ok(())
    }

    /// The box at this place passes a port.
    #[inline(always)]
    pub fn pass(&mut self, place: usize, port: Port)
        requires { place < length self.old.boxes }
        ensures { self.new ≡ passing self.old place port }
    {
        self.rows[place].facts.pass(port);
    }

    /// One more point of a box, by its number: tells the newest without solved goals before, if this is one too. After want
    /// of memory all is as before.
    #[inline(always)]
    pub fn add(
        &mut self,
        owner: u32,
        number: u32,
        is_first: bool,
        is_exit: bool,
    ) -> Result<MaybeNumber, AllocError>
        requires owner { owner < length self.old.owned }
        requires number { number < 2 ^ 32 - 1 }
        ensures earlier { IfOk result (λ s. IfSome (slice_get self.old.owned owner)
            (λ o. s ≡ earlier_of is_first o)) }
        ensures ok { OnOk result (self.new ≡ adding self.old owner number is_first is_exit) }
        ensures err { OnErr result (self.new ≡ self.old) }
    {
        if owner == 0 {
            let earlier = self
                .query
                .add(self.alloc, &mut self.lists, number, is_first, is_exit)?;
            return Ok(earlier);
        }
        let row = &mut self.rows[owner as usize - 1];
        let earlier = row.add(self.alloc, &mut self.lists, number, is_first, is_exit)?;
        Ok(earlier)
    }

    /// The exits of a box in order.
    pub fn exits(&self, b: u32) -> &[PointId]
        requires { b < length self.now.owned }
        ensures { IfSome (slice_get self.now.owned b) (λ o. result.now ≡ o.exits) }
    {
        row_of(&self.query, &self.rows, b).points(&self.lists)
    }

    /// The newest of its points without solved goals.
    pub fn first(&self, b: u32) -> Option<u32>
        requires { b < length self.now.owned }
        ensures { IfSome (slice_get self.now.owned b) (λ o. result ≡ o.first) }
    {
        row_of(&self.query, &self.rows, b).first()
    }
}
