//! Boxes in 16 bytes each.

ghost use Rattle.std.specs.Prelude.{◌≡◌, ◌<◌, ◌-◌, ◌^◌, List, length, None, IfOk, OnOk, OnErr};
ghost use Rattle.apd_boxes.specs.declared.boxes.Call.{Call};
ghost use Rattle.apd_boxes.specs.Owned.{earlier_of};
ghost use Rattle.apd_boxes.specs.Few.{few_with, kept_owning, lists_owning, lists_with, owned_in, points_in, IsFewThere};
ghost use Rattle.apd_boxes.specs.Packed.{few_of, own, told_in};

use crate::facts::PackedFacts;
use crate::few::{Few, Several, put_two};
use apd_past::maybe_number::MaybeNumber;
use apd_ports::PointId;
use std::alloc::{AllocError, Global};
use std::mem::{replace, size_of};
use std::slice;

/// A box as it is kept, with what it owns.
#[derive(Drop)]
pub struct PackedBox {
    /// The number of the point whose next goal was called; where its call is kept whole elsewhere, the place there.
    pub from: u32,
    pub facts: PackedFacts,
    /// Its exit; where it has several, the number of their list; where it has none, nothing.
    exits: PointId,
    /// The newest of its points without solved goals.
    first: MaybeNumber,
}

const _: () = prove!(size_of::<PackedBox>() == 16);

impl PackedBox {
    /// A box that owns nothing.
    #[inline(always)]
    pub fn new(from: u32, facts: PackedFacts) -> PackedBox
        ensures { result ≡
            record { from = from; facts = facts; exits = record { 0 = 0 }; first = None } }
    {
        PackedBox {
            from,
            facts,
            exits: PointId(0),
            first: MaybeNumber::none(),
        }
    }

    /// Its exits, as they are kept.
    #[inline(always)]
    fn few(&self) -> Few
        ensures { result ≡ few_of self.now }
    {
        match self.facts.exits() {
            0 => Few::None,
            1 => Few::One(self.exits),
            _ => Few::Many(self.exits.0),
        }
    }

    /// Its exits in order.
    pub fn points<'a>(&'a self, lists: &'a Vec<Several>) -> &'a [PointId]
        requires { IsFewThere (length lists.now.items) (few_of self.now) }
        ensures { result.now ≡ points_in lists.now.items (few_of self.now) }
    {
        match self.few() {
            Few::None => &[],
            Few::One(_) => slice::from_ref(&self.exits),
            Few::Many(number) => lists[number as usize].as_slice(),
        }
    }

    /// The newest of its points without solved goals.
    pub fn first(&self) -> Option<u32>
        ensures { result ≡ (own self.now).first }
    {
        self.first.get()
    }

    /// One more exit. After want of memory all is as before.
    #[inline(always)]
    fn add_exit(
        &mut self,
        alloc: Global,
        lists: &mut Vec<Several>,
        point: PointId,
    ) -> Result<(), AllocError>
        requires there { IsFewThere (length lists.old.items) (few_of self.old) }
        ensures exits { OnOk result
            (few_of self.new ≡ few_with (length lists.old.items) (few_of self.old) point) }
        ensures lists { OnOk result
            (lists.new.items ≡ lists_with lists.old.items (few_of self.old) point) }
        ensures first { self.new.first ≡ self.old.first }
        ensures told { (calls : List Call) → told_in calls self.new ≡ told_in calls self.old }
        ensures from { self.new.from ≡ self.old.from }
        ensures whole { self.new.facts.is_whole ≡ self.old.facts.is_whole }
        ensures err_row { OnErr result (self.new ≡ self.old) }
        ensures err_lists { OnErr result (lists.new.items ≡ lists.old.items) }
    {
        match self.few() {
            Few::None => {
                self.exits = point;
                self.facts.add_exit();
            }
            Few::One(first) => {
                let number = put_two(lists, first, point)?;
                self.exits = PointId(number);
                self.facts.add_exit();
            }
            Few::Many(number) => lists[number as usize].push(alloc, point)?,
        }
        Ok(())
    }

    /// One more point, by its number: tells the newest without solved goals before, if this is one too. After want of
    /// memory all is as before.
    #[inline(always)]
    pub fn add(
        &mut self,
        alloc: Global,
        lists: &mut Vec<Several>,
        number: u32,
        is_first: bool,
        is_exit: bool,
    ) -> Result<MaybeNumber, AllocError>
        requires number { number < 2 ^ 32 - 1 }
        requires there { IsFewThere (length lists.old.items) (few_of self.old) }
        ensures earlier { IfOk result
            (λ s. s ≡ earlier_of is_first (owned_in lists.old.items (own self.old))) }
        ensures row { OnOk result (own self.new ≡
            kept_owning (length lists.old.items) number is_first is_exit (own self.old)) }
        ensures lists { OnOk result
            (lists.new.items ≡ lists_owning lists.old.items number is_exit (few_of self.old)) }
        ensures told { (calls : List Call) → told_in calls self.new ≡ told_in calls self.old }
        ensures from { self.new.from ≡ self.old.from }
        ensures whole { self.new.facts.is_whole ≡ self.old.facts.is_whole }
        ensures err_row { OnErr result (self.new ≡ self.old) }
        ensures err_lists { OnErr result (lists.new.items ≡ lists.old.items) }
    {
        if is_exit {
            self.add_exit(alloc, lists, PointId(number))?;
        }
        if is_first {
            return Ok(replace(&mut self.first, MaybeNumber::at(number)));
        }
        Ok(MaybeNumber::none())
    }
}
