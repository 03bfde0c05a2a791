//! In which order boxes and points came about: where a search makes them, none of what a point leads to is kept.

ghost use Rattle.std.specs.Prelude.{◌≡◌, ◌+◌, ◌-◌, ◌<◌, ◌≤◌, ◌^◌};
ghost use Rattle.std.specs.Bool.{IsTrue, OnTrue};
ghost use Rattle.apd_record.specs.Index.{IsBelow};
ghost use Rattle.apd_record.specs.Ordered.{IsNext};

use apd_ports::Step;

/// What is noted of the order in which boxes and points came about.
#[derive(Clone, Copy)]
pub struct Order {
    /// Each point that came about by a step stands right behind the step's exit.
    pub in_turn: bool,
    /// Each box was called from a later point than those before it.
    pub rising: bool,
    /// Each box was called from a point below this one, where they are rising.
    pub above: u32,
}

/// Of no box and no point.
pub const NONE_YET: Order = Order {
    in_turn: true,
    rising: true,
    above: 0,
};

/// Whether a point with this number that came about so stands right behind the exit.
fn is_next(before: Option<Step>, number: u32) -> bool
    requires { IsBelow number before }
    ensures { OnTrue result (IsNext number before) }
{
    match before {
        Some(step) => step.exit.0 + 1 == number,
        None => true,
    }
}

/// Whether points are in turn where one more comes about so, with this number.
#[inline(always)]
pub fn stays_in_turn(in_turn: bool, before: Option<Step>, number: u32) -> bool
    requires { IsBelow number before }
    ensures was { OnTrue result (IsTrue in_turn) }
    ensures next { OnTrue result (IsNext number before) }
{
    in_turn && is_next(before, number)
}

/// Notes that one more box is called from this point. Each part is written by itself, as each is
/// read by itself: a processor waits where it reads a part of what was just stored as a whole.
#[inline(always)]
pub fn note_call(order: &mut Order, from: u32)
    requires { from < 2 ^ 32 - 1 }
    ensures in_turn { order.new.in_turn ≡ order.old.in_turn }
    ensures was { OnTrue order.new.rising (IsTrue order.old.rising) }
    ensures later { OnTrue order.new.rising (order.old.above ≤ from) }
    ensures above { order.new.above ≡ from + 1 }
{
    order.rising = order.rising && order.above <= from;
    order.above = from + 1;
}

/// What is noted of the order where one more box is called from this point.
#[inline(always)]
pub fn with_call(order: Order, from: u32) -> Order
    requires { from < 2 ^ 32 - 1 }
    ensures in_turn { result.in_turn ≡ order.in_turn }
    ensures was { OnTrue result.rising (IsTrue order.rising) }
    ensures later { OnTrue result.rising (order.above ≤ from) }
    ensures above { result.above ≡ from + 1 }
{
    let mut noted = order;
    note_call(&mut noted, from);
    noted
}
