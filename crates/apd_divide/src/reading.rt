//! Tuples of recorded exits.

ghost use Rattle.std.specs.Prelude.{◌≡◌, ◌<◌, length, IfOk};
ghost use Rattle.apd_term.specs.Canonical.{canonical};
ghost use Rattle.apd_term.specs.Tuple.{canonical_tuple};
ghost use Rattle.apd_record.specs.Reading.{point_of};
ghost use Rattle.apd_divide.specs.Referring.{goal_at};

use apd_ports::PointId;
use apd_record::Record;
use apd_term::{Flat, Tuple, canonical_tuple};
use std::alloc::{AllocError, Global};

/// The tuple of a recorded exit. The only error is want of memory.
pub fn tuple_at(recorded: &Record, exit: PointId) -> Result<Tuple, AllocError>
    requires { exit.0 < length recorded.now.points }
    ensures { IfOk result (λ t. t ≡ (point_of recorded.now exit.0).tuple) }
{
    let tuple = recorded.tuple(exit)?;
    Ok(tuple)
}

/// The tuple of a recorded exit, in canonical form. The only error is want of memory.
pub fn form_at(alloc: Global, recorded: &Record, exit: PointId) -> Result<Tuple, AllocError>
    requires { exit.0 < length recorded.now.points }
    ensures { IfOk result (λ t. t ≡ canonical_tuple (point_of recorded.now exit.0).tuple) }
{
    let tuple = tuple_at(recorded, exit)?;
    let form = canonical_tuple(alloc, &tuple);
    drop(tuple);
    form
}

/// The head of the tuple of a recorded exit. The only error is want of memory.
pub fn head_at(recorded: &Record, exit: PointId) -> Result<Flat, AllocError>
    requires { exit.0 < length recorded.now.points }
    ensures { IfOk result (λ h. h ≡ (point_of recorded.now exit.0).tuple.head) }
{
    let tuple = tuple_at(recorded, exit)?;
    Ok(tuple.head)
}

/// The goal with this number, counted from 0, of a recorded exit, in canonical form. The only error
/// is want of memory.
pub fn goal_at(recorded: &Record, exit: PointId, place: usize) -> Result<Flat, AllocError>
    requires there { exit.0 < length recorded.now.points }
    requires place { place < length (point_of recorded.now exit.0).tuple.body }
    ensures { IfOk result (λ g. g ≡
        canonical (goal_at (point_of recorded.now exit.0).tuple.body place)) }
{
    match recorded.goal(exit, place)? {
        None => unreachable!(),
        Some(goal) => Ok(goal),
    }
}
