//! What a record has, read whole.

ghost use Rattle.std.specs.Prelude.{◌≡◌, ◌<◌, ◌≤◌, length, IfSome, Some, false};
ghost use Rattle.apd_ports.specs.declared.point.Point.{Point};
ghost use Rattle.apd_record.specs.Recorded.{IsExit, goal_left, point_at};
ghost use Rattle.apd_record.specs.Sound.{IsOpen};

use apd_ports::{Point, PointId};
use apd_record::Record;
use apd_term::Flat;

/// The point with this number; None for want of memory.
pub fn point_of(recorded: &Record, p: PointId) -> Option<Point>
    requires { p.0 < length recorded.now.points }
    ensures point { IfSome result (λ (x : Point). point_at recorded.now p.0 ≡ Some x) }
    ensures owner { IfSome result (λ (x : Point). x.owner ≤ length recorded.now.boxes) }
{
    let tuple = recorded.tuple(p).ok()?;
    Some(Point {
        owner: recorded.owner(p),
        clause: recorded.clause(p),
        done: recorded.done(p),
        tuple,
        before: recorded.before(p),
    })
}

/// Whether nothing more comes to what the box owns; box 0 is the query's.
pub fn is_complete(recorded: &Record, b: u32) -> bool
    requires { b ≤ length recorded.now.boxes }
    ensures { result ≡ false → IsOpen recorded.now b }
{
    b != 0 && recorded.is_complete(b)
}

/// Whether a goal of the point is left to be solved.
pub fn has_goal(point: &Point) -> bool
    ensures { result ≡ false → IsExit point.now }
{
    (point.done as usize) < point.tuple.body.len()
}

/// The goal of the point that is to be solved next.
pub fn next_goal(point: &Point) -> Option<&Flat>
    ensures { IfSome result (λ goal. goal_left point.now ≡ Some goal.now) }
{
    point.tuple.body.as_slice().get(point.done as usize)
}
