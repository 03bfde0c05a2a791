//! What a point leads to, found among boxes and points.

ghost use Rattle.std.specs.Prelude.{◌≡◌, ◌+◌, ◌<◌, ◌≤◌, ◌^◌, length, IfSome};
ghost use Rattle.std.specs.Bool.{OnTrue};
ghost use Rattle.std.specs.Option.{option_map};
ghost use Rattle.apd_ports.specs.declared.point.PointId.{PointId};
ghost use Rattle.apd_record.specs.Index.{id_of};
ghost use Rattle.apd_record.specs.Recorded.{is_step};
ghost use Rattle.apd_record.specs.Ordered.{AreInTurn, AreRising, kept_child, kept_follow};
ghost use Rattle.apd_points.specs.Packed.{points_of};

use apd_boxes::Boxes;
use apd_points::Points;
use apd_ports::{PointId, Step};

/// Whether a point followed this one after the exit.
fn is_step(before: Option<Step>, p: PointId, exit: PointId) -> bool
    ensures { result ≡ is_step before p.0 exit.0 }
{
    match before {
        Some(step) => step.point.0 == p.0 && step.exit.0 == exit.0,
        None => false,
    }
}

/// The point that followed, where it stands right behind the exit if there is one.
fn follow_in_turn(points: &Points, p: PointId, exit: PointId) -> Option<PointId>
    requires few { length points.now.rows < 2 ^ 32 }
    requires in_turn { AreInTurn (points_of points.now) }
    ensures point { result ≡ option_map id_of (kept_follow (points_of points.now) p.0 exit.0) }
    ensures there { IfSome result (λ (q : PointId). q.0 < length points.now.rows) }
{
    let next = exit.0 as usize + 1;
    if next >= points.len() {
        return None;
    }
    if is_step(points.read(next as u32).point.before, p, exit) {
        return Some(PointId(next as u32));
    }
    None
}

/// The point that followed, wherever it stands.
fn follow_anywhere(points: &Points, p: PointId, exit: PointId) -> Option<PointId>
    requires { length points.now.rows < 2 ^ 32 }
    ensures point { result ≡ option_map id_of (kept_follow (points_of points.now) p.0 exit.0) }
    ensures there { IfSome result (λ (q : PointId). q.0 < length points.now.rows) }
{
    'points: for place in 0..points.len() {
        if is_step(points.read(place as u32).point.before, p, exit) {
            return Some(PointId(place as u32));
        }
    }
    None
}

/// The point that followed this one when its goal exited at the other.
pub fn find_follow(in_turn: bool, points: &Points, p: PointId, exit: PointId) -> Option<PointId>
    requires few { length points.now.rows < 2 ^ 32 }
    requires in_turn { OnTrue in_turn (AreInTurn (points_of points.now)) }
    ensures point { result ≡ option_map id_of (kept_follow (points_of points.now) p.0 exit.0) }
    ensures there { IfSome result (λ (q : PointId). q.0 < length points.now.rows) }
{
    if in_turn {
        return follow_in_turn(points, p, exit);
    }
    follow_anywhere(points, p, exit)
}

/// The box that was called from the point, by halving, where boxes are rising.
fn child_rising(boxes: &Boxes, from: u32) -> Option<u32>
    requires few { length boxes.now.boxes < 2 ^ 32 }
    requires rising { AreRising boxes.now.boxes }
    ensures child { result ≡ kept_child boxes.now.boxes from }
    ensures there { IfSome result (λ b. (0 < b) × (b ≤ length boxes.now.boxes)) }
{
    let mut low = 0;
    let mut high = boxes.len();
    'halves: while low < high {
        let middle = low + (high - low) / 2;
        let there = boxes.from(middle);
        if there == from {
            return Some(middle as u32 + 1);
        }
        if there < from {
            low = middle + 1;
        } else {
            high = middle;
        }
    }
    None
}

/// The box that was called from the point, wherever it stands.
fn child_anywhere(boxes: &Boxes, from: u32) -> Option<u32>
    requires { length boxes.now.boxes < 2 ^ 32 }
    ensures child { result ≡ kept_child boxes.now.boxes from }
    ensures there { IfSome result (λ b. (0 < b) × (b ≤ length boxes.now.boxes)) }
{
    'boxes: for place in 0..boxes.len() {
        if boxes.from(place) == from {
            return Some(place as u32 + 1);
        }
    }
    None
}

/// The box that was called from the point.
pub fn find_child(rising: bool, boxes: &Boxes, from: u32) -> Option<u32>
    requires few { length boxes.now.boxes < 2 ^ 32 }
    requires rising { OnTrue rising (AreRising boxes.now.boxes) }
    ensures child { result ≡ kept_child boxes.now.boxes from }
    ensures there { IfSome result (λ b. (0 < b) × (b ≤ length boxes.now.boxes)) }
{
    if rising {
        return child_rising(boxes, from);
    }
    child_anywhere(boxes, from)
}
