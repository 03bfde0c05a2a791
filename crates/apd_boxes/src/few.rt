//! The exits of a box, of which most have one.

ghost use Rattle.std.specs.Prelude.{◌≡◌, ◌++◌, ◌∷◌, [], length, IfOk, OnOk, OnErr};

use apd_base::{ListOf, MOST_KEPT};
use apd_ports::PointId;
use std::alloc::{AllocError, Global};
use std::boxed::Box;
use std::marker::Model;
use std::mem::{replace, size_of};

/// A list of points. One of several points is among lists beside it, which has this number there.
#[derive(Clone, Copy)]
pub enum Few {
    None,
    One(PointId),
    Many(u32),
}

/// Several points: two, as most lists of several have, or a list elsewhere.
#[derive(Drop)]
pub enum KeptSeveral {
    Two([PointId; 2]),
    Many(Box<ListOf<PointId>>),
}

/// Several points in order. Contracts see their list.
#[derive(Drop)]
pub struct Several {
    kept: KeptSeveral,
}

const _: () = prove!(size_of::<Several>() == 16);

impl Model for Several {
    ghost use Rattle.std.specs.Prelude.{List};
    ghost use Rattle.apd_ports.specs.declared.point.PointId.{PointId};
    ghost use Rattle.apd_boxes.specs.Several.{several_in};

    ghost Value = { List PointId };

    ghost view = { λ s. several_in s.kept };
}

/// The list of these points and one more.
fn with_one(alloc: Global, points: &[PointId], last: PointId) -> Result<ListOf<PointId>, AllocError>
    ensures { IfOk result (λ l. l ≡ points.now ++ last ∷ []) }
{
    let mut list = ListOf::new(alloc);
    list.extend(points)?;
    list.push(last)?;
    Ok(list)
}

impl Several {
    /// Two points.
    fn two(first: PointId, second: PointId) -> Several
        ensures { result ≡ first ∷ second ∷ [] }
    {
        Several {
            kept: KeptSeveral::Two([first, second]),
        }
    }

    /// The points in order.
    pub fn as_slice(&self) -> &[PointId]
        ensures { result.now ≡ self.now }
    {
        match &self.kept {
            KeptSeveral::Two(two) => two.as_slice(),
            KeptSeveral::Many(list) => list.as_slice(),
        }
    }

    /// Puts a point at the end; after want of memory all is as before.
    pub fn push(&mut self, alloc: Global, point: PointId) -> Result<(), AllocError>
        ensures ok { OnOk result (self.new ≡ self.old ++ point ∷ []) }
        ensures err { OnErr result (self.new ≡ self.old) }
    {
        if let KeptSeveral::Many(list) = &mut self.kept {
            return list.push(point);
        }
        let list = with_one(alloc, self.as_slice(), point)?;
        let boxed = Box::new(alloc, list)?;
        drop(replace(&mut self.kept, KeptSeveral::Many(boxed)));
        Ok(())
    }
}

/// Puts the list of two points behind the others, and tells its number. Want of memory too where there would be 2 ^ 32.
pub fn put_two(lists: &mut Vec<Several>, first: PointId, second: PointId) -> Result<u32, AllocError>
    ensures number { IfOk result (λ n. n ≡ length lists.old.items) }
    ensures ok { OnOk result (lists.new.items ≡ lists.old.items ++ (first ∷ second ∷ []) ∷ []) }
    ensures err { OnErr result (lists.new.items ≡ lists.old.items) }
{
    let number = lists.len();
    if number >= MOST_KEPT {
        return Err(AllocError);
    }
    lists.push(Several::two(first, second))?;
    Ok(number as u32)
}
