//! Instances of nodes, which are read from the record where they are wanted.

ghost use Rattle.std.specs.Prelude.{◌≡◌, ◌<◌, length, IfOk};
ghost use Rattle.apd_term.specs.Term.{predicate_of};
ghost use Rattle.apd_term.specs.Tuple.{canonical_tuple};
ghost use Rattle.apd_record.specs.Reading.{point_of};
ghost use Rattle.apd_divide.specs.Referring.{HasGroundHead};

use crate::reading::{form_at, head_at};
use crate::spelled::Spelled;
use apd_ports::PointId;
use apd_record::Record;
use apd_term::{Flat, Pred, Tuple};
use std::alloc::{AllocError, Global};
use std::boxed::Box;
use std::marker::Model;

/// Where a tuple is.
#[derive(Drop)]
pub enum NodeTuplePlace<'a> {
    /// It is that of this recorded exit, in canonical form. No variable stands in its head, which
    /// has this predicate.
    Recorded(PointId, Pred, &'a Record),
    /// It is one of its own.
    Own(Box<Spelled>),
}

/// The tuple of a node: that of a recorded exit isn't written out before it is wanted. Contracts see
/// the tuple.
#[derive(Drop)]
pub struct NodeTuple<'a> {
    place: NodeTuplePlace<'a>,
}

impl<'a> Model for NodeTuple<'a> {
    ghost use Rattle.apd_term.specs.declared.tuple.Tuple.{Tuple};
    ghost use Rattle.apd_clauses.specs.Codes.{tuple_code};
    ghost use Rattle.apd_divide.specs.Referring.{tuple_in, IsTupleThere};

    ghost Value = { Tuple };

    ghost coded = { tuple_code };

    ghost view = { λ t. tuple_in t.place };

    ghost invariant = { λ t. IsTupleThere t.place };
}

impl<'a> NodeTuple<'a> {
    /// The tuple of a recorded exit, in canonical form. No variable stands in its head, which has
    /// this predicate.
    pub fn of_exit(recorded: &'a Record, exit: PointId, pred: Pred) -> NodeTuple<'a>
        requires there { exit.0 < length recorded.now.points }
        requires exit { HasGroundHead recorded.now exit.0 pred }
        ensures { result ≡ canonical_tuple (point_of recorded.now exit.0).tuple }
    {
        NodeTuple {
            place: NodeTuplePlace::Recorded(exit, pred, recorded),
        }
    }

    /// This tuple. The only error is want of memory.
    pub fn of_tuple(alloc: Global, tuple: &Tuple) -> Result<NodeTuple<'a>, AllocError>
        ensures { IfOk result (λ t. t ≡ tuple.now) }
    {
        let spelled = Box::new(alloc, Spelled::of_tuple(alloc, tuple)?)?;
        Ok(NodeTuple {
            place: NodeTuplePlace::Own(spelled),
        })
    }

    /// The predicate of the head; none where the head has none.
    pub fn pred(&self) -> Option<Pred>
        ensures { result ≡ predicate_of self.now.head }
    {
        match &self.place {
            NodeTuplePlace::Recorded(_, pred, _) => Some(*pred),
            NodeTuplePlace::Own(spelled) => spelled.head().pred(),
        }
    }

    /// The head. The only error is want of memory.
    pub fn head(&self, alloc: Global) -> Result<Flat, AllocError>
        ensures { IfOk result (λ h. h ≡ self.now.head) }
    {
        match &self.place {
            NodeTuplePlace::Recorded(exit, _, recorded) => head_at(recorded, *exit),
            NodeTuplePlace::Own(spelled) => spelled.head().copy(alloc),
        }
    }

    /// The tuple. The only error is want of memory.
    pub fn tuple(&self, alloc: Global) -> Result<Tuple, AllocError>
        ensures { IfOk result (λ t. t ≡ self.now) }
    {
        match &self.place {
            NodeTuplePlace::Recorded(exit, _, recorded) => form_at(alloc, recorded, *exit),
            NodeTuplePlace::Own(spelled) => spelled.tuple(alloc),
        }
    }
}
