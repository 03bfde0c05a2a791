//! Labels of calls, which are read from the record where they are wanted.

ghost use Rattle.std.specs.Prelude.{◌≡◌, ◌<◌, length, IfOk};
ghost use Rattle.apd_term.specs.Canonical.{canonical};
ghost use Rattle.apd_record.specs.Reading.{point_of};
ghost use Rattle.apd_divide.specs.Referring.{goal_at};

use crate::reading::{goal_at, head_at};
use apd_ports::PointId;
use apd_record::Record;
use apd_term::Flat;
use std::alloc::{AllocError, Global};
use std::marker::Model;

/// Where a label is.
#[derive(Drop)]
pub enum LabelPlace<'a> {
    /// It is the head of this recorded exit.
    Recorded(&'a Record, PointId),
    /// It is the goal with this number, counted from 0, of this recorded exit, in canonical form.
    Goal(&'a Record, PointId, usize),
    /// It is a term of its own.
    Own(Flat),
}

/// A label: one of a recorded exit isn't written out before it is wanted. Contracts see the term.
#[derive(Drop)]
pub struct Label<'a> {
    place: LabelPlace<'a>,
}

impl<'a> Model for Label<'a> {
    ghost use Rattle.apd_term.specs.Term.{Term};
    ghost use Rattle.apd_term.specs.Spelling.{term_code};
    ghost use Rattle.apd_divide.specs.Referring.{label_in, IsLabelThere};

    ghost Value = { Term };

    ghost coded = { term_code };

    ghost view = { λ l. label_in l.place };

    ghost invariant = { λ l. IsLabelThere l.place };
}

impl<'a> Label<'a> {
    /// The head of a recorded exit.
    pub fn of_exit(recorded: &'a Record, exit: PointId) -> Label<'a>
        requires { exit.0 < length recorded.now.points }
        ensures { result ≡ (point_of recorded.now exit.0).tuple.head }
    {
        Label {
            place: LabelPlace::Recorded(recorded, exit),
        }
    }

    /// The goal with this number, counted from 0, of a recorded exit, in canonical form.
    pub fn of_goal(recorded: &'a Record, exit: PointId, place: usize) -> Label<'a>
        requires there { exit.0 < length recorded.now.points }
        requires place { place < length (point_of recorded.now exit.0).tuple.body }
        ensures { result ≡ canonical (goal_at (point_of recorded.now exit.0).tuple.body place) }
    {
        Label {
            place: LabelPlace::Goal(recorded, exit, place),
        }
    }

    /// This term.
    pub fn of_term(term: Flat) -> Label<'a>
        ensures { result ≡ term }
    {
        Label {
            place: LabelPlace::Own(term),
        }
    }

    /// The term. The only error is want of memory.
    pub fn term(&self, alloc: Global) -> Result<Flat, AllocError>
        ensures { IfOk result (λ t. t ≡ self.now) }
    {
        match &self.place {
            LabelPlace::Recorded(recorded, exit) => head_at(recorded, *exit),
            LabelPlace::Goal(recorded, exit, place) => goal_at(recorded, *exit, *place),
            LabelPlace::Own(term) => term.copy(alloc),
        }
    }
}
