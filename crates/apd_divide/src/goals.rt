//! The goals of a node's instance.

ghost use Rattle.std.specs.Prelude.{◌≡◌, ◌<◌, length, IfOk};
ghost use Rattle.apd_term.specs.Canonical.{canonical};
ghost use Rattle.apd_term.specs.Tuple.{canonical_tuple};
ghost use Rattle.apd_record.specs.Reading.{point_of};
ghost use Rattle.apd_divide.specs.Referring.{goal_at};

use crate::forms::canonical_form;
use crate::label::Label;
use apd_ports::PointId;
use apd_record::Record;
use apd_term::Flat;
use std::alloc::{AllocError, Global};
use std::marker::Model;

/// Where goals are.
#[derive(Clone, Copy)]
pub enum GoalsPlace<'r, 'a> {
    /// They are those of this recorded exit.
    Recorded(&'r Record, PointId),
    /// They were read.
    Read(&'a [Flat]),
}

/// Goals: those of a recorded exit aren't written out before one is wanted. Contracts see the list;
/// of a recorded exit it is that of the exit's instance in canonical form.
#[derive(Drop)]
pub struct Goals<'r, 'a> {
    place: GoalsPlace<'r, 'a>,
}

impl<'r, 'a> Model for Goals<'r, 'a> {
    ghost use Rattle.std.specs.Prelude.{List};
    ghost use Rattle.std.specs.Coded.{coded_list};
    ghost use Rattle.apd_term.specs.Term.{Term};
    ghost use Rattle.apd_term.specs.Spelling.{term_code};
    ghost use Rattle.apd_divide.specs.Referring.{goals_in, AreGoalsThere};

    ghost Value = { List Term };

    ghost coded = { coded_list term_code };

    ghost view = { λ g. goals_in g.place };

    ghost invariant = { λ g. AreGoalsThere g.place };
}

/// The goal at a place, in canonical form.
fn label_at(alloc: Global, atoms: &[Flat], place: usize) -> Result<Flat, AllocError>
    requires { place < length atoms.now }
    ensures { IfOk result (λ l. l ≡ canonical (goal_at atoms.now place)) }
{
    canonical_form(alloc, &atoms[place])
}

impl<'r, 'a> Goals<'r, 'a> {
    /// The goals of a recorded exit.
    pub fn of_exit(recorded: &'r Record, exit: PointId) -> Goals<'r, 'a>
        requires { exit.0 < length recorded.now.points }
        ensures { result ≡ (canonical_tuple (point_of recorded.now exit.0).tuple).body }
    {
        Goals {
            place: GoalsPlace::Recorded(recorded, exit),
        }
    }

    /// These goals.
    pub fn of_atoms(atoms: &'a [Flat]) -> Goals<'r, 'a>
        ensures { result ≡ atoms.entry.now }
    {
        Goals {
            place: GoalsPlace::Read(atoms),
        }
    }

    /// Whether these are goals that were read; false for those of a recorded exit.
    pub fn are_read(&self) -> bool {
        match self.place {
            GoalsPlace::Recorded(..) => false,
            GoalsPlace::Read(_) => true,
        }
    }

    /// The goal at a place, counted from 0, in canonical form. The only error is want of memory.
    pub fn label(&self, alloc: Global, place: usize) -> Result<Label<'r>, AllocError>
        requires { place < length self.now }
        ensures { IfOk result (λ l. l ≡ canonical (goal_at self.now place)) }
    {
        match self.place {
            GoalsPlace::Recorded(recorded, exit) => Ok(Label::of_goal(recorded, exit, place)),
            GoalsPlace::Read(atoms) => {
                let label = label_at(alloc, atoms, place)?;
                Ok(Label::of_term(label))
            }
        }
    }
}
