//! Whether an instance is small enough, and whether it has variables, seen in one walk.

ghost use Rattle.std.specs.Prelude.{◌≡◌, ◌≤◌, List, length, IfOk};
ghost use Rattle.apd_trace.specs.declared.frame.Frame.{Frame};
ghost use Rattle.apd_frames.specs.Instances.{cell_in, tuple_in, IsInside};
ghost use Rattle.apd_frames.specs.Kept.{fits};
ghost use Rattle.apd_frames.specs.Linked.{IsThere};
ghost use Rattle.apd_frames.specs.Links.{instance_of, link_of};
ghost use Rattle.apd_frames.specs.Measures.{IsMeasured, MeasuresInnermost};

use crate::instance::MOST_OF_EACH;
use crate::links::LinkRef;
use apd_base::{MOST_GOALS, MOST_INSTANCE_SYMBOLS};
use apd_unify::store::{Cell, Store};
use std::alloc::AllocError;

/// What is seen of an instance.
#[derive(Clone, Copy, PartialEq, Eq)]
pub enum Measure {
    /// It has more symbols than an instance may have.
    TooLarge,
    /// It hasn't. A variable may stand in it.
    Fits,
    /// It hasn't, and no variable stands in it.
    Ground,
}

impl Measure {
    /// Whether it has no more symbols than an instance may have.
    pub fn fits(self) -> bool
        ensures { (F : List Frame) → MeasuresInnermost self F → result ≡ fits F }
    {
        match self {
            Measure::TooLarge => false,
            Measure::Fits => true,
            Measure::Ground => true,
        }
    }
}

/// The cell of a link's head, which has place 0, or of the goal that stands before the place.
#[inline(always)]
fn cell_at(head: Cell, goals: &[Cell], place: usize) -> Cell
    requires { place ≤ length goals.now }
    ensures { result ≡ cell_in (instance_of head goals.now) place }
{
    if place == 0 {
        return head;
    }
    goals[place - 1]
}

/// What is seen of the instance of a head and goals, in a walk over its symbols.
#[inline(never)]
fn walked(store: &mut Store, head: Cell, goals: &[Cell]) -> Result<Measure, AllocError>
    requires { IsInside (length store.old.cells) (instance_of head goals.now) }
    ensures measured { IfOk result
        (λ m. IsMeasured m (tuple_in store.old (instance_of head goals.now))) }
    ensures same { store.new ≡ store.old }
{
    let mut left = MOST_INSTANCE_SYMBOLS;
    let mut is_ground = true;
    let mut place: usize = 0;
    'places: while place <= goals.len() {
        let cell = cell_at(head, goals, place);
        let Some(term) = store.measure(cell, left)? else {
            return Ok(Measure::TooLarge);
        };
        left -= term.size;
        is_ground = is_ground && term.above == 0;
        place += 1;
    }
    if is_ground {
        return Ok(Measure::Ground);
    }
    Ok(Measure::Fits)
}

/// What is seen of a link's instance. No symbol is passed where the store tells that no term is long: then it isn't seen
/// whether variables stand there, and a diagnosis that makes a suspect of it reads it.
#[inline(always)]
pub fn measured(store: &mut Store, link: &LinkRef<'_>) -> Result<Measure, AllocError>
    requires { IsThere store.old link.now }
    ensures measured { IfOk result
        (λ m. IsMeasured m (tuple_in store.old (link_of link.now).instance)) }
    ensures same { store.new ≡ store.old }
{
    if link.goals.len() <= MOST_GOALS && store.are_within(MOST_OF_EACH) {
        return Ok(Measure::Fits);
    }
    walked(store, link.head, link.goals)
}
