//! Tuples are kept where their cells stand already.

ghost use Rattle.std.specs.Prelude.{◌≡◌, ◌∷◌, [], ◌++◌, length, OnOk, OnErr, IfOk};
ghost use Rattle.apd_tuples.specs.Spots.{placed};

use apd_frames::links::{LinkRef, Links};
use apd_past::past::Moment;
use apd_trace::Step;
use apd_tuples::spots::{Fact, Numbered, Spots};
use std::alloc::AllocError;

/// The number with which the head and the goals of a link were kept at the point before, where there is one: each point keeps
/// one tuple. Else the link was just entered, and the spots are told where its head stands, if the search has gone back: as a
/// goal of the newest point around.
#[inline(always)]
fn place_before(
    spots: &mut Spots,
    links: &Links,
    link: &LinkRef<'_>,
    step: Option<Step>,
) -> Option<u32>
    ensures { spots.new ≡ spots.old }
{
    if let Some(step) = step {
        return Some(step.point.0);
    }
    if spots.is_next(link.head) {
        return None;
    }
    if let Some(around) = links.get(link.around) {
        spots.turn_to(around.point, around.done);
    }
    None
}

/// Puts the spot of a link, whose point came about by a step or by none, behind the others.
#[inline(always)]
pub fn push_link(
    spots: &mut Spots,
    links: &Links,
    link: &LinkRef<'_>,
    moment: Moment,
    fact: Fact,
    step: Option<Step>,
) -> Result<Numbered, AllocError>
    ensures ok { OnOk result
        (spots.new ≡ spots.old ++ placed link.now.head link.now.goals.now moment.0 fact ∷ []) }
    ensures number { IfOk result (λ n. n.number ≡ length spots.old) }
    ensures count { IfOk result (λ n. n.goals ≡ length link.now.goals.now) }
    ensures err { OnErr result (spots.new ≡ spots.old) }
{
    let before = place_before(spots, links, link, step);
    spots.push(link.head, link.goals, moment, fact, link.done, before)
}
