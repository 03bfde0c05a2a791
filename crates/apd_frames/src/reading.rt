//! What a link and those around it say.

ghost use Rattle.std.specs.Prelude.{◌≡◌, ℕ, ◌+◌, ◌<◌, ◌≤◌, List, length, slice_get, Some, IfOk, MatchOption};
ghost use Rattle.apd_term.specs.Canonical.{canonical};
ghost use Rattle.apd_cells.specs.Stored.{Stored};
ghost use Rattle.apd_cells.specs.Store.{term_at};
ghost use Rattle.apd_trace.specs.Frames.{left, look_of, owner_of};
ghost use Rattle.apd_trace.specs.declared.frame.Called.{Called};
ghost use Rattle.apd_frames.specs.Kept.{Calls, IsIn, MayCall, MayDeepen, ahead_of};
ghost use Rattle.apd_frames.specs.Links.{Link, link_of};
ghost use Rattle.apd_frames.specs.Linked.{frames_at, frame_in, frames_from, IsGoalAt, IsThere};

use crate::ahead::Ahead;
use crate::links::{LinkRef, Links};
use apd_term::Flat;
use apd_trace::{Called, Look};
use apd_unify::scratch::Scratch;
use apd_unify::store::{Cell, Store};
use std::alloc::AllocError;

/// The next goal of a link.
fn goal_of(link: &LinkRef<'_>) -> Option<Cell>
    ensures { MatchOption result
        (length link.now.goals.now ≤ link.now.done)
        (λ c. slice_get link.now.goals.now link.now.done ≡ Some c) }
{
    match link.goals.get(link.done as usize) {
        None => None,
        Some(goal) => Some(*goal),
    }
}

/// The next goal of the link with this number.
pub fn next_goal(links: &Links, number: usize) -> Option<Cell>
    ensures { IsGoalAt links.now number result }
{
    match links.get(number) {
        None => None,
        Some(link) => goal_of(&link),
    }
}

/// How deep the next goal of the link with this number is called.
pub fn goal_depth(links: &Links, number: usize) -> u32
    requires { (s : Stored) → MayCall (frames_at s links.now number) }
    ensures { (s : Stored) (n : ℕ) (g : Called) → Calls (frames_at s links.now number) n g →
        IsIn n result g }
{
    match links.get(number) {
        None => 0,
        Some(link) => link.depth + 1,
    }
}

/// What the frame of a link does next, without its terms.
pub fn ahead(link: &LinkRef<'_>) -> Ahead
    ensures { (s : Stored) (links : List Link) (n : ℕ) →
        result ≡ ahead_of (look_of (frames_from s links link.now) n) }
{
    match goal_of(link) {
        Some(_) => Ahead::Call,
        None => {
            if link.box_no == 0 {
                return Ahead::Answer;
            }
            Ahead::Exit(link.box_no, link.point)
        }
    }
}

/// The box that owns the link with this number.
fn owner(links: &Links, number: usize) -> u32
    ensures { (s : Stored) → result ≡ owner_of (frames_at s links.now number) }
{
    match links.get(number) {
        None => 0,
        Some(link) => link.box_no,
    }
}

/// The term at a cell as it is shown. No memory has more symbols than a u64 can count.
#[inline(always)]
fn shown(store: &Store, scratch: &mut Scratch, cell: Cell) -> Result<Flat, AllocError>
    requires { cell.0 < length store.now.cells }
    ensures { IfOk result (λ t. t ≡ canonical (term_at store.now cell.0)) }
{
    scratch.clear();
    match store.number_within(scratch, cell, u64::MAX)? {
        Some(term) => Ok(term),
        None => Err(AllocError),
    }
}

/// The link's head in its box.
pub fn left(
    store: &Store,
    links: &Links,
    scratch: &mut Scratch,
    link: &LinkRef<'_>,
) -> Result<Called, AllocError>
    requires { IsThere store.now link.now }
    ensures { IfOk result
        (λ g. g ≡ left (frame_in store.now (link_of link.now)) (frames_at store.now links.now link.now.around)) }
{
    let atom = shown(store, scratch, link.head)?;
    Ok(Called {
        box_no: link.box_no,
        caller: owner(links, link.around),
        depth: link.depth,
        atom,
    })
}

/// What the frame of a link does next, if the next box has this number.
#[inline(always)]
pub fn look(
    store: &Store,
    links: &Links,
    scratch: &mut Scratch,
    link: &LinkRef<'_>,
    box_no: u32,
) -> Result<Look, AllocError>
    requires inside { IsThere store.now link.now }
    requires deep { MayDeepen link.now.depth }
    ensures { IfOk result
        (λ l. l ≡ look_of (frames_from store.now links.now link.now) box_no) }
{
    match goal_of(link) {
        Some(goal) => {
            let atom = shown(store, scratch, goal)?;
            Ok(Look::Goal(Called {
                box_no,
                caller: link.box_no,
                depth: link.depth + 1,
                atom,
            }))
        }
        None => {
            let called = left(store, links, scratch, link)?;
            if link.box_no == 0 {
                return Ok(Look::Answer(called.atom));
            }
            Ok(Look::Exit(called, link.point))
        }
    }
}
