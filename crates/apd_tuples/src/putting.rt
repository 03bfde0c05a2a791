//! Heads and goals are put among the cells of all, where they don't stand already.

ghost use Rattle.std.specs.Prelude.{◌≡◌, ◌∷◌, [], ◌++◌, ◌<◌, true, length, slice_get, IfOk, OnOk, Some};
ghost use Rattle.apd_tuples.specs.Cells.{kept_cells, HasMore, Stands};

use crate::cells::{MOST_BACK, is_cell, kept_cell, stands, tag_of};
use apd_base::room::{room_for, room_for_one};
use apd_past::past::PastCell;
use apd_unify::store::Cell;
use std::alloc::AllocError;

/// The place of a head alone, or of a tag.
#[derive(Clone, Copy)]
pub struct Laid {
    pub at: usize,
    pub has_goals: bool,
}

/// Puts a cell behind the others, and tells its place.
#[inline(always)]
fn put_one(there: &mut Vec<PastCell>, cell: PastCell) -> Result<usize, AllocError>
    ensures place { IfOk result (λ k. k ≡ length there.old.items) }
    ensures ok { OnOk result (there.new.items ≡ there.old.items ++ cell ∷ []) }
    ensures more { HasMore there.old.items there.new.items }
{
    let place = there.len();
    room_for_one(there)?;
    there.push_reserved(cell);
    Ok(place)
}

/// Puts a tag behind the others, and goals' cells behind it.
#[inline(always)]
fn put_tagged(there: &mut Vec<PastCell>, tag: PastCell, goals: &[Cell]) -> Result<(), AllocError>
    requires { length goals.now < 128 }
    ensures ok { OnOk result
        (there.new.items ≡ there.old.items ++ tag ∷ [] ++ kept_cells goals.now) }
    ensures more { HasMore there.old.items there.new.items }
{
    room_for(there, goals.len() + 1)?;
    there.push_reserved(tag);
    let mut i: usize = 0;
    'goals: while i < goals.len() {
        let kept = kept_cell(goals[i])?;
        there.push_reserved(kept);
        i += 1;
    }
    Ok(())
}

/// The place of a head: where it is thought to stand, or behind the others.
#[inline(always)]
fn put_head(there: &mut Vec<PastCell>, place: usize, head: PastCell) -> Result<usize, AllocError>
    ensures ok { IfOk result (λ k. slice_get there.new.items k ≡ Some head) }
    ensures more { HasMore there.old.items there.new.items }
{
    if is_cell(there.as_slice(), place, head) {
        return Ok(place);
    }
    let alone = put_one(there, head)?;
    Ok(alone)
}

/// The place, where a tag behind so many cells may tell of it; else one where none stands.
#[inline(always)]
fn place_told(len: usize, place: usize) -> usize {
    if len.saturating_sub(place) > MOST_BACK {
        return len;
    }
    place
}

/// Puts a tag and goals behind the others, whose head stands at a place.
#[inline(always)]
fn put_goals(
    there: &mut Vec<PastCell>,
    place: usize,
    head: PastCell,
    goals: &[Cell],
) -> Result<usize, AllocError>
    requires { slice_get there.old.items place ≡ Some head }
    ensures ok { IfOk result
        (λ at. Stands there.new.items true at head (kept_cells goals.now)) }
    ensures more { HasMore there.old.items there.new.items }
{
    let at = there.len();
    let Some(tag) = tag_of(goals.len(), at - place) else {
        return Err(AllocError);
    };
    put_tagged(there, tag, goals)?;
    Ok(at)
}

/// The place of a head and goals: where they are thought to stand, or behind the others. The head may stand next.
#[inline(always)]
fn put_frame(
    there: &mut Vec<PastCell>,
    thought: Option<usize>,
    next: usize,
    head: PastCell,
    goals: &[Cell],
) -> Result<usize, AllocError>
    ensures ok { IfOk result
        (λ at. Stands there.new.items true at head (kept_cells goals.now)) }
    ensures more { HasMore there.old.items there.new.items }
{
    if let Some(at) = thought {
        if stands(there.as_slice(), at, head, goals) {
            return Ok(at);
        }
    }
    let told = place_told(there.len(), next);
    let place = put_head(there, told, head)?;
    let at = put_goals(there, place, head, goals)?;
    Ok(at)
}

/// Where a head and goals stand: where they are thought to, or behind the others. The head may stand next.
#[inline(always)]
pub fn put(
    there: &mut Vec<PastCell>,
    thought: Option<usize>,
    next: usize,
    head: PastCell,
    goals: &[Cell],
) -> Result<Laid, AllocError>
    ensures ok { IfOk result
        (λ l. Stands there.new.items l.has_goals l.at head (kept_cells goals.now)) }
    ensures more { HasMore there.old.items there.new.items }
{
    if goals.len() > 0 {
        let at = put_frame(there, thought, next, head, goals)?;
        return Ok(Laid {
            at,
            has_goals: true,
        });
    }
    let at = put_head(there, next, head)?;
    Ok(Laid {
        at,
        has_goals: false,
    })
}
