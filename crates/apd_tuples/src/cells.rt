//! Heads and goals among the cells of all: what stands at a place.

ghost use Rattle.std.specs.Prelude.{◌≡◌, true, slice_get, IfOk, IfSome, Some};
ghost use Rattle.std.specs.Bool.{OnTrue};
ghost use Rattle.apd_tuples.specs.Cells.{back_of, cell_at, goals_of, head_place, kept_cell, kept_cells, Stands, Tags};

use apd_base::{MOST_GOALS, MOST_KEPT};
use apd_past::past::PastCell;
use apd_unify::store::Cell;
use std::alloc::AllocError;

/// So many numbers of goals have room in a tag. No clause has so many.
const GOALS: u32 = 128;

const _: () = prove!(MOST_GOALS < GOALS as usize);

/// How far before a tag a head may stand.
pub const MOST_BACK: usize = 33_554_431;

/// A cell as it is kept; want of memory where its number is too great.
pub fn kept_cell(cell: Cell) -> Result<PastCell, AllocError>
    ensures { IfOk result (λ c. c ≡ kept_cell cell) }
{
    if cell.0 > MOST_KEPT {
        return Err(AllocError);
    }
    Ok(PastCell(cell.0 as u32))
}

/// The tag of so many goals whose head stands so far before it; none where there is no room.
#[inline(always)]
pub fn tag_of(goals: usize, back: usize) -> Option<PastCell>
    ensures { IfSome result (λ t. Tags t goals back) }
{
    if goals >= GOALS as usize || back > MOST_BACK {
        return None;
    }
    Some(PastCell(back as u32 * GOALS + goals as u32))
}

/// How many goals stand behind a tag.
pub fn goals_of(tag: PastCell) -> usize
    ensures { result ≡ goals_of tag }
{
    (tag.0 % GOALS) as usize
}

/// How far before a tag the head stands.
fn back_of(tag: PastCell) -> usize
    ensures { result ≡ back_of tag }
{
    (tag.0 / GOALS) as usize
}

/// The cell with this number; 0 where there is none.
#[inline(always)]
pub fn cell_at(cells: &[PastCell], place: usize) -> PastCell
    ensures { result ≡ cell_at cells.now place }
{
    if place >= cells.len() {
        return PastCell(0);
    }
    cells[place]
}

/// Whether this cell stands at a place.
#[inline(always)]
pub fn is_cell(cells: &[PastCell], place: usize, cell: PastCell) -> bool
    ensures { OnTrue result (slice_get cells.now place ≡ Some cell) }
{
    if place >= cells.len() || cell_at(cells, place).0 != cell.0 {
        return false;
    }
    true
}

/// Where the head of the goals behind a tag stands.
#[inline(always)]
pub fn head_place(cells: &[PastCell], at: usize) -> usize
    ensures { result ≡ head_place cells.now at }
{
    at.saturating_sub(back_of(cell_at(cells, at)))
}

/// Whether the cells are these.
#[inline(always)]
pub fn are(kept: &[PastCell], cells: &[Cell]) -> bool
    ensures { OnTrue result (kept.now ≡ kept_cells cells.now) }
{
    if kept.len() != cells.len() {
        return false;
    }
    let mut i: usize = 0;
    'cells: while i < cells.len() {
        if kept[i].0 as usize != cells[i].0 {
            return false;
        }
        i += 1;
    }
    true
}

/// Whether a tag stands at a place with these goals behind it and this head where it says.
#[inline(always)]
pub fn stands(cells: &[PastCell], at: usize, head: PastCell, goals: &[Cell]) -> bool
    ensures { OnTrue result (Stands cells.now true at head (kept_cells goals.now)) }
{
    let len = cells.len();
    let count = goals.len();
    if at >= len || len - at <= count {
        return false;
    }
    if goals_of(cell_at(cells, at)) != count {
        return false;
    }
    let place = head_place(cells, at);
    if !is_cell(cells, place, head) {
        return false;
    }
    let from = at + 1;
    are(&cells[from..from + count], goals)
}
