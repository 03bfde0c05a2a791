//! Where kept tuples are in a past.

ghost use Rattle.std.specs.Prelude.{◌≡◌, ◌∷◌, [], ◌++◌, true, length, slice_get, None, Some, IfOk, OnOk, OnErr, MatchOption};
ghost use Rattle.apd_tuples.specs.Cells.{goals_at, head_at, IsWithin};
ghost use Rattle.apd_tuples.specs.Spots.{IsSpanned, placed, spot_at, spot_in};

use crate::cells::{cell_at, goals_of, head_place, is_cell, kept_cell};
use crate::packed::{KeptRow, MOST_PLACE};
use crate::putting::{Laid, put};
use apd_base::MOST_KEPT;
use apd_base::room::room_for_one;
use apd_past::past::{Moment, PastCell};
use apd_unify::store::Cell;
use std::alloc::{AllocError, Global};
use std::marker::Model;

/// What is known of a tuple without a look at its terms.
#[derive(Clone, Copy)]
pub enum Fact {
    Nothing,
    /// No variable stands in it.
    Ground,
}

/// Where a tuple's head and goals are, the moment at which it was kept, and what was known of it then.
#[derive(Clone, Copy)]
pub struct Spot<'a> {
    pub head: PastCell,
    pub goals: &'a [PastCell],
    pub moment: Moment,
    pub fact: Fact,
}

/// The number of a kept tuple, and how many goals it has.
#[derive(Clone, Copy)]
pub struct Numbered {
    pub number: u32,
    pub goals: u32,
}

/// A spot as it is kept: its head and goals stand at a place among the cells of all, where rows may share them.
#[derive(Clone, Copy)]
pub struct SpotRow {
    pub moment: Moment,
    pub at: u32,
    pub has_goals: bool,
    pub fact: Fact,
}

/// The spots of tuples. Contracts see their list, the oldest first.
#[derive(Drop)]
pub struct Spots {
    rows: Vec<KeptRow>,
    /// Heads' and goals' cells, and a tag before the goals of each frame.
    cells: Vec<PastCell>,
    /// Where the head that is kept next is thought to stand.
    next: usize,
}

impl Model for Spots {
    ghost use Rattle.std.specs.Prelude.{List};
    ghost use Rattle.apd_tuples.specs.Spots.{Place, spots_in, AreSpanned};

    ghost Value = { List Place };

    ghost view = { λ s. spots_in s.cells.items s.rows.items };

    ghost invariant = { λ s. AreSpanned s.cells.items s.rows.items };
}

/// The row with this number, counted from 0.
fn row_at(rows: &[KeptRow], number: usize) -> Option<SpotRow>
    ensures { result ≡ slice_get rows.now number }
{
    match rows.get(number) {
        None => None,
        Some(row) => Some(row.read()),
    }
}

/// Where the head and the goals of a row stand; 0 where there is no such row.
#[inline(always)]
fn place_of(rows: &[KeptRow], number: u32) -> usize {
    match row_at(rows, number as usize) {
        None => 0,
        Some(row) => row.at as usize,
    }
}

/// Where this goal behind a tag stands.
#[inline(always)]
fn goal_place(tag: usize, goal: u8) -> usize {
    tag.wrapping_add(1).wrapping_add(goal as usize)
}

/// Where the head that is kept next is thought to stand, where so many goals of those that were laid are solved. Those of a
/// fact and of a built-in goal leave it: the caller's are kept again.
#[inline(always)]
fn next_behind(laid: Laid, done: u8, next: usize) -> usize {
    if laid.has_goals {
        return goal_place(laid.at, done);
    }
    next
}

/// The head that stands at a place, with goals or without.
#[inline(always)]
fn head_at(cells: &[PastCell], has_goals: bool, at: usize) -> PastCell
    ensures { result ≡ head_at cells.now has_goals at }
{
    if has_goals {
        return cell_at(cells, head_place(cells, at));
    }
    cell_at(cells, at)
}

/// The goals that stand behind a tag.
#[inline(always)]
fn goals_behind(cells: &[PastCell], at: usize) -> &[PastCell]
    requires { IsWithin cells.now true at }
    ensures { result.now ≡ goals_at cells.now true at }
{
    let count = goals_of(cell_at(cells, at));
    &cells[at + 1..at + 1 + count]
}

/// The goals that stand at a place.
#[inline(always)]
fn goals_at(cells: &[PastCell], has_goals: bool, at: usize) -> &[PastCell]
    requires { IsWithin cells.now has_goals at }
    ensures { result.now ≡ goals_at cells.now has_goals at }
{
    if !has_goals {
        return &[];
    }
    goals_behind(cells, at)
}

/// The spot that is kept as a row.
fn spot_in<'a>(cells: &'a [PastCell], row: SpotRow) -> Spot<'a>
    requires { IsSpanned cells.now row }
    ensures { spot_at result ≡ spot_in cells.now row }
{
    let at = row.at as usize;
    Spot {
        head: head_at(cells, row.has_goals, at),
        goals: goals_at(cells, row.has_goals, at),
        moment: row.moment,
        fact: row.fact,
    }
}

impl Spots {
    /// No spot.
    pub fn new(alloc: Global) -> Spots
        ensures { result ≡ [] }
    {
        Spots {
            rows: Vec::new(alloc),
            cells: Vec::new(alloc),
            next: 0,
        }
    }

    /// How many there are.
    pub fn len(&self) -> usize
        ensures { result ≡ length self.now }
    {
        self.rows.len()
    }

    /// That with this number, counted from 0 at the oldest.
    pub fn get(&self, number: usize) -> Option<Spot<'_>>
        ensures { MatchOption result
            (slice_get self.now number ≡ None)
            (λ s. slice_get self.now number ≡ Some (spot_at s)) }
    {
        match row_at(self.rows.as_slice(), number) {
            None => None,
            Some(row) => Some(spot_in(self.cells.as_slice(), row)),
        }
    }

    /// Whether a head is the goal of which it was told that it is kept next.
    #[inline(always)]
    pub fn is_next(&self, head: Cell) -> bool {
        if head.0 > MOST_KEPT {
            return false;
        }
        is_cell(self.cells.as_slice(), self.next, PastCell(head.0 as u32))
    }

    /// Tells that the head that is kept next is this goal of the tuple with this number.
    #[inline(always)]
    pub fn turn_to(&mut self, number: u32, goal: u8)
        ensures { self.new ≡ self.old }
    {
        self.next = goal_place(place_of(self.rows.as_slice(), number), goal);
    }

    /// Puts the spot of the terms at a head's cell and at goals' cells behind the others, and tells its
    /// number and how many goals it has. Its next goal is the head that is thought to be kept next; the same head and goals may
    /// have been kept before, with a number.
    ///
    /// # Errors
    ///
    /// Where there is no memory, or a row has no room for a number: what comes within a run's limits has room.
    #[inline(always)]
    pub fn push(
        &mut self,
        head: Cell,
        goals: &[Cell],
        moment: Moment,
        fact: Fact,
        done: u8,
        before: Option<u32>,
    ) -> Result<Numbered, AllocError>
        ensures ok { OnOk result
            (self.new ≡ self.old ++ placed head goals.now moment.0 fact ∷ []) }
        ensures number { IfOk result (λ n. n.number ≡ length self.old) }
        ensures count { IfOk result (λ n. n.goals ≡ length goals.now) }
        ensures err { OnErr result (self.new ≡ self.old) }
    {
        let kept_head = kept_cell(head)?;
        let thought = match before {
            None => None,
            Some(number) => Some(place_of(self.rows.as_slice(), number)),
        };
        let laid = put(&mut self.cells, thought, self.next, kept_head, goals)?;
        let number = self.rows.len();
        if number > MOST_KEPT || laid.at > MOST_PLACE {
            return Err(AllocError);
        }
        let kept = KeptRow::of(SpotRow {
            moment,
            at: laid.at as u32,
            has_goals: laid.has_goals,
            fact,
        });
        room_for_one(&mut self.rows)?;
        self.rows.push_reserved(kept);
        self.next = next_behind(laid, done, self.next);
        Ok(Numbered {
            number: number as u32,
            goals: goals.len() as u32,
        })
    }
}
