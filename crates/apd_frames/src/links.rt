//! Links between clause instances.

ghost use Rattle.std.specs.Prelude.{◌≡◌, ◌∷◌, [], ◌++◌, ◌+◌, ◌<◌, ◌≤◌, length, slice_get, slice_set, None, Some, IfOk, OnOk, OnErr, MatchOption};
ghost use Rattle.apd_frames.specs.Links.{instance_of, link_of, link_in, row_at, put_row, clause_in, cells_left, IsRowOf, IsSpanned};
ghost use Rattle.apd_frames.specs.Linked.{changed, entered_link, numbered, oldest, taken_link, Hands, MayHand};
ghost use Rattle.apd_frames.specs.Kept.{IsIn};
ghost use Rattle.apd_trace.specs.declared.frame.Called.{Called};

use apd_base::room::{room_for, room_for_one};
use apd_base::{MOST_CLAUSES, MOST_GOALS, MOST_KEPT};
use apd_ports::BUILTIN;
use apd_unify::store::Cell;
use std::alloc::{AllocError, Global};
use std::marker::Model;
use std::mem::size_of;

/// A clause instance in its box, with so many goals of its body solved, and its newest point.
#[derive(Clone, Copy)]
pub struct LinkRef<'a> {
    pub box_no: u32,
    pub depth: u32,
    pub clause: u32,
    pub head: Cell,
    pub goals: &'a [Cell],
    pub done: u8,
    pub point: u32,
    /// The number of the link around it, whose next goal is its head; 0 for none.
    pub around: usize,
}

/// A link as it is kept. Its goals' cells stand among those of all links: they were put there with it, behind those of older
/// links.
#[derive(Clone, Copy)]
pub struct LinkRow {
    pub box_no: u32,
    pub depth: u32,
    pub head: u32,
    /// Where its goals' cells begin.
    pub from: u32,
    pub point: u32,
    pub around: u32,
    /// The number of its clause; [`KEPT_BUILTIN`] for a built-in goal.
    pub clause: u16,
    /// How many goals it has.
    pub goals: u8,
    pub done: u8,
}

const _: () = prove!(size_of::<LinkRow>() == 28);

/// Links, numbered from 1. Contracts see their list, the newest first.
#[derive(Drop)]
pub struct Links {
    oldest_first: Vec<LinkRow>,
    /// The cells of all links' goals.
    cells: Vec<Cell>,
}

impl Model for Links {
    ghost use Rattle.std.specs.Prelude.{List, length, reverse};
    ghost use Rattle.apd_frames.specs.Links.{Link, links_in, AreSpanned};

    ghost Value = { List Link };

    ghost view = { λ s. links_in s.cells.items (reverse s.oldest_first.items) };

    ghost invariant = { λ s. AreSpanned (length s.cells.items) (reverse s.oldest_first.items) };
}

/// The greatest number of goals that a row has room for. No clause has so many.
const MOST_KEPT_GOALS: usize = 255;

const _: () = prove!(MOST_GOALS <= MOST_KEPT_GOALS);

/// What stands in a row in place of [`BUILTIN`]. No clause has this number.
const KEPT_BUILTIN: u16 = 65_535;

const _: () = prove!(MOST_CLAUSES < KEPT_BUILTIN as u32);

/// The number of a clause as it is kept; want of memory where it is too great.
#[inline(always)]
fn kept_clause(clause: u32) -> Result<u16, AllocError>
    ensures { IfOk result (λ k. clause_in k ≡ clause) }
{
    if clause == BUILTIN {
        return Ok(KEPT_BUILTIN);
    }
    if clause >= KEPT_BUILTIN as u32 {
        return Err(AllocError);
    }
    Ok(clause as u16)
}

/// The number of a clause that is kept so.
#[inline(always)]
fn clause_in(kept: u16) -> u32
    ensures { result ≡ clause_in kept }
{
    if kept == KEPT_BUILTIN {
        return BUILTIN;
    }
    kept as u32
}

/// The row of a link whose goals' cells are put behind so many others; want of memory where a number is too great.
#[inline(always)]
fn row_of(link: &LinkRef<'_>, cells: usize) -> Result<LinkRow, AllocError>
    ensures { IfOk result (IsRowOf link.now cells) }
{
    let goals = link.goals.len();
    if goals > MOST_KEPT_GOALS
        || cells > MOST_KEPT
        || link.head.0 > MOST_KEPT
        || link.around > MOST_KEPT
    {
        return Err(AllocError);
    }
    let clause = kept_clause(link.clause)?;
    Ok(LinkRow {
        box_no: link.box_no,
        depth: link.depth,
        head: link.head.0 as u32,
        from: cells as u32,
        point: link.point,
        around: link.around as u32,
        clause,
        goals: goals as u8,
        done: link.done,
    })
}

/// The row with this number, counted from 1.
fn row_at(rows: &[LinkRow], number: usize) -> Option<LinkRow>
    ensures { result ≡ row_at rows.now number }
{
    if number == 0 {
        return None;
    }
    match rows.get(number - 1) {
        None => None,
        Some(row) => Some(*row),
    }
}

/// The link that is kept as a row.
fn link_in<'a>(cells: &'a [Cell], row: LinkRow) -> LinkRef<'a>
    requires { IsSpanned (length cells.now) row }
    ensures { link_of result ≡ link_in cells.now row }
{
    let from = row.from as usize;
    let to = from + row.goals as usize;
    LinkRef {
        box_no: row.box_no,
        depth: row.depth,
        clause: clause_in(row.clause),
        head: Cell(row.head as usize),
        goals: &cells[from..to],
        done: row.done,
        point: row.point,
        around: row.around as usize,
    }
}

/// The row at a place has so many goals solved, at a point. Its other fields aren't written.
#[inline(always)]
fn put_row(rows: &mut Vec<LinkRow>, place: usize, done: u8, point: u32)
    requires { place < length rows.old.items }
    ensures { (r : LinkRow) → slice_get rows.old.items place ≡ Some r →
        rows.new.items ≡ slice_set rows.old.items place (put_row r done point) }
{
    let row = &mut rows[place];
    row.done = done;
    row.point = point;
}

/// How many of so many cells of goals are left where the rows from this place on, counted from 0, are given up.
#[inline(always)]
fn cells_left(rows: &[LinkRow], place: usize, cells: usize) -> usize
    ensures { result ≡ cells_left (slice_get rows.now place) cells }
{
    match rows.get(place) {
        None => cells,
        Some(row) => row.from as usize,
    }
}

/// Puts the cells of goals behind the others. It is compiled into each push: the link of a built-in goal has none, and then
/// nothing is called.
#[inline(always)]
fn put_goals(there: &mut Vec<Cell>, goals: &[Cell]) -> Result<(), AllocError>
    ensures ok { OnOk result (there.new.items ≡ there.old.items ++ goals.now) }
    ensures err { OnErr result (there.new.items ≡ there.old.items) }
{
    if goals.is_empty() {
        return Ok(());
    }
    room_for(there, goals.len())?;
    there.extend_from_slice(goals)
}

/// The link of a clause that is entered for the goal of this box, or of a built-in goal that succeeds.
pub fn entered<'a>(
    box_no: u32,
    depth: u32,
    clause: u32,
    head: Cell,
    goals: &'a [Cell],
    point: u32,
    around: usize,
) -> LinkRef<'a>
    ensures { (g : Called) → IsIn box_no depth g →
        link_of result ≡ entered_link g clause (instance_of head goals.now) point around }
{
    LinkRef {
        box_no,
        depth,
        clause,
        head,
        goals,
        done: 0,
        point,
        around,
    }
}

impl Links {
    pub fn new(alloc: Global) -> Links
        ensures { result ≡ [] }
    {
        Links {
            oldest_first: Vec::new(alloc),
            cells: Vec::new(alloc),
        }
    }

    pub fn len(&self) -> usize
        ensures { result ≡ length self.now }
    {
        self.oldest_first.len()
    }

    /// The link with this number.
    #[inline(always)]
    pub fn get(&self, number: usize) -> Option<LinkRef<'_>>
        ensures { MatchOption result
            (numbered self.now number ≡ None)
            (λ l. numbered self.now number ≡ Some (link_of l)) }
    {
        match row_at(self.oldest_first.as_slice(), number) {
            None => None,
            Some(row) => Some(link_in(self.cells.as_slice(), row)),
        }
    }

    /// Puts a link behind the others, and tells its number.
    #[inline(always)]
    pub fn push(&mut self, link: &LinkRef<'_>) -> Result<usize, AllocError>
        ensures ok { OnOk result (self.new ≡ link_of link.now ∷ self.old) }
        ensures number { IfOk result (λ n. n ≡ length self.old + 1) }
        ensures err { OnErr result (self.new ≡ self.old) }
    {
        let row = row_of(link, self.cells.len())?;
        put_goals(&mut self.cells, link.goals)?;
        room_for_one(&mut self.oldest_first)?;
        self.oldest_first.push_reserved(row);
        Ok(self.oldest_first.len())
    }

    /// The link with this number has one more goal solved from now on, and this newest point; tells its newest point before,
    /// or none where no link has this number.
    #[inline(always)]
    pub fn hand(&mut self, number: usize, point: u32) -> Option<u32>
        requires { MayHand self.old number }
        ensures { MatchOption result
            ((numbered self.old number ≡ None) × (self.new ≡ self.old))
            (Hands self.old self.new number point) }
    {
        let rows = self.oldest_first.as_slice();
        let Some(row) = row_at(rows, number) else {
            return None;
        };
        put_row(&mut self.oldest_first, number - 1, row.done + 1, point);
        Some(row.point)
    }

    /// The link with this number, if there is one, has one goal less solved from now on, and this newest point.
    #[inline(always)]
    pub fn take(&mut self, number: usize, point: u32)
        ensures { self.new ≡ changed (taken_link point) number self.old }
    {
        let rows = self.oldest_first.as_slice();
        let Some(row) = row_at(rows, number) else {
            return;
        };
        put_row(
            &mut self.oldest_first,
            number - 1,
            row.done.saturating_sub(1),
            point,
        );
    }

    /// Keeps the oldest links, so many of them.
    #[inline(always)]
    pub fn keep(&mut self, count: usize)
        requires { count ≤ length self.old }
        ensures { self.new ≡ oldest count self.old }
    {
        let cells = cells_left(self.oldest_first.as_slice(), count, self.cells.len());
        self.oldest_first.truncate(count);
        self.cells.truncate(cells);
    }
}
