//! Which numbers are reached from one, where from each number some lead on.
//!
//! What is reached from a number is kept. A walk that comes to such a number takes over all that is kept of it, 64 numbers at a time,
//! and doesn't go on from there. What is kept stays right while edges come, but may lack what these fresh edges lead to.

ghost use Rattle.std.specs.Prelude.{◌≡◌, ◌↔◌, ◌<◌, ◌∷◌, [], ℕ, List, length, IfOk, OnOk, IsTrue};
ghost use Rattle.apd_findings.specs.Reaching.{AreEdges, AreReached, AreWithin, HasSeen, HasSome, HasWaiting, HasWalked, IsRowOf};

use apd_base::ListOf;
use apd_bits::Row;
use indexmap::IndexMap;
use std::alloc::{AllocError, Global};

/// What is kept: of numbers, those that are reached from each.
pub(crate) type Rows = IndexMap<usize, Row>;

/// The one number leads to the other.
#[derive(Clone, Copy)]
pub(crate) struct Edge {
    pub from: usize,
    pub to: usize,
}

/// Marks a number, with what is kept of it; it waits where nothing is kept.
fn see_number(
    rows: &Rows,
    number: usize,
    seen: &mut Row,
    waiting: &mut Vec<usize>,
) -> Result<(), AllocError>
    ensures seen { OnOk result ((lists : List (List ℕ)) (fresh : List Edge) →
        AreReached lists fresh rows.now →
        HasSeen lists fresh (number ∷ []) seen.old waiting.old.items seen.new waiting.new.items) }
    ensures waits { OnOk result
        (HasWaiting (number ∷ []) seen.old waiting.old.items seen.new waiting.new.items) }
{
    if seen.has(number) {
        return Ok(());
    }
    if let Some(row) = rows.get(&number) {
        return seen.join(row);
    }
    seen.set(number)?;
    waiting.push(number)?;
    Ok(())
}

/// Marks these numbers so.
fn see(
    rows: &Rows,
    nexts: &[usize],
    seen: &mut Row,
    waiting: &mut Vec<usize>,
) -> Result<(), AllocError>
    ensures seen { OnOk result ((lists : List (List ℕ)) (fresh : List Edge) →
        AreReached lists fresh rows.now →
        HasSeen lists fresh nexts.now seen.old waiting.old.items seen.new waiting.new.items) }
    ensures waits { OnOk result
        (HasWaiting nexts.now seen.old waiting.old.items seen.new waiting.new.items) }
{
    'nexts: for next in nexts {
        see_number(rows, *next, seen, waiting)?;
    }
    Ok(())
}

/// Marks the numbers that are reached from the first one and weren't marked.
fn walk(
    alloc: Global,
    lists: &[ListOf<usize>],
    rows: &Rows,
    first: usize,
    seen: &mut Row,
) -> Result<(), AllocError>
    requires first { first < length lists.now }
    requires within { AreWithin lists.now }
    ensures { OnOk result ((fresh : List Edge) → AreReached lists.now fresh rows.now →
        HasWalked lists.now fresh first seen.old seen.new) }
{
    let mut waiting = Vec::new(alloc);
    see_number(rows, first, seen, &mut waiting)?;
    'numbers: while let Some(number) = waiting.pop() {
        see(rows, lists[number].as_slice(), seen, &mut waiting)?;
    }
    Ok(())
}

/// What is reached from the first number, by what is kept of others.
pub(crate) fn row_from(
    alloc: Global,
    lists: &[ListOf<usize>],
    rows: &Rows,
    first: usize,
) -> Result<Row, AllocError>
    requires first { first < length lists.now }
    requires within { AreWithin lists.now }
    ensures { IfOk result (λ row. (fresh : List Edge) → AreReached lists.now fresh rows.now →
        IsRowOf lists.now fresh first row) }
{
    let mut row = Row::new(alloc);
    walk(alloc, lists, rows, first, &mut row)?;
    Ok(row)
}

/// Marks what the fresh edges lead to from what is marked, by rows that lack nothing.
fn catch_up(
    alloc: Global,
    lists: &[ListOf<usize>],
    fresh: &[Edge],
    rows: &Rows,
    whole: &mut Row,
) -> Result<(), AllocError>
    requires within { AreWithin lists.now }
    requires edges { AreEdges lists.now fresh.now }
    requires rows { AreReached lists.now [] rows.now }
    ensures { OnOk result ((first : ℕ) → IsRowOf lists.now fresh.now first whole.old →
        IsRowOf lists.now [] first whole.new) }
{
    'edges: for i in 0..fresh.len() {
        let edge = fresh[i];
        if whole.has(edge.from) {
            walk(alloc, lists, rows, edge.to, whole)?;
        }
    }
    Ok(())
}

/// What is kept of a number, with what the fresh edges lead to.
pub(crate) fn caught_up(
    alloc: Global,
    lists: &[ListOf<usize>],
    fresh: &[Edge],
    row: &Row,
) -> Result<Row, AllocError>
    requires within { AreWithin lists.now }
    requires edges { AreEdges lists.now fresh.now }
    ensures { IfOk result (λ whole. (first : ℕ) → IsRowOf lists.now fresh.now first row.now →
        IsRowOf lists.now [] first whole) }
{
    let mut whole = row.copy(alloc)?;
    let none = IndexMap::new(alloc);
    let caught = catch_up(alloc, lists, fresh, &none, &mut whole);
    // Dropped by a call: else each part of it is a step to check, at each end of the walk.
    drop(none);
    match caught {
        Ok(()) => Ok(whole),
        Err(AllocError) => Err(AllocError),
    }
}

/// Whether the row has one of these numbers.
pub(crate) fn has_some(row: &Row, numbers: &[usize]) -> bool
    ensures { IsTrue result ↔ HasSome row.now numbers.now }
{
    'numbers: for number in numbers {
        if row.has(*number) {
            return true;
        }
    }
    false
}
