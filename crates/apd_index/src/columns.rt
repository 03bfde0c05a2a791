//! Columns by numbers: for each position of atoms what they have there. A column is a chain of entries, the last one first; entries
//! of all columns stand in one vector in the order in which they were put.

ghost use Rattle.std.specs.Prelude.{◌≡◌, ◌≢◌, ◌<◌, [], ℕ, length, IfOk, IsTrue, OnOk};
ghost use Rattle.apd_index.specs.Columns.{AddsAtMost, AreColumns, EndsAt, HaveSameHeads, KeepsEntries, column_at, head_at, tagged};

use crate::nodes::next_number;
use apd_marks::mixed;
use apd_term::Sym;
use std::alloc::{AllocError, Global};

/// The place of an atom, and a tag: bits of the digest of what it has at a position, with the place mixed in. Two entries with one tag
/// are of one place, but by chance. The entry before is counted from 1, and 0 is none.
#[derive(Clone, Copy)]
pub(crate) struct ColumnEntry {
    pub place: u32,
    pub tag: u32,
    pub before: u32,
}

/// The last entry of a column, and its place.
#[derive(Clone, Copy)]
pub(crate) struct Head {
    pub last: u32,
    pub place: u32,
}

/// Columns by their numbers, with their entries.
#[derive(Drop)]
pub(crate) struct Columns {
    pub heads: Vec<Head>,
    pub entries: Vec<ColumnEntry>,
}

impl Columns {
    /// No columns.
    pub(crate) fn new(alloc: Global) -> Columns
        ensures columns { AreColumns result }
        ensures none { (c : ℕ) → column_at result c ≡ [] }
    {
        Columns {
            heads: Vec::new(alloc),
            entries: Vec::new(alloc),
        }
    }

    /// The last entry of a column.
    pub(crate) fn last(&self, number: usize) -> u32
        ensures { result ≡ (head_at self.now.heads.items number).last }
    {
        match self.heads.get(number) {
            Some(head) => head.last,
            None => 0,
        }
    }
}

/// A digest with the place mixed in, of which some bits are left.
fn tagged(digest: u64, place: u32) -> u32
    ensures { result ≡ tagged digest place }
{
    (mixed(digest, Sym::Var(place as u64)) % 0x1_0000_0000) as u32
}

/// Makes so many columns that there is one with this number.
fn grow(heads: &mut Vec<Head>, number: usize) -> Result<(), AllocError>
    ensures same { HaveSameHeads heads.old.items heads.new.items }
    ensures ok { OnOk result (number < length heads.new.items) }
{
    'columns: while heads.len() <= number {
        heads.push(Head { last: 0, place: 0 })?;
    }
    Ok(())
}

/// Puts an entry of a place by its digest into a column, and tells whether that is the first of the place there. Where it isn't, or
/// there is no number for an entry, nothing is put.
pub(crate) fn put(
    columns: &mut Columns,
    number: usize,
    digest: u64,
    place: u32,
) -> Result<bool, AllocError>
    requires { AreColumns columns.old }
    ensures columns { AreColumns columns.new }
    ensures adds { AddsAtMost columns.old number place (tagged digest place) columns.new }
    ensures keeps { KeepsEntries columns.old columns.new }
    ensures others { (c : ℕ) → number ≢ c → column_at columns.new c ≡ column_at columns.old c }
    ensures ends { IfOk result (λ b. IsTrue b → EndsAt (column_at columns.new number) place) }
    ensures fresh { IfOk result (λ b. IsTrue b
        → ¬ EndsAt (column_at columns.old number) place) }
{
    grow(&mut columns.heads, number)?;
    let head = columns.heads[number];
    if head.last != 0 && head.place == place {
        return Ok(false);
    }
    let Some(last) = next_number(columns.entries.len()) else {
        return Ok(false);
    };
    columns.entries.push(ColumnEntry {
        place,
        tag: tagged(digest, place),
        before: head.last,
    })?;
    columns.heads[number] = Head { last, place };
    Ok(true)
}
