//! Columns whose entries are gathered: side by side they are walked faster than as chains, and a column that many pairs have is walked
//! often.

ghost use Rattle.std.specs.Prelude.{◌≤◌, length, IfOk, List};
ghost use Rattle.apd_index.specs.Chains.{entries_from};
ghost use Rattle.apd_index.specs.Columns.{AreColumns, AreIn, HasEntries, HasGathered, column_at};
ghost use Rattle.apd_index.specs.declared.columns.Columns.{Columns as Table};
ghost use Rattle.apd_index.specs.declared.columns.ColumnEntry.{ColumnEntry as Put};

use crate::columns::{ColumnEntry, Columns};
use indexmap::IndexMap;
use std::alloc::{AllocError, Global};

/// The entries of a column in the order in which they were put, as far as they were gathered: up to this one.
#[derive(Drop)]
pub(crate) struct Gathered {
    pub entries: Vec<ColumnEntry>,
    pub upto: u32,
}

/// What is gathered, by the numbers of columns.
pub(crate) type Gatherings = IndexMap<usize, Gathered>;

/// The entries of a chain from one down to another, the last one first.
fn newer(
    alloc: Global,
    entries: &[ColumnEntry],
    from: u32,
    upto: u32,
) -> Result<Vec<ColumnEntry>, AllocError>
    requires falling { HasEntries entries.now }
    requires within { from ≤ length entries.now }
    ensures { IfOk result (λ newer. AreIn (entries_from entries.now from) newer.items) }
{
    let mut newer = Vec::new(alloc);
    let mut at = from;
    'entries: while at > upto {
        let entry = entries[at as usize - 1];
        newer.push(entry)?;
        at = entry.before;
    }
    Ok(newer)
}

/// Puts entries behind others, the last one first.
fn put_back(entries: &mut Vec<ColumnEntry>, newer: &[ColumnEntry]) -> Result<(), AllocError>
    ensures { (column : List Put) → AreIn column entries.old.items → AreIn column newer.now
        → AreIn column entries.new.items }
{
    'newer: for i in (0..newer.len()).rev() {
        entries.push(newer[i])?;
    }
    Ok(())
}

/// Brings what is gathered of a column up to date.
fn gather_newer(
    alloc: Global,
    columns: &Columns,
    number: usize,
    gathered: &mut Gathered,
) -> Result<(), AllocError>
    requires columns { AreColumns columns.now }
    requires gathered { AreIn (column_at columns.now number) gathered.old.entries.items }
    ensures { AreIn (column_at columns.now number) gathered.new.entries.items }
{
    let last = columns.last(number);
    let newer = newer(alloc, columns.entries.as_slice(), last, gathered.upto)?;
    put_back(&mut gathered.entries, newer.as_slice())?;
    gathered.upto = last;
    Ok(())
}

/// Gathers a column, of which some may be gathered already.
pub(crate) fn gather(
    alloc: Global,
    columns: &Columns,
    gatherings: &mut Gatherings,
    number: usize,
) -> Result<(), AllocError>
    requires columns { AreColumns columns.now }
    requires gathered { HasGathered columns.now gatherings.old }
    ensures { HasGathered columns.now gatherings.new }
{
    let gathered = gatherings.entry(number)?.or_insert(Gathered {
        entries: Vec::new(alloc),
        upto: 0,
    });
    gather_newer(alloc, columns, number, gathered)
}

/// What is gathered of a column.
pub(crate) fn entries_of(gatherings: &Gatherings, number: usize) -> &[ColumnEntry]
    ensures { (columns : Table) → HasGathered columns gatherings.now
        → AreIn (column_at columns number) result.now }
{
    match gatherings.get(&number) {
        Some(gathered) => gathered.entries.as_slice(),
        None => &[],
    }
}
