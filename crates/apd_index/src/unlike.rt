//! Places that have unequal terms at two positions, kept for pairs of columns. What differs once does so when more atoms are put,
//! so columns are walked on from where they were walked to.

ghost use Rattle.std.specs.Prelude.{◌≡◌, IsTrue};
ghost use Rattle.apd_index.specs.Columns.{AddsUnlike, AreColumns, HasGathered, HasPairs, HasUnlikes, IsUnlike};
ghost use Rattle.apd_index.specs.declared.columns.Columns.{Columns as Table};

use crate::columns::{ColumnEntry, Columns};
use crate::gathered::{Gatherings, entries_of, gather};
use apd_bits::Row;
use apd_marks::mixed;
use apd_term::Sym;
use indexmap::IndexMap;
use std::alloc::{AllocError, Global};

/// The columns of two positions at which an atom has the same variable.
#[derive(Clone, Copy)]
pub(crate) struct Repeat {
    pub one: usize,
    pub other: usize,
}

/// How many entries of two columns were walked.
#[derive(Clone, Copy)]
pub(crate) struct Walked {
    pub ones: usize,
    pub others: usize,
}

/// Of two columns the places for which they have different tags, as far as they were walked.
#[derive(Drop)]
pub(crate) struct Unlike {
    pub one: usize,
    pub other: usize,
    pub row: Row,
    pub walked: Walked,
}

/// Pairs of columns, each by a number that two share by chance alone.
type Pairs = IndexMap<u64, Unlike>;

/// What is kept of pairs of columns, and the columns that they are of.
#[derive(Drop)]
pub(crate) struct Unlikes {
    pub pairs: Pairs,
    pub gatherings: Gatherings,
}

impl Unlikes {
    /// Nothing is kept.
    pub(crate) fn new(alloc: Global) -> Unlikes
        ensures { (columns : Table) → HasUnlikes columns result }
    {
        Unlikes {
            pairs: IndexMap::new(alloc),
            gatherings: IndexMap::new(alloc),
        }
    }
}

/// The number of a pair.
pub(crate) fn key_of(repeat: Repeat) -> u64 {
    mixed(repeat.one as u64, Sym::Var(repeat.other as u64))
}

/// Whether this is kept of the pair.
pub(crate) fn is_of(unlike: &Unlike, repeat: Repeat) -> bool
    ensures { IsTrue result →
        (unlike.now.one ≡ repeat.one) × (unlike.now.other ≡ repeat.other) }
{
    unlike.one == repeat.one && unlike.other == repeat.other
}

/// Nothing is known of the pair yet.
fn nothing_of(alloc: Global, repeat: Repeat) -> Unlike
    ensures { (columns : Table) → IsUnlike columns result }
{
    Unlike {
        one: repeat.one,
        other: repeat.other,
        row: Row::new(alloc),
        walked: Walked { ones: 0, others: 0 },
    }
}

/// Whether something is kept of the pair.
fn is_kept(pairs: &Pairs, repeat: Repeat) -> bool {
    match pairs.get(&key_of(repeat)) {
        Some(unlike) => is_of(unlike, repeat),
        None => false,
    }
}

/// Walks two columns on, and sets the bits of places for which they have different tags. Their places rise, so they are walked at
/// once; entries with one tag are passed without a look at their places.
fn walk(
    row: &mut Row,
    ones: &[ColumnEntry],
    others: &[ColumnEntry],
    from: Walked,
) -> Result<Walked, AllocError>
    ensures { AddsUnlike ones.now others.now row.old row.new }
{
    let mut i = from.ones;
    let mut j = from.others;
    'entries: while i < ones.len() && j < others.len() {
        let one = ones[i];
        let other = others[j];
        if one.tag == other.tag {
            i += 1;
            j += 1;
        } else if one.place == other.place {
            row.set(one.place as usize)?;
            i += 1;
            j += 1;
        } else if one.place < other.place {
            i += 1;
        } else {
            j += 1;
        }
    }
    Ok(Walked { ones: i, others: j })
}

/// Brings what is kept of a pair up to date.
fn bring_pair(gatherings: &Gatherings, unlike: &mut Unlike) -> Result<(), AllocError>
    ensures { (columns : Table) → HasGathered columns gatherings.now
        → IsUnlike columns unlike.old → IsUnlike columns unlike.new }
{
    let ones = entries_of(gatherings, unlike.one);
    let others = entries_of(gatherings, unlike.other);
    let walked = walk(&mut unlike.row, ones, others, unlike.walked)?;
    unlike.walked = walked;
    Ok(())
}

/// Brings what is kept by a number up to date.
fn bring(gatherings: &Gatherings, pairs: &mut Pairs, key: u64) -> Result<(), AllocError>
    ensures { (columns : Table) → HasGathered columns gatherings.now
        → HasPairs columns pairs.old → HasPairs columns pairs.new }
{
    match pairs.get_mut(&key) {
        Some(unlike) => bring_pair(gatherings, unlike),
        None => Ok(()),
    }
}

/// Keeps the pair, of which nothing may be known yet.
fn open_pair(alloc: Global, pairs: &mut Pairs, repeat: Repeat) -> Result<(), AllocError>
    ensures { (columns : Table) → HasPairs columns pairs.old → HasPairs columns pairs.new }
{
    if is_kept(pairs, repeat) {
        return Ok(());
    }
    drop(pairs.insert(key_of(repeat), nothing_of(alloc, repeat))?);
    Ok(())
}

/// Keeps the pair, with all that the columns tell.
pub(crate) fn keep(
    alloc: Global,
    columns: &Columns,
    unlikes: &mut Unlikes,
    repeat: Repeat,
) -> Result<(), AllocError>
    requires columns { AreColumns columns.now }
    requires unlikes { HasUnlikes columns.now unlikes.old }
    ensures { HasUnlikes columns.now unlikes.new }
{
    gather(alloc, columns, &mut unlikes.gatherings, repeat.one)?;
    gather(alloc, columns, &mut unlikes.gatherings, repeat.other)?;
    open_pair(alloc, &mut unlikes.pairs, repeat)?;
    bring(&unlikes.gatherings, &mut unlikes.pairs, key_of(repeat))
}
