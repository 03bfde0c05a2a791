//! Variables that stand twice in an atom: its instances have equal terms at their positions.

ghost use Rattle.std.specs.Prelude.{◌≤◌, ℕ, length, IfOk, OnOk};
ghost use Rattle.apd_index.specs.Chains.{entries_from};
ghost use Rattle.apd_index.specs.Columns.{Agree, AreColumns, AreRepeats, HasEntries, HasUnlikes, IsAlike, PutsFirst, PutsRepeat, column_at};
ghost use Rattle.apd_bits.specs.Rows.{HasBit};

use crate::columns::{ColumnEntry, Columns};
use crate::nodes::{Nodes, number_at};
use crate::positions::positions_of;
use crate::unlike::{Repeat, Unlikes, is_of, keep, key_of};
use crate::walk::Table;
use apd_bits::Row;
use apd_term::{Flat, Sym};
use indexmap::IndexMap;
use std::alloc::{AllocError, Global};

/// Puts the column of a variable's first position with this one; where this is the first, notes it.
fn put_repeat(
    firsts: &mut IndexMap<u64, usize>,
    repeats: &mut Vec<Repeat>,
    v: u64,
    number: usize,
) -> Result<(), AllocError>
    ensures firsts { PutsFirst firsts.old v number firsts.new }
    ensures repeats { OnOk result
        (PutsRepeat firsts.old v number repeats.old.items repeats.new.items) }
{
    if let Some(first) = firsts.get(&v) {
        repeats.push(Repeat {
            one: *first,
            other: number,
        })?;
        return Ok(());
    }
    firsts.insert(v, number)?;
    Ok(())
}

/// Of each variable of the atom the column of its first position with that of each later one, as far as atoms have such positions.
fn repeats_of(alloc: Global, nodes: &Nodes, atom: &Flat) -> Result<Vec<Repeat>, AllocError>
    ensures { IfOk result (λ repeats. AreRepeats nodes.now atom.now repeats.items) }
{
    let positions = positions_of(alloc, atom)?;
    let mut firsts = IndexMap::new(alloc);
    let mut repeats = Vec::new(alloc);
    let symbols = atom.symbols();
    'symbols: for i in 0..symbols.len() {
        let Sym::Var(v) = symbols[i] else {
            continue;
        };
        let position = positions[i];
        let Some(number) = number_at(nodes, position) else {
            continue;
        };
        put_repeat(&mut firsts, &mut repeats, v, number)?;
    }
    Ok(repeats)
}

/// Keeps, for the positions at which the atom has a variable again, the places for which their columns differ.
pub(crate) fn prepare(
    alloc: Global,
    table: &Table,
    unlikes: &mut Unlikes,
    atom: &Flat,
) -> Result<(), AllocError>
    requires columns { AreColumns table.now.columns }
    requires unlikes { HasUnlikes table.now.columns unlikes.old }
    ensures { HasUnlikes table.now.columns unlikes.new }
{
    let repeats = repeats_of(alloc, &table.nodes, atom)?;
    'repeats: for repeat in repeats.as_slice() {
        keep(alloc, &table.columns, unlikes, *repeat)?;
    }
    Ok(())
}

/// Clears the bits of places for which two columns have different tags. Their places fall, so they are walked at once; entries
/// with one tag are passed without a look at their places.
fn strike(row: &mut Row, entries: &[ColumnEntry], one: u32, other: u32)
    requires falling { HasEntries entries.now }
    requires one { one ≤ length entries.now }
    requires other { other ≤ length entries.now }
    ensures { (k : ℕ) → HasBit row.old k
        → Agree (entries_from entries.now one) (entries_from entries.now other) k
        → HasBit row.new k }
{
    let mut i = one;
    let mut j = other;
    'entries: while i != 0 && j != 0 {
        let one = entries[i as usize - 1];
        let other = entries[j as usize - 1];
        if one.tag == other.tag {
            i = one.before;
            j = other.before;
        } else if one.place == other.place {
            row.clear(one.place as usize);
            i = one.before;
            j = other.before;
        } else if one.place > other.place {
            i = one.before;
        } else {
            j = other.before;
        }
    }
}

/// Clears the bits of places that have unequal terms at two positions: those that are kept, or all where none are kept.
fn strike_repeat(columns: &Columns, unlikes: &Unlikes, repeat: Repeat, row: &mut Row)
    requires columns { AreColumns columns.now }
    requires unlikes { HasUnlikes columns.now unlikes.now }
    ensures { (k : ℕ) → HasBit row.old k
        → Agree (column_at columns.now repeat.one) (column_at columns.now repeat.other) k
        → HasBit row.new k }
{
    if let Some(unlike) = unlikes.pairs.get(&key_of(repeat)) {
        if is_of(unlike, repeat) {
            row.leave_out(&unlike.row);
            return;
        }
    }
    strike(
        row,
        columns.entries.as_slice(),
        columns.last(repeat.one),
        columns.last(repeat.other),
    );
}

/// Clears the bits of places that have unequal terms where a variable of the atom stands twice, until no bit is left.
pub(crate) fn strike_unequal(
    alloc: Global,
    table: &Table,
    unlikes: &Unlikes,
    atom: &Flat,
    row: &mut Row,
) -> Result<(), AllocError>
    requires columns { AreColumns table.now.columns }
    requires unlikes { HasUnlikes table.now.columns unlikes.now }
    ensures { (k : ℕ) → HasBit row.old k → IsAlike table.now.nodes table.now.columns atom.now k
        → HasBit row.new k }
{
    let repeats = repeats_of(alloc, &table.nodes, atom)?;
    'repeats: for repeat in repeats.as_slice() {
        if row.is_clear() {
            return Ok(());
        }
        strike_repeat(&table.columns, unlikes, *repeat, row);
    }
    Ok(())
}
