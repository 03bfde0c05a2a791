//! Atoms that wait: nothing is noted of them, and they are compared with each atom of the same root symbol that is looked up. To note
//! each symbol of them takes longer than to compare them some times. So they wait until look-ups may have compared many symbols of
//! atoms that waited; from then on those of a root are noted at the next look-up of that root, where they are many.

ghost use Rattle.std.specs.Prelude.{◌≡◌, IfOk, IsTrue, OnOk, slice_get, IfSome, Some};
ghost use Rattle.apd_term.specs.Term.{Term};
ghost use Rattle.apd_index.specs.Columns.{AddsOf, HasColumns};
ghost use Rattle.apd_index.specs.Retrieval.{AreKeptBut, AreKeptIn, AreNoted, AreSpecials, IsKnown, IsNoted, root_mark};
ghost use Rattle.apd_index.specs.Subterms.{digests as digests_in};
ghost use Rattle.apd_index.specs.Table.{Grows, IsSound};

use crate::digests::digests_of;
use crate::large::note_any;
use crate::nodes::count_at;
use crate::positions::mark_of;
use crate::room::make_room;
use crate::walk::Table;
use apd_base::ListOf;
use apd_marks::{Parent, Places, TOP, note, with_mark};
use apd_skips::KeptAtoms;
use apd_term::Flat;
use std::alloc::{AllocError, Global};

/// So many atoms of one root symbol are few.
const FEW: usize = 64;

/// How long it takes to find an atom that is compared, in symbols that are compared.
const TO_FIND: usize = 16;

/// What is known of atoms, each by its place: it is noted, or it waits.
#[derive(Drop)]
pub(crate) struct Known {
    pub table: Table,
    /// The places of atoms of which nothing is noted yet, by the marks of their root symbols.
    pub waiting: Places,
}

/// The mark of the atom's root symbol; a variable has none.
pub(crate) fn root_of(atom: &Flat) -> Option<u64>
    ensures { result ≡ root_mark atom.now }
{
    let symbols = atom.symbols();
    mark_of(Parent { mark: TOP, left: 1 }, symbols[0])
}

/// How long it takes at most to compare an atom with those that wait at its root's mark, in symbols that are compared.
pub(crate) fn cost_of(waiting: &Places, atom: &Flat) -> usize {
    match root_of(atom) {
        Some(mark) => {
            let symbols = atom.symbols().len().saturating_add(TO_FIND);
            with_mark(waiting, mark).len().saturating_mul(symbols)
        }
        None => 0,
    }
}

/// Notes the atom at a place, where there is one, and tells whether what was put into columns is right.
fn note_at(
    alloc: Global,
    atoms: &KeptAtoms,
    table: &mut Table,
    place: usize,
) -> Result<bool, AllocError>
    requires { IsSound table.old }
    ensures grows { Grows table.old table.new }
    ensures noted { OnOk result ((x : Term) → slice_get atoms.now place ≡ Some x
        → IsNoted table.new place x) }
    ensures columns { IfOk result (λ b. IsTrue b
        → HasColumns atoms.now table.old.nodes table.old.columns
        → HasColumns atoms.now table.new.nodes table.new.columns) }
{
    let Some(kept) = atoms.get(place) else {
        return Ok(true);
    };
    let atom = kept.atom();
    let digests = digests_of(alloc, atom)?;
    note_any(alloc, table, atom, digests.as_slice(), place)
}

/// Notes the atoms at these places.
fn note_all(
    alloc: Global,
    atoms: &KeptAtoms,
    table: &mut Table,
    places: &[usize],
) -> Result<bool, AllocError>
    requires { IsSound table.old }
    ensures grows { Grows table.old table.new }
    ensures noted { OnOk result (AreNoted atoms.now table.new places.now) }
    ensures columns { IfOk result (λ b. IsTrue b
        → HasColumns atoms.now table.old.nodes table.old.columns
        → HasColumns atoms.now table.new.nodes table.new.columns) }
{
    let mut are_right = true;
    'places: for place in places {
        let is_right = note_at(alloc, atoms, table, *place)?;
        are_right = are_right && is_right;
    }
    Ok(are_right)
}

/// Forgets what waits at a mark.
fn forget(alloc: Global, waiting: &mut Places, mark: u64) -> Result<(), AllocError>
    ensures { AreKeptBut mark waiting.old waiting.new }
{
    drop(waiting.insert(mark, ListOf::new(alloc))?);
    Ok(())
}

/// Notes the atoms that wait at the mark of an atom's root symbol, where they are many.
pub(crate) fn gather(
    alloc: Global,
    atoms: &KeptAtoms,
    known: &mut Known,
    atom: &Flat,
) -> Result<bool, AllocError>
    requires sound { IsSound known.old.table }
    requires noted { AreSpecials atoms.now known.old }
    ensures grows { Grows known.old.table known.new.table }
    ensures noted { AreSpecials atoms.now known.new }
    ensures columns { IfOk result (λ b. IsTrue b
        → HasColumns atoms.now known.old.table.nodes known.old.table.columns
        → HasColumns atoms.now known.new.table.nodes known.new.table.columns) }
{
    let Some(mark) = root_of(atom) else {
        return Ok(true);
    };
    let places = with_mark(&known.waiting, mark);
    if places.len() < FEW {
        return Ok(true);
    }
    make_room(&mut known.table, atoms, places);
    let are_right = note_all(alloc, atoms, &mut known.table, places)?;
    forget(alloc, &mut known.waiting, mark)?;
    Ok(are_right)
}

/// The mark at which an atom waits: that of its root symbol, where no place is noted for it.
fn free_root(table: &Table, atom: &Flat) -> Option<u64>
    ensures { IfSome result (λ m. root_mark atom.now ≡ Some m) }
{
    let Some(mark) = root_of(atom) else {
        return None;
    };
    if count_at(&table.nodes, mark) > 0 {
        return None;
    }
    Some(mark)
}

/// Notes an atom with a place, or lets it wait, and tells whether what was put into columns is right.
pub(crate) fn note_or_wait(
    alloc: Global,
    known: &mut Known,
    atom: &Flat,
    digests: &[u64],
    place: usize,
) -> Result<bool, AllocError>
    requires sound { IsSound known.old.table }
    requires digests { digests.now ≡ digests_in atom.now }
    ensures grows { Grows known.old.table known.new.table }
    ensures waiting { AreKeptIn known.old.waiting known.new.waiting }
    ensures noted { OnOk result (IsKnown known.new place atom.now) }
    ensures adds { IfOk result (λ b. IsTrue b
        → AddsOf known.new.table.nodes known.old.table.columns atom.now place
        known.new.table.columns) }
{
    let Some(mark) = free_root(&known.table, atom) else {
        return note_any(alloc, &mut known.table, atom, digests, place);
    };
    note(alloc, &mut known.waiting, mark, place)?;
    Ok(true)
}
