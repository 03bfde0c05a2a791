//! Atoms that are looked up by what they are instances of.

ghost use Rattle.std.specs.Prelude.{◌≡◌, ◌++◌, ◌∷◌, ◌<◌, ◌≤◌, ◌/◌, [], ℕ, length, IfOk, IsTrue, MatchBool, OnErr, OnOk, slice_get};
ghost use Rattle.apd_term.specs.Term.{IsAmong, IsGround};
ghost use Rattle.apd_marks.specs.Positions.{any_term};
ghost use Rattle.apd_index.specs.Columns.{HasColumns, HasUnlikes, IsAlike};
ghost use Rattle.apd_index.specs.Nodes.{noted_at};
ghost use Rattle.apd_index.specs.Spots.{Leaves, IsSpot};
ghost use Rattle.apd_index.specs.declared.sharing.SymbolSpot.{SymbolSpot};
ghost use Rattle.apd_index.specs.Retrieval.{AreSpecials, AreWholes, NoneLeft, SomeLeft, has_special, is_below, is_left_below};
ghost use Rattle.apd_bits.specs.Rows.{HasBit};
ghost use Rattle.apd_index.specs.Table.{Grows, IsSound};

use crate::digests::digests_of;
use crate::large::give_up;
use crate::repeats::{prepare, strike_unequal};
use crate::sharing::alike;
use crate::unlike::Unlikes;
use crate::waiting::{Known, cost_of, gather, note_or_wait, root_of};
use crate::walk::Table;
use apd_bits::Row;
use apd_marks::{Places, note, whole, with_mark};
use apd_skips::{Kept, KeptAtoms};
use apd_term::Flat;
use indexmap::IndexMap;
use std::alloc::{AllocError, Global};
use std::marker::Model;

/// Puts an atom at the end, and tells whether what was put into columns is right. Its place is noted first: where there is no atom, it
/// is passed over.
fn put(
    alloc: Global,
    atoms: &mut KeptAtoms,
    known: &mut Known,
    atom: &Flat,
) -> Result<bool, AllocError>
    requires noted { AreSpecials atoms.old known.old }
    requires sound { IsSound known.old.table }
    requires columns { HasColumns atoms.old known.old.table.nodes known.old.table.columns }
    ensures ok { OnOk result (atoms.new ≡ atoms.old ++ atom.now ∷ []) }
    ensures err { OnErr result (atoms.new ≡ atoms.old) }
    ensures noted { AreSpecials atoms.new known.new }
    ensures grows { Grows known.old.table known.new.table }
    ensures columns { IfOk result (λ b. IsTrue b
        → HasColumns atoms.new known.new.table.nodes known.new.table.columns) }
{
    let digests = digests_of(alloc, atom)?;
    let kept = Kept::of(alloc, atom, digests.as_slice())?;
    let place = atoms.len();
    let is_right = note_or_wait(alloc, known, atom, digests.as_slice(), place)?;
    atoms.push(kept)?;
    Ok(is_right)
}

/// A row with the bit of each noted place that may have an instance of the atom, by what it has at positions.
fn likely(alloc: Global, table: &Table, unlikes: &Unlikes, atom: &Flat) -> Result<Row, AllocError>
    requires sound { IsSound table.now }
    requires unlikes { HasUnlikes table.now.columns unlikes.now }
    ensures { IfOk result (λ row. (k : ℕ) → IsAmong (noted_at table.now.nodes any_term) k
        → ((s : SymbolSpot) → IsSpot atom.now s → Leaves table.now.nodes k s)
        → IsAlike table.now.nodes table.now.columns atom.now k → HasBit row k) }
{
    let mut row = alike(alloc, &table.nodes, atom)?;
    strike_unequal(alloc, table, unlikes, atom, &mut row)?;
    Ok(row)
}

/// Whether the atom at a place is an instance of this one.
fn is_below(alloc: Global, atoms: &KeptAtoms, place: usize, atom: &Flat) -> Result<bool, AllocError>
    ensures { IfOk result (λ b. b ≡ is_below atom.now (slice_get atoms.now place)) }
{
    match atoms.get(place) {
        Some(special) => special.is_instance(alloc, atom),
        None => Ok(false),
    }
}

/// Whether the row has the place's bit, and the atom at the place is an instance of this one.
fn is_left_below(
    alloc: Global,
    atoms: &KeptAtoms,
    row: &Row,
    place: usize,
    atom: &Flat,
) -> Result<bool, AllocError>
    ensures { IfOk result (λ b. b ≡ is_left_below atoms.now row.now atom.now place) }
{
    if !row.has(place) {
        return Ok(false);
    }
    is_below(alloc, atoms, place, atom)
}

/// The first place behind those that share a word of bits with this one.
fn next_word(place: usize) -> usize
    requires { place < usize.MAX }
    ensures further { place < result }
    ensures near { (k : ℕ) → place ≤ k → k < result → k / 64 ≡ place / 64 }
{
    (place / 64 * 64).saturating_add(64)
}

/// Whether the atom at some place that has its bit in the row is an instance of this one.
fn some_below(alloc: Global, atoms: &KeptAtoms, row: &Row, atom: &Flat) -> Result<bool, AllocError>
    ensures { IfOk result (λ b. MatchBool b (SomeLeft atoms.now row.now atom.now)
        (NoneLeft atoms.now row.now atom.now)) }
{
    let mut place = 0;
    'places: while place < atoms.len() {
        if !row.has_near(place) {
            place = next_word(place);
            continue;
        }
        if is_left_below(alloc, atoms, row, place, atom)? {
            return Ok(true);
        }
        place += 1;
    }
    Ok(false)
}

/// Whether some of these is this ground atom: it has no other instance.
fn has_same(
    alloc: Global,
    atoms: &KeptAtoms,
    wholes: &Places,
    atom: &Flat,
) -> Result<bool, AllocError>
    requires ground { IsGround atom.now }
    requires wholes { AreWholes atoms.now wholes.now }
    ensures { IfOk result (λ b. b ≡ has_special atoms.now atom.now) }
{
    let mut row = Row::new(alloc);
    row.set_all(with_mark(wholes, whole(atom)))?;
    some_below(alloc, atoms, &row, atom)
}

/// Comparisons with atoms that wait may take so long, in symbols that are compared, before such atoms are noted.
const PATIENCE: usize = 1_048_576;

/// Atoms that are looked up by what they are instances of. Contracts see their list.
#[derive(Drop)]
pub struct Specials {
    atoms: KeptAtoms,
    /// The place of each atom, by the mark of the whole.
    wholes: Places,
    /// What is noted of them, and which of them wait.
    known: Known,
    /// How long comparisons with atoms that waited took at most, in symbols that were compared.
    compared: usize,
    /// Where atoms have unequal terms at two positions, of the pairs of positions that were asked about.
    unlikes: Unlikes,
}

impl Model for Specials {
    ghost use Rattle.std.specs.Prelude.{List};
    ghost use Rattle.std.specs.Coded.{coded_list};
    ghost use Rattle.apd_term.specs.Term.{Term};
    ghost use Rattle.apd_term.specs.Spelling.{term_code};
    ghost use Rattle.apd_index.specs.Columns.{HasColumns, HasUnlikes};
    ghost use Rattle.apd_index.specs.Retrieval.{AreSpecials, AreWholes};
    ghost use Rattle.apd_index.specs.Table.{IsSound};

    ghost Value = { List Term };

    ghost coded = { coded_list term_code };

    ghost view = { λ d. d.atoms };

    ghost invariant = { λ d. (AreWholes d.atoms d.wholes
        × AreSpecials d.atoms d.known)
        × (IsSound d.known.table
        × (HasColumns d.atoms d.known.table.nodes d.known.table.columns
        × HasUnlikes d.known.table.columns d.unlikes)) };
}

impl Specials {
    /// No atoms.
    pub fn new(alloc: Global) -> Specials
        ensures { result ≡ [] }
    {
        Specials {
            atoms: KeptAtoms::new(alloc),
            wholes: IndexMap::new(alloc),
            known: Known {
                table: Table::new(alloc),
                waiting: IndexMap::new(alloc),
            },
            compared: 0,
            unlikes: Unlikes::new(alloc),
        }
    }

    /// Puts an atom at the end.
    pub fn put(&mut self, alloc: Global, atom: &Flat) -> Result<(), AllocError>
        ensures { OnOk result (self.new ≡ self.old ++ atom.now ∷ []) }
    {
        note(alloc, &mut self.wholes, whole(atom), self.atoms.len())?;
        match put(alloc, &mut self.atoms, &mut self.known, atom) {
            Ok(true) => Ok(()),
            Ok(false) => {
                give_up(alloc, &mut self.known.table, &mut self.unlikes);
                Ok(())
            }
            Err(e) => {
                give_up(alloc, &mut self.known.table, &mut self.unlikes);
                Err(e)
            }
        }
    }

    /// Notes the atoms that wait at the root of this one, where they are many.
    fn gather(&mut self, alloc: Global, atom: &Flat) -> Result<(), AllocError>
        ensures { self.new ≡ self.old }
    {
        match gather(alloc, &self.atoms, &mut self.known, atom) {
            Ok(true) => Ok(()),
            Ok(false) => {
                give_up(alloc, &mut self.known.table, &mut self.unlikes);
                Ok(())
            }
            Err(e) => {
                give_up(alloc, &mut self.known.table, &mut self.unlikes);
                Err(e)
            }
        }
    }

    /// Computes ahead what tells whether some of these is an instance of the atom, and keeps it. The list stays as it is.
    pub fn prepare(&mut self, alloc: Global, atom: &Flat) -> Result<(), AllocError>
        ensures { self.new ≡ self.old }
    {
        if atom.is_ground() {
            return Ok(());
        }
        self.compared = self
            .compared
            .saturating_add(cost_of(&self.known.waiting, atom));
        if self.compared > PATIENCE {
            self.gather(alloc, atom)?;
        }
        prepare(alloc, &self.known.table, &mut self.unlikes, atom)
    }

    /// Whether some of these is an instance of the atom. Of a variable, each is.
    pub fn has_special(&self, alloc: Global, atom: &Flat) -> Result<bool, AllocError>
        ensures { IfOk result (λ b. b ≡ has_special self.now atom.now) }
    {
        if atom.is_ground() {
            return has_same(alloc, &self.atoms, &self.wholes, atom);
        }
        let Some(root) = root_of(atom) else {
            return is_below(alloc, &self.atoms, 0, atom);
        };
        let mut row = likely(alloc, &self.known.table, &self.unlikes, atom)?;
        row.set_all(self.known.table.large.as_slice())?;
        row.set_all(with_mark(&self.known.waiting, root))?;
        some_below(alloc, &self.atoms, &row, atom)
    }
}
