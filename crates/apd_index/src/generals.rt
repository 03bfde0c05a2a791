//! Atoms that are looked up by their instances.

ghost use Rattle.std.specs.Prelude.{◌≡◌, ◌⊎◌, ◌++◌, ◌∷◌, [], IfOk, OnOk, slice_get};
ghost use Rattle.std.specs.List.{list_any};
ghost use Rattle.apd_term.specs.Term.{IsAmong};
ghost use Rattle.apd_marks.specs.Positions.{IsLasting, all_marks, any_term};
ghost use Rattle.apd_marks.specs.Places.{places_at};
ghost use Rattle.apd_index.specs.Retrieval.{AreGenerals, has_general, is_above};

use apd_answers::is_instance;
use apd_marks::{ANY_TERM, Places, all_marks, marks_of, note, whole, with_mark};
use apd_term::{Atoms, Flat};
use indexmap::IndexMap;
use std::alloc::{AllocError, Global};
use std::marker::Model;

/// The one of these marks, and of the one that all terms have, that the fewest places have.
fn rarest(places: &Places, marks: &[u64]) -> u64
    ensures { (result ≡ any_term) ⊎ IsAmong marks.now result }
{
    let mut rarest = ANY_TERM;
    let mut least = with_mark(places, ANY_TERM).len();
    'marks: for mark in marks {
        let count = with_mark(places, *mark).len();
        if count <= least {
            rarest = *mark;
            least = count;
        }
    }
    rarest
}

/// Of the marks that the atom's instances have too, one that few places have.
fn narrow(alloc: Global, places: &Places, atom: &Flat) -> Result<u64, AllocError>
    ensures { IfOk result (λ m. IsLasting atom.now m) }
{
    if atom.is_ground() {
        return Ok(whole(atom));
    }
    let marks = marks_of(alloc, atom)?;
    Ok(rarest(places, marks.as_slice()))
}

/// Puts an atom at the end. Its place is noted first: where there is no atom, it is passed over.
fn put(alloc: Global, atoms: &mut Atoms, places: &mut Places, atom: &Flat) -> Result<(), AllocError>
    requires { AreGenerals atoms.old places.old }
    ensures ok { OnOk result (atoms.new ≡ atoms.old ++ atom.now ∷ []) }
    ensures noted { AreGenerals atoms.new places.new }
{
    let mark = narrow(alloc, places, atom)?;
    let copy = atom.copy(alloc)?;
    note(alloc, places, mark, atoms.len())?;
    atoms.push(copy)
}

/// Puts atoms at the end.
fn put_all(
    alloc: Global,
    atoms: &mut Atoms,
    places: &mut Places,
    more: &[Flat],
) -> Result<(), AllocError>
    requires { AreGenerals atoms.old places.old }
    ensures ok { OnOk result (atoms.new ≡ atoms.old ++ more.now) }
    ensures noted { AreGenerals atoms.new places.new }
{
    'more: for atom in more {
        put(alloc, atoms, places, atom)?;
    }
    Ok(())
}

/// Whether the atom is an instance of the one at a place.
fn is_above(alloc: Global, atoms: &Atoms, place: usize, atom: &Flat) -> Result<bool, AllocError>
    ensures { IfOk result (λ b. b ≡ is_above atom.now (slice_get atoms.now place)) }
{
    match atoms.get(place) {
        Some(general) => is_instance(alloc, atom, general),
        None => Ok(false),
    }
}

/// Whether the atom is an instance of the one at some of these places.
fn some_above(
    alloc: Global,
    atoms: &Atoms,
    places: &[usize],
    atom: &Flat,
) -> Result<bool, AllocError>
    ensures { IfOk result (λ b. b ≡
        list_any (λ k. is_above atom.now (slice_get atoms.now k)) places.now) }
{
    'places: for place in places {
        if is_above(alloc, atoms, *place, atom)? {
            return Ok(true);
        }
    }
    Ok(false)
}

/// Whether the atom is an instance of the one at some place of one of its marks.
fn some_marked(
    alloc: Global,
    atoms: &Atoms,
    places: &Places,
    atom: &Flat,
) -> Result<bool, AllocError>
    ensures { IfOk result (λ b. b ≡ list_any (λ m. list_any
        (λ k. is_above atom.now (slice_get atoms.now k)) (places_at places.now m))
        (all_marks atom.now)) }
{
    let marks = all_marks(alloc, atom)?;
    'marks: for mark in marks.as_slice() {
        if some_above(alloc, atoms, with_mark(places, *mark), atom)? {
            return Ok(true);
        }
    }
    Ok(false)
}

/// Atoms that are looked up by their instances. Contracts see their list.
#[derive(Drop)]
pub struct Generals {
    atoms: Atoms,
    /// The places of atoms, each by a mark that the atom's instances have too.
    places: Places,
}

impl Model for Generals {
    ghost use Rattle.std.specs.Prelude.{List};
    ghost use Rattle.std.specs.Coded.{coded_list};
    ghost use Rattle.apd_term.specs.Term.{Term};
    ghost use Rattle.apd_term.specs.Spelling.{term_code};
    ghost use Rattle.apd_index.specs.Retrieval.{AreGenerals};

    ghost Value = { List Term };

    ghost coded = { coded_list term_code };

    ghost view = { λ d. d.atoms };

    ghost invariant = { λ d. AreGenerals d.atoms d.places };
}

impl Generals {
    /// No atoms.
    pub fn new(alloc: Global) -> Generals
        ensures { result ≡ [] }
    {
        Generals {
            atoms: Atoms::new(alloc),
            places: IndexMap::new(alloc),
        }
    }

    /// Puts atoms at the end.
    pub fn put_all(&mut self, alloc: Global, atoms: &[Flat]) -> Result<(), AllocError>
        ensures { OnOk result (self.new ≡ self.old ++ atoms.now) }
    {
        put_all(alloc, &mut self.atoms, &mut self.places, atoms)
    }

    /// Whether the atom is an instance of some of these.
    pub fn has_general(&self, alloc: Global, atom: &Flat) -> Result<bool, AllocError>
        ensures { IfOk result (λ b. b ≡ has_general self.now atom.now) }
    {
        some_marked(alloc, &self.atoms, &self.places, atom)
    }
}
