//! Places in a list by marks of what stands there.

ghost use Rattle.std.specs.Prelude.{◌≡◌, ◌≢◌, [], ℕ, OnOk, OnErr};
ghost use Rattle.apd_marks.specs.Places.{HaveSamePlaces, Notes, places_at};

use apd_base::ListOf;
use indexmap::IndexMap;
use std::alloc::{AllocError, Global};

/// Places in a list by marks.
pub type Places = IndexMap<u64, ListOf<usize>>;

/// Notes one more place of a mark; after want of memory each mark has the places that it had.
pub fn note(alloc: Global, places: &mut Places, mark: u64, place: usize) -> Result<(), AllocError>
    ensures ok { OnOk result (Notes places.old mark place places.new) }
    ensures err { OnErr result (HaveSamePlaces places.old places.new) }
{
    if let Some(of_mark) = places.get_mut(&mark) {
        return of_mark.push(place);
    }
    let mut of_mark = ListOf::new(alloc);
    of_mark.push(place)?;
    places.insert(mark, of_mark)?;
    Ok(())
}

/// The places with a mark, in order.
pub fn with_mark(places: &Places, mark: u64) -> &[usize]
    ensures { result.now ≡ places_at places.now mark }
{
    match places.get(&mark) {
        Some(of_mark) => of_mark.as_slice(),
        None => &[],
    }
}

/// Takes the last of a mark's places away.
pub fn forget(places: &mut Places, mark: u64)
    requires { places_at places.old mark ≢ [] }
    ensures { (n : ℕ) × Notes places.new mark n places.old }
{
    let Some(of_mark) = places.get_mut(&mark) else {
        unreachable!()
    };
    let _last = of_mark.pop();
}
