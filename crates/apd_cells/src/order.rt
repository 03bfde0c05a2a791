//! Variables in the order of their first appearance: a sparse set (Briggs and Torczon 1993), which is emptied at once.

ghost use Rattle.std.specs.Prelude.{◌≡◌, [], ◌<◌, ◌≤◌, ◌^◌, length, IfOk, OnOk, MatchOption};
ghost use Rattle.std.specs.List.{fold};
ghost use Rattle.apd_term.specs.Term.{IsAmong};
ghost use Rattle.apd_term.specs.Spelling.{variable_in};
ghost use Rattle.apd_term.specs.Canonical.{with_new, place_of};
ghost use Rattle.apd_cells.specs.Ordered.{IsFirst, IsNotBefore, IsPlace, HasPlaces, HasMorePlaces, placed};

use apd_term::Sym;
use std::alloc::{AllocError, Global};
use std::marker::Model;

/// Variables in the order of their first appearance, each once. Contracts see their list.
#[derive(Drop)]
pub struct Order {
    seen: Vec<u64>,
    /// The place of each variable that was seen behind the few first. What is left of earlier orders says nothing.
    places: Vec<usize>,
}

impl Model for Order {
    ghost use Rattle.std.specs.Prelude.{List, ℕ};
    ghost use Rattle.apd_cells.specs.Ordered.{HasPlaces};

    ghost Value = { List ℕ };

    ghost view = { λ o. o.seen.items };

    ghost invariant = { λ o. HasPlaces o.seen.items o.places.items };
}

/// So many variables are looked for one by one: a table, which is as long as the highest number of
/// a variable says, is made only where there are more.
const FEW: usize = 16;

/// The place of a variable, counted from 0; none exactly where it isn't one of the few first.
fn few_place(seen: &[u64], v: u64) -> Option<usize>
    ensures { MatchOption result (IsNotBefore 16 seen.now v) (IsFirst seen.now v) }
{
    let mut i: usize = 0;
    'places: while i < seen.len() && i < FEW {
        if seen[i] == v {
            return Some(i);
        }
        i += 1;
    }
    None
}

/// The place of a variable that isn't one of the few first, counted from 0; none exactly where it
/// wasn't seen.
fn place_in(seen: &[u64], places: &[usize], v: u64) -> Option<usize>
    requires table { HasPlaces seen.now places.now }
    requires few { IsNotBefore 16 seen.now v }
    ensures { MatchOption result (¬ IsAmong seen.now v) (IsPlace seen.now v) }
{
    if v as usize >= places.len() {
        return None;
    }
    let place = places[v as usize];
    if place >= seen.len() || seen[place] != v {
        return None;
    }
    Some(place)
}

/// Makes room for the place of a variable.
fn make_room(places: &mut Vec<usize>, v: u64) -> Result<(), AllocError>
    ensures more { HasMorePlaces places.old.items places.new.items }
    ensures ok { OnOk result (v < length places.new.items) }
{
    let v = v as usize;
    'room: while places.len() <= v {
        places.push(0)?;
    }
    Ok(())
}

impl Order {
    /// No variable.
    pub fn new(alloc: Global) -> Order
        ensures { result ≡ [] }
    {
        Order {
            seen: Vec::new(alloc),
            places: Vec::new(alloc),
        }
    }

    /// Forgets all variables.
    pub fn clear(&mut self)
        ensures { self.new ≡ [] }
    {
        self.seen.clear();
    }

    /// The variable at a place, counted from 0.
    pub fn get(&self, place: usize) -> Option<u64>
        ensures there { MatchOption result
            (length self.now ≤ place) (λ v. IsPlace self.now v place) }
        ensures fits { length self.now < 2 ^ 64 }
    {
        if place >= self.seen.len() {
            return None;
        }
        Some(self.seen[place])
    }

    /// The variable's place, counted from 1, at the end where it is new.
    pub fn place(&mut self, v: u64) -> Result<u64, AllocError>
        ensures order { OnOk result (self.new ≡ with_new self.old v) }
        ensures place { IfOk result (λ n. n ≡ place_of self.new v) }
    {
        if let Some(place) = few_place(self.seen.as_slice(), v) {
            return Ok(place as u64 + 1);
        }
        if self.seen.len() < FEW {
            self.seen.push(v)?;
            return Ok(self.seen.len() as u64);
        }
        if let Some(place) = place_in(self.seen.as_slice(), self.places.as_slice(), v) {
            return Ok(place as u64 + 1);
        }
        make_room(&mut self.places, v)?;
        self.places[v as usize] = self.seen.len();
        self.seen.push(v)?;
        Ok(self.seen.len() as u64)
    }

    /// The symbol with its variable's place for its number.
    #[inline(always)]
    pub fn placed(&mut self, symbol: Sym) -> Result<Sym, AllocError>
        ensures order { OnOk result (self.new ≡ fold with_new self.old (variable_in symbol)) }
        ensures symbol { IfOk result (λ x. x ≡ placed self.new symbol) }
    {
        match symbol {
            Sym::Var(v) => Ok(Sym::Var(self.place(v)?)),
            other => Ok(other),
        }
    }
}
