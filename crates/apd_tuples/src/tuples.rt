//! Tuples that were kept during a search.

ghost use Rattle.std.specs.Prelude.{◌≡◌, [], length, slice_get, IfOk, IfSome, Some};
ghost use Rattle.std.specs.Bool.{OnTrue};
ghost use Rattle.std.specs.Option.{option_map};
ghost use Rattle.apd_term.specs.Canonical.{canonical};
ghost use Rattle.apd_term.specs.Term.{Term, predicate_of, IsGround};
ghost use Rattle.apd_term.specs.declared.tuple.Tuple.{Tuple};
ghost use Rattle.apd_cells.specs.First.{first_symbol};
ghost use Rattle.apd_tuples.specs.Spots.{spot_at};
ghost use Rattle.apd_tuples.specs.Tuples.{kept_tuple, kept_tuples, AreThere, IsThere};

use crate::spots::{Fact, Spot, Spots};
use apd_past::past::{Past, PastCell};
use apd_past::writing::Page;
use apd_term::{Flat, Pred, Sym, Tuple};
use std::alloc::{AllocError, Global};
use std::marker::Model;

/// Tuples that were kept, in canonical form, each as it was then: they are read in the past, and none
/// is written out before. Contracts see their list, the oldest first.
#[derive(Drop)]
pub struct KeptTuples {
    past: Past,
    spots: Spots,
}

impl Model for KeptTuples {
    ghost use Rattle.std.specs.Prelude.{List};
    ghost use Rattle.std.specs.Coded.{coded_list};
    ghost use Rattle.apd_term.specs.declared.tuple.Tuple.{Tuple};
    ghost use Rattle.apd_clauses.specs.Codes.{tuple_code};
    ghost use Rattle.apd_tuples.specs.Tuples.{kept_tuples, AreThere};

    ghost Value = { List Tuple };

    ghost coded = { coded_list tuple_code };

    ghost view = { λ k. kept_tuples k.past k.spots };

    ghost invariant = { λ k. AreThere k.past k.spots };
}

/// The predicate of a term with this first symbol; none where it has none.
fn pred_of(symbol: Sym) -> Option<Pred>
    ensures { (t : Term) → first_symbol t ≡ symbol → result ≡ predicate_of t }
{
    match symbol {
        Sym::Fun(name, arity) => Some(Pred { name, arity }),
        _ => None,
    }
}

/// The cell with this number, counted from 0.
fn cell_at(cells: &[PastCell], k: usize) -> Option<PastCell>
    ensures { result ≡ slice_get cells.now k }
{
    match cells.get(k) {
        None => None,
        Some(cell) => Some(*cell),
    }
}

/// Whether no variable stands in the head of a kept tuple; false where that is neither known nor seen at once.
fn is_spot_head_ground(past: &Past, spot: &Spot<'_>) -> bool
    requires { IsThere past.now (spot_at spot.now) }
    ensures { OnTrue result (IsGround (kept_tuple past.now (spot_at spot.now)).head) }
{
    match spot.fact {
        Fact::Ground => true,
        _ => past.at(spot.moment).is_seen_ground(spot.head),
    }
}

impl KeptTuples {
    /// None.
    pub fn none(alloc: Global) -> KeptTuples
        ensures { result ≡ [] }
    {
        KeptTuples {
            past: Past::new(alloc),
            spots: Spots::new(alloc),
        }
    }

    /// The tuples at these spots, which are there in the past.
    pub fn new(past: Past, spots: Spots) -> KeptTuples
        requires { AreThere past spots }
        ensures { result ≡ kept_tuples past spots }
    {
        KeptTuples { past, spots }
    }

    /// How many there are.
    pub fn len(&self) -> usize
        ensures { result ≡ length self.now }
    {
        self.spots.len()
    }

    /// Whether no variable stands in the head of that with this number; false where that is neither known nor seen at once.
    pub fn is_head_ground(&self, number: u32) -> bool
        ensures { (t : Tuple) → slice_get self.now number ≡ Some t →
            OnTrue result (IsGround t.head) }
    {
        match self.spots.get(number as usize) {
            None => false,
            Some(spot) => is_spot_head_ground(&self.past, &spot),
        }
    }

    /// That with this number, counted from 0.
    pub fn get(
        &self,
        page: &mut Page,
        alloc: Global,
        number: u32,
    ) -> Result<Option<Tuple>, AllocError>
        ensures { IfOk result (λ o. o ≡ slice_get self.now number) }
    {
        match self.spots.get(number as usize) {
            None => Ok(None),
            Some(spot) => {
                let then = self.past.at(spot.moment);
                let tuple = then.tuple(page, alloc, spot.head, spot.goals)?;
                Ok(Some(tuple))
            }
        }
    }

    /// The goal with this number, counted from 0, of that with this number: alone, in canonical form.
    pub fn goal(
        &self,
        page: &mut Page,
        alloc: Global,
        number: u32,
        k: usize,
    ) -> Result<Option<Flat>, AllocError>
        ensures { IfOk result (λ o. (t : Tuple) → slice_get self.now number ≡ Some t →
            o ≡ option_map canonical (slice_get t.body k)) }
    {
        match self.spots.get(number as usize) {
            None => Ok(None),
            Some(spot) => match cell_at(spot.goals, k) {
                None => Ok(None),
                Some(cell) => {
                    let then = self.past.at(spot.moment);
                    let goal = then.term(page, alloc, cell)?;
                    Ok(Some(goal))
                }
            },
        }
    }

    /// The predicate of the head of that with this number, which isn't read; none where it has none.
    pub fn pred(&self, number: u32) -> Option<Pred>
        ensures { IfSome (slice_get self.now number)
            (λ (t : Tuple). result ≡ predicate_of t.head) }
    {
        match self.spots.get(number as usize) {
            None => None,
            Some(spot) => {
                let then = self.past.at(spot.moment);
                let at = then.follow(spot.head.0 as usize);
                pred_of(then.symbol(at))
            }
        }
    }
}
