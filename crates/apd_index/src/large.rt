//! What is noted of an atom when it is put. A large one is compared with each atom that is looked up: as many as there is room for cost
//! less so than their marks would.

ghost use Rattle.std.specs.Prelude.{◌≡◌, List, IfOk, IfSome, IsTrue, OnOk};
ghost use Rattle.apd_term.specs.Term.{Term};
ghost use Rattle.apd_index.specs.Columns.{AddsOf, HasColumns, HasUnlikes};
ghost use Rattle.apd_index.specs.Nodes.{AreKept, KeepsFounders};
ghost use Rattle.apd_index.specs.Retrieval.{IsNoted};
ghost use Rattle.apd_index.specs.Subterms.{digests as digests_in};
ghost use Rattle.apd_index.specs.Table.{Grows, IsSound, KeepsLarge};

use crate::columns::Columns;
use crate::unlike::Unlikes;
use crate::walk::{Table, note_atom};
use apd_term::Flat;
use std::alloc::{AllocError, Global};
use std::mem::replace;

/// An atom of more symbols is large.
pub(crate) const LARGE: usize = 8192;

/// With more links there might be no numbers for those of an atom.
const FULL: usize = 4_294_959_000;

/// The place of an atom that isn't large, which has 32 bits then. Behind so many links as there may be, each is large.
fn small_place(atom: &Flat, links: usize, place: usize) -> Option<u32>
    ensures { IfSome result (λ k. k ≡ place) }
{
    if atom.symbols().len() > LARGE || links > FULL {
        return None;
    }
    u32::try_from(place).ok()
}

/// Notes an atom with a place, and tells whether what was put into columns is right.
pub(crate) fn note_any(
    alloc: Global,
    table: &mut Table,
    atom: &Flat,
    digests: &[u64],
    place: usize,
) -> Result<bool, AllocError>
    requires sound { IsSound table.old }
    requires digests { digests.now ≡ digests_in atom.now }
    ensures grows { Grows table.old table.new }
    ensures noted { OnOk result (IsNoted table.new place atom.now) }
    ensures adds { IfOk result (λ b. IsTrue b
        → AddsOf table.new.nodes table.old.columns atom.now place table.new.columns) }
{
    match small_place(atom, table.nodes.links.len(), place) {
        Some(place) => note_atom(alloc, table, atom, digests, place),
        None => {
            table.large.push(place)?;
            Ok(true)
        }
    }
}

/// Forgets what atoms have at their positions: they are compared from now on.
pub(crate) fn give_up(alloc: Global, table: &mut Table, unlikes: &mut Unlikes)
    requires { IsSound table.old }
    ensures sound { IsSound table.new }
    ensures kept { AreKept table.old.nodes table.new.nodes }
    ensures founders { KeepsFounders table.old.nodes table.new.nodes }
    ensures large { KeepsLarge table.old table.new }
    ensures columns { (xs : List Term) → HasColumns xs table.new.nodes table.new.columns }
    ensures unlikes { HasUnlikes table.new.columns unlikes.new }
{
    table.is_given_up = true;
    drop(replace(&mut table.columns, Columns::new(alloc)));
    drop(replace(unlikes, Unlikes::new(alloc)));
}
