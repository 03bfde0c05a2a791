//! Terms by their places.

ghost use Rattle.std.specs.Prelude.{◌≡◌, ◌<◌, ◌≤◌, ◌^◌, [], length, IfOk, OnOk, Some, slice_get, reverse};
ghost use Rattle.apd_term.specs.Term.{arity_of, first_of};
ghost use Rattle.apd_intern.specs.Nodes.{Adds, AreDistinct, AreThere, terms_at, applied};
ghost use Rattle.apd_intern.specs.Subterms.{HaveEarlierArguments, GrowsBySubterms};

use crate::hints::Hints;
use crate::node::{ArgumentsLink, TermNode, node_of, put_node};
use crate::spelling::spelled;
use apd_term::{Flat, Sym};
use indexmap::IndexMap;
use std::alloc::{AllocError, Global};
use std::marker::Model;

/// The place of a term among the terms, from 0.
#[derive(Clone, Copy)]
pub struct TermId(pub usize);

/// Terms, each once, by their places. Contracts see the list of the terms.
///
/// The tables are maps of no values, as that of the names is.
#[derive(Drop)]
pub struct Terms {
    alloc: Global,
    nodes: IndexMap<TermNode, ()>,
    links: IndexMap<ArgumentsLink, ()>,
    node_hints: Hints,
    link_hints: Hints,
    /// The places of a term's symbols while it is put, kept from term to term so that its memory is taken once.
    places: Vec<u32>,
}

impl Model for Terms {
    ghost use Rattle.std.specs.Prelude.{List};
    ghost use Rattle.std.specs.Coded.{coded_list};
    ghost use Rattle.apd_term.specs.Term.{Term};
    ghost use Rattle.apd_term.specs.Spelling.{term_code};
    ghost use Rattle.indexmap.specs.IndexMap.{keys};
    ghost use Rattle.apd_intern.specs.Nodes.{decoded, IsTable};

    ghost Value = { List Term };

    ghost coded = { coded_list term_code };

    ghost view = { λ t. decoded (keys t.links) (keys t.nodes) };

    ghost invariant = { λ t. IsTable (keys t.links) (keys t.nodes) };
}

impl Terms {
    /// No term.
    pub fn new(alloc: Global) -> Terms
        ensures { result ≡ [] }
    {
        Terms {
            alloc,
            nodes: IndexMap::new(alloc),
            links: IndexMap::new(alloc),
            node_hints: Hints::new(alloc),
            link_hints: Hints::new(alloc),
            places: Vec::new(alloc),
        }
    }

    /// How many terms there are. They are distinct, and each argument of one stands before it.
    pub fn count(&self) -> usize
        ensures count { result ≡ length self.now }
        ensures few { result < 2 ^ 32 }
        ensures distinct { AreDistinct self.now }
        ensures arguments { HaveEarlierArguments self.now }
    {
        self.nodes.len()
    }

    /// Puts the term whose symbol stands before the terms at the newest of these places, in the place of those.
    fn put_symbol(&mut self, symbol: Sym, places: &mut Vec<u32>) -> Result<(), AllocError>
        requires there { AreThere self.old (reverse places.old.items) }
        requires enough { arity_of symbol ≤ length places.old.items }
        ensures there { OnOk result (AreThere self.new (reverse places.new.items)) }
        ensures terms { OnOk result (terms_at self.new places.new.items ≡
            applied symbol (terms_at self.old places.old.items)) }
        ensures adds { Adds self.old (first_of
            (applied symbol (terms_at self.old places.old.items))) self.new }
    {
        let node = node_of(&mut self.links, &mut self.link_hints, symbol, places)?;
        let place = put_node(&mut self.nodes, &mut self.node_hints, node)?;
        places.push(place)?;
        Ok(())
    }

    /// The place of the term. Those of its subterms that aren't there are put at the end, each after its arguments; where
    /// memory is wanted, some of them. Want of memory too where there would be 2 ^ 32 terms.
    pub fn put(&mut self, t: &Flat) -> Result<TermId, AllocError>
        ensures place { IfOk result (λ id. slice_get self.new id.0 ≡ Some t.now) }
        ensures few { IfOk result (λ id. id.0 < 2 ^ 32) }
        ensures grown { GrowsBySubterms t.now self.old self.new }
    {
        self.node_hints.make_room(self.alloc)?;
        self.link_hints.make_room(self.alloc)?;
        let symbols = t.symbols();
        let mut places = std::mem::replace(&mut self.places, Vec::new(self.alloc));
        places.clear();
        let mut k = symbols.len();
        'symbols: while k > 0 {
            k -= 1;
            self.put_symbol(symbols[k], &mut places)?;
        }
        let place = places[0];
        self.places = places;
        Ok(TermId(place as usize))
    }

    /// The term at a place.
    pub fn get(&self, id: TermId) -> Result<Flat, AllocError>
        requires { id.0 < length self.now }
        ensures { IfOk result (λ t. slice_get self.now id.0 ≡ Some t) }
    {
        spelled(
            self.alloc,
            self.nodes.keys().as_slice(),
            self.links.keys().as_slice(),
            id.0 as u32,
        )
    }
}
