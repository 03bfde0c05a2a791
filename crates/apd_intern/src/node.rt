//! Terms as nodes: a symbol, and the places of its arguments among the nodes.

ghost use Rattle.std.specs.Prelude.{◌≡◌, ◌≤◌, ◌<◌, ◌^◌, length, take, drop, reverse, IfOk, IfSome, OnOk, Some, slice_get};
ghost use Rattle.indexmap.specs.IndexMap.{keys};
ghost use Rattle.apd_term.specs.Term.{arity_of};
ghost use Rattle.apd_intern.specs.Nodes.{Adds, IsFrontOf, AreDistinct, symbol_of, arguments_of, IsLinked, rest_at, IsRest};

use crate::hints::{Hints, key_of, key_of_link};
use apd_base::MOST_KEPT;
use apd_term::{NameId, Sym};
use indexmap::IndexMap;
use std::alloc::AllocError;

/// A term by its symbol and the places of its arguments.
#[derive(Clone, Copy, PartialEq, Eq, Hash)]
pub enum TermNode {
    /// A variable with its number.
    Variable(u64),
    /// An integer.
    Integer(i64),
    /// A name, the number of its arguments, the place of the first, and where the others are: nothing where there is none,
    /// its place where there is one, and else the place of a link. What isn't there is 0.
    Compound(NameId, u8, u32, u32),
}

/// Two arguments or more: the place of the first, and where the others are.
#[derive(Clone, Copy, PartialEq, Eq, Hash)]
pub struct ArgumentsLink {
    pub first: u32,
    pub rest: u32,
}

/// The symbol of a node.
pub fn symbol_of(node: TermNode) -> Sym
    ensures { result ≡ symbol_of node }
{
    match node {
        TermNode::Variable(v) => Sym::Var(v),
        TermNode::Integer(i) => Sym::Int(i),
        TermNode::Compound(name, arity, _, _) => Sym::Fun(name, arity),
    }
}

/// Where the link stands, if it stands where the hints say.
fn find_link(links: &IndexMap<ArgumentsLink, ()>, hints: &Hints, link: ArgumentsLink) -> Option<u32>
    ensures { IfSome result (λ p. slice_get (keys links.now) p ≡ Some link) }
{
    let place = hints.get(key_of_link(link))?;
    let (kept, _) = links.get_index(place as usize)?;
    if *kept == link { Some(place) } else { None }
}

/// Where a link stands, which is put at the end if it isn't there.
fn put_link(
    links: &mut IndexMap<ArgumentsLink, ()>,
    hints: &mut Hints,
    link: ArgumentsLink,
) -> Result<u32, AllocError>
    ensures place { IfOk result (λ p. slice_get (keys links.new) p ≡ Some link) }
    ensures adds { Adds (keys links.old) link (keys links.new) }
{
    if let Some(place) = find_link(links, hints, link) {
        return Ok(place);
    }
    if links.len() >= MOST_KEPT {
        return Err(AllocError);
    }
    let (place, _) = links.insert_full(link, ())?;
    hints.note(key_of_link(link), place as u32);
    Ok(place as u32)
}

/// Where arguments are that have these places, the last one first.
fn put_rest(
    links: &mut IndexMap<ArgumentsLink, ()>,
    hints: &mut Hints,
    places: &[u32],
) -> Result<u32, AllocError>
    ensures rest { IfOk result (λ r. IsRest (keys links.new) (length places.now) r) }
    ensures places { IfOk result (λ r. rest_at (keys links.new) (length places.now) r ≡
        reverse places.now) }
    ensures grown { IsFrontOf (keys links.old) (keys links.new) }
    ensures distinct { AreDistinct (keys links.old) → AreDistinct (keys links.new) }
{
    if places.is_empty() {
        return Ok(0);
    }
    let mut rest = places[0];
    'places: for i in 1..places.len() {
        let link = ArgumentsLink {
            first: places[i],
            rest,
        };
        rest = put_link(links, hints, link)?;
    }
    Ok(rest)
}

/// The node of a symbol over the newest of these places, which are taken off.
pub fn node_of(
    links: &mut IndexMap<ArgumentsLink, ()>,
    hints: &mut Hints,
    symbol: Sym,
    places: &mut Vec<u32>,
) -> Result<TermNode, AllocError>
    requires { arity_of symbol ≤ length places.old.items }
    ensures symbol { IfOk result (λ n. symbol_of n ≡ symbol) }
    ensures linked { IfOk result (λ n. IsLinked (keys links.new) n) }
    ensures arguments { IfOk result (λ n. arguments_of (keys links.new) n ≡
        take (arity_of symbol) (reverse places.old.items)) }
    ensures places { OnOk result (reverse places.new.items ≡
        drop (arity_of symbol) (reverse places.old.items)) }
    ensures grown { IsFrontOf (keys links.old) (keys links.new) }
    ensures distinct { AreDistinct (keys links.old) → AreDistinct (keys links.new) }
{
    match symbol {
        Sym::Var(v) => Ok(TermNode::Variable(v)),
        Sym::Int(i) => Ok(TermNode::Integer(i)),
        Sym::Fun(name, 0) => Ok(TermNode::Compound(name, 0, 0, 0)),
        Sym::Fun(name, arity) => {
            let end = places.len() - 1;
            let from = places.len() - arity as usize;
            let first = places[end];
            let rest = put_rest(links, hints, &places[from..end])?;
            places.truncate(from);
            Ok(TermNode::Compound(name, arity, first, rest))
        }
    }
}

/// Where the node stands, if it stands where the hints say.
fn find_by_hint(nodes: &IndexMap<TermNode, ()>, hints: &Hints, node: TermNode) -> Option<u32>
    ensures { IfSome result (λ p. slice_get (keys nodes.now) p ≡ Some node) }
{
    let place = hints.get(key_of(node))?;
    let (kept, _) = nodes.get_index(place as usize)?;
    if *kept == node { Some(place) } else { None }
}

/// Where the node stands, which is put at the end if it isn't there.
pub fn put_node(
    nodes: &mut IndexMap<TermNode, ()>,
    hints: &mut Hints,
    node: TermNode,
) -> Result<u32, AllocError>
    requires { length (keys nodes.old) < 2 ^ 32 }
    ensures place { IfOk result (λ p. slice_get (keys nodes.new) p ≡ Some node) }
    ensures adds { Adds (keys nodes.old) node (keys nodes.new) }
    ensures few { length (keys nodes.new) < 2 ^ 32 }
{
    if let Some(place) = find_by_hint(nodes, hints, node) {
        return Ok(place);
    }
    if nodes.len() >= MOST_KEPT {
        return Err(AllocError);
    }
    let (place, _) = nodes.insert_full(node, ())?;
    hints.note(key_of(node), place as u32);
    Ok(place as u32)
}
