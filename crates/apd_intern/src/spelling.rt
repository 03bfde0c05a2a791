//! The term that a node is.

ghost use Rattle.std.specs.Prelude.{◌≡◌, ◌<◌, ◌++◌, ◌∷◌, [], List, length, reverse, IfOk, IfSome, IfNone, OnOk, Some, slice_get};
ghost use Rattle.apd_intern.specs.Nodes.{IsTable, decoded, arguments_of, IsLinked};
ghost use Rattle.apd_intern.specs.declared.node.ArgumentsLink.{ArgumentsLink};
ghost use Rattle.apd_intern.specs.Pending.{IsPending, places_left};

use crate::node::{ArgumentsLink, TermNode, symbol_of};
use apd_term::{Flat, Syms};
use std::alloc::{AllocError, Global};

/// Arguments that are still to be spelled: how many, one or more, and where.
#[derive(Clone, Copy)]
pub struct PendingArguments {
    pub count: u8,
    pub at: u32,
}

/// Takes off the place that is to be spelled next.
fn next_place(
    links: &[ArgumentsLink],
    pending: &mut Vec<PendingArguments>,
) -> Result<Option<u32>, AllocError>
    requires { IsPending links.now (reverse pending.old.items) }
    ensures next { IfOk result (λ next. IfSome next
        (λ p. places_left links.now (reverse pending.old.items) ≡
        p ∷ places_left links.now (reverse pending.new.items))) }
    ensures none { IfOk result (λ next. IfNone next
        (places_left links.now (reverse pending.old.items) ≡ [])) }
    ensures rest { OnOk result (IsPending links.now (reverse pending.new.items)) }
{
    let Some(PendingArguments { count, at }) = pending.pop() else {
        return Ok(None);
    };
    if count <= 1 {
        return Ok(Some(at));
    }
    let link = links[at as usize];
    pending.push(PendingArguments {
        count: count - 1,
        at: link.rest,
    })?;
    Ok(Some(link.first))
}

/// The node's arguments are to be spelled next.
fn push_arguments(node: TermNode, pending: &mut Vec<PendingArguments>) -> Result<(), AllocError>
    ensures next { OnOk result ((links : List ArgumentsLink) → IsLinked links node →
        places_left links (reverse pending.new.items) ≡
        arguments_of links node ++ places_left links (reverse pending.old.items)) }
    ensures rest { OnOk result ((links : List ArgumentsLink) → IsLinked links node →
        IsPending links (reverse pending.old.items) → IsPending links (reverse pending.new.items)) }
{
    if let TermNode::Compound(_, arity, first, rest) = node {
        if arity > 1 {
            pending.push(PendingArguments {
                count: arity - 1,
                at: rest,
            })?;
        }
        if arity > 0 {
            pending.push(PendingArguments {
                count: 1,
                at: first,
            })?;
        }
    }
    Ok(())
}

/// The term of the node at a place.
pub fn spelled(
    alloc: Global,
    nodes: &[TermNode],
    links: &[ArgumentsLink],
    place: u32,
) -> Result<Flat, AllocError>
    requires table { IsTable links.now nodes.now }
    requires place { place < length nodes.now }
    ensures { IfOk result (λ t. slice_get (decoded links.now nodes.now) place ≡ Some t) }
{
    let mut symbols = Syms::new(alloc);
    let mut pending = Vec::new(alloc);
    pending.push(PendingArguments {
        count: 1,
        at: place,
    })?;
    'places: while let Some(next) = next_place(links, &mut pending)? {
        let node = nodes[next as usize];
        symbols.push(symbol_of(node))?;
        push_arguments(node, &mut pending)?;
    }
    Ok(Flat::of_symbols(symbols))
}
