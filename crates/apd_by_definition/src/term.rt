//! The number of a name, and canonical terms, by lists that are gone over again and again.

ghost use Rattle.std.specs.Prelude.{◌≡◌, ◌+◌, ◌<◌, ◌≤◌, length, slice_get, Some, IfOk, OnOk, ◌==◌};
ghost use Rattle.std.specs.List.{fold, list_any};
ghost use Rattle.apd_term.specs.Term.{arguments, variables};
ghost use Rattle.apd_term.specs.Canonical.{canonical, canonical_in, with_new, place_of};
ghost use Rattle.apd_term.specs.Names.{number_of};

use apd_base::VarNames;
use apd_term::{Flat, Sym, Syms};
use std::alloc::{AllocError, Global};

/// The two sides of a term.
#[derive(Drop)]
pub(crate) struct Sides {
    pub left: Flat,
    pub right: Flat,
}

/// The first two arguments of a term, on its left and right.
pub(crate) fn both(alloc: Global, t: &Flat) -> Result<Sides, AllocError>
    requires { 1 < length (arguments t.now) }
    ensures left { IfOk result (λ b. slice_get (arguments t.now) 0 ≡ Some b.left) }
    ensures right { IfOk result (λ b. slice_get (arguments t.now) 1 ≡ Some b.right) }
{
    let left = t.arg(alloc, 0)?;
    let right = t.arg(alloc, 1)?;
    Ok(Sides { left, right })
}

/// The place of the text among the names, from 0; their count where it isn't there.
pub fn number_of(names: &VarNames, text: &[u8]) -> usize
    ensures { result ≡ number_of names.now text.now }
{
    let texts = names.as_slice();
    for (place, name) in texts.iter().enumerate() {
        if text == name.bytes() {
            return place;
        }
    }
    texts.len()
}

/// The place of a number in a list, from 1, and one more than its length where it isn't there.
fn place_of(order: &[u64], v: u64) -> usize
    ensures place { result ≡ place_of order.now v }
    ensures within { result ≤ length order.now + 1 }
{
    for (i, w) in order.iter().enumerate() {
        if *w == v {
            return i + 1;
        }
    }
    order.len() + 1
}

fn contains(seen: &[u64], v: u64) -> bool
    ensures { result ≡ list_any (λ w. w == v) seen.now }
{
    seen.iter().any(|w| *w == v)
}

fn note(seen: &mut Vec<u64>, v: u64) -> Result<(), AllocError>
    ensures { OnOk result (seen.new.items ≡ with_new seen.old.items v) }
{
    if contains(seen, v) {
        return Ok(());
    }
    seen.push(v)?;
    Ok(())
}

fn note_all(seen: &mut Vec<u64>, t: &Flat) -> Result<(), AllocError>
    ensures { OnOk result (seen.new.items ≡ fold with_new seen.old.items (variables t.now)) }
{
    for symbol in t.symbols() {
        if let Sym::Var(v) = symbol {
            note(seen, *v)?;
        }
    }
    Ok(())
}

fn numbered(alloc: Global, order: &[u64], t: &Flat) -> Result<Flat, AllocError>
    ensures { IfOk result (λ r. r ≡ canonical_in order.now t.now) }
{
    let mut out = Syms::new(alloc);
    for symbol in t.symbols() {
        let renamed = match *symbol {
            Sym::Var(v) => Sym::Var(place_of(order, v) as u64),
            other => other,
        };
        out.push(renamed)?;
    }
    Ok(Flat::of_symbols(out))
}

/// The term with its variables numbered from 1 by first appearance.
pub fn canonical(alloc: Global, t: &Flat) -> Result<Flat, AllocError>
    ensures { IfOk result (λ r. r ≡ canonical t.now) }
{
    let mut order = Vec::new(alloc);
    note_all(&mut order, t)?;
    let canonical = numbered(alloc, &order, t);
    // Dropped by a call: else each part is a step to check.
    drop(order);
    canonical
}
