//! Digests of a term's subterms: numbers of which equal terms have the same.

ghost use Rattle.std.specs.Prelude.{◌≡◌, drop, reverse, take, IfOk};
ghost use Rattle.apd_term.specs.Term.{arity_of};
ghost use Rattle.apd_marks.specs.Mixing.{mixed};
ghost use Rattle.apd_index.specs.Subterms.{bare, digests, joined};

use apd_marks::mixed;
use apd_skips::arity_of;
use apd_term::{Flat, Sym};
use std::alloc::{AllocError, Global};

/// What digests begin with.
const FRESH: u64 = 1;

/// The symbol without the number of its arguments.
fn bare(symbol: Sym) -> Sym
    ensures { result ≡ bare symbol }
{
    match symbol {
        Sym::Fun(name, _) => Sym::Fun(name, 0),
        _ => symbol,
    }
}

/// The mark with digests mixed in.
fn joined(mark: u64, digests: &[u64]) -> u64
    ensures { result ≡ joined mark digests.now }
{
    digests
        .iter()
        .fold(mark, |mark, digest| mixed(mark, Sym::Var(*digest)))
}

/// Takes the digests of a symbol's arguments off the stack, the first argument on top, and gives that of the term.
fn applied(stack: &mut Vec<u64>, symbol: Sym) -> u64
    ensures digest { result ≡ joined (mixed 1 (bare symbol))
        (reverse (take (arity_of symbol) (reverse stack.old.items))) }
    ensures rest { reverse stack.new.items ≡ drop (arity_of symbol) (reverse stack.old.items) }
{
    let rest = stack.len().saturating_sub(arity_of(symbol));
    let digest = joined(mixed(FRESH, bare(symbol)), &stack[rest..]);
    stack.truncate(rest);
    digest
}

/// The digests of the term's subterms, in prefix order.
///
/// The symbols are passed from the last one to the first; the digests of the terms that begin behind a symbol are on the
/// stack, the next one on top.
pub(crate) fn digests_of(alloc: Global, term: &Flat) -> Result<Vec<u64>, AllocError>
    ensures { IfOk result (λ ds. ds.items ≡ digests term.now) }
{
    let symbols = term.symbols();
    let mut stack = Vec::new(alloc);
    let mut digests = Vec::new(alloc);
    'symbols: for at in (0..symbols.len()).rev() {
        let digest = applied(&mut stack, symbols[at]);
        stack.push(digest)?;
        digests.push(digest)?;
    }
    digests.reverse();
    Ok(digests)
}
