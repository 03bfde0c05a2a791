//! Whether each call of a chain is below the one before by the replies.
//!
//! A chain may have a million calls, of which few may differ. So the places of pairs of calls that were looked up are kept by marks of
//! these pairs, and a pair that stands at such a place too isn't looked up again.

ghost use Rattle.std.specs.Prelude.{◌≡◌, ◌↔◌, ◌<◌, ◌+◌, IsTrue, IfOk, length};
ghost use Rattle.apd_answers.specs.Findings.{AllDescendByReplies};
ghost use Rattle.apd_findings.specs.Descending.{IsSamePair, IsSaidAt, says_at};

use crate::parted::Parted;
use apd_marks::with_term;
use apd_term::Flat;
use std::alloc::{AllocError, Global};

/// At most so many places are kept.
const MOST_SLOTS: usize = 65_536;

/// The slot of two calls, among so many.
fn slot_of(callee: &Flat, caller: &Flat, count: usize) -> usize
    requires { 0 < count }
    ensures { result < count }
{
    (with_term(with_term(0, callee), caller) % count as u64) as usize
}

/// Whether the call at the one place, and the call behind it, are those at the other.
fn is_same_pair(calls: &[Flat], a: usize, b: usize) -> bool
    requires first { a + 1 < length calls.now }
    requires second { b + 1 < length calls.now }
    ensures { IsTrue result → IsSamePair calls.now a b }
{
    calls[a].same(&calls[b]) && calls[a + 1].same(&calls[b + 1])
}

/// Whether the store says that the call behind the place is below the one there. It is known to say so at another place.
fn descends_at(
    alloc: Global,
    answers: &Parted,
    calls: &[Flat],
    known: usize,
    i: usize,
) -> Result<bool, AllocError>
    requires known { IsSaidAt answers.now calls.now known }
    requires within { i + 1 < length calls.now }
    ensures { IfOk result (λ b. b ≡ says_at answers.now calls.now i) }
{
    if is_same_pair(calls, known, i) {
        return Ok(true);
    }
    answers.says_below(alloc, &calls[i + 1], &calls[i])
}

/// Whether the store says that each call is below the one before, where it says so of the first two.
fn do_all_descend(alloc: Global, answers: &Parted, calls: &[Flat]) -> Result<bool, AllocError>
    requires { IsSaidAt answers.now calls.now 0 }
    ensures { IfOk result (λ b. IsTrue b ↔ AllDescendByReplies answers.now calls.now) }
{
    let last = calls.len() - 1;
    let mut known = vec![in alloc; 0; last.min(MOST_SLOTS)]?;
    'calls: for i in 0..last {
        let slot = slot_of(&calls[i + 1], &calls[i], known.len());
        if !descends_at(alloc, answers, calls, known[slot], i)? {
            return Ok(false);
        }
        known[slot] = i;
    }
    Ok(true)
}

/// Whether the store says that each call is below the one before.
pub fn do_descend(alloc: Global, answers: &Parted, calls: &[Flat]) -> Result<bool, AllocError>
    ensures { IfOk result (λ b. IsTrue b ↔ AllDescendByReplies answers.now calls.now) }
{
    if calls.len() < 2 {
        return Ok(true);
    }
    if !answers.says_below(alloc, &calls[1], &calls[0])? {
        return Ok(false);
    }
    do_all_descend(alloc, answers, calls)
}
