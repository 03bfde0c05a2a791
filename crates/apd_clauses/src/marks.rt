//! Marks: numbers that a predicate's clauses share whose first arguments begin alike, by which those
//! are found that a goal may enter.

ghost use Rattle.std.specs.Prelude.{◌≡◌, ◌≢◌, ◌++◌, [], ℕ, ◌<◌, ◌≤◌, List, length, get_or, IfSome, IsTrue, OnOk, OnErr};
ghost use Rattle.std.specs.List.Sorted.{IsNonDecreasing};
ghost use Rattle.apd_clauses.specs.Marks.{HaveSameMarked, IsFirstFrom, NotesMark, mark_for, marked_at, part_of};

use apd_base::ListOf;
use apd_term::Sym;
use apd_term::term::Pred;
use indexmap::IndexMap;
use std::alloc::{AllocError, Global};

/// The number that a predicate is multiplied by before the part of a symbol is added.
const SPREAD: u64 = 11_400_714_819_323_198_485;

/// What the parts of names begin at.
const NAMES: u64 = 4_294_967_296;

/// What a first argument that is a variable begins with, and what stands for one that isn't there.
pub(crate) const VARIABLE: Sym = Sym::Var(0);

/// The numbers of the clauses with each mark, in order.
pub(crate) type Marked = IndexMap<u64, ListOf<u32>>;

/// The number that a symbol adds to a mark; all variables add the same.
fn part_of(first: Sym) -> u64
    ensures { result ≡ part_of first }
{
    match first {
        Sym::Var(_) => 0,
        Sym::Int(i) => i.unsigned_abs() + 1,
        Sym::Fun(name, _) => NAMES + name.0 as u64,
    }
}

/// The mark of the predicate's clauses whose first arguments begin with this symbol.
#[tactic(auto, unfolding(crate::specs::Marks::mark_for))]
pub(crate) fn mark_for(pred: Pred, first: Sym) -> u64
    ensures { result ≡ mark_for pred first }
{
    let number = pred.name.0 as u64 * 256 + pred.arity as u64;
    number.wrapping_mul(SPREAD).wrapping_add(part_of(first))
}

/// Notes one more clause with a mark.
pub(crate) fn note(
    alloc: Global,
    marked: &mut Marked,
    mark: u64,
    number: u32,
) -> Result<(), AllocError>
    ensures ok { OnOk result (NotesMark marked.old mark number marked.new) }
    ensures err { OnErr result (HaveSameMarked marked.old marked.new) }
{
    if let Some(numbers) = marked.get_mut(&mark) {
        return numbers.push(number);
    }
    let mut numbers = ListOf::new(alloc);
    numbers.push(number)?;
    marked.insert(mark, numbers)?;
    Ok(())
}

/// Takes the last of the numbers with a mark away.
pub(crate) fn forget(marked: &mut Marked, mark: u64)
    requires { marked_at marked.old mark ≢ [] }
    ensures { (n : ℕ) × NotesMark marked.new mark n marked.old }
{
    let Some(numbers) = marked.get_mut(&mark) else {
        unreachable!()
    };
    let _last = numbers.pop();
}

/// The numbers with a mark, in order.
pub(crate) fn with_mark(marked: &Marked, mark: u64) -> &[u32]
    ensures { result.now ≡ marked_at marked.now mark }
{
    match marked.get(&mark) {
        Some(numbers) => numbers.as_slice(),
        None => &[],
    }
}

/// How many of the numbers are below this one.
pub(crate) fn count_below(numbers: &[u32], least: u32) -> usize
    requires { IsNonDecreasing numbers.now }
    ensures within { result ≤ length numbers.now }
    ensures below { (k : ℕ) → k < result → get_or numbers.now k 0 < least }
    ensures above { (k : ℕ) → result ≤ k → k < length numbers.now → least ≤ get_or numbers.now k 0 }
{
    numbers.partition_point(|number| *number < least)
}

/// The first of the numbers that isn't below this one.
pub(crate) fn first_from(numbers: &[u32], least: u32) -> Option<u32>
    requires { IsNonDecreasing numbers.now }
    ensures { IsFirstFrom numbers.now least result }
{
    match numbers.get(count_below(numbers, least)) {
        Some(number) => Some(*number),
        None => None,
    }
}

/// The less of two numbers, where there are both.
pub(crate) fn earlier(one: Option<u32>, other: Option<u32>) -> Option<u32>
    ensures { (xs ys : List ℕ) (least : ℕ) → IsFirstFrom xs least one → IsFirstFrom ys least other →
        IsFirstFrom (xs ++ ys) least result }
{
    match (one, other) {
        (Some(x), Some(y)) if y < x => Some(y),
        (None, Some(y)) => Some(y),
        _ => one,
    }
}

/// Whether all numbers before this place are below this one.
fn are_below(numbers: &[u32], at: usize, number: u32) -> bool
    requires { IsNonDecreasing numbers.now }
    ensures { IsTrue result → (k : ℕ) → k < at → get_or numbers.now k 0 < number }
{
    if at == 0 {
        return true;
    }
    match numbers.get(at - 1) {
        Some(last) => *last < number,
        None => false,
    }
}

/// A place before which all numbers are below this one. The clauses of a predicate mostly stand together: then it is as far
/// behind `from` as the number is above the one there, and isn't searched for.
fn place_near(numbers: &[u32], from: usize, number: u32) -> usize
    requires { IsNonDecreasing numbers.now }
    ensures { (k : ℕ) → k < result → get_or numbers.now k 0 < number }
{
    let far = match numbers.get(from) {
        Some(least) => number.saturating_sub(*least),
        None => 0,
    };
    let near = from.saturating_add(far as usize);
    if are_below(numbers, near, number) {
        return near;
    }
    count_below(numbers, number)
}

/// The first place from this one on at which the numbers come to a number, or their end where
/// there is none.
pub(crate) fn place_of(numbers: &[u32], from: usize, number: Option<u32>) -> usize
    requires { IsNonDecreasing numbers.now }
    ensures forward { from ≤ result }
    ensures before { IfSome number
        (λ n. (k : ℕ) → from ≤ k → k < result → get_or numbers.now k 0 < n) }
{
    let place = match number {
        Some(number) => place_near(numbers, from, number),
        None => numbers.len(),
    };
    place.max(from)
}
