//! Unification of the terms at two cells, with the occurs check.

ghost use Rattle.std.specs.Prelude.{◌≡◌, ◌<◌, ◌^◌, ◌∷◌, length, IfOk, IfSome, OnErr, IsTrue, ◌↔◌};
ghost use Rattle.apd_term.specs.Term.{Occurs};
ghost use Rattle.apd_cells.specs.First.{IsFixed};
ghost use Rattle.apd_cells.specs.Store.{term_at, symbol_at, IsEnd, IsFreeVariable, IsSound, Keeps};
ghost use Rattle.apd_unify.specs.Unified.{IsUnification};
ghost use Rattle.apd_unify.specs.Unifying.{Solves, IsPairs, ArePairs, IsPast, IsPastTwin, GoesOn, HasArguments, IsDecomposed};

use apd_base::stack::Stack;
use apd_cells::heap::Heap;
use apd_cells::walk::arity_of;
use apd_resolved::reading::{Looking, mentions};
use apd_term::Sym;
use std::alloc::AllocError;

/// Terms that are written one after another at two cells, which are to be made equal place by
/// place.
#[derive(Clone, Copy)]
pub struct Pairs {
    pub a: usize,
    pub b: usize,
    pub left: usize,
}

/// What was done with two terms that are to be made equal.
#[derive(Clone, Copy, PartialEq, Eq)]
pub enum PairOutcome {
    /// They are equal.
    Equal,
    /// One is a variable, and was bound to the other.
    Bound,
    /// They have no unifier.
    Clash,
    /// They have one name, and so many arguments, which are still to be made equal.
    Arguments(usize),
}

/// Whether the variable stands in the term at a cell. Where the variable is new, or known
/// to be above those of the term, the term isn't looked at.
fn stands_in(heap: &Heap, looking: &mut Looking, v: u64, at: usize) -> Result<bool, AllocError>
    requires { at < length heap.now.cells }
    ensures { IfOk result (λ b. IsTrue b ↔ Occurs v (term_at heap.now at)) }
{
    if heap.is_apart(v, at) {
        return Ok(false);
    }
    if let Some(extent) = heap.known(at) {
        if v >= extent.above {
            return Ok(false);
        }
    }
    mentions(looking, heap, at, v)
}

/// Binds a variable to a term, if it doesn't stand in it.
fn solve_variable(
    heap: &mut Heap,
    looking: &mut Looking,
    v: u64,
    at: usize,
    to: usize,
) -> Result<PairOutcome, AllocError>
    requires variable { IsFreeVariable heap.old v at }
    requires to { to < length heap.old.cells }
    requires term { IsFixed (symbol_at heap.old to) }
    requires store { IsSound heap.old }
    ensures ok { IfOk result (λ r. Solves r heap.old heap.new at to) }
    ensures err { OnErr result (heap.new ≡ heap.old) }
{
    if stands_in(heap, looking, v, to)? {
        return Ok(PairOutcome::Clash);
    }
    heap.bind(v, to)?;
    Ok(PairOutcome::Bound)
}

/// Binds the greater of two variables to the other.
fn solve_variables(
    heap: &mut Heap,
    v: u64,
    w: u64,
    a: usize,
    b: usize,
) -> Result<PairOutcome, AllocError>
    requires left { IsFreeVariable heap.old v a }
    requires right { IsFreeVariable heap.old w b }
    requires store { IsSound heap.old }
    ensures ok { IfOk result (λ r. Solves r heap.old heap.new a b) }
    ensures err { OnErr result (heap.new ≡ heap.old) }
{
    if v < w {
        heap.bind(w, a)?;
        return Ok(PairOutcome::Bound);
    }
    if w < v {
        heap.bind(v, b)?;
        return Ok(PairOutcome::Bound);
    }
    Ok(PairOutcome::Equal)
}

/// Solves the equation between the terms at two cells, up to the arguments of names.
fn solve(
    heap: &mut Heap,
    looking: &mut Looking,
    a: usize,
    b: usize,
) -> Result<PairOutcome, AllocError>
    requires a { a < length heap.old.cells }
    requires b { b < length heap.old.cells }
    requires free_a { IsEnd heap.old a }
    requires free_b { IsEnd heap.old b }
    ensures ok { IfOk result (λ r. Solves r heap.old heap.new a b) }
    ensures err { OnErr result (heap.new ≡ heap.old) }
{
    if a == b {
        return Ok(PairOutcome::Equal);
    }
    match (heap.symbol(a), heap.symbol(b)) {
        (Sym::Var(v), Sym::Var(w)) => solve_variables(heap, v, w, a, b),
        (Sym::Var(v), _) => solve_variable(heap, looking, v, a, b),
        (_, Sym::Var(w)) => solve_variable(heap, looking, w, b, a),
        (x, y) => {
            if x != y {
                return Ok(PairOutcome::Clash);
            }
            let arity = arity_of(x);
            if arity == 0 {
                return Ok(PairOutcome::Equal);
            }
            Ok(PairOutcome::Arguments(arity))
        }
    }
}

/// The pairs behind the first.
fn past(heap: &Heap, here: Pairs) -> Pairs
    requires right { IsPairs heap.now.cells here }
    requires some { 0 < here.left }
    ensures { IsPast heap.now here result }
{
    if here.left == 1 {
        return Pairs {
            a: here.a,
            b: here.b,
            left: 0,
        };
    }
    Pairs {
        a: heap.end(here.a),
        b: heap.end(here.b),
        left: here.left - 1,
    }
}

/// The pairs behind the first, if the first of them is of the same two variables.
fn past_twin(heap: &Heap, here: Pairs) -> Option<Pairs>
    requires right { IsPairs heap.now.cells here }
    requires some { 0 < here.left }
    ensures { IfSome result (IsPastTwin heap.now here) }
{
    if here.left > 1 && heap.is_twin(here.a) && heap.is_twin(here.b) {
        return Some(Pairs {
            a: here.a + 1,
            b: here.b + 1,
            left: here.left - 1,
        });
    }
    None
}

/// Goes on to waiting pairs where these are done.
fn next_pairs(pairs: &mut Stack<Pairs>, here: Pairs) -> Option<Pairs>
    ensures { GoesOn here pairs.old result pairs.new }
{
    let mut next = here;
    'done: while next.left == 0 {
        match pairs.pop() {
            None => return None,
            Some(waiting) => next = waiting,
        }
    }
    Some(next)
}

/// Puts the arguments of two compounds in the place of the first pair, to which they belong.
fn decompose(
    heap: &Heap,
    pairs: &mut Stack<Pairs>,
    here: Pairs,
    x: usize,
    y: usize,
    arity: usize,
) -> Result<Pairs, AllocError>
    requires right { ArePairs heap.now.cells (here ∷ pairs.old) }
    requires some { 0 < here.left }
    requires x { x < length heap.now.cells }
    requires y { y < length heap.now.cells }
    requires arguments { HasArguments heap.now.cells x y arity }
    requires store { IsSound heap.now }
    requires fits { length heap.now.cells < 2 ^ 64 }
    ensures { IfOk result (λ next. IsDecomposed heap.now pairs.old here next pairs.new x y) }
{
    if x == here.a && y == here.b {
        return Ok(Pairs {
            a: x + 1,
            b: y + 1,
            left: here.left - 1 + arity,
        });
    }
    if here.left > 1 {
        pairs.push(past(heap, here))?;
    }
    Ok(Pairs {
        a: x + 1,
        b: y + 1,
        left: arity,
    })
}

/// Makes the terms at two cells equal by a most general unifier, whose pairs are bound; false
/// exactly where they have none. After false or want of memory some variables may be bound, and the
/// store at each earlier mark is as it was.
pub fn unify(
    heap: &mut Heap,
    looking: &mut Looking,
    pairs: &mut Stack<Pairs>,
    a: usize,
    b: usize,
) -> Result<bool, AllocError>
    requires a { a < length heap.old.cells }
    requires b { b < length heap.old.cells }
    ensures answer { IfOk result (λ r. IsUnification r heap.old heap.new a b) }
    ensures cells { heap.new.cells ≡ heap.old.cells }
    ensures variables { heap.new.variables ≡ heap.old.variables }
    ensures kept { Keeps heap.old heap.new }
{
    pairs.clear();
    let mut here = Pairs { a, b, left: 1 };
    'pairs: while let Some(next) = next_pairs(pairs, here) {
        if let Some(later) = past_twin(heap, next) {
            here = later;
            continue;
        }
        let x = heap.follow(next.a);
        let y = heap.follow(next.b);
        match solve(heap, looking, x, y)? {
            PairOutcome::Clash => return Ok(false),
            PairOutcome::Arguments(arity) => here = decompose(heap, pairs, next, x, y, arity)?,
            PairOutcome::Equal => here = past(heap, next),
            PairOutcome::Bound => here = past(heap, next),
        }
    }
    Ok(true)
}
