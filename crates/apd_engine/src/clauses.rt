//! The clauses of a goal's predicate, and the first of them that can be entered.

ghost use Rattle.std.specs.Prelude.{◌≡◌, ◌<◌, ◌≤◌, length, IfOk, OnOk};
ghost use Rattle.apd_term.specs.Term.{predicate_of};
ghost use Rattle.apd_clauses.specs.Clauses.{IsProgram, tuples_of};
ghost use Rattle.apd_trace.specs.declared.frame.Called.{Called};
ghost use Rattle.apd_frames.specs.Kept.{Calls, MayCall};
ghost use Rattle.apd_following.specs.Followed.{kept_of};
ghost use Rattle.apd_engine.specs.Search.{Found, OfGoal, PassesBy, Postpones, Skips, numbers_by};

use crate::choices::{KeptChoice, push};
use crate::search::Choice;
use apd_base::MOST_KEPT;
use apd_base::stack::Stack;
use apd_cells::first::{are_clashing, key_of};
use apd_clauses::Program;
use apd_following::following::Following;
use apd_term::{Pred, Sym};
use std::alloc::{AllocError, Global};

/// The numbers of the clauses of a predicate.
pub fn numbers(program: &Program, pred: Option<Pred>) -> &[u32]
    ensures { result.now ≡ numbers_by pred program.now }
{
    match pred {
        Some(pred) => program.clauses_of(pred),
        None => &[],
    }
}

/// So many clauses are tried one after another.
const FEW: usize = 8;

/// A place of the predicate's clauses, of which there are `count`, from this one on: each before it begins otherwise than the
/// key says. It is looked up where many are left.
#[tactic(auto, using(crate::proofs::Numbered::passes_none))]
fn near(program: &Program, pred: Option<Pred>, key: Sym, from: usize, count: usize) -> usize
    ensures forward { from ≤ result }
    ensures passes { PassesBy program.now pred key from result }
{
    if count.saturating_sub(from) <= FEW {
        return from;
    }
    match pred {
        Some(pred) => program.next_place(pred, key, from),
        None => from,
    }
}

/// The place of the first of a predicate's clauses, which have these numbers, from this one on, that doesn't begin
/// otherwise than the key says; or how many there are.
#[inline(always)]
fn next(program: &Program, pred: Option<Pred>, key: Sym, numbers: &[u32], from: usize) -> usize
    requires { numbers.now ≡ numbers_by pred program.now }
    ensures forward { from ≤ result }
    ensures passes { PassesBy program.now pred key from result }
{
    let mut at = near(program, pred, key, from, numbers.len());
    'clauses: while at < numbers.len() {
        let clause = program.clause(numbers[at]);
        if !are_clashing(key, key_of(&clause.tuple.head)) {
            return at;
        }
        at = near(program, pred, key, at + 1, numbers.len());
    }
    at
}

/// Enters the first of these clauses, which are of this predicate, from this index on that can be entered for the goal
/// called in this box, and tells its index, or how many there are.
#[inline(always)]
pub fn find(
    frames: &mut Following,
    alloc: Global,
    box_no: u32,
    point: u32,
    from: usize,
    program: &Program,
    pred: Option<Pred>,
    numbers: &[u32],
) -> Result<usize, AllocError>
    requires program { IsProgram program.now }
    requires numbers { numbers.now ≡ numbers_by pred program.now }
    requires pred { OfGoal frames.old.current box_no (λ g. pred ≡ predicate_of g.atom) }
    requires goal { (g : Called) × Calls frames.old.current box_no g }
    requires deep { MayCall frames.old.current }
    ensures skips { IfOk result (λ at. OfGoal frames.old.current box_no
        (λ g. Skips (tuples_of program.now) frames.old.current g point from at)) }
    ensures found { IfOk result (λ at. at < length numbers.now → OfGoal frames.old.current box_no
        (λ g. Found (tuples_of program.now) g point at
        (kept_of frames.old) (kept_of frames.new))) }
    ensures kept { IfOk result (λ at. length numbers.now ≤ at → frames.new ≡ frames.old) }
    ensures tuples { frames.new.tuples ≡ frames.old.tuples }
{
    let key = frames.key();
    let mut at = next(program, pred, key, numbers, from);
    'clauses: while at < numbers.len() {
        let clause = program.clause(numbers[at]);
        if frames.enter(alloc, box_no, numbers[at], &clause.tuple, point)? {
            return Ok(at);
        }
        at = next(program, pred, key, numbers, at + 1);
    }
    Ok(at)
}

/// The clauses of the goal called in this box wait from this index on, or its Fail where there is none.
#[inline(always)]
pub fn postpone(
    stack: &mut Stack<KeptChoice>,
    box_no: u32,
    next: usize,
    count: usize,
) -> Result<(), AllocError>
    ensures { OnOk result (Postpones box_no next count stack.old stack.new) }
{
    if next < count {
        if next > MOST_KEPT {
            return Err(AllocError);
        }
        return push(stack, Choice::Alternatives(box_no, next as u32));
    }
    push(stack, Choice::Closing(box_no))
}
