//! What becomes of frames where a goal is solved, and the ports that are passed.

ghost use Rattle.std.specs.Prelude.{◌≡◌, ◌∷◌, ℕ, ◌+◌, ◌-◌, ◌≤◌, ◌^◌, IfOk, IfSome};
ghost use Rattle.apd_clauses.specs.Clauses.{IsRunnable};
ghost use Rattle.apd_term.specs.Tuple.{canonical_tuple};
ghost use Rattle.apd_trace.specs.Frames.{entering, shifted_tuple};
ghost use Rattle.apd_trace.specs.Trace.{at_port};
ghost use Rattle.apd_trace.specs.BuiltIn.{built, solution};
ghost use Rattle.apd_trace.specs.Renaming.{AreAlike, AreRenamed, IsBelow};
ghost use Rattle.apd_by_definition.specs.Attempts.{attempt_of, solution_in, IsAttempt, IsAttemptBelow, IsUnder};
ghost use Rattle.apd_by_definition.specs.declared.engine.goals.TheConstants.{BLOCK};
ghost use Rattle.apd_engine.specs.Search.{numbers_for};

use crate::engine::frames::FrameList;
use crate::engine::outcome::outcome;
use crate::engine::tuples::shifted_tuple;
use apd_causes::RunError;
use apd_clauses::Program;
use apd_ports::{BUILTIN, Event, Port};
use apd_term::{Atoms, Flat, Tuple, canonical_tuple};
use apd_trace::{Called, Frame, Item, Outcome};
use apd_unify::mgu::mgu;
use std::alloc::{AllocError, Global};

/// So many numbers of variables each clause has to itself: one more than it may have symbols.
pub(crate) const BLOCK: u64 = 4294967297;

/// The clause with numbers of its own for its variables, above this one.
fn renumbered(alloc: Global, rule: &Tuple, fresh: u64) -> Result<Tuple, AllocError>
    requires short { IsRunnable rule.now }
    requires room { fresh + BLOCK ≤ 2 ^ 64 - 1 }
    ensures { IfOk result (λ t. t ≡ shifted_tuple fresh (canonical_tuple rule.now)) }
{
    let canonical = canonical_tuple(alloc, rule)?;
    let renumbered = shifted_tuple(alloc, &canonical, fresh);
    // Dropped by calls, here and below: else each part is a step to check.
    drop(canonical);
    renumbered
}

/// The frames with another in front, under a most general unifier of two terms, if they have one.
fn unified(
    alloc: Global,
    frames: &FrameList,
    first: &Frame,
    left: &Flat,
    right: &Flat,
) -> Result<Option<FrameList>, AllocError>
    ensures { IfOk result (IsUnder left.now right.now (first.now ∷ frames.now)) }
{
    match mgu(alloc, left, right)? {
        None => Ok(None),
        Some(s) => {
            let all = frames.applied(alloc, first, &s)?;
            drop(s);
            Ok(Some(all))
        }
    }
}

/// The frames where the clause is entered for the next goal, if its head unifies with it.
pub(crate) fn resolved(
    alloc: Global,
    frames: &FrameList,
    fresh: u64,
    called: &Called,
    clause: u32,
    rule: &Tuple,
    point: u32,
) -> Result<Option<FrameList>, AllocError>
    requires below { IsBelow fresh frames.now }
    requires short { IsRunnable rule.now }
    requires room { fresh + BLOCK ≤ 2 ^ 64 - 1 }
    ensures renamed { IfOk result (AreRenamed
        (entering frames.now called.now rule.now clause point)) }
    ensures below { IfOk result (λ o. IfSome o (IsBelow (fresh + BLOCK))) }
{
    let Some(goal) = frames.goal() else {
        return Ok(None);
    };
    let tuple = renumbered(alloc, rule, fresh)?;
    let first = Frame {
        box_no: called.box_no,
        depth: called.depth,
        clause,
        tuple,
        done: 0,
        point,
    };
    let entered = unified(alloc, frames, &first, goal, &first.tuple.head);
    drop(first);
    entered
}

/// What an attempt at a goal came to.
#[derive(Drop)]
pub enum Attempt {
    Program,
    Fault(RunError),
    Failed,
    Entered(FrameList),
}

/// The frame of a built-in goal that succeeds: the goal as its head, and no body.
fn built(alloc: Global, called: &Called, goal: &Flat, point: u32) -> Result<Frame, AllocError>
    ensures { IfOk result (λ f. f ≡ built called.now goal.now point) }
{
    let head = goal.copy(alloc)?;
    Ok(Frame {
        box_no: called.box_no,
        depth: called.depth,
        clause: BUILTIN,
        tuple: Tuple {
            head,
            body: Atoms::new(alloc),
        },
        done: 0,
        point,
    })
}

/// The frames with that of a built-in goal that succeeds in front.
fn with_built(
    alloc: Global,
    frames: &FrameList,
    called: &Called,
    goal: &Flat,
    point: u32,
) -> Result<FrameList, AllocError>
    ensures { IfOk result (λ all. all ≡ built called.now goal.now point ∷ frames.now) }
{
    let first = built(alloc, called, goal, point)?;
    frames.with_front(alloc, first)
}

/// The attempt at an equation: it is entered, or it fails.
fn attempt_of(all: Option<FrameList>) -> Attempt
    ensures { result ≡ attempt_of all }
{
    match all {
        None => Attempt::Failed,
        Some(frames) => Attempt::Entered(frames),
    }
}

/// The attempt at a goal of which this comes.
fn attempted_by(
    alloc: Global,
    frames: &FrameList,
    called: &Called,
    goal: &Flat,
    point: u32,
    outcome: &Outcome,
) -> Result<Attempt, AllocError>
    ensures { IfOk result (IsAttempt outcome.now goal.now frames.now called.now point) }
{
    match outcome {
        Outcome::User => Ok(Attempt::Program),
        Outcome::Faults(cause) => Ok(Attempt::Fault(*cause)),
        Outcome::Fails => Ok(Attempt::Failed),
        Outcome::Succeeds => {
            let all = with_built(alloc, frames, called, goal, point)?;
            Ok(Attempt::Entered(all))
        }
        Outcome::Equates(left, right) => {
            let first = built(alloc, called, goal, point)?;
            let all = unified(alloc, frames, &first, left, right)?;
            drop(first);
            Ok(attempt_of(all))
        }
    }
}

/// Solves the innermost frame's next goal, if it is built in.
pub(crate) fn attempted(
    alloc: Global,
    frames: &FrameList,
    called: &Called,
    point: u32,
) -> Result<Attempt, AllocError>
    ensures alike { IfOk result (λ a. AreAlike (solution frames.now called.now point)
        (solution_in a)) }
    ensures below { IfOk result (λ a. (n : ℕ) → IsBelow n frames.now → IsAttemptBelow n a) }
{
    let Some(goal) = frames.goal() else {
        return Ok(Attempt::Program);
    };
    let outcome = outcome(alloc, goal)?;
    let attempt = attempted_by(alloc, frames, called, goal, point, &outcome);
    drop(outcome);
    attempt
}

/// The port of a box.
pub(crate) fn event(alloc: Global, port: Port, g: &Called) -> Result<Item, AllocError>
    ensures { IfOk result (λ i. i ≡ at_port port g.now) }
{
    let atom = g.atom.copy(alloc)?;
    Ok(Item::Passed(Event {
        port,
        box_no: g.box_no,
        caller: g.caller,
        depth: g.depth,
        atom,
    }))
}

/// The numbers of the clauses of a goal's predicate.
pub(crate) fn numbers<'a>(program: &'a Program, goal: &Flat) -> &'a [u32]
    ensures { result.now ≡ numbers_for goal.now program.now }
{
    match goal.pred() {
        Some(pred) => program.clauses_of(pred),
        None => &[],
    }
}
