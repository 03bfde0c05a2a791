//! The record of a run that never goes back, made of the instances of clauses that it enters.

ghost use Rattle.std.specs.Prelude.{◌≡◌, ◌+◌, ◌<◌, ◌≤◌, List, length, IfSome, None, OnSome, Some};
ghost use Rattle.apd_by_hand.specs.Newest.{IsInstanceOf, IsNewest, IsSolvedBy, StaysSound};
ghost use Rattle.apd_clauses.specs.Clauses.{IsAtom, tuples_of};
ghost use Rattle.apd_ports.specs.declared.point.Point.{Point};
ghost use Rattle.apd_record.specs.Recorded.{point_at};
ghost use Rattle.apd_record.specs.Sound.{IsOfClauseIn, IsSound, MayMake, MayOpen};
ghost use Rattle.apd_term.specs.Canonical.{canonical};
ghost use Rattle.apd_term.specs.declared.tuple.Tuple.{Tuple};

use crate::clauses::number_of;
use crate::readers::{has_goal, is_complete, next_goal, point_of};
use apd_answers::question::{copies, copy_tuple};
use apd_arith::Builtin;
use apd_base::VarNames;
use apd_causes::Query;
use apd_clauses::Program;
use apd_ports::{Point, PointId, Port, Step};
use apd_record::Record;
use apd_term::canonical::canonical;
use apd_term::{Flat, Pred, Tuple, apply_tuple, is_instance, match_onto};
use std::alloc::Global;

/// The goal in canonical form; None where it is no atom, or for want of memory.
fn canonical_atom(alloc: Global, goal: &Flat) -> Option<Flat>
    ensures is { IfSome result (λ a. a ≡ canonical goal.now) }
    ensures atom { IfSome result (λ a. IsAtom a) }
{
    let atom = canonical(alloc, goal).ok()?;
    let _pred = atom.pred()?;
    Some(atom)
}

/// The call of the next goal of the point with this number, where it may be called.
fn called_by(alloc: Global, recorded: &Record, from: PointId, caller: &Point) -> Option<Flat>
    requires number { from.0 < length recorded.now.points }
    requires point { point_at recorded.now from.0 ≡ Some caller.now }
    requires owner { caller.now.owner ≤ length recorded.now.boxes }
    ensures { IfSome result (λ atom. MayOpen recorded.now atom from.0) }
{
    recorded.is_kept();
    if is_complete(recorded, caller.owner) || recorded.child(from).is_some() {
        return None;
    }
    let goal = next_goal(caller)?;
    let atom = canonical_atom(alloc, goal)?;
    Some(atom)
}

/// The call of the next goal of a point, where it may be called.
fn called(alloc: Global, recorded: &Record, from: PointId) -> Option<Flat>
    requires { from.0 < length recorded.now.points }
    ensures { IfSome result (λ atom. MayOpen recorded.now atom from.0) }
{
    let caller = point_of(recorded, from)?;
    let atom = called_by(alloc, recorded, from, &caller);
    // Dropped by a call, here and below: else each of its parts is a step to check.
    drop(caller);
    atom
}

/// Calls the next goal of the newest point.
fn call(alloc: Global, recorded: &mut Record, newest: PointId) -> Option<()>
    requires { IsNewest recorded.old newest.0 }
    ensures newest { OnSome result (IsNewest recorded.new newest.0) }
    ensures sound { StaysSound result recorded.old recorded.new }
{
    let atom = called(alloc, recorded, newest)?;
    if recorded.boxes() == u32::MAX {
        drop(atom);
        return None;
    }
    let is_user = Builtin::of_atom(&atom).is_none();
    let opened = recorded.open_box(&atom, newest, is_user);
    drop(atom);
    match opened {
        Ok(_) => Some(()),
        Err(_) => None,
    }
}

/// The clause of the program that the newest box enters by this instance, where it may.
fn clause_entered(
    alloc: Global,
    recorded: &Record,
    owner: u32,
    program: &Program,
    tuple: &Tuple,
) -> Option<u32>
    requires { owner ≡ length recorded.now.boxes }
    ensures may { IfSome result (λ n. MayMake recorded.now
        (record { owner = owner; clause = n; done = 0; tuple = tuple.now; before = None })) }
    ensures clause { IfSome result (IsInstanceOf (tuples_of program.now) tuple.now) }
{
    recorded.is_kept();
    if owner == 0 || is_complete(recorded, owner) {
        return None;
    }
    let is_user = recorded.is_user(owner);
    let clause = number_of(alloc, program, tuple)?;
    if !is_user || recorded.first_point(owner, clause).is_some() {
        return None;
    }
    let Ok(call) = recorded.call_atom(owner) else {
        return None;
    };
    let fits = is_instance(alloc, &tuple.head, &call).unwrap_or(false);
    drop(call);
    if !fits {
        return None;
    }
    Some(clause)
}

/// The point at which the newest box enters a clause of the program by this instance, where it may.
fn entered(alloc: Global, recorded: &Record, program: &Program, tuple: Tuple) -> Option<Point>
    ensures may { IfSome result (MayMake recorded.now) }
    ensures clause { IfSome result (IsOfClauseIn (tuples_of program.now) recorded.now) }
{
    let owner = recorded.boxes();
    match clause_entered(alloc, recorded, owner, program, &tuple) {
        Some(clause) => Some(Point {
            owner,
            clause,
            done: 0,
            tuple,
            before: None,
        }),
        None => {
            drop(tuple);
            None
        }
    }
}

/// The tuple of the point with its next goal made into this atom by a substitution.
fn with_solved(alloc: Global, point: &Point, atom: &Flat) -> Option<Tuple>
    ensures { IfSome result (IsSolvedBy point.now atom.now) }
{
    let goal = next_goal(point)?;
    let Ok(Some(values)) = match_onto(alloc, goal, atom) else {
        return None;
    };
    match apply_tuple(alloc, &point.tuple, &values) {
        Ok(tuple) => Some(tuple),
        Err(_) => None,
    }
}

/// The point that the point of a call comes to by its exit, where it may.
fn solved_by(alloc: Global, recorded: &Record, exit: PointId, last: &Point) -> Option<Point>
    requires number { exit.0 < length recorded.now.points }
    requires point { point_at recorded.now exit.0 ≡ Some last.now }
    requires owner { last.now.owner ≤ length recorded.now.boxes }
    ensures may { IfSome result (MayMake recorded.now) }
    ensures clause { IfSome result (λ p. (P : List Tuple) → IsOfClauseIn P recorded.now p) }
{
    recorded.is_kept();
    if last.owner == 0 || has_goal(last) {
        return None;
    }
    let from = recorded.from(last.owner);
    let left = point_of(recorded, from)?;
    if left.done == u8::MAX {
        drop(left);
        return None;
    }
    if is_complete(recorded, left.owner) || recorded.follow(from, exit).is_some() {
        drop(left);
        return None;
    }
    let made = with_solved(alloc, &left, &last.tuple.head);
    let owner = left.owner;
    let clause = left.clause;
    let done = left.done + 1;
    drop(left);
    match made {
        Some(tuple) => Some(Point {
            owner,
            clause,
            done,
            tuple,
            before: Some(Step { point: from, exit }),
        }),
        None => None,
    }
}

/// The point that the point of a call comes to when the call exits, where it may.
fn solved(alloc: Global, recorded: &Record, exit: PointId) -> Option<Point>
    requires { exit.0 < length recorded.now.points }
    ensures may { IfSome result (MayMake recorded.now) }
    ensures clause { IfSome result (λ p. (P : List Tuple) → IsOfClauseIn P recorded.now p) }
{
    let last = point_of(recorded, exit)?;
    let solved = solved_by(alloc, recorded, exit, &last);
    drop(last);
    solved
}

/// Puts a point behind the newest one, and answers with its number.
fn put(recorded: &mut Record, newest: PointId, point: Point) -> Option<PointId>
    requires newest { IsNewest recorded.old newest.0 }
    requires may { MayMake recorded.old point }
    ensures newest { IfSome result (λ p. IsNewest recorded.new p.0) }
    ensures sound { (P : List Tuple) → IsOfClauseIn P recorded.old point →
        IsSound P recorded.old → OnSome result (IsSound P recorded.new) }
{
    if newest.0 >= u32::MAX - 1 {
        return None;
    }
    match recorded.add_point(point) {
        Ok(made) => Some(made),
        Err(_) => None,
    }
}

/// Calls the next goal of the newest point, and enters a clause of the program by this instance.
fn enter(
    alloc: Global,
    recorded: &mut Record,
    newest: PointId,
    program: &Program,
    tuple: Tuple,
) -> Option<PointId>
    requires newest { IsNewest recorded.old newest.0 }
    requires sound { IsSound (tuples_of program.now) recorded.old }
    ensures newest { IfSome result (λ p. IsNewest recorded.new p.0) }
    ensures sound { OnSome result (IsSound (tuples_of program.now) recorded.new) }
{
    call(alloc, recorded, newest)?;
    let point = entered(alloc, recorded, program, tuple)?;
    put(recorded, newest, point)
}

/// The box of the newest point, which is an exit, exits, and its goal is solved.
fn leave(alloc: Global, recorded: &mut Record, newest: PointId, owner: u32) -> Option<PointId>
    requires newest { IsNewest recorded.old newest.0 }
    requires from { 0 < owner }
    requires to { owner ≤ length recorded.old.boxes }
    ensures newest { IfSome result (λ p. IsNewest recorded.new p.0) }
    ensures sound { StaysSound result recorded.old recorded.new }
{
    recorded.note(owner, Port::Exit);
    let point = solved(alloc, recorded, newest)?;
    put(recorded, newest, point)
}

/// Leaves boxes until a goal is to be called or the query is answered.
fn leave_all(alloc: Global, recorded: &mut Record, newest: PointId) -> Option<PointId>
    requires newest { IsNewest recorded.old newest.0 }
    ensures newest { IfSome result (λ p. IsNewest recorded.new p.0) }
    ensures sound { StaysSound result recorded.old recorded.new }
{
    let mut last = newest;
    'boxes: for _ in 0..recorded.boxes() {
        let point = point_of(recorded, last)?;
        let owner = point.owner;
        let goes_on = has_goal(&point);
        drop(point);
        if owner == 0 || goes_on {
            return Some(last);
        }
        last = leave(alloc, recorded, last, owner)?;
    }
    Some(last)
}

/// The query that a clause is: its goals, and the list of the variables that it shows, which is the head's one argument.
fn query_of(alloc: Global, clause: &Tuple) -> Option<Query> {
    let Some(Pred { arity: 1, .. }) = clause.head.pred() else {
        return None;
    };
    Some(Query {
        tuple: Tuple {
            head: clause.head.arg(alloc, 0).ok()?,
            body: copies(alloc, &clause.body).ok()?,
        },
        vars: VarNames::new(alloc),
    })
}

/// Records a run of the query by the program that enters the clauses by the instances behind the first.
fn replay(
    alloc: Global,
    program: &Program,
    query: &Query,
    instances: &Program,
    recorded: &mut Record,
) -> Option<()>
    ensures { OnSome result (IsSound (tuples_of program.now) recorded.new) }
{
    recorded.begin(query).ok()?;
    let mut newest = PointId(0);
    'instances: for before in 1..instances.count() {
        let tuple = copy_tuple(alloc, &instances.clause(before + 1).tuple).ok()?;
        newest = enter(alloc, recorded, newest, program, tuple)?;
        newest = leave_all(alloc, recorded, newest)?;
    }
    Some(())
}

/// The record of a run by the program that never goes back and enters the clauses by these instances, of which the first
/// is the query's. None where an instance isn't one of a clause or doesn't fit where it stands, or for want of memory.
pub fn replayed(alloc: Global, program: &Program, instances: &Program) -> Option<Record>
    ensures { IfSome result (IsSound (tuples_of program.now)) }
{
    if instances.count() == 0 {
        return None;
    }
    let query = query_of(alloc, &instances.clause(1).tuple)?;
    let mut recorded = Record::new(alloc);
    let made = replay(alloc, program, &query, instances, &mut recorded);
    drop(query);
    match made {
        Some(()) => Some(recorded),
        None => {
            drop(recorded);
            None
        }
    }
}
