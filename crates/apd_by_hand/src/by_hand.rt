//! A record that is made by hand, of the query `r(Y)` by the program `r(X) :- p(X).` and `p(X).`, and its symptom.

ghost use Rattle.std.specs.Prelude.{◌≡◌, [], ◌∷◌, IfOk, OnOk};
ghost use Rattle.apd_answers.specs.Store.{SaysNo};
ghost use Rattle.apd_by_hand.specs.Made.{call_of, call_of_p, call_of_r, query, rule, fact, rule_entered, fact_entered, rule_solved, r_called, r_entered, p_called, p_solved, r_solved, made};
ghost use Rattle.apd_record.specs.Recorded.{begun, noted};

use apd_answers::{Answers, Question, Reply};
use apd_base::VarNames;
use apd_causes::Query;
use apd_ports::{Point, PointId, Port, Step};
use apd_record::Record;
use apd_term::standard::{CELL, NIL};
use apd_term::{Atoms, Flat, NameId, Sym, Tuple};
use std::alloc::{AllocError, Global};

/// The names of the two predicates, behind the standard ones.
const R: NameId = NameId(1000);

const P: NameId = NameId(1001);

/// The call of a predicate with a variable.
fn call_of(alloc: Global, name: NameId) -> Result<Flat, AllocError>
    ensures { IfOk result (λ a. a ≡ call_of name.0) }
{
    Flat::copy_of(alloc, &[Sym::Fun(name, 1), Sym::Var(1)])
}

/// `r(_1)`, the head of the exit.
pub fn call_of_r(alloc: Global) -> Result<Flat, AllocError>
    ensures { IfOk result (λ a. a ≡ call_of_r) }
{
    call_of(alloc, R)
}

/// `p(_1)`, its one goal.
pub fn call_of_p(alloc: Global) -> Result<Flat, AllocError>
    ensures { IfOk result (λ a. a ≡ call_of_p) }
{
    call_of(alloc, P)
}

/// The list of the call of a predicate with a variable.
fn one(alloc: Global, name: NameId) -> Result<Atoms, AllocError>
    ensures { IfOk result (λ atoms. atoms ≡ call_of name.0 ∷ []) }
{
    let atom = call_of(alloc, name)?;
    let mut atoms = Atoms::new(alloc);
    atoms.push(atom)?;
    Ok(atoms)
}

/// The head with the call of a predicate as its one goal.
fn with_goal(alloc: Global, head: Flat, name: NameId) -> Result<Tuple, AllocError>
    ensures { IfOk result (λ t. t ≡ record { head = head; body = call_of name.0 ∷ [] }) }
{
    match one(alloc, name) {
        Ok(body) => Ok(Tuple { head, body }),
        Err(fault) => {
            // Dropped by a call, here and below: else each of its parts is a step to check.
            drop(head);
            Err(fault)
        }
    }
}

/// The query, which shows its variable.
fn query(alloc: Global) -> Result<Query, AllocError>
    ensures { IfOk result (λ q. q.tuple ≡ query) }
{
    let shown = [Sym::Fun(CELL, 2), Sym::Var(1), Sym::Fun(NIL, 0)];
    let head = Flat::copy_of(alloc, &shown)?;
    let tuple = with_goal(alloc, head, R)?;
    let vars = VarNames::new(alloc);
    Ok(Query { tuple, vars })
}

/// The first clause.
fn rule(alloc: Global) -> Result<Tuple, AllocError>
    ensures { IfOk result (λ t. t ≡ rule) }
{
    let head = call_of_r(alloc)?;
    with_goal(alloc, head, P)
}

/// The second clause.
fn fact(alloc: Global) -> Result<Tuple, AllocError>
    ensures { IfOk result (λ t. t ≡ fact) }
{
    Ok(Tuple {
        head: call_of_p(alloc)?,
        body: Atoms::new(alloc),
    })
}

/// The query begins.
fn begin_query(alloc: Global, recorded: &mut Record) -> Result<(), AllocError>
    ensures { OnOk result (recorded.new ≡ begun query) }
{
    let query = query(alloc)?;
    let begun = recorded.begin(&query);
    drop(query);
    match begun {
        Ok(()) => Ok(()),
        Err(fault) => Err(fault),
    }
}

/// The query calls `r`.
fn call_r(alloc: Global, recorded: &mut Record) -> Result<(), AllocError>
    ensures { OnOk result (recorded.new ≡ r_called) }
{
    begin_query(alloc, recorded)?;
    let atom = call_of_r(alloc)?;
    let opened = recorded.open_box(&atom, PointId(0), true);
    drop(atom);
    match opened {
        Ok(_) => Ok(()),
        Err(fault) => Err(fault),
    }
}

/// The rule is entered.
fn enter_rule(alloc: Global, recorded: &mut Record) -> Result<(), AllocError>
    requires { recorded.old ≡ r_called }
    ensures { OnOk result (recorded.new ≡ r_entered) }
{
    let _entered = recorded.add_point(Point {
        owner: 1,
        clause: 1,
        done: 0,
        tuple: rule(alloc)?,
        before: None,
    })?;
    Ok(())
}

/// The rule calls `p`.
fn call_p(alloc: Global, recorded: &mut Record) -> Result<(), AllocError>
    requires { recorded.old ≡ r_entered }
    ensures { OnOk result (recorded.new ≡ p_called) }
{
    let atom = call_of_p(alloc)?;
    let opened = recorded.open_box(&atom, PointId(1), true);
    drop(atom);
    match opened {
        Ok(_) => Ok(()),
        Err(fault) => Err(fault),
    }
}

/// The fact is entered, and solves its goal.
fn enter_fact(alloc: Global, recorded: &mut Record) -> Result<(), AllocError>
    requires { recorded.old ≡ p_called }
    ensures { OnOk result (recorded.new ≡ p_solved) }
{
    let _exit = recorded.add_point(Point {
        owner: 2,
        clause: 2,
        done: 0,
        tuple: fact(alloc)?,
        before: None,
    })?;
    Ok(())
}

/// The fact's exit solves the rule's goal.
fn solve_rule(alloc: Global, recorded: &mut Record) -> Result<(), AllocError>
    requires { recorded.old ≡ noted p_solved 2 Port.Exit }
    ensures { OnOk result (recorded.new ≡ r_solved) }
{
    let _exit = recorded.add_point(Point {
        owner: 1,
        clause: 1,
        done: 1,
        tuple: rule(alloc)?,
        before: Some(Step {
            point: PointId(1),
            exit: PointId(2),
        }),
    })?;
    Ok(())
}

/// The run, box by box.
fn record_run(alloc: Global, recorded: &mut Record) -> Result<(), AllocError>
    ensures { OnOk result (recorded.new ≡ made) }
{
    call_r(alloc, recorded)?;
    enter_rule(alloc, recorded)?;
    call_p(alloc, recorded)?;
    enter_fact(alloc, recorded)?;
    recorded.note(2, Port::Exit);
    solve_rule(alloc, recorded)?;
    recorded.note(1, Port::Exit);
    Ok(())
}

/// The record of the run, whose exits are the points 2, of `p`, and 3, of `r`.
pub fn made(alloc: Global) -> Result<Record, AllocError>
    ensures { IfOk result (λ r. r ≡ made) }
{
    let mut recorded = Record::new(alloc);
    match record_run(alloc, &mut recorded) {
        Ok(()) => Ok(recorded),
        Err(fault) => {
            drop(recorded);
            Err(fault)
        }
    }
}

/// What is told first: the atom isn't true.
pub fn symptom(alloc: Global, atom: &Flat) -> Result<Answers, AllocError>
    ensures { IfOk result (λ answers. SaysNo answers atom.now) }
{
    let question = Question::True(atom.copy(alloc)?);
    let mut answers = Answers::new(alloc);
    let added = answers.add(&question, &Reply::No);
    drop(question);
    match added {
        Ok(()) => Ok(answers),
        Err(fault) => {
            drop(answers);
            Err(fault)
        }
    }
}
