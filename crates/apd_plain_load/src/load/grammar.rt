//! The clause of a grammar rule, goal by goal from the left: what a part is, whether it is fine and which goal it makes is
//! seen in one go.

ghost use Rattle.std.specs.Prelude.{◌≡◌, ◌≤◌, length};
ghost use Rattle.apd_term.specs.Term.{arguments};

use crate::load::conjunction::goals;
use apd_base::MOST_GOALS;
use apd_causes::BodyFault;
use apd_clauses::{Kind, kind_of};
use apd_term::standard::{CALL, CELL, CURLY, NIL, UNIFY};
use apd_term::{Atoms, Flat, NameId, Pred, Sym, Tuple};
use std::alloc::{AllocError, Global};

/// A rule's goals so far, and the number of the state, a variable, that they have come to.
#[derive(Drop)]
struct Making {
    goals: Atoms,
    state: u64,
}

impl Making {
    /// The number of the next state.
    fn next(&self) -> u64 {
        self.state.saturating_add(1)
    }

    /// A 65th goal is one too many.
    fn make_room(&self) -> Result<(), BodyFault> {
        if self.goals.len() >= MOST_GOALS {
            return Err(BodyFault::BodyOver);
        }
        Ok(())
    }

    /// Adds a goal that goes to the next state.
    fn add_goal(&mut self, goal: Flat) -> Result<(), AllocError> {
        self.goals.push(goal)?;
        self.state = self.next();
        Ok(())
    }
}

/// The first number behind those of the variables.
fn first_state(rule: &Flat) -> u64 {
    let mut first = 1u64;
    for symbol in rule.symbols() {
        if let Sym::Var(v) = symbol {
            first = first.max(v.saturating_add(1));
        }
    }
    first
}

/// The predicate of a goal or of a nonterminal.
fn predicate(term: &Flat) -> Result<Pred, BodyFault> {
    match term.symbols() {
        [Sym::Fun(name, arity), ..] => Ok(Pred {
            name: *name,
            arity: *arity,
        }),
        [Sym::Int(_), ..] => Err(BodyFault::NotCallable),
        _ => Err(BodyFault::VariableGoal),
    }
}

/// The fault of a predicate that is no program's own.
fn fault_of(kind: Kind, pred: Pred) -> BodyFault {
    match kind {
        Kind::Cut => BodyFault::Cut,
        Kind::Negation => BodyFault::Negation,
        Kind::Disjunction => BodyFault::Disjunction,
        Kind::IfThen => BodyFault::IfThen,
        _ => BodyFault::Impure(pred),
    }
}

/// Whether a goal in braces may be run.
fn check_goal(goal: &Flat) -> Result<(), BodyFault> {
    let pred = predicate(goal)?;
    match kind_of(pred) {
        Kind::User | Kind::Builtin(_) | Kind::Conjunction => Ok(()),
        kind => Err(fault_of(kind, pred)),
    }
}

/// The predicate with two more arguments.
fn extended(pred: Pred) -> Result<Pred, BodyFault> {
    if pred.arity > 253 {
        return Err(BodyFault::DcgArity);
    }
    Ok(Pred {
        name: pred.name,
        arity: pred.arity.saturating_add(2),
    })
}

fn is(pred: Pred, name: NameId, arity: u8) -> bool {
    pred.name == name && pred.arity == arity
}

/// Whether the predicate may be a rule's.
fn check_head(pred: Pred) -> Result<(), BodyFault> {
    let longer = extended(pred)?;
    if is(pred, NIL, 0) || is(pred, CELL, 2) || kind_of(pred) == Kind::Conjunction {
        return Err(BodyFault::HeadIsBuiltin(pred));
    }
    if kind_of(longer) != Kind::User {
        return Err(BodyFault::HeadIsBuiltin(longer));
    }
    Ok(())
}

/// Whether the predicate may be a nonterminal's.
fn check_nonterminal(pred: Pred) -> Result<(), BodyFault> {
    let longer = extended(pred)?;
    let kind = kind_of(pred);
    if let Kind::Cut | Kind::Negation | Kind::Disjunction | Kind::IfThen = kind {
        return Err(fault_of(kind, pred));
    }
    if pred.name == CALL && 1 <= pred.arity && pred.arity <= 8 {
        return Err(BodyFault::Impure(pred));
    }
    if kind_of(longer) != Kind::User {
        return Err(BodyFault::Impure(longer));
    }
    if is(pred, CELL, 2) {
        return Err(BodyFault::DcgList);
    }
    Ok(())
}

/// The first arguments of a term.
fn arguments(alloc: Global, term: &Flat, count: u8) -> Result<Atoms, AllocError>
    requires { count ≤ length (arguments term.now) }
{
    let mut args = Atoms::new(alloc);
    for i in 0..count {
        args.push(term.arg(alloc, i)?)?;
    }
    Ok(args)
}

/// The term of a name and of these arguments, which are at most 255.
fn compound(alloc: Global, name: NameId, args: &Atoms) -> Result<Flat, AllocError> {
    if args.len() > 255 {
        return Err(AllocError);
    }
    Flat::compound(alloc, name, args)
}

/// The term of two arguments.
fn pair(alloc: Global, name: NameId, left: Flat, right: Flat) -> Result<Flat, AllocError> {
    let mut args = Atoms::new(alloc);
    args.push(left)?;
    args.push(right)?;
    compound(alloc, name, &args)
}

/// The atom with two states behind its arguments.
fn longer(alloc: Global, atom: &Flat, from: u64, to: u64) -> Result<Flat, AllocError> {
    let Some(pred) = atom.pred() else {
        return atom.copy(alloc);
    };
    let mut args = arguments(alloc, atom, pred.arity)?;
    args.push(Flat::variable(alloc, from)?)?;
    args.push(Flat::variable(alloc, to)?)?;
    compound(alloc, pred.name, &args)
}

/// The elements of a list of at most this many cells that ends in `[]`.
fn elements(alloc: Global, cells: usize, term: &Flat) -> Result<Option<Vec<Flat>>, AllocError> {
    let mut found = Vec::new(alloc);
    let mut rest = term.copy(alloc)?;
    for _ in 0..cells {
        match rest.pred() {
            Some(
                Pred {
                    name: CELL,
                    arity: 2,
                },
            ) => {
                found.push(rest.arg(alloc, 0)?)?;
                rest = rest.arg(alloc, 1)?;
            }
            _ => break,
        }
    }
    match rest.pred() {
        Some(
            Pred {
                name: NIL,
                arity: 0,
            },
        ) => Ok(Some(found)),
        _ => Ok(None),
    }
}

/// The goal that the state is a list of the terminals and of the next state.
fn equation(alloc: Global, terminals: &[Flat], from: u64, to: u64) -> Result<Flat, AllocError> {
    let mut list = Flat::variable(alloc, to)?;
    for terminal in terminals.iter().rev() {
        let first = terminal.copy(alloc)?;
        list = pair(alloc, CELL, first, list)?;
    }
    pair(alloc, UNIFY, Flat::variable(alloc, from)?, list)
}

/// Adds the goals of a term in braces.
fn add_braced(
    alloc: Global,
    steps: usize,
    making: &mut Making,
    braced: &Flat,
) -> Result<(), BodyFault> {
    let braced = goals(alloc, steps, braced)?;
    for goal in braced.iter() {
        making.make_room()?;
        check_goal(goal)?;
        making.goals.push(goal.copy(alloc)?)?;
    }
    Ok(())
}

/// Adds the goal of a list or of a nonterminal.
fn add_moving(
    alloc: Global,
    steps: usize,
    making: &mut Making,
    part: &Flat,
) -> Result<(), BodyFault> {
    making.make_room()?;
    let (from, to) = (making.state, making.next());
    let goal = match elements(alloc, steps, part)? {
        Some(terminals) => equation(alloc, terminals.as_slice(), from, to)?,
        None => {
            check_nonterminal(predicate(part)?)?;
            longer(alloc, part, from, to)?
        }
    };
    making.add_goal(goal)?;
    Ok(())
}

/// Adds what a part of a body makes.
fn add_part(
    alloc: Global,
    steps: usize,
    making: &mut Making,
    part: &Flat,
) -> Result<(), BodyFault> {
    match part.pred() {
        Some(
            Pred {
                name: CURLY,
                arity: 1,
            },
        ) => {
            let braced = part.arg(alloc, 0)?;
            add_braced(alloc, steps, making, &braced)
        }
        _ => add_moving(alloc, steps, making, part),
    }
}

/// Adds what the parts of a body make from the first state on; where no state came behind that, one does.
fn add_body(
    alloc: Global,
    steps: usize,
    making: &mut Making,
    body: &Flat,
) -> Result<(), BodyFault> {
    let first = making.state;
    let parts = goals(alloc, steps, body)?;
    for part in parts.iter() {
        add_part(alloc, steps, making, part)?;
    }
    if making.state == first {
        making.make_room()?;
        let goal = equation(alloc, &[], first, making.next())?;
        making.add_goal(goal)?;
    }
    Ok(())
}

/// The clause of a rule with this head and this body, taken apart in at most this many steps; `first` is its first state.
fn clause_with(
    alloc: Global,
    steps: usize,
    head: &Flat,
    body: &Flat,
    first: u64,
) -> Result<Tuple, BodyFault> {
    let Some(pred) = head.pred() else {
        return Err(BodyFault::NotCallable);
    };
    check_head(pred)?;
    let mut making = Making {
        goals: Atoms::new(alloc),
        state: first,
    };
    add_body(alloc, steps, &mut making, body)?;
    let head = longer(alloc, head, first, making.state)?;
    Ok(Tuple {
        head,
        body: making.goals,
    })
}

/// The clause of a grammar rule `H --> B`, which is taken apart in at most this many steps.
pub(crate) fn clause_of_rule(alloc: Global, steps: usize, rule: &Flat) -> Result<Tuple, BodyFault>
    requires { length (arguments rule.now) ≡ 2 }
{
    let head = rule.arg(alloc, 0)?;
    let body = rule.arg(alloc, 1)?;
    clause_with(alloc, steps, &head, &body, first_state(rule))
}
