//! Unification by the textbook's rules on a list of equations (Robinson 1965; Martelli and Montanari 1982).

ghost use Rattle.std.specs.Prelude.{◌≡◌, ℕ, ◌∷◌, [], ◌++◌, length, IfOk, OnOk, IsTrue, ◌↔◌};
ghost use Rattle.std.specs.List.{zip};
ghost use Rattle.apd_term.specs.Term.{Term, arguments, variable};
ghost use Rattle.apd_term.specs.Substitution.{IsFree, extended, single, term_for};
ghost use Rattle.apd_unify.specs.declared.rule.Rule.TheVariants.{Eliminate};
ghost use Rattle.apd_cells.specs.First.{first_symbol};
ghost use Rattle.apd_unify.specs.Textbook.{apply_equations, rule_for, rule_for_variable, unifier_of};
ghost use Rattle.apd_by_definition.specs.Rules.{IsAfter};

use apd_term::{Flat, Subst, Sym, apply};
use apd_unify::rule::Rule;
use std::alloc::{AllocError, Global};
use std::collections::VecDeque;
use std::mem::replace;

/// Two terms that are to be made equal.
type Equation = (Flat, Flat);

fn first_symbol(t: &Flat) -> Sym
    ensures { result ≡ first_symbol t.now }
{
    t.symbols()[0]
}

fn is_variable(t: &Flat, v: u64) -> bool
    ensures { IsTrue result ↔ (t.now ≡ variable v) }
{
    first_symbol(t) == Sym::Var(v)
}

/// The rule for a variable and a term.
fn rule_for_variable(alloc: Global, v: u64, t: &Flat) -> Result<Rule, AllocError>
    ensures { IfOk result (λ r. r ≡ rule_for_variable v t.now) }
{
    if is_variable(t, v) {
        return Ok(Rule::Delete);
    }
    if t.mentions(v) {
        return Ok(Rule::Cycle);
    }
    Ok(Rule::Eliminate(v, t.copy(alloc)?))
}

/// The rule for the two sides of an equation.
fn rule_for(alloc: Global, left: &Flat, right: &Flat) -> Result<Rule, AllocError>
    ensures { IfOk result (λ r. r ≡ rule_for left.now right.now) }
{
    match (first_symbol(left), first_symbol(right)) {
        (Sym::Var(v), _) => rule_for_variable(alloc, v, right),
        (_, Sym::Var(w)) => rule_for_variable(alloc, w, left),
        (Sym::Int(i), Sym::Int(j)) if i == j => Ok(Rule::Delete),
        (Sym::Fun(f, m), Sym::Fun(g, n)) if f == g && m == n => Ok(Rule::Decompose),
        _ => Ok(Rule::Clash),
    }
}

fn arity(t: &Flat) -> u8
    ensures { result ≡ length (arguments t.now) }
{
    match t.pred() {
        Some(pred) => pred.arity,
        None => 0,
    }
}

/// Puts the equations of the arguments, place by place, before the others.
fn push_arguments(
    alloc: Global,
    equations: &mut VecDeque<Equation>,
    left: &Flat,
    right: &Flat,
) -> Result<(), AllocError>
    requires { length (arguments left.now) ≡ length (arguments right.now) }
    ensures { OnOk result (equations.new.items ≡ zip (arguments left.now) (arguments right.now)
        ++ equations.old.items) }
{
    'places: for k in (0..arity(left)).rev() {
        equations.push_front((left.arg(alloc, k)?, right.arg(alloc, k)?))?;
    }
    Ok(())
}

/// The equations with a term in place of a variable.
fn substituted(
    alloc: Global,
    equations: &VecDeque<Equation>,
    s: &Subst,
) -> Result<VecDeque<Equation>, AllocError>
    ensures { IfOk result (λ r. r.items ≡ apply_equations (term_for s.now) equations.now.items) }
{
    let mut rest = VecDeque::new(alloc);
    'equations: for equation in equations.iter() {
        let left = apply(alloc, &equation.0, s)?;
        let right = apply(alloc, &equation.1, s)?;
        rest.push_back((left, right))?;
    }
    Ok(rest)
}

/// The equations that are left, and the unifier of those that were solved.
#[derive(Drop)]
struct Work {
    equations: VecDeque<Equation>,
    found: Subst,
}

/// The one equation between two terms, and no pair found.
fn begun(alloc: Global, a: &Flat, b: &Flat) -> Result<Work, AllocError>
    ensures equations { IfOk result (λ w. w.equations.items ≡ (a.now, b.now) ∷ []) }
    ensures found { IfOk result (λ w. w.found ≡ []) }
{
    let left = a.copy(alloc)?;
    let right = b.copy(alloc)?;
    let mut equations = VecDeque::new(alloc);
    equations.push_back((left, right))?;
    Ok(Work {
        equations,
        found: Subst::new(alloc),
    })
}

/// The work with a term in place of a variable, and the pair of them found.
fn eliminated(alloc: Global, work: &Work, v: u64, t: &Flat) -> Result<Work, AllocError>
    requires { IsFree v work.now.found }
    ensures equations { IfOk result (λ w. w.equations.items
        ≡ apply_equations (term_for (single v t.now)) work.now.equations.items) }
    ensures found { IfOk result (λ w. w.found ≡ extended work.now.found v t.now) }
{
    let one = Subst::single(alloc, v, t)?;
    let equations = substituted(alloc, &work.equations, &one)?;
    let found = work.found.extended(alloc, v, t)?;
    Ok(Work { equations, found })
}

/// Solves an equation by its rule before the others; false where the rule refuses it.
fn solves(alloc: Global, work: &mut Work, left: &Flat, right: &Flat) -> Result<bool, AllocError>
    requires { (v : ℕ) → (t : Term) → rule_for left.now right.now ≡ Eliminate v t →
        IsFree v work.old.found }
    ensures { IfOk result
        (λ goes. IsAfter (rule_for left.now right.now) left.now right.now work.old.equations.items work.old.found goes work.new.equations.items work.new.found) }
{
    match rule_for(alloc, left, right)? {
        Rule::Delete => Ok(true),
        Rule::Decompose => {
            push_arguments(alloc, &mut work.equations, left, right)?;
            Ok(true)
        }
        Rule::Clash | Rule::Cycle => Ok(false),
        Rule::Eliminate(v, t) => {
            let next = match eliminated(alloc, work, v, &t) {
                Ok(next) => next,
                Err(fault) => {
                    // Dropped by calls, here and below: else each part is a step to check.
                    drop(t);
                    return Err(fault);
                }
            };
            drop(t);
            drop(replace(work, next));
            Ok(true)
        }
    }
}

/// A most general unifier of two terms by the textbook's rules on a list of equations
/// (Robinson 1965; Martelli and Montanari 1982); `None` where they have none. The plain and slow
/// program beside `mgu` of `apd_unify`.
pub fn textbook_unifier(alloc: Global, a: &Flat, b: &Flat) -> Result<Option<Subst>, AllocError>
    ensures { IfOk result (λ r. r ≡ unifier_of a.now b.now) }
{
    let mut work = begun(alloc, a, b)?;
    'rules: while let Some((left, right)) = work.equations.pop_front() {
        let goes = match solves(alloc, &mut work, &left, &right) {
            Ok(goes) => goes,
            Err(fault) => {
                drop(left);
                drop(right);
                drop(work);
                return Err(fault);
            }
        };
        drop(left);
        drop(right);
        if !goes {
            drop(work);
            return Ok(None);
        }
    }
    let Work { equations, found } = work;
    drop(equations);
    Ok(Some(found))
}
