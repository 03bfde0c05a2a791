//! What the calls on names, terms, substitutions, lists and unifiers give.

ghost use Rattle.std.specs.Prelude.{◌≡◌, length};
ghost use Rattle.apd_term.specs.Term.{arguments};

use apd_base::{Ids, Text};
use apd_clauses::clause_of;
use apd_rows::{Builder, Scene, Sides, Trial};
use apd_term::canonical::{canonical, shifted};
use apd_term::{
    Flat, Pred, Subst, Tuple, apply, apply_tuple, canonical_tuple, is_instance, match_onto,
};
use apd_unify::mgu::mgu;
use std::alloc::{AllocError, Global};

/// The variable that [`put_substituted`] binds second, and that [`put_tuple`] binds.
const SECOND: u64 = 2;

/// Gives the number of a name, before and after it is given again, how many names there are, and its text.
pub fn put_name(trial: &mut Trial) -> Option<()> {
    let first = trial.scene.name(trial.row.text(0)).ok()?;
    let id = trial.scene.name(trial.row.text(0)).ok()?;
    let names = &trial.scene.names;
    let numbers = format!(in trial.alloc; "{} {} of {}: ", first.0, id.0, names.count());
    trial.given.put_made(numbers);
    trial.given.put_bytes(names.text(id));
    Some(())
}

/// Gives an argument of a term, by its copy.
fn put_argument(trial: &mut Trial, term: &Flat, argument: &Flat) -> Result<(), AllocError> {
    let copy = argument.copy(trial.alloc)?;
    trial.given.put("; ");
    trial.put_term(&copy);
    // Dropped by calls, here and below: else each part is a step to check.
    drop(copy);
    trial
        .given
        .put(if argument.same(term) { " itself" } else { "" });
    Ok(())
}

/// Gives the four arguments of a term.
fn put_four(trial: &mut Trial, term: &Flat) -> Result<(), AllocError>
    requires { length (arguments term.now) ≡ 4 }
{
    for i in 0..4 {
        let argument = term.arg(trial.alloc, i)?;
        let put = put_argument(trial, term, &argument);
        drop(argument);
        put?;
    }
    Ok(())
}

/// Adds a term's size, whether it is ground, and its name and number of arguments.
fn put_front(given: &mut Builder, scene: &Scene, term: &Flat) {
    let ground = if term.is_ground() { " ground" } else { "" };
    given.put_shown(&term.size());
    given.put(ground);
    if let Some(pred) = term.pred() {
        given.put(" ");
        given.put_indicator(scene, pred);
    }
}

/// Gives a term's size, whether it is ground, its name and number of arguments, and its arguments where it has four.
pub fn put_parts(trial: &mut Trial) -> Option<()> {
    let term = trial.term(0)?;
    put_front(&mut trial.given, &trial.scene, &term);
    let put = match term.pred() {
        Some(Pred { arity: 4, .. }) => put_four(trial, &term).ok(),
        _ => Some(()),
    };
    drop(term);
    put
}

/// Gives the right side of an equation with its variables numbered anew; the left side gave them their numbers.
pub fn put_canonical(trial: &mut Trial) -> Option<()> {
    let sides = trial.sides(0)?;
    let made = canonical(trial.alloc, &sides.right);
    drop(sides);
    trial.put_made_term(made);
    Some(())
}

/// Gives a variable raised by a number.
pub fn put_shifted(trial: &mut Trial) -> Option<()> {
    let variable = Flat::variable(trial.alloc, u64::from(trial.row.number(0))).ok()?;
    let raised = shifted(trial.alloc, &variable, u64::from(trial.row.number(1)));
    drop(variable);
    trial.put_made_term(raised);
    Some(())
}

/// Gives what matching the left side onto the right one makes of it, and whether the right side is an instance.
fn put_match(trial: &mut Trial, sides: &Sides) -> Option<()> {
    let is_instance = is_instance(trial.alloc, &sides.right, &sides.left).ok()?;
    trial.given.put(if is_instance {
        "an instance"
    } else {
        "no instance"
    });
    if let Some(found) = match_onto(trial.alloc, &sides.left, &sides.right).ok()? {
        trial.given.put(": ");
        let made = apply(trial.alloc, &sides.left, &found);
        drop(found);
        trial.put_made_term(made);
    }
    Some(())
}

/// Gives whether the row's right side is an instance of its left one, and what matching makes of the left one.
pub fn put_matched(trial: &mut Trial) -> Option<()> {
    let sides = trial.sides(0)?;
    let put = put_match(trial, &sides);
    drop(sides);
    put
}

/// The first side for variable 1, followed by the second for variable 2.
fn both(alloc: Global, sides: &Sides) -> Result<Subst, AllocError> {
    let first = Subst::single(alloc, 1, &sides.left)?;
    let both = first.extended(alloc, SECOND, &sides.right);
    drop(first);
    both
}

/// Gives what the first side for variable 1, followed by the second for variable 2, puts for variables 1 to 3.
pub fn put_substituted(trial: &mut Trial) -> Option<()> {
    let sides = trial.sides(0)?;
    let both = both(trial.alloc, &sides);
    drop(sides);
    let both = both.ok()?;
    for v in 1..=3 {
        match both.get(v) {
            None => trial.given.put("none"),
            Some(term) => trial.put_term(term),
        }
        trial.given.put(if v < 3 { "; " } else { "" });
    }
    drop(both);
    Some(())
}

/// The tuple of the clause on the right side.
fn tuple_of_row(trial: &mut Trial) -> Option<Tuple> {
    let sides = trial.sides(0)?;
    let clause = clause_of(trial.alloc, &sides.right);
    drop(sides);
    clause.ok()
}

/// A clause with 8 for the second variable.
fn with_eight(alloc: Global, tuple: &Tuple) -> Result<Tuple, AllocError> {
    let integer = Flat::integer(alloc, 8)?;
    let eight = Subst::single(alloc, SECOND, &integer);
    drop(integer);
    let eight = eight?;
    let instance = apply_tuple(alloc, tuple, &eight);
    drop(eight);
    instance
}

/// Gives the clause with variables numbered anew, and the instance of that with 8 for the second variable.
fn put_numbered(trial: &mut Trial, tuple: &Tuple) -> Option<()> {
    let numbered = canonical_tuple(trial.alloc, tuple).ok()?;
    trial.put_tuple(&numbered);
    trial.given.put(": ");
    let instance = with_eight(trial.alloc, &numbered);
    drop(numbered);
    let instance = instance.ok()?;
    trial.put_tuple(&instance);
    drop(instance);
    Some(())
}

/// Gives the size of the clause on the right side, its form with variables numbered anew, and its instance with 8 for 2.
pub fn put_tuple(trial: &mut Trial) -> Option<()> {
    let tuple = tuple_of_row(trial)?;
    trial.given.put_shown(&tuple.size());
    trial.given.put(": ");
    let put = put_numbered(trial, &tuple);
    drop(tuple);
    put
}

/// The bytes as a list of numbers, pushed one by one, with 1 and 5 behind.
fn ids_of(alloc: Global, bytes: &[u8]) -> Result<Ids, AllocError> {
    let mut ids = Ids::new(alloc);
    for byte in bytes {
        ids.push(u32::from(*byte))?;
    }
    ids.extend(&[1, 5])?;
    Ok(ids)
}

/// The bytes as a text, pushed one by one, with `bc` behind.
fn text_of(alloc: Global, bytes: &[u8]) -> Result<Text, AllocError> {
    let mut text = Text::new(alloc);
    for byte in bytes {
        text.push(*byte)?;
    }
    text.extend(b"bc")?;
    Ok(text)
}

fn put_kept(given: &mut Builder, ids: &Ids, text: &Text) {
    given.put_debug(&ids.as_slice());
    given.put(" ");
    given.put_shown(&text.len());
    given.put(" ");
    given.put_bytes(text.bytes());
    given.put(" ");
    given.put_shown(&(ids.get(ids.len()).is_some() || text.get(text.len()).is_some()));
}

/// Gives a list of the bytes of a text and a text of them: what they have, their lengths, and what is behind.
pub fn put_lists(trial: &mut Trial) -> Option<()> {
    let ids = ids_of(trial.alloc, trial.row.bytes(0)).ok()?;
    match text_of(trial.alloc, trial.row.bytes(0)) {
        Ok(text) => {
            put_kept(&mut trial.given, &ids, &text);
            drop(text);
            drop(ids);
            Some(())
        }
        Err(_) => {
            drop(ids);
            None
        }
    }
}

/// Gives what a unifier makes of a side, with variables numbered anew.
fn put_side(trial: &mut Trial, side: &Flat, unifier: &Subst) -> Result<(), AllocError> {
    let made = apply(trial.alloc, side, unifier)?;
    let numbered = canonical(trial.alloc, &made);
    drop(made);
    trial.put_made_term(numbered);
    Ok(())
}

/// Gives what a unifier makes of both sides.
fn put_sides(trial: &mut Trial, sides: &Sides, unifier: &Subst) -> Result<(), AllocError> {
    put_side(trial, &sides.left, unifier)?;
    trial.given.put(" and ");
    put_side(trial, &sides.right, unifier)
}

/// Gives what a most general unifier of the two sides makes of each, or none.
pub fn put_unified(trial: &mut Trial) -> Option<()> {
    let sides = trial.sides(0)?;
    let put = match mgu(trial.alloc, &sides.left, &sides.right) {
        Ok(Some(unifier)) => {
            let put = put_sides(trial, &sides, &unifier);
            drop(unifier);
            put.ok()
        }
        Ok(None) => {
            trial.given.put("none");
            Some(())
        }
        Err(_) => None,
    };
    drop(sides);
    put
}
