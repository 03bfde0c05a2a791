//! The built-in goals.

ghost use Rattle.std.specs.Prelude.{◌≡◌};
ghost use Rattle.apd_arith.specs.Builtins.{builtin_of, builtin_of_atom};

use apd_term::standard::{
    DIFFERENT, EQUAL, FAIL, GREATER, GREATER_EQUAL, IS, LESS, LESS_EQUAL, TRUE, UNIFY,
};
use apd_term::{Flat, Pred};

/// A built-in goal.
#[derive(Clone, Copy, PartialEq, Eq, Debug)]
pub enum Builtin {
    /// `true/0`.
    True,
    /// `fail/0`.
    Fail,
    /// `=/2`: the two terms unify.
    Unify,
    /// `is/2`: the first term unifies with the value of the second.
    Is,
    /// `=:=/2`: the two values are equal.
    Equal,
    /// `=\=/2`: the two values are different.
    Different,
    /// `</2`: the first value is less.
    Less,
    /// `=</2`: the first value is less or equal.
    LessEqual,
    /// `>/2`: the first value is greater.
    Greater,
    /// `>=/2`: the first value is greater or equal.
    GreaterEqual,
}

impl Builtin {
    /// The built-in goal of a predicate, if it has one.
    pub fn of(pred: Pred) -> Option<Builtin>
        ensures { result ≡ builtin_of pred }
    {
        match (pred.name, pred.arity) {
            (TRUE, 0) => Some(Builtin::True),
            (FAIL, 0) => Some(Builtin::Fail),
            (UNIFY, 2) => Some(Builtin::Unify),
            (IS, 2) => Some(Builtin::Is),
            (EQUAL, 2) => Some(Builtin::Equal),
            (DIFFERENT, 2) => Some(Builtin::Different),
            (LESS, 2) => Some(Builtin::Less),
            (LESS_EQUAL, 2) => Some(Builtin::LessEqual),
            (GREATER, 2) => Some(Builtin::Greater),
            (GREATER_EQUAL, 2) => Some(Builtin::GreaterEqual),
            _ => None,
        }
    }

    /// The built-in goal of an atom, if it has one.
    pub fn of_atom(atom: &Flat) -> Option<Builtin>
        ensures { result ≡ builtin_of_atom atom.now }
    {
        Builtin::of(atom.pred()?)
    }
}
