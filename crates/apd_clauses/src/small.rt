//! Clauses whose variables have small numbers: an instance of such a clause needs no other numbers.

use apd_term::{Flat, Sym, Tuple};

/// Numbers up to this one are small. What stands for a clause's variables takes room for all numbers up to the greatest.
const MOST: u64 = 255;

/// Whether each variable of the term has a small number.
fn are_small(term: &Flat) -> bool {
    for symbol in term.symbols() {
        if let Sym::Var(v) = symbol {
            if *v > MOST {
                return false;
            }
        }
    }
    true
}

/// Whether each variable of the clause has a small number. No contract asks for it: by great numbers an instance is as
/// right, but may take much memory.
pub fn has_small_variables(rule: &Tuple) -> bool {
    for atom in rule.body.as_slice() {
        if !are_small(atom) {
            return false;
        }
    }
    are_small(&rule.head)
}
