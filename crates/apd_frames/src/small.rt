//! Of which clauses it is noted that their variables have small numbers.

use apd_clauses::small::has_small_variables;
use apd_term::Tuple;

/// Of clauses with numbers below this one it is noted that their variables have small numbers. A run notes it anew, and may
/// be short: so there are few.
const MOST_NOTED: u32 = 1_024;

/// Notes that the variables of the clause with this number have small numbers, where there is memory for that.
fn note_small(small: &mut Vec<bool>, clause: u32) {
    if clause >= MOST_NOTED {
        return;
    }
    let place = clause as usize;
    'room: while small.len() <= place {
        match small.push(false) {
            Ok(()) => {}
            Err(_) => return,
        }
    }
    small[place] = true;
}

/// Whether each variable of the clause with this number has a small number; that it has is noted.
pub fn is_small(small: &mut Vec<bool>, clause: u32, rule: &Tuple) -> bool {
    let is_noted = match small.get(clause as usize) {
        Some(noted) => *noted,
        None => false,
    };
    if is_noted {
        return true;
    }
    if !has_small_variables(rule) {
        return false;
    }
    note_small(small, clause);
    true
}
