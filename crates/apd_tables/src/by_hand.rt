//! The diagnoses of records that are made by hand.

use apd_by_hand::{finds_the_fact, insertion_sort};
use apd_io::Files;
use std::alloc::Global;
use std::{io, str};

/// What is said of the diagnosis of the record of two clauses.
fn two_clauses(alloc: Global) -> &'static str {
    match finds_the_fact(alloc) {
        Some(true) => "by hand: the reply no finds the wrong fact",
        Some(false) => "by hand: another finding",
        None => "by hand: no finding",
    }
}

/// Prints what the diagnoses of both records find, and the dialogue about the insertion sort.
pub fn print_by_hand(rt: &impl Print, alloc: Global, files: &mut impl Files) -> io::Result<()> {
    println!(rt; "{}", two_clauses(alloc))?;
    let Some(text) = insertion_sort(alloc, files) else {
        return println!(rt; "by hand: no dialogue");
    };
    let Ok(said) = str::from_utf8(text.bytes()) else {
        return println!(rt; "by hand: no text");
    };
    print!(rt; "{said}")
}
