//! Tries whole sessions over memory: the cases of the files that an index names.
//!
//! `cases.rt` says what a file of cases has.
#![tactic(auto)]

mod blocks;
mod case;
mod cases;
mod fault;
mod played;
mod turns;

use crate::case::Case;
use crate::cases::cases_of;
use crate::played::{Ended, Played, play};
use apd_base::Text;
use apd_io::Files;
pub use fault::CaseFault;
use std::alloc::Global;
use std::io;

/// How many cases were tried, and how many differed.
#[derive(Clone, Copy)]
struct Counts {
    tried: u32,
    differ: u32,
}

/// The number of the first line where the texts differ, from 1.
fn first_difference(text: &[u8], other: &[u8]) -> u32 {
    let mut line: u32 = 1;
    for (byte, wanted) in text.iter().zip(other.iter()) {
        if byte != wanted {
            return line;
        }
        if *byte == b'\n' {
            line = line.saturating_add(1);
        }
    }
    line
}

/// Says where the session of a case ended otherwise than it is to; whether it did.
fn compare(rt: &impl Print, case: &Case, played: &Played) -> Result<bool, CaseFault> {
    let name = case.name.as_str();
    let wanted = case.status;
    let Ended { status, last } = &played.ended;
    let status = *status;
    let other_status = status != wanted;
    if other_status {
        say(println!(rt; "{name}: status {status}, wanted {wanted}"))?;
    }
    let other_output = played.output.bytes() != case.output.bytes();
    if other_output {
        let line = first_difference(played.output.bytes(), case.output.bytes());
        say(println!(rt; "{name}: line {line} of the output differs"))?;
    }
    let other_last = case
        .last
        .as_ref()
        .is_some_and(|text| text.bytes() != last.bytes());
    if other_last {
        say(println!(rt; "{name}: the log's last entry differs"))?;
    }
    Ok(other_status || other_output || other_last)
}

/// Tries a case, says where it differs, and tells whether it does.
fn try_case(rt: &impl Print, alloc: Global, case: &Case) -> Result<bool, CaseFault> {
    let played = play(alloc, case)?;
    let differs = compare(rt, case, &played);
    drop(played);
    differs
}

/// A print that failed is a fault of the files.
fn say(printed: io::Result<()>) -> Result<(), CaseFault> {
    match printed {
        Ok(()) => Ok(()),
        Err(_) => Err(CaseFault::File),
    }
}

fn load<F: Files>(alloc: Global, files: &mut F, name: &str) -> Result<Text, CaseFault> {
    match files.load(alloc, name) {
        Ok(text) => Ok(text),
        Err(_) => Err(CaseFault::File),
    }
}

fn text_of(text: &Text) -> Result<&str, CaseFault> {
    match str::from_utf8(text.bytes()) {
        Ok(text) => Ok(text),
        Err(_) => Err(CaseFault::File),
    }
}

/// Tries cases.
fn try_cases(
    rt: &impl Print,
    alloc: Global,
    cases: &[Case],
    counts: &mut Counts,
) -> Result<(), CaseFault> {
    for case in cases {
        counts.tried = counts.tried.saturating_add(1);
        if try_case(rt, alloc, case)? {
            counts.differ = counts.differ.saturating_add(1);
        }
    }
    Ok(())
}

/// Tries the cases of a file.
fn try_file<F: Files>(
    rt: &impl Print,
    alloc: Global,
    files: &mut F,
    name: &str,
    counts: &mut Counts,
) -> Result<(), CaseFault> {
    let text = load(alloc, files, name)?;
    let cases = cases_of(alloc, text_of(&text)?)?;
    let tried = try_cases(rt, alloc, cases.as_slice(), counts);
    drop(cases);
    tried
}

/// Tries the cases of the files whose names are the lines of a text.
fn try_files<F: Files>(
    rt: &impl Print,
    alloc: Global,
    files: &mut F,
    names: &str,
    counts: &mut Counts,
) -> Result<(), CaseFault> {
    for name in names.lines() {
        if let Err(fault) = try_file(rt, alloc, files, name, counts) {
            say(println!(rt; "{name}: {fault}"))?;
            return Err(fault);
        }
    }
    Ok(())
}

/// Tries the cases of the files that an index names, one in each line. Prints a line for each case whose session ends otherwise
/// than it is to, and then how many cases there are; whether none differs.
///
/// # Errors
///
/// Where a file can't be had or has a line that no case has, nothing can be written, or there is no memory.
pub fn play_all<F: Files>(
    rt: &impl Print,
    alloc: Global,
    files: &mut F,
    index: &str,
) -> Result<bool, CaseFault> {
    let mut counts = Counts {
        tried: 0,
        differ: 0,
    };
    let names = load(alloc, files, index)?;
    try_files(rt, alloc, files, text_of(&names)?, &mut counts)?;
    let Counts { tried, differ } = counts;
    say(println!(rt; "{tried} cases, {differ} differ"))?;
    Ok(differ == 0)
}
