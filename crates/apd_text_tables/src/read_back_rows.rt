//! Terms that are written and read back.

use crate::drawn::{Draw, FUNCTIONS};
use crate::spelled::{arity_of, function, spelled, symbol_of, symbols_of};
use apd_rows::{Builder, Trial};
use apd_term::{Flat, Sym};
use std::alloc::{AllocError, Global};
use std::str;

/// How many bytes ASCII has.
const ASCII: u32 = 128;

/// The symbols that are drawn of a term, before those that it then needs.
const DRAWN_SYMBOLS: usize = 14;

/// Whether a text is one clause, reads as the term, and brings no name.
fn is_text_of(trial: &mut Trial, text: &[u8], term: &Flat) -> bool {
    let before = trial.scene.names.count();
    let reads = match trial.scene.first(trial.alloc, text) {
        Ok(first) => {
            let same = first.alone && first.read.term.same(term);
            // Dropped by calls, here and below: else each part is a step to check.
            drop(first);
            same
        }
        Err(_) => false,
    };
    reads && trial.scene.names.count() == before
}

/// Writes the term, and counts it where its text reads as it; any other text is given.
fn try_term(trial: &mut Trial, same: &mut u32, term: &Flat) {
    let mut text = Builder::new(trial.alloc);
    text.put_term(&trial.scene, term);
    text.put(" .");
    if is_text_of(trial, text.bytes(), term) {
        *same = same.saturating_add(1);
    } else {
        trial.given.put_bytes(text.bytes());
    }
    drop(text);
}

/// The term that the symbols spell.
fn try_symbols(trial: &mut Trial, same: &mut u32, symbols: &[Sym]) -> Option<()> {
    let term = spelled(trial.alloc, symbols)?;
    try_term(trial, same, &term);
    drop(term);
    Some(())
}

/// The function's term, with these symbols at one place and the atom at the others.
fn around(
    alloc: Global,
    atom: Sym,
    function: Sym,
    place: u8,
    inner: &[Sym],
) -> Result<Vec<Sym>, AllocError> {
    let mut symbols = Vec::new(alloc);
    symbols.push(function)?;
    for other in 0..arity_of(function) {
        if other == place {
            symbols.extend_from_slice(inner)?;
        } else {
            symbols.push(atom)?;
        }
    }
    Ok(symbols)
}

/// The symbols, so many times.
fn repeated(alloc: Global, symbols: &[Sym], count: u32) -> Result<Vec<Sym>, AllocError> {
    let mut out = Vec::new(alloc);
    for _ in 0..count {
        out.extend_from_slice(symbols)?;
    }
    Ok(out)
}

/// The symbols of which the first ones stand so many times, the next one once, and the others so many times; none where there is
/// no next one.
fn unfolded(
    alloc: Global,
    symbols: &[Sym],
    fronts: u32,
    count: u32,
) -> Result<Vec<Sym>, AllocError> {
    let Some((front, [middle, back @ ..])) = symbols.split_at_checked(fronts as usize) else {
        return Ok(Vec::new(alloc));
    };
    let mut whole = repeated(alloc, front, count)?;
    whole.push(*middle)?;
    whole.extend_from_slice(repeated(alloc, back, count)?.as_slice())?;
    Ok(whole)
}

/// The row's term, with a count, and how many of its symbols stand so many times before the next one.
fn try_unfolded(trial: &mut Trial, same: &mut u32) -> Option<()> {
    let symbols = symbols_of(trial.alloc, &mut trial.scene, trial.row.given(3))?;
    let (fronts, count) = (trial.row.number(2), trial.row.number(1));
    let whole = unfolded(trial.alloc, symbols.as_slice(), fronts, count).ok();
    drop(symbols);
    let whole = whole?;
    let tried = try_symbols(trial, same, whole.as_slice());
    drop(whole);
    tried
}

/// The symbols in each place of the function, with the atom at the others.
fn try_places(
    trial: &mut Trial,
    same: &mut u32,
    atom: Sym,
    function: Sym,
    inner: &[Sym],
) -> Option<()> {
    for place in 0..arity_of(function) {
        let symbols = around(trial.alloc, atom, function, place, inner).ok()?;
        let tried = try_symbols(trial, same, symbols.as_slice());
        drop(symbols);
        tried?;
    }
    Some(())
}

/// The symbols alone, and in each place of each function.
fn try_everywhere(trial: &mut Trial, same: &mut u32, symbols: &[Sym]) -> Option<()> {
    let atom = function(&mut trial.scene, "a", 0)?;
    try_symbols(trial, same, symbols)?;
    for word in &FUNCTIONS {
        let function = symbol_of(&mut trial.scene, *word)?;
        try_places(trial, same, atom, function, symbols)?;
    }
    Some(())
}

/// The row's term alone, and in each place of each function.
fn try_row_everywhere(trial: &mut Trial, same: &mut u32) -> Option<()> {
    let symbols = symbols_of(trial.alloc, &mut trial.scene, trial.row.given(1))?;
    let tried = try_everywhere(trial, same, symbols.as_slice());
    drop(symbols);
    tried
}

/// The name alone, and before itself as its argument.
fn try_name(trial: &mut Trial, same: &mut u32, name: &str) -> Option<()> {
    let atom = function(&mut trial.scene, name, 0)?;
    let compound = function(&mut trial.scene, name, 1)?;
    try_symbols(trial, same, &[atom])?;
    try_symbols(trial, same, &[compound, atom])
}

/// The name of a number: two bytes of ASCII, or one.
fn try_pair(trial: &mut Trial, same: &mut u32, pair: u32) -> Option<()> {
    let first = u8::try_from(pair / (ASCII + 1)).unwrap_or(0);
    let second = u8::try_from(pair % (ASCII + 1)).unwrap_or(0);
    let bytes = [first, second];
    let length = if u32::from(second) < ASCII { 2 } else { 1 };
    let name = bytes.get(..length).unwrap_or(&[]);
    try_name(trial, same, str::from_utf8(name).unwrap_or("?"))
}

/// Each name of one and of two bytes of ASCII, alone and before itself.
fn try_names(trial: &mut Trial, same: &mut u32) -> Option<()> {
    for pair in 0..ASCII * (ASCII + 1) {
        try_pair(trial, same, pair)?;
    }
    Some(())
}

/// The terms that are drawn, one from each seed below the row's.
fn try_drawn(trial: &mut Trial, same: &mut u32) -> Option<()> {
    for seed in 0..trial.row.number(1) {
        let mut draw = Draw::new(u64::from(seed));
        let symbols = draw.term(trial.alloc, &mut trial.scene, DRAWN_SYMBOLS)?;
        let tried = try_symbols(trial, same, symbols.as_slice());
        drop(symbols);
        tried?;
    }
    Some(())
}

/// The terms of a row of the table of this name.
fn try_row(name: &str, trial: &mut Trial, same: &mut u32) -> Option<()> {
    match name {
        "read_back" => try_unfolded(trial, same),
        "read_back_everywhere" => try_row_everywhere(trial, same),
        "read_back_names" => try_names(trial, same),
        "read_back_drawn" => try_drawn(trial, same),
        _ => None,
    }
}

/// Gives how many terms of a row read back where all do, else the texts of those that don't. The table's name says which terms
/// they are: the row's, that and it in each place of each function, those of all short names, or those that are drawn.
pub fn put_read_back(name: &str, trial: &mut Trial) -> Option<()> {
    let mut same = 0u32;
    trial.change()?;
    try_row(name, trial, &mut same)?;
    if trial.given.bytes().is_empty() {
        trial.given.put_shown(&same);
        trial.given.put(" read back");
    }
    Some(())
}
