//! What `write_term` and `write_name` give.

use crate::spelled::{spelled, symbols_of};
use apd_base::Text;
use apd_rows::{Builder, Scene, Trial};
use apd_term::Flat;
use apd_write::{write_name, write_term};

/// What stands before each text that is written.
const BEFORE: &[u8; 4] = b"X = ";

/// Adds what was written behind the text that stood there.
fn put_appended(given: &mut Builder, text: &Text) {
    match text.bytes().strip_prefix(BEFORE) {
        Some(written) => given.put_bytes(written),
        None => given.put("?"),
    }
}

/// Gives the text of a term for a place of a priority.
fn put_written(trial: &mut Trial, term: &Flat, max: u16) -> Option<()> {
    let mut text = Text::copy_of(trial.alloc, BEFORE).ok()?;
    let Scene { names, ops } = &*trial.scene;
    let written = write_term(trial.alloc, ops, names, term, max, &mut text);
    if written.is_ok() {
        put_appended(&mut trial.given, &text);
    }
    // Dropped by calls, here and below: else each part is a step to check.
    drop(text);
    written.ok()
}

/// The term that the fields of a row spell, from a place on.
fn spelled_at(trial: &mut Trial, from: usize) -> Option<Flat> {
    let symbols = symbols_of(trial.alloc, &mut trial.scene, trial.row.given(from))?;
    spelled(trial.alloc, symbols.as_slice())
}

/// Gives the text of the row's term for a place of the row's priority.
pub fn put_text(trial: &mut Trial) -> Option<()> {
    trial.change()?;
    let max = u16::try_from(trial.row.number(1)).unwrap_or(0);
    let term = spelled_at(trial, 2)?;
    let put = put_written(trial, &term, max);
    drop(term);
    put
}

/// Gives the text of the row's name by itself.
pub fn put_name(trial: &mut Trial) -> Option<()> {
    let mut text = Text::copy_of(trial.alloc, BEFORE).ok()?;
    write_name(trial.alloc, trial.row.bytes(0), &mut text).ok()?;
    put_appended(&mut trial.given, &text);
    Some(())
}
