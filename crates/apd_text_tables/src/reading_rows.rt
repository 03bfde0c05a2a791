//! What `read_clause` gives, beside the plain reader.

ghost use Rattle.std.specs.Prelude.{◌≤◌, length, IsUtf8};
ghost use Rattle.apd_token.specs.Grammar.{HasTokens};
ghost use Rattle.apd_base.specs.declared.limits.TheConstants.{MAX_FILE};

use crate::drawn::Draw;
use crate::functional::put_functional;
use apd_base::MAX_FILE;
use apd_causes::{Read, ReadFault};
use apd_plain::reader::plain_read;
use apd_read::read_clause;
use apd_rows::{Builder, First, MOST_ROW_NAMES, Scene, Trial};
use apd_term::Flat;
use apd_token::{Tokens, tokens};
use std::alloc::Global;

/// The operators by which each text of a row is read by the plain reader too.
const COMPARED: [&str; 2] = ["standard", "other"];

/// How much is shown of a long term.
const SHOWN_BYTES: usize = 12;

/// Whether two readings give the same term or the same fault.
fn same_reading(read: &Result<Read, ReadFault>, plain: &Result<Flat, ReadFault>) -> bool {
    match (read, plain) {
        (Ok(read), Ok(plain)) => read.term.same(plain),
        (Err(fault), Err(plain)) => fault == plain,
        _ => false,
    }
}

/// Whether the two readings of a text that is divided into tokens give the same term or the same fault.
fn clauses_alike(alloc: Global, scene: &mut Scene, text: &[u8], tokens: &Tokens) -> bool
    requires small { length text.now ≤ MAX_FILE }
    requires utf8 { IsUtf8 text.now }
    requires tokens { HasTokens text.now tokens.now }
{
    let Scene { names, ops } = scene;
    if tokens.len() == 0 {
        return true;
    }
    if names.count() > MOST_ROW_NAMES {
        return false;
    }
    let read = read_clause(alloc, ops, names, text, tokens, 0);
    let plain = plain_read(alloc, ops, names, text, tokens);
    let same = same_reading(&read, &plain);
    // Dropped by calls, here and below: else each part is a step to check.
    drop(plain);
    drop(read);
    same
}

/// Whether the two readings of a text give the same term or the same fault. A text without tokens or
/// with a fault of tokens has neither.
fn reads_alike(alloc: Global, scene: &mut Scene, text: &[u8]) -> bool {
    if text.len() > MAX_FILE {
        return false;
    }
    match tokens(alloc, text) {
        Ok(tokens) => {
            let alike = clauses_alike(alloc, scene, text, &tokens);
            drop(tokens);
            alike
        }
        Err(_) => true,
    }
}

/// Whether a text is read alike by these operators.
fn reads_alike_by(alloc: Global, operators: &str, text: &[u8]) -> Option<bool> {
    let mut scene = Scene::new(alloc).ok()?;
    let alike = match scene.change(operators) {
        Some(()) => Some(reads_alike(alloc, &mut scene, text)),
        None => None,
    };
    drop(scene);
    alike
}

/// Gives the first clause of the row's text in functional notation, or its fault. The plain reader has to read the text alike,
/// by the standard operators and by the others.
pub fn put_reading(trial: &mut Trial) -> Option<()> {
    for operators in &COMPARED {
        if !reads_alike_by(trial.alloc, *operators, trial.row.bytes(1))? {
            trial.given.put("other than the plain reader: ");
        }
    }
    trial.change()?;
    match trial.scene.first(trial.alloc, trial.row.bytes(1)) {
        Ok(first) => {
            put_functional(&mut trial.given, &trial.scene.names, &first.read.term);
            drop(first);
        }
        Err(unread) => unread.put(&mut trial.given),
    }
    Some(())
}

/// The text of a row: its first part, and the text that five fields tell.
fn nested_text(trial: &Trial) -> Builder {
    let mut text = Builder::new(trial.alloc);
    text.put(trial.row.text(1));
    trial.row.put_repeated(2, &mut text);
    text
}

/// Adds the front of a clause's functional notation, and how many symbols it has.
fn put_front(given: &mut Builder, scene: &Scene, first: &First) {
    let term = &first.read.term;
    let mut whole = Builder::new(given.alloc);
    put_functional(&mut whole, &scene.names, term);
    let bytes = whole.bytes();
    given.put_bytes(bytes.get(..SHOWN_BYTES).unwrap_or(bytes));
    given.put(".. of ");
    given.put_shown(&term.size());
    given.put(" symbols");
}

/// Gives the front of the first clause of a text with a part that is repeated, and how many symbols it has; or its fault.
pub fn put_nested(trial: &mut Trial) -> Option<()> {
    trial.change()?;
    let text = nested_text(trial);
    let first = trial.scene.first(trial.alloc, text.bytes());
    drop(text);
    match first {
        Ok(first) => {
            put_front(&mut trial.given, &trial.scene, &first);
            drop(first);
        }
        Err(unread) => unread.put(&mut trial.given),
    }
    Some(())
}

/// Gives whether the plain reader reads a text with a part that is repeated alike.
pub fn put_nested_alike(trial: &mut Trial) -> Option<()> {
    trial.change()?;
    let text = nested_text(trial);
    let alike = reads_alike(trial.alloc, &mut trial.scene, text.bytes());
    drop(text);
    trial.given.put(if alike { "alike" } else { "other" });
    Some(())
}

/// Whether the plain reader reads a text alike; where it doesn't, the text is given.
fn is_alike(trial: &mut Trial, text: Builder) -> bool {
    let alike = reads_alike(trial.alloc, &mut trial.scene, text.bytes());
    if !alike {
        trial.given.put_bytes(text.bytes());
    }
    drop(text);
    alike
}

/// Whether a text and an item that are drawn from a seed are read alike.
fn drawn_alike(trial: &mut Trial, seed: u32) -> bool {
    let mut draw = Draw::new(u64::from(seed));
    let text = draw.text(trial.alloc);
    if !is_alike(trial, text) {
        return false;
    }
    let item = draw.item(trial.alloc);
    is_alike(trial, item)
}

/// Gives how many of the texts and items that are drawn, one from each seed, the plain reader reads alike; or the first that it
/// doesn't.
pub fn put_drawn(trial: &mut Trial) -> Option<()> {
    trial.change()?;
    let seeds = trial.row.number(1);
    for seed in 0..seeds {
        if !drawn_alike(trial, seed) {
            return Some(());
        }
    }
    trial.given.put_shown(&seeds.saturating_mul(2));
    trial.given.put(" texts alike");
    Some(())
}
