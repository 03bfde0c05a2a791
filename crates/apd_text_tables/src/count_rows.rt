//! How much a text reads as: for a table, and for the measurement of times.

ghost use Rattle.std.specs.Prelude.{◌≤◌, ◌<◌, length, IsUtf8};
ghost use Rattle.apd_token.specs.Grammar.{HasTokens};
ghost use Rattle.apd_base.specs.declared.limits.TheConstants.{MAX_FILE};

use apd_base::MAX_FILE;
use apd_causes::{Read, ReadFault};
use apd_read::read_clause;
use apd_rows::{Builder, Scene, Trial};
use apd_token::{Tokens, tokens};
use std::alloc::{AllocError, Global};

/// More names than a text of the greatest length can bring.
const MOST_NAMES_OF_ALL: usize = 2_000_000;

/// How much was read.
#[derive(Clone, Copy)]
struct Counts {
    tokens: usize,
    clauses: u64,
    /// The symbols of all terms.
    symbols: u64,
    /// 1 where a fault ended the reading.
    faults: u64,
}

/// Nothing was read.
const NOTHING: Counts = Counts {
    tokens: 0,
    clauses: 0,
    symbols: 0,
    faults: 0,
};

impl Counts {
    /// The place behind a clause, which is counted.
    fn note(&mut self, read: &Read) -> usize {
        self.clauses = self.clauses.saturating_add(1);
        self.symbols = self.symbols.saturating_add(read.term.size());
        read.next
    }
}

/// Reads the clause that begins at a token; the place behind it, and none at a fault.
fn read_at(
    alloc: Global,
    scene: &mut Scene,
    text: &[u8],
    tokens: &Tokens,
    at: usize,
) -> Result<Read, ReadFault>
    requires small { length text.now ≤ MAX_FILE }
    requires utf8 { IsUtf8 text.now }
    requires tokens { HasTokens text.now tokens.now }
    requires within { at < length tokens.now }
{
    let Scene { names, ops } = scene;
    if names.count() > MOST_NAMES_OF_ALL {
        return Err(ReadFault::Memory);
    }
    read_clause(alloc, ops, names, text, tokens, at)
}

/// Counts the clauses of the tokens, up to the first fault.
fn count_clauses(alloc: Global, scene: &mut Scene, text: &[u8], tokens: &Tokens) -> Counts
    requires small { length text.now ≤ MAX_FILE }
    requires utf8 { IsUtf8 text.now }
    requires tokens { HasTokens text.now tokens.now }
{
    let mut counts = NOTHING;
    counts.tokens = tokens.len();
    let mut at = 0;
    for _clause in 0..tokens.len() {
        if at >= tokens.len() {
            break;
        }
        match read_at(alloc, scene, text, tokens, at) {
            Ok(read) => {
                at = counts.note(&read);
                // Dropped by a call, here and below: else each part is a step to check.
                drop(read);
            }
            Err(_) => {
                counts.faults = 1;
                break;
            }
        }
    }
    counts
}

/// Reads the clauses of the text one after the other, with the standard operators, up to the first fault.
fn read_all(alloc: Global, text: &[u8]) -> Result<Counts, AllocError> {
    let mut counts = NOTHING;
    counts.faults = 1;
    if text.len() > MAX_FILE {
        return Ok(counts);
    }
    let mut scene = Scene::new(alloc)?;
    if let Ok(tokens) = tokens(alloc, text) {
        counts = count_clauses(alloc, &mut scene, text, &tokens);
        drop(tokens);
    }
    drop(scene);
    Ok(counts)
}

/// Adds how many tokens, clauses, symbols and faults a text has, of which each time but the last was read for its time.
pub fn put_counts(text: &[u8], times: u32, given: &mut Builder) {
    let alloc = given.alloc;
    let mut last = NOTHING;
    for _ in 0..times {
        match read_all(alloc, text) {
            Ok(counts) => last = counts,
            Err(_) => return given.put("out of memory"),
        }
    }
    let Counts {
        tokens,
        clauses,
        symbols,
        faults,
    } = last;
    given.put_made(format!(in alloc; "{tokens} tokens, {clauses} clauses, "));
    given.put_made(format!(in alloc; "{symbols} symbols, {faults} faults"));
}

/// Gives what the row's text is read as.
pub fn put_counts_of_row(trial: &mut Trial) -> Option<()> {
    put_counts(trial.row.bytes(0), 1, &mut trial.given);
    Some(())
}
