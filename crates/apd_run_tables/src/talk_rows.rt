//! The words of the command line, and lines that are heard and printed.

use apd_base::{Ids, Text};
use apd_console::{Console, Line};
use apd_io::{MemSink, MemSource};
use apd_ports::Filter;
use apd_rows::{BETWEEN, Builder, Row, Trial};
use apd_words::{Subject, Wanted, read_words};
use std::alloc::{AllocError, Global};
use std::str;

/// How many lines are heard of a text.
const HEARD: usize = 10;

/// The longest line whose bytes are shown.
const SHOWN: usize = 20;

/// The words of a list, and none where it has no text.
fn words_of(alloc: Global, list: &str) -> Result<Vec<String>, AllocError> {
    let mut words = Vec::new(alloc);
    if list.is_empty() {
        return Ok(words);
    }
    for word in list.split(BETWEEN) {
        let word = String::from_str(alloc, word)?;
        words.push(word)?;
    }
    Ok(words)
}

fn put_asked(given: &mut Builder, asked: &Wanted<'_>) {
    let ports = match asked.filter {
        Filter::Off => " off ",
        _ => " all ",
    };
    given.put_shown(&asked.budget);
    given.put(" ");
    given.put_shown(&asked.answers);
    given.put(ports);
    given.put_debug(&asked.strategy);
    given.put(" ");
    match asked.subject {
        Subject::File(name) => given.put(name),
        Subject::Tree(nodes) => {
            given.put("tree ");
            given.put_shown(&nodes);
        }
        Subject::Log { program, log } => {
            given.put(program);
            given.put(" logged ");
            given.put(log);
        }
    }
    if let Some(oracle) = asked.oracle {
        given.put(" by ");
        given.put(oracle);
    }
    if let Some(reference) = asked.reference {
        given.put(" right ");
        given.put(reference);
    }
}

/// Gives what words ask for.
fn put_words_of(trial: &mut Trial, words: &[String]) -> Option<()> {
    match read_words(trial.alloc, words).ok()? {
        Some(asked) => put_asked(&mut trial.given, &asked),
        None => trial.given.put("usage"),
    }
    Some(())
}

/// Gives what the row's words ask for: the most ports and answers, which ports are printed, the strategy, the program's file or
/// how many nodes the tree has, and a log, an oracle file and a reference program where there are such.
pub fn put_words(trial: &mut Trial) -> Option<()> {
    let words = words_of(trial.alloc, trial.row.text(0)).ok()?;
    let put = put_words_of(trial, words.as_slice());
    // Dropped by calls, here and below: else each part is a step to check.
    drop(words);
    put
}

/// Adds a line's length, and its bytes where they are few.
fn put_line(given: &mut Builder, line: &Line) {
    match line {
        Line::TooLong => given.put("too long"),
        Line::Text(text) if text.len() > SHOWN => {
            given.put_shown(&text.len());
            given.put(" bytes");
        }
        Line::Text(text) => given.put_debug(&str::from_utf8(text.bytes()).unwrap_or("not UTF-8")),
    }
    given.put("; ");
}

/// A source of the row's text, one of whose reads fails.
fn source_of(alloc: Global, row: &Row) -> Result<MemSource, AllocError> {
    let mut failing = Ids::new(alloc);
    failing.push(row.number(0))?;
    let mut text = Builder::new(alloc);
    row.put_repeated(1, &mut text);
    let text = Text::copy_of(alloc, text.bytes())?;
    Ok(MemSource::new(text, failing))
}

/// Adds the lines that are heard, and twice why there is no other.
fn put_lines(given: &mut Builder, console: &mut Console, source: &mut MemSource) {
    for _ in 0..HEARD {
        match console.line(source) {
            Ok(line) => put_line(given, &line),
            Err(end) => {
                given.put_debug(&end);
                given.put(", ");
                return given.put_debug(&console.line(source).err());
            }
        }
    }
}

/// Gives the lines that are heard of a text, and twice why there is no other; the read with this number fails.
pub fn put_heard(trial: &mut Trial) -> Option<()> {
    let mut source = source_of(trial.alloc, &trial.row).ok()?;
    match Console::new(trial.alloc) {
        Ok(mut console) => {
            put_lines(&mut trial.given, &mut console, &mut source);
            drop(console);
            drop(source);
            Some(())
        }
        Err(_) => {
            drop(source);
            None
        }
    }
}

/// Gives what a sink with so much room holds after these texts, and which of them weren't printed.
pub fn put_printed(trial: &mut Trial) -> Option<()> {
    let room = trial.row.number(0);
    let mut sink = MemSink::new(trial.alloc, room, Ids::new(trial.alloc)).ok()?;
    for text in trial.row.text(1).split(BETWEEN) {
        let fails = Console::print(&mut sink, text.as_bytes()).is_err();
        trial.given.put(if fails { "fault " } else { "printed " });
    }
    trial.given.put_bytes(sink.held());
    drop(sink);
    Some(())
}
