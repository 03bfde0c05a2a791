//! The session of a case.

ghost use Rattle.std.specs.Prelude.{◌≡◌, []};
ghost use Rattle.apd_ops.specs.Standard.{standard_table};
ghost use Rattle.apd_term.specs.StandardNames.{standard_names};

use crate::case::{Case, Passing};
use crate::turns::{CountedSink, LineSource, transcript};
use apd_base::{Ids, Text};
use apd_io::{MemFiles, MemSink, MemSource, Sink, Source};
use apd_session::{Log, Untold, session};
use apd_text::text_of;
use std::alloc::{AllocError, Global};
use std::cell::Cell;

/// How a session ended, and what was said.
#[derive(Drop)]
pub struct Played {
    pub ended: Ended,
    pub output: Text,
}

/// The status of a session, and the text of its log's last entry, which is none for a run and for no entry.
#[derive(Drop)]
pub struct Ended {
    pub status: u8,
    pub last: Text,
}

/// The number of the one call that fails, or none.
fn only(alloc: Global, number: u32) -> Result<Ids, AllocError> {
    let mut ids = Ids::new(alloc);
    if number > 0 {
        ids.push(number)?;
    }
    Ok(ids)
}

/// The words with the program's own name before them.
fn words_of(alloc: Global, case: &Case) -> Result<Vec<String>, AllocError> {
    let mut words = Vec::new(alloc);
    let own_name = String::from_str(alloc, "apd")?;
    words.push(own_name)?;
    for word in &case.words {
        let word = word.clone()?;
        words.push(word)?;
    }
    Ok(words)
}

/// Puts the files of a case among those in memory.
fn put_files(alloc: Global, case: &Case, files: &mut MemFiles) -> Result<(), AllocError> {
    for file in &case.files {
        let content = Text::copy_of(alloc, file.content.bytes())?;
        files.add(file.name.as_str(), content)?;
    }
    Ok(())
}

/// The files of a case in memory.
fn files_of(alloc: Global, case: &Case) -> Result<MemFiles, AllocError> {
    let failing = only(alloc, case.failing.load)?;
    let mut files = MemFiles::new(alloc, failing);
    match put_files(alloc, case, &mut files) {
        Ok(()) => Ok(files),
        Err(fault) => {
            // Dropped by a call, here and below: else each part is a step to check.
            drop(files);
            Err(fault)
        }
    }
}

/// The input of a case in memory.
fn source_of(alloc: Global, case: &Case) -> Result<MemSource, AllocError> {
    let bytes = Text::copy_of(alloc, case.input.bytes())?;
    let failing = only(alloc, case.failing.read)?;
    match case.passing {
        Passing::Pieces(most) if most > 0 => Ok(MemSource::in_pieces(bytes, failing, most)),
        _ => Ok(MemSource::new(bytes, failing)),
    }
}

/// The output of a case in memory.
fn sink_of(alloc: Global, case: &Case) -> Result<MemSink, AllocError> {
    let failing = only(alloc, case.failing.write)?;
    match case.passing {
        Passing::Pieces(most) if most > 0 => MemSink::in_pieces(alloc, case.room, failing, most),
        _ => MemSink::new(alloc, case.room, failing),
    }
}

fn last_text(alloc: Global, log: &Log) -> Result<Text, AllocError> {
    let mut text = Text::new(alloc);
    let count = log.entries.len();
    if count > 0 {
        let last = log.entries.entry(count - 1);
        text_of(alloc, last, &log.names, &log.ops, &mut text)?;
    }
    Ok(text)
}

/// The status of the session of a case over an input and an output.
fn status_of<S: Source, K: Sink>(
    alloc: Global,
    case: &Case,
    input: &mut S,
    out: &mut K,
    log: &mut Log,
) -> Result<u8, AllocError>
    requires empty { log.old.entries.list ≡ [] }
    requires names { log.old.names ≡ standard_names }
    requires ops { log.old.ops ≡ standard_table }
{
    let words = words_of(alloc, case)?;
    let mut files = files_of(alloc, case)?;
    let status = session(
        alloc,
        &Untold,
        words.as_slice(),
        &mut files,
        input,
        out,
        log,
    );
    drop(files);
    Ok(status.number())
}

/// How the session of a case ends with a log that was empty.
fn logged<S: Source, K: Sink>(
    alloc: Global,
    case: &Case,
    input: &mut S,
    out: &mut K,
    log: &mut Log,
) -> Result<Ended, AllocError>
    requires empty { log.old.entries.list ≡ [] }
    requires names { log.old.names ≡ standard_names }
    requires ops { log.old.ops ≡ standard_table }
{
    let status = status_of(alloc, case, input, out, log)?;
    let last = last_text(alloc, log)?;
    Ok(Ended { status, last })
}

/// How the session of a case ends over an input and an output.
fn end_of<S: Source, K: Sink>(
    alloc: Global,
    case: &Case,
    input: &mut S,
    out: &mut K,
) -> Result<Ended, AllocError> {
    let mut log = Log::new(alloc)?;
    let ended = logged(alloc, case, input, out, &mut log);
    drop(log);
    ended
}

/// The session over an input and an output in memory.
fn play_over(
    alloc: Global,
    case: &Case,
    input: &mut MemSource,
    out: &mut MemSink,
) -> Result<Played, AllocError> {
    let ended = end_of(alloc, case, input, out)?;
    let output = Text::copy_of(alloc, out.held())?;
    Ok(Played { ended, output })
}

/// The same, with that input and output.
fn play_whole(alloc: Global, case: &Case) -> Result<Played, AllocError> {
    let mut input = source_of(alloc, case)?;
    match sink_of(alloc, case) {
        Ok(mut out) => {
            let played = play_over(alloc, case, &mut input, &mut out);
            drop(out);
            drop(input);
            played
        }
        Err(fault) => {
            drop(input);
            Err(fault)
        }
    }
}

/// The session over an input that is read line by line, with what was said before each read.
fn play_turns(
    alloc: Global,
    case: &Case,
    input: &mut LineSource<'_>,
    out: &mut CountedSink<'_>,
) -> Result<Played, AllocError> {
    let ended = end_of(alloc, case, input, out)?;
    let output = transcript(alloc, input.turns(), case.input.bytes(), out.text())?;
    Ok(Played { ended, output })
}

/// The same, with where the written bytes are counted.
fn play_lines(alloc: Global, case: &Case) -> Result<Played, AllocError> {
    let written = Cell::new(0);
    let mut input = LineSource::new(alloc, case.input.bytes(), &written);
    let mut out = CountedSink::new(alloc, &written);
    let played = play_turns(alloc, case, &mut input, &mut out);
    drop(out);
    drop(input);
    played
}

/// The session of a case.
pub fn play(alloc: Global, case: &Case) -> Result<Played, AllocError> {
    match case.passing {
        Passing::Lines => play_lines(alloc, case),
        Passing::Whole | Passing::Pieces(_) => play_whole(alloc, case),
    }
}
