//! The check of a log, line by line.

ghost use Rattle.std.specs.Prelude.{◌≡◌, ◌≤◌, IfOk, false, length};
ghost use Rattle.apd_base.specs.declared.limits.TheConstants.{MAX_FILE};
ghost use Rattle.apd_console.specs.Lines.{lines_of};
ghost use Rattle.apd_read.specs.Reader.{Reader};
ghost use Rattle.apd_term.specs.Growth.{Grown};
ghost use Rattle.apd_talk.specs.Speech.{Lasting, with_names};
ghost use Rattle.apd_check.specs.Checked.{IsCheckOf, IsChecked};
ghost use Rattle.apd_claims.specs.Saying.{said_from};
ghost use Rattle.apd_check.specs.Steps.{IsKept, KnowsDescent};
ghost use Rattle.apd_claims.specs.Texts.{KeepsFew};

use crate::checked::Checked;
use crate::course::LogCourse;
use crate::lines::take_line;
use crate::source::Source;
use apd_answers::Answers;
use apd_base::Text;
use apd_claims::{LogLine, goes_on};
use apd_clauses::Program;
use apd_io::Sink;
use apd_ops::Ops;
use apd_parts::first_line;
use apd_talk::Voice;
use apd_term::names::Names;
use apd_text::Log;
use std::alloc::{AllocError, Global};

/// Checks the lines of a text, of which the first has number 1.
fn check_lines(
    alloc: Global,
    source: &Source<'_>,
    names: &mut Names,
    course: &mut LogCourse,
    text: &[u8],
) -> Result<Checked, AllocError>
    requires size { length text.now ≤ MAX_FILE }
    requires kept { IsKept course.old.state }
    requires known { KnowsDescent source.now.program.now course.old.state course.old.descent }
    ensures names { Grown names.old names.new }
    ensures few { KeepsFew names.old names.new }
    ensures checked { IfOk result (λ r. Lasting names.new (λ n. (reader : Reader n) →
        IsChecked source.now.program.now course.old.state 0
        (said_from reader source.now.ops.now false 1 (lines_of text.now)) r)) }
{
    let mut rest = text;
    let mut number: u32 = 1;
    let mut found: u32 = 0;
    let mut in_group = false;
    'lines: while let Some(first) = first_line(rest) {
        let place = LogLine {
            line: first.line,
            rest: first.rest,
            in_group,
        };
        let taken = take_line(alloc, source, names, course, &place)?;
        if let Some(why) = taken.why {
            return Ok(Checked::Fails { line: number, why });
        }
        found += taken.found;
        number += 1;
        in_group = goes_on(in_group, first.line);
        rest = first.rest;
    }
    Ok(Checked::Holds(found))
}

/// Checks the text of a log that was written for a program, by the operators that the program leaves: each run is made again, and
/// each finding decided by the replies in the log and by what is known beforehand. The text has at most 1,048,576 bytes.
///
/// # Errors
///
/// Where there was no memory, or no room for as many names as the text may have, of which 9,437,184 are; then, too, the names have
/// only grown, and up to that many stay so.
pub fn check(
    alloc: Global,
    program: &Program,
    ops: &Ops,
    names: &mut Names,
    known: Answers,
    text: &[u8],
) -> Result<Checked, AllocError>
    requires { length text.now ≤ MAX_FILE }
    ensures names { Grown names.old names.new }
    ensures few { KeepsFew names.old names.new }
    ensures checked { IfOk result (λ r. Lasting names.new (λ n. (reader : Reader n) →
        IsCheckOf program.now ops.now reader known text.now r)) }
{
    let mut course = LogCourse::first(alloc, known)?;
    let source = Source { program, ops };
    let checked = check_lines(alloc, &source, names, &mut course, text);
    drop(course);
    checked
}

/// What the check of a text finds, by the operators of a log, which gets its names.
fn check_in(
    alloc: Global,
    program: &Program,
    known: Answers,
    text: &Text,
    log: &mut Log,
) -> Result<Checked, AllocError>
    requires { length text.now ≤ MAX_FILE }
    ensures names { Grown log.old.names log.new.names }
    ensures few { KeepsFew log.old.names log.new.names }
    ensures checked { IfOk result (λ r. Lasting log.new.names (λ n. (reader : Reader n) →
        IsCheckOf program.now log.old.ops reader known text.now r)) }
    ensures ops { log.new.ops ≡ log.old.ops }
    ensures entries { log.new.entries ≡ log.old.entries }
{
    check(
        alloc,
        program,
        &log.ops,
        &mut log.names,
        known,
        text.bytes(),
    )
}

/// What the check of a text finds, as [`check`] does it, by the operators that things are said with; nothing is said.
///
/// # Errors
///
/// As of [`check`].
pub fn check_for<K: Sink>(
    program: &Program,
    known: Answers,
    text: &Text,
    voice: &mut Voice<K>,
) -> Result<Checked, AllocError>
    requires { length text.now ≤ MAX_FILE }
    ensures names { Grown voice.old.log.names voice.new.log.names }
    ensures few { KeepsFew voice.old.log.names voice.new.log.names }
    ensures checked { IfOk result (λ r. Lasting voice.new.log.names (λ n. (reader : Reader n) →
        IsCheckOf program.now voice.old.log.ops reader known text.now r)) }
    ensures stays { voice.new ≡ with_names voice.old voice.new.log.names }
{
    check_in(voice.alloc, program, known, text, voice.log)
}
