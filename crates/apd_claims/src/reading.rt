//! What a text reads as, which is all of one clause.

ghost use Rattle.std.specs.Prelude.{◌≡◌, length, IfOk, IfSome};
ghost use Rattle.std.specs.Option.{option_map};
ghost use Rattle.apd_causes.specs.declared.reading.Read.{Read};
ghost use Rattle.apd_read.specs.Reader.{Reader};
ghost use Rattle.apd_term.specs.Growth.{Grown};
ghost use Rattle.apd_term.specs.Named.{IsNamed};
ghost use Rattle.apd_talk.specs.Speech.{Lasting};
ghost use Rattle.apd_lines.specs.Lines.{IsReadOf};
ghost use Rattle.apd_claims.specs.Reading.{as_clause, read_of, reading, term_in};
ghost use Rattle.apd_claims.specs.Texts.{KeepsFew};
ghost use Rattle.apd_base.specs.declared.limits.TheConstants.{MAX_FILE};

use crate::means::Means;
use apd_base::{MAX_FILE, Text};
use apd_lines::{LineRead, read_text};
use apd_read::Read;
use apd_term::Flat;
use apd_term::names::Names;
use std::alloc::{AllocError, Global};

/// The most names among which a log is read: nine for each byte that one may have.
pub const MOST_READ_NAMES: usize = 9_437_184;

/// The clause that was read, if one was.
fn clause_of_line(line: LineRead) -> Option<Read>
    ensures { result ≡ read_of line }
{
    match line {
        LineRead::Clause(read) => Some(read),
        LineRead::Empty | LineRead::TooLong | LineRead::Bad(_) => None,
    }
}

/// What a text reads as, where it is all of one clause. One that is longer than a file may be isn't read.
///
/// # Errors
///
/// Where there was no memory, or no room for as many names as the text may have; then, too, the names have only grown, and few
/// stay few.
pub(crate) fn read_whole(
    means: &Means<'_>,
    names: &mut Names,
    text: &[u8],
) -> Result<Option<Read>, AllocError>
    ensures names { Grown names.old names.new }
    ensures few { KeepsFew names.old names.new }
    ensures read { IfOk result (λ o. Lasting names.new (λ n. (reader : Reader n) →
        o ≡ reading reader means.now.ops.now text.now)) }
    ensures named { IfOk result (λ o. IfSome o (λ r.
        IsReadOf (length names.new) MAX_FILE r.term)) }
{
    if text.len() > MAX_FILE {
        return Ok(None);
    }
    if names.count() > MOST_READ_NAMES - MAX_FILE {
        return Err(AllocError);
    }
    let line = read_text(means.alloc, means.ops, names, text)?;
    Ok(clause_of_line(line))
}

/// The text as a clause.
pub(crate) fn as_clause(alloc: Global, text: &[u8]) -> Result<Text, AllocError>
    ensures { IfOk result (λ t. t ≡ as_clause text.now) }
{
    let mut clause = Text::copy_of(alloc, text)?;
    clause.extend(b" .")?;
    Ok(clause)
}

/// The term of a clause that was read.
fn term_of_read(read: Option<Read>) -> Option<Flat>
    ensures { result ≡ option_map (λ (r : Read). r.term) read }
{
    match read {
        Some(read) => Some(read.term),
        None => None,
    }
}

/// The term that a text is.
///
/// # Errors
///
/// As there.
pub(crate) fn read_term(
    means: &Means<'_>,
    names: &mut Names,
    text: &[u8],
) -> Result<Option<Flat>, AllocError>
    ensures names { Grown names.old names.new }
    ensures few { KeepsFew names.old names.new }
    ensures read { IfOk result (λ o. Lasting names.new (λ n. (reader : Reader n) →
        o ≡ term_in reader means.now.ops.now text.now)) }
    ensures named { IfOk result (λ o. IfSome o (IsNamed (length names.new))) }
{
    let clause = as_clause(means.alloc, text)?;
    let read = read_whole(means, names, clause.bytes())?;
    Ok(term_of_read(read))
}
