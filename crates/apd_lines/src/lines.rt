//! What is read of a line: no clause, or the one that it holds.

ghost use Rattle.std.specs.Prelude.{◌≡◌, ◌≢◌, ◌<◌, ◌≤◌, ◌+◌, List, ℕ, length, IfOk, OnOk, Ok, IsUtf8};
ghost use Rattle.apd_read.specs.Reader.{Reader};
ghost use Rattle.apd_term.specs.Growth.{GrowsBy};
ghost use Rattle.apd_token.specs.Grammar.{HasTokens};
ghost use Rattle.apd_talk.specs.Speech.{Lasting};
ghost use Rattle.apd_lines.specs.Lines.{IsReadOf, LineFits, LineGrows, LineIsNamed, LineIsReadOf, line_from, line_in, line_of};
ghost use Rattle.apd_base.specs.declared.limits.TheConstants.{MAX_FILE, MOST_NAMES};

use apd_causes::LoadCause;
use apd_console::Line;
use apd_ops::Ops;
use apd_read::{Read, ReadFault, read_clause};
use apd_term::names::Names;
use apd_token::{Token, TokenFault, Tokens, tokens};
use std::alloc::{AllocError, Global};

/// What is read of a line.
#[derive(Drop)]
pub enum LineRead {
    /// The line has no token.
    Empty,
    /// The line has more bytes than are read.
    TooLong,
    /// The line has no reading, for this cause.
    Bad(LoadCause),
    /// The line is this clause.
    Clause(Read),
}

/// A line that has no reading, for this fault, which want of memory is not.
fn bad_reading(fault: ReadFault) -> Result<LineRead, AllocError>
    ensures line { IfOk result (λ l. l ≡ LineRead.Bad (LoadCause.Read fault)) }
    ensures fault { OnOk result (fault ≢ ReadFault.Memory) }
{
    match fault {
        ReadFault::Memory => Err(AllocError),
        _ => Ok(LineRead::Bad(LoadCause::Read(fault))),
    }
}

/// A line that has no division into tokens, for this fault, which want of memory is not.
fn bad_division(fault: TokenFault) -> Result<LineRead, AllocError>
    ensures line { IfOk result (λ l. l ≡ LineRead.Bad (LoadCause.Token fault)) }
    ensures fault { OnOk result (fault ≢ TokenFault.Memory) }
{
    match fault {
        TokenFault::Memory => Err(AllocError),
        _ => Ok(LineRead::Bad(LoadCause::Token(fault))),
    }
}

/// A line with this clause, behind which a token is stray.
fn whole_line(read: Read, tokens: &[Token]) -> LineRead
    ensures line { result ≡ line_of tokens.now (Ok read) }
    ensures named { (n m : ℕ) → IsReadOf n m read.term → LineIsReadOf n m result }
{
    match tokens.get(read.next) {
        Some(token) => LineRead::Bad(LoadCause::Read(ReadFault::Stray(token.start))),
        None => LineRead::Clause(read),
    }
}

/// What is read of a text with these tokens.
fn read_tokens(
    alloc: Global,
    ops: &Ops,
    names: &mut Names,
    text: &[u8],
    tokens: &Tokens,
) -> Result<LineRead, AllocError>
    requires short { length text.now ≤ MAX_FILE }
    requires utf8 { IsUtf8 text.now }
    requires tokens { HasTokens text.now tokens.now }
    requires some { 0 < length tokens.now }
    requires room { length names.old + length text.now < MOST_NAMES }
    ensures names { GrowsBy (length text.now) names.old names.new }
    ensures line { IfOk result (λ l. Lasting names.new (λ n. (reader : Reader n) →
        l ≡ line_of tokens.now (reader.clause ops.now text.now tokens.now 0))) }
    ensures named { IfOk result (LineIsReadOf (length names.new) (length text.now)) }
{
    ops.has_no_clash();
    let _count = names.count();
    match read_clause(alloc, ops, names, text, tokens, 0) {
        Ok(read) => Ok(whole_line(read, tokens.as_slice())),
        Err(fault) => bad_reading(fault),
    }
}

/// What is read of a text that holds one clause at most, by these operators.
///
/// # Errors
///
/// Where there was no memory; then, too, the names have only grown.
pub fn read_text(
    alloc: Global,
    ops: &Ops,
    names: &mut Names,
    text: &[u8],
) -> Result<LineRead, AllocError>
    requires short { length text.now ≤ MAX_FILE }
    requires room { length names.old + length text.now < MOST_NAMES }
    ensures names { GrowsBy (length text.now) names.old names.new }
    ensures line { IfOk result (λ l. Lasting names.new (λ n. (reader : Reader n) →
        l ≡ line_from reader ops.now text.now (reader.division text.now))) }
    ensures named { IfOk result (LineIsReadOf (length names.new) (length text.now)) }
{
    match tokens(alloc, text) {
        Ok(tokens) => {
            if tokens.as_slice().is_empty() {
                return Ok(LineRead::Empty);
            }
            read_tokens(alloc, ops, names, text, &tokens)
        }
        Err(fault) => bad_division(fault),
    }
}

/// What is read of a line, by these operators.
///
/// # Errors
///
/// Where there was no memory; then, too, the names have only grown.
pub fn read_line(
    alloc: Global,
    ops: &Ops,
    names: &mut Names,
    line: &Line,
) -> Result<LineRead, AllocError>
    requires fits { LineFits (length names.old) line.now }
    ensures names { LineGrows line.now names.old names.new }
    ensures line { IfOk result (λ l. Lasting names.new (λ n. (reader : Reader n) →
        l ≡ line_in reader ops.now line.now)) }
    ensures named { IfOk result (LineIsNamed (length names.new)) }
{
    match line {
        Line::Text(text) => read_text(alloc, ops, names, text.bytes()),
        Line::TooLong => Ok(LineRead::TooLong),
    }
}
