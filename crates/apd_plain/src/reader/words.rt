//! The tokens of a clause with what they stand for.

ghost use Rattle.std.specs.Prelude.{◌≤◌, length, IsUtf8};
ghost use Rattle.apd_token.specs.Grammar.{HasText, HasTokens, IsTokenOf};
ghost use Rattle.apd_base.specs.declared.limits.TheConstants.{MAX_FILE};

use apd_base::Text;
use apd_term::standard::{CELL, COMMA, NIL};
use apd_term::{Atoms, Flat, NameId, Names};
use apd_token::{Token, TokenKind, Tokens, content};
use std::alloc::{AllocError, Global};

/// A token.
#[derive(Drop)]
pub struct Word {
    pub kind: TokenKind,
    /// Whether layout or a comment stands directly before it.
    pub spaced: bool,
    /// The place of its first byte in the text.
    pub start: u32,
    /// The name of a name and of the comma.
    pub name: Option<NameId>,
    /// The term that a name, a variable or a text in double quotes is as an operand.
    pub term: Option<Flat>,
}

/// More names than a text brings.
const MOST_TEXT_NAMES: usize = 3_000_000;

/// A token's name and term.
type Meaning = (Option<NameId>, Option<Flat>);

pub fn atom(alloc: Global, name: NameId) -> Result<Flat, AllocError> {
    Flat::compound(alloc, name, &Atoms::new(alloc))
}

/// The term of two arguments.
pub fn pair(alloc: Global, name: NameId, left: Flat, right: Flat) -> Result<Flat, AllocError> {
    let mut args = Atoms::new(alloc);
    args.push(left)?;
    args.push(right)?;
    Flat::compound(alloc, name, &args)
}

/// The list of the characters' codes.
fn codes(alloc: Global, characters: &str) -> Result<Flat, AllocError> {
    let mut list = atom(alloc, NIL)?;
    for c in characters.chars().rev() {
        let code = Flat::integer(alloc, i64::from(u32::from(c)))?;
        list = pair(alloc, CELL, code, list)?;
    }
    Ok(list)
}

/// The number of a variable: that of the first with its text, and the next one for a new text and for
/// each `_`.
fn number(vars: &mut Vec<Text>, text: Text) -> Result<u64, AllocError> {
    let mut place = vars.len();
    if text.bytes() != b"_".as_slice() {
        for (i, other) in vars.iter().enumerate() {
            if other.bytes() == text.bytes() {
                place = i;
            }
        }
    }
    if place == vars.len() {
        vars.push(text)?;
    }
    Ok((place as u64).saturating_add(1))
}

/// The name of a text, and the atom that it is. An error also where there are too many names.
fn name_meant(alloc: Global, names: &mut Names, text: &[u8]) -> Result<Meaning, AllocError>
    requires { IsUtf8 text.now }
{
    if names.count() > MOST_TEXT_NAMES {
        return Err(AllocError);
    }
    let name = names.intern(text)?;
    Ok((Some(name), Some(atom(alloc, name)?)))
}

fn name_of(
    alloc: Global,
    names: &mut Names,
    text: &[u8],
    token: &Token,
) -> Result<Meaning, AllocError>
    requires small { length text.now ≤ MAX_FILE }
    requires utf8 { IsUtf8 text.now }
    requires token { IsTokenOf text.now token.now }
    requires kind { HasText token.now.kind }
{
    let value = content(alloc, text, token)?;
    name_meant(alloc, names, value.bytes())
}

fn codes_of(alloc: Global, text: &[u8], token: &Token) -> Result<Meaning, AllocError>
    requires small { length text.now ≤ MAX_FILE }
    requires token { IsTokenOf text.now token.now }
    requires kind { HasText token.now.kind }
{
    let value = content(alloc, text, token)?;
    let characters = str::from_utf8(value.bytes()).unwrap_or("");
    Ok((None, Some(codes(alloc, characters)?)))
}

fn variable_of(
    alloc: Global,
    text: &[u8],
    token: &Token,
    vars: &mut Vec<Text>,
) -> Result<Meaning, AllocError>
    requires small { length text.now ≤ MAX_FILE }
    requires token { IsTokenOf text.now token.now }
    requires kind { HasText token.now.kind }
{
    let value = content(alloc, text, token)?;
    let number = number(vars, value)?;
    Ok((None, Some(Flat::variable(alloc, number)?)))
}

fn meaning(
    alloc: Global,
    names: &mut Names,
    text: &[u8],
    token: &Token,
    vars: &mut Vec<Text>,
) -> Result<Meaning, AllocError>
    requires small { length text.now ≤ MAX_FILE }
    requires utf8 { IsUtf8 text.now }
    requires token { IsTokenOf text.now token.now }
{
    match token.kind {
        TokenKind::Name => name_of(alloc, names, text, token),
        TokenKind::Quoted => name_of(alloc, names, text, token),
        TokenKind::Codes => codes_of(alloc, text, token),
        TokenKind::Variable => variable_of(alloc, text, token, vars),
        TokenKind::Comma => Ok((Some(COMMA), None)),
        _ => Ok((None, None)),
    }
}

fn word_of(
    alloc: Global,
    names: &mut Names,
    text: &[u8],
    token: &Token,
    vars: &mut Vec<Text>,
) -> Result<Word, AllocError>
    requires small { length text.now ≤ MAX_FILE }
    requires utf8 { IsUtf8 text.now }
    requires token { IsTokenOf text.now token.now }
{
    let (name, term) = meaning(alloc, names, text, token, vars)?;
    Ok(Word {
        kind: token.kind,
        spaced: token.spaced,
        start: token.start,
        name,
        term,
    })
}

/// The tokens up to the first end.
pub fn words(
    alloc: Global,
    names: &mut Names,
    text: &[u8],
    tokens: &Tokens,
) -> Result<Vec<Word>, AllocError>
    requires small { length text.now ≤ MAX_FILE }
    requires utf8 { IsUtf8 text.now }
    requires tokens { HasTokens text.now tokens.now }
{
    let mut words = Vec::new(alloc);
    let mut vars = Vec::new(alloc);
    for i in 0..tokens.len() {
        let Some(token) = tokens.get(i) else {
            return Ok(words);
        };
        words.push(word_of(alloc, names, text, token, &mut vars)?)?;
        if token.kind == TokenKind::End {
            return Ok(words);
        }
    }
    Ok(words)
}
