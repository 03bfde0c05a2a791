//! What `tokens` and `content` give, beside the plain program.

ghost use Rattle.std.specs.Bool.{OnTrue};
ghost use Rattle.std.specs.Prelude.{◌≤◌, length};
ghost use Rattle.apd_token.specs.Grammar.{HasText, HasTokens};
ghost use Rattle.apd_base.specs.declared.limits.TheConstants.{MAX_FILE};

use apd_base::MAX_FILE;
use apd_plain::token::plain_tokens;
use apd_rows::{Builder, Trial};
use apd_token::{Token, TokenFault, TokenKind, Tokens, content, tokens};
use std::alloc::Global;

fn has_text(kind: TokenKind) -> bool
    ensures { OnTrue result (HasText kind) }
{
    match kind {
        TokenKind::Name | TokenKind::Quoted | TokenKind::Codes | TokenKind::Variable => true,
        _ => false,
    }
}

/// A letter for the kind of a token that is no integer.
fn letter_of(kind: TokenKind) -> &'static str {
    match kind {
        TokenKind::Integer(_) => "",
        TokenKind::Name => "n",
        TokenKind::Quoted => "q",
        TokenKind::Codes => "c",
        TokenKind::Variable => "v",
        TokenKind::Open => "(",
        TokenKind::Close => ")",
        TokenKind::OpenList => "[",
        TokenKind::CloseList => "]",
        TokenKind::OpenCurly => "{",
        TokenKind::CloseCurly => "}",
        TokenKind::Comma => ",",
        TokenKind::Bar => "|",
        TokenKind::End => ".",
    }
}

/// Adds a token's kind or its integer, where it begins and ends, and `s` where it is spaced.
fn put_token(given: &mut Builder, token: &Token) {
    let alloc = given.alloc;
    if let TokenKind::Integer(value) = token.kind {
        given.put_shown(&value);
    }
    given.put(letter_of(token.kind));
    let mark = if token.spaced { "s" } else { "" };
    given.put_made(format!(in alloc; "{}-{}{mark} ", token.start, token.end));
}

/// Whether the plain program divides the text alike.
fn divides_alike(alloc: Global, text: &[u8], divided: &Result<Tokens, TokenFault>) -> bool {
    let plain = plain_tokens(alloc, text);
    let alike = match (divided, &plain) {
        (Ok(tokens), Ok(plain)) => tokens.as_slice() == plain.as_slice(),
        (Err(fault), Err(plain)) => fault == plain,
        _ => false,
    };
    // Dropped by calls, here and below: else each part is a step to check.
    drop(plain);
    alike
}

fn put_division(given: &mut Builder, divided: &Result<Tokens, TokenFault>) {
    match divided {
        Err(fault) => given.put_debug(fault),
        Ok(tokens) => {
            for token in tokens.as_slice() {
                put_token(given, token);
            }
        }
    }
}

/// Gives the tokens of the row's text, or its first fault. The plain program has to divide it alike.
pub fn put_tokens(trial: &mut Trial) -> Option<()> {
    let text = trial.row.bytes(0);
    if text.len() > MAX_FILE {
        return None;
    }
    let divided = tokens(trial.alloc, text);
    if !divides_alike(trial.alloc, text, &divided) {
        trial.given.put("other than the plain program: ");
    }
    put_division(&mut trial.given, &divided);
    drop(divided);
    Some(())
}

/// Adds what a text's first token stands for, as the numbers of its bytes.
fn put_content(given: &mut Builder, text: &[u8], tokens: &Tokens) -> Option<()>
    requires small { length text.now ≤ MAX_FILE }
    requires tokens { HasTokens text.now tokens.now }
{
    let Some(token) = tokens.get(0) else {
        return None;
    };
    if !has_text(token.kind) {
        return None;
    }
    let value = content(given.alloc, text, token).ok()?;
    given.put_debug(&value.bytes());
    Some(())
}

/// Gives what the first token of the row's text stands for. The plain program has to divide it alike.
pub fn put_first_content(trial: &mut Trial) -> Option<()> {
    let text = trial.row.bytes(0);
    if text.len() > MAX_FILE {
        return None;
    }
    let divided = tokens(trial.alloc, text);
    if !divides_alike(trial.alloc, text, &divided) {
        trial.given.put("other than the plain program: ");
    }
    match divided {
        Ok(tokens) => {
            let put = put_content(&mut trial.given, text, &tokens);
            drop(tokens);
            put
        }
        Err(_) => None,
    }
}
