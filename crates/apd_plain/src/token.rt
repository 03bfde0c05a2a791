//! The division into tokens in the plainest way: at each place the longest front of the text that has a form.

use apd_causes::TokenFault;
use apd_token::{Token, TokenKind};
use std::alloc::{AllocError, Global};
use std::str;

/// What stands at a place: layout or a comment, an item, or a fault.
#[derive(Clone, Copy)]
enum Found {
    Passed,
    Item(TokenKind),
    Bad(TokenFault),
}

/// A place of a short text.
fn place_of(at: usize) -> u32 {
    u32::try_from(at).unwrap_or(u32::MAX)
}

/// The value of a digit or a letter up to f, and 16 for any other byte.
fn digit(b: u8) -> u32 {
    match b {
        b'0'..=b'9' => u32::from(b.saturating_sub(b'0')),
        b'a'..=b'f' => u32::from(b.saturating_sub(b'a')).saturating_add(10),
        b'A'..=b'F' => u32::from(b.saturating_sub(b'A')).saturating_add(10),
        _ => 16,
    }
}

fn is_digit(radix: u32, b: u8) -> bool {
    digit(b) < radix
}

fn is_word(b: u8) -> bool {
    b.is_ascii_alphanumeric() || b == b'_'
}

fn is_layout(b: u8) -> bool {
    matches!(b, b' ' | b'\t' | b'\n' | b'\r' | 0x0b | 0x0c)
}

fn is_graphic(b: u8) -> bool {
    b"#$&*+-./:<=>?@^~\\".contains(&b)
}

fn are_digits(radix: u32, bytes: &[u8]) -> bool {
    for b in bytes {
        if !is_digit(radix, *b) {
            return false;
        }
    }
    true
}

fn are_word(bytes: &[u8]) -> bool {
    for b in bytes {
        if !is_word(*b) {
            return false;
        }
    }
    true
}

fn are_graphic(bytes: &[u8]) -> bool {
    for b in bytes {
        if !is_graphic(*b) {
            return false;
        }
    }
    true
}

/// The value of digits; a value past 2 ^ 64 counts as 2 ^ 64.
fn value(radix: u32, digits: &[u8]) -> u128 {
    let mut value = 0u128;
    for b in digits {
        value = value
            .saturating_mul(u128::from(radix))
            .saturating_add(u128::from(digit(*b)))
            .min(1 << 64);
    }
    value
}

fn number(at: u32, value: u128) -> Found {
    if value > 1 << 63 {
        return Found::Bad(TokenFault::NumberTooWide(at));
    }
    Found::Item(TokenKind::Integer(value as u64))
}

/// The code that a backslash and the bytes behind it stand for, and how many bytes that is.
fn escape(bytes: &[u8]) -> Option<(u32, usize)> {
    let (first, radix, from) = match bytes {
        [b'\\', b'x', ..] => (b'x', 16, 2),
        [b'\\', b, ..] => (*b, 8, 1),
        _ => return None,
    };
    if first == b'x' || is_digit(8, first) {
        let mut end = from;
        for b in bytes.get(from..)? {
            if !is_digit(radix, *b) {
                break;
            }
            end = end.saturating_add(1);
        }
        let code = value(radix, bytes.get(from..end)?);
        if end == from || bytes.get(end) != Some(&b'\\') || code > 0x10_FFFF {
            return None;
        }
        char::from_u32(code as u32)?;
        return Some((code as u32, end.saturating_add(1)));
    }
    let code = match first {
        b'a' => 7,
        b'b' => 8,
        b't' => 9,
        b'n' => 10,
        b'v' => 11,
        b'f' => 12,
        b'r' => 13,
        b'\\' | b'\'' | b'"' | b'`' => u32::from(first),
        _ => return None,
    };
    Some((code, 2))
}

/// What `0'` and these bytes are.
fn character(at: u32, bytes: &[u8], after: &[u8]) -> Option<Found> {
    match bytes {
        [] if after.is_empty() => Some(Found::Bad(TokenFault::OpenQuote(at))),
        [] => None,
        [b'\'', b'\''] => Some(Found::Item(TokenKind::Integer(39))),
        [b'\''] | [b'\\'] => Some(Found::Bad(TokenFault::BadEscape(at.saturating_add(2)))),
        [b'\\', ..] => match escape(bytes) {
            Some((code, length)) if length == bytes.len() => {
                Some(Found::Item(TokenKind::Integer(u64::from(code))))
            }
            _ => None,
        },
        _ => {
            let text = str::from_utf8(bytes).ok()?;
            let mut chars = text.chars();
            let first = chars.next()?;
            if chars.next().is_some() {
                return None;
            }
            Some(Found::Item(TokenKind::Integer(u64::from(u32::from(first)))))
        }
    }
}

fn numeral(at: u32, bytes: &[u8], after: &[u8]) -> Option<Found> {
    let (radix, digits) = match bytes {
        [b'0', b'\'', rest @ ..] => return character(at, rest, after),
        [b'0', b'x', rest @ ..] => (16, rest),
        [b'0', b'o', rest @ ..] => (8, rest),
        [b'0', b'b', rest @ ..] => (2, rest),
        _ => (10, bytes),
    };
    if !digits.is_empty() && are_digits(radix, digits) {
        return Some(number(at, value(radix, digits)));
    }
    match bytes {
        [whole @ .., b'.', last] => {
            let narrow = value(10, whole) <= 1 << 63;
            let digits = is_digit(10, *last) && are_digits(10, whole);
            if narrow && digits {
                return Some(Found::Bad(TokenFault::FloatLiteral(at)));
            }
            None
        }
        _ => None,
    }
}

/// The place of the first `*/`.
fn close_of(body: &[u8]) -> Option<usize> {
    for place in 0..body.len() {
        if let [b'*', b'/', ..] = body.get(place..)? {
            return Some(place);
        }
    }
    None
}

fn graphic(at: u32, bytes: &[u8], after: &[u8]) -> Option<Found> {
    if let [b'/', b'*', body @ ..] = bytes {
        return match close_of(body) {
            Some(place) if place.saturating_add(2) == body.len() => Some(Found::Passed),
            None if after.is_empty() => Some(Found::Bad(TokenFault::OpenComment(at))),
            _ => None,
        };
    }
    if !are_graphic(bytes) {
        return None;
    }
    let separate = match after {
        [] => true,
        [b, ..] => is_layout(*b) || *b == b'%',
    };
    if bytes == b".".as_slice() && separate {
        return Some(Found::Item(TokenKind::End));
    }
    Some(Found::Item(TokenKind::Name))
}

/// What an opening quote and these bytes are.
fn quoted(at: u32, q: u8, bytes: &[u8], after: &[u8]) -> Option<Found> {
    let kind = if q == b'\'' {
        TokenKind::Quoted
    } else {
        TokenKind::Codes
    };
    let mut i = 0;
    for _element in 0..bytes.len() {
        let rest = bytes.get(i..)?;
        match rest {
            [] => break,
            [b, c, ..] if *b == q && *c == q => i += 2,
            [b] if *b == q => {
                if after.first() == Some(&q) {
                    return None;
                }
                return Some(Found::Item(kind));
            }
            [b, ..] if *b == q => return None,
            [b'\\', b'\n', ..] => i += 2,
            [b'\\', ..] => match escape(rest) {
                Some((_, length)) => i = i.saturating_add(length),
                None if rest.len() == 1 => {
                    let place = at.saturating_add(1).saturating_add(place_of(i));
                    return Some(Found::Bad(TokenFault::BadEscape(place)));
                }
                None => return None,
            },
            _ => i += 1,
        }
    }
    if after.is_empty() {
        return Some(Found::Bad(TokenFault::OpenQuote(at)));
    }
    None
}

/// What the bytes are where they stand at a place and something follows, if they have a form.
fn form(at: u32, bytes: &[u8], after: &[u8]) -> Option<Found> {
    let [first, rest @ ..] = bytes else {
        return None;
    };
    let single = match first {
        b'%' if !rest.contains(&b'\n') => return Some(Found::Passed),
        b'a'..=b'z' if are_word(rest) => return Some(Found::Item(TokenKind::Name)),
        b'A'..=b'Z' | b'_' if are_word(rest) => {
            return Some(Found::Item(TokenKind::Variable));
        }
        b'0'..=b'9' => return numeral(at, bytes, after),
        b'\'' | b'"' => return quoted(at, *first, rest, after),
        b if is_graphic(*b) => return graphic(at, bytes, after),
        b if is_layout(*b) => Found::Passed,
        b'!' | b';' => Found::Item(TokenKind::Name),
        b'(' => Found::Item(TokenKind::Open),
        b')' => Found::Item(TokenKind::Close),
        b'[' => Found::Item(TokenKind::OpenList),
        b']' => Found::Item(TokenKind::CloseList),
        b'{' => Found::Item(TokenKind::OpenCurly),
        b'}' => Found::Item(TokenKind::CloseCurly),
        b',' => Found::Item(TokenKind::Comma),
        b'|' => Found::Item(TokenKind::Bar),
        _ => Found::Bad(TokenFault::BadChar(at)),
    };
    if rest.is_empty() {
        return Some(single);
    }
    None
}

/// The longest front of the text from a place on that has a form, and where it ends.
fn longest(text: &[u8], at: usize) -> Option<(Found, usize)> {
    let mut found = None;
    for end in at.saturating_add(1)..text.len().saturating_add(1) {
        if let (Some(bytes), Some(after)) = (text.get(at..end), text.get(end..)) {
            if let Some(what) = form(place_of(at), bytes, after) {
                found = Some((what, end));
            }
        }
    }
    found
}

/// Where the division begins: behind a first line that begins with `#!`.
fn lead(text: &[u8]) -> usize {
    if !text.starts_with(b"#!") {
        return 0;
    }
    let mut place = 0usize;
    for b in text {
        if *b == b'\n' {
            break;
        }
        place = place.saturating_add(1);
    }
    place
}

fn put(tokens: &mut Vec<Token>, token: Token) -> Result<(), AllocError> {
    tokens.push(token)?;
    Ok(())
}

/// The tokens of a short text, or its first fault.
pub fn plain_tokens(alloc: Global, text: &[u8]) -> Result<Vec<Token>, TokenFault> {
    if let Err(e) = str::from_utf8(text) {
        return Err(TokenFault::NotUtf8(place_of(e.valid_up_to())));
    }
    let mut tokens = Vec::new(alloc);
    let mut at = lead(text);
    let mut spaced = true;
    for _piece in 0..text.len() {
        let Some((what, end)) = longest(text, at) else {
            break;
        };
        match what {
            Found::Passed => spaced = true,
            Found::Bad(fault) => return Err(fault),
            Found::Item(kind) => {
                let token = Token {
                    kind,
                    start: place_of(at),
                    end: place_of(end),
                    spaced,
                };
                put(&mut tokens, token)?;
                spaced = false;
            }
        }
        at = end;
    }
    Ok(tokens)
}
