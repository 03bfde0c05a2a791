//! Quoted items, and their escapes.

ghost use Rattle.std.specs.Prelude.{◌≡◌, ◌<◌, ◌≤◌, length, drop, slice_index, false, IfSome, IfNone};
ghost use Rattle.apd_token.specs.Bytes.{class_of, in_set};
ghost use Rattle.apd_token.specs.Quotes.{NoElement};
ghost use Rattle.apd_token.specs.Grammar.{quoted_kind};
ghost use Rattle.apd_token.specs.Scan.{Scans, HasDigits, NoDigits, HasCode, NoCode, HasElement, value_of};
ghost use Rattle.apd_base.specs.declared.limits.TheConstants.{MAX_FILE};

use crate::bytes::{Class, Escape, Set, escape_of, simple_code};
use crate::found::Found;
use crate::items::TokenKind;
use crate::runs::{numeral_of, run_end};
use apd_causes::TokenFault;

/// What an element stands for: a byte, a character or nothing.
#[derive(Clone, Copy)]
pub(crate) enum ElementValue {
    Nothing,
    Byte(u8),
    Char(char),
}

/// A character by digits from `from` on with a backslash behind them, whose number begins at `first`.
fn digits_code(
    text: &[u8],
    first: usize,
    from: usize,
    radix: u64,
    set: Set,
) -> Option<(usize, char)>
    requires order { first ≤ from }
    requires within { from ≤ length text.now }
    requires low { 1 ≤ radix }
    requires high { radix ≤ 16 }
    requires stop { in_set set 92 ≡ false }
    ensures some { IfSome result (λ r. HasDigits text.now first from radix set r.0 r.1) }
    ensures none { IfNone result (NoDigits text.now first from radix set) }
{
    let end = run_end(text, from, set);
    if end == text.len() {
        return None;
    }
    if text[end] != b'\\' {
        return None;
    }
    match numeral_of(&text[first..end], radix) {
        None => None,
        Some(value) => {
            if value > 0x10FFFF {
                return None;
            }
            match char::from_u32(value as u32) {
                None => None,
                Some(c) => Some((end + 1, c)),
            }
        }
    }
}

/// The character of the escape whose first byte behind the backslash is at `at`.
pub(crate) fn code_at(text: &[u8], at: usize) -> Option<(usize, char)>
    requires { at < length text.now }
    ensures some { IfSome result (λ r. HasCode text.now at r.0 r.1) }
    ensures none { IfNone result (NoCode text.now at) }
{
    match escape_of(text[at]) {
        Escape::Newline => None,
        Escape::Unknown => None,
        Escape::Simple => Some((at + 1, char::from(simple_code(text[at])))),
        Escape::Octal => match digits_code(text, at, at + 1, 8, Set::Octal) {
            None => None,
            Some((upto, c)) => Some((upto, c)),
        },
        Escape::Hex => match digits_code(text, at + 1, at + 1, 16, Set::Hex) {
            None => None,
            Some((upto, c)) => {
                if upto == at + 2 {
                    return None;
                }
                Some((upto, c))
            }
        },
    }
}

/// What stands at a place between quotes `q`, and where it ends.
pub(crate) fn element_at(text: &[u8], at: usize, q: u8) -> Option<(usize, ElementValue)>
    requires { at ≤ length text.now }
    ensures some { IfSome result (λ r. HasElement text.now at q r.0 (value_of r.1)) }
    ensures none { IfNone result (NoElement q (drop at text.now)) }
{
    if at == text.len() {
        return None;
    }
    if text[at] == b'\\' {
        if text.len() - at < 2 {
            return None;
        }
        if text[at + 1] == b'\n' {
            return Some((at + 2, ElementValue::Nothing));
        }
        return match code_at(text, at + 1) {
            None => None,
            Some((upto, c)) => Some((upto, ElementValue::Char(c))),
        };
    }
    if text[at] != q {
        return Some((at + 1, ElementValue::Byte(text[at])));
    }
    if text.len() - at < 2 {
        return None;
    }
    if text[at + 1] != q {
        return None;
    }
    Some((at + 2, ElementValue::Byte(q)))
}

fn quoted_kind(q: u8) -> TokenKind
    ensures { result ≡ quoted_kind q }
{
    if q == b'\'' {
        TokenKind::Quoted
    } else {
        TokenKind::Codes
    }
}

/// A quoted item, or what stands in its place.
pub(crate) fn quoted_at(text: &[u8], at: usize) -> (Found, usize)
    requires within { at < length text.now }
    requires small { length text.now ≤ MAX_FILE }
    requires class { class_of (slice_index text.now at) ≡ Class.Quote }
    ensures { Scans text.now at result.0 result.1 }
{
    let q = text[at];
    let mut i = at + 1;
    'elements: while let Some((next, _)) = element_at(text, i, q) {
        i = next;
    }
    if i == text.len() {
        return (Found::Bad(TokenFault::OpenQuote(at as u32)), i);
    }
    if text[i] != q {
        return (Found::Bad(TokenFault::BadEscape(i as u32)), i + 1);
    }
    (Found::Item(quoted_kind(q)), i + 1)
}
