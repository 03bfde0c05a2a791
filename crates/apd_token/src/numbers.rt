//! Integers, and what stands in the place of one.

ghost use Rattle.std.specs.Prelude.{◌≡◌, ◌+◌, ◌<◌, ◌≤◌, length, drop, slice_index, IfSome, IfNone};
ghost use Rattle.std.specs.Bool.{OnTrue, OnFalse};
ghost use Rattle.std.specs.Str.{IsCharBoundary};
ghost use Rattle.apd_token.specs.Bytes.{class_of};
ghost use Rattle.apd_token.specs.Scan.{StopsRun, Scans, HasFraction, NoMarked, HasRadix, HasChar};
ghost use Rattle.apd_base.specs.declared.limits.TheConstants.{MAX_FILE};

use crate::bytes::{Class, NumberMark, Set, is_digit, mark_of};
use crate::found::Found;
use crate::items::TokenKind;
use crate::quoted::code_at;
use crate::runs::{numeral_of, run_end};
use apd_causes::TokenFault;

/// Whether a full stop and a digit stand at `at`.
fn has_fraction(text: &[u8], at: usize) -> bool
    requires { at ≤ length text.now }
    ensures yes { OnTrue result (HasFraction text.now at) }
    ensures no { OnFalse result (HasFraction text.now at → ⊥) }
{
    text.len() - at >= 2 && text[at] == b'.' && is_digit(text[at + 1])
}

/// An integer, or what stands in the place of one.
pub(crate) fn digits_at(text: &[u8], at: usize) -> (Found, usize)
    requires within { at < length text.now }
    requires small { length text.now ≤ MAX_FILE }
    requires class { class_of (slice_index text.now at) ≡ Class.Digit }
    requires unmarked { NoMarked at (drop at text.now) }
    ensures { Scans text.now at result.0 result.1 }
{
    let end = run_end(text, at + 1, Set::Digits);
    match numeral_of(&text[at..end], 10) {
        None => (Found::Bad(TokenFault::NumberTooWide(at as u32)), end),
        Some(value) => {
            if has_fraction(text, end) {
                (Found::Bad(TokenFault::FloatLiteral(at as u32)), end + 2)
            } else {
                (Found::Item(TokenKind::Integer(value)), end)
            }
        }
    }
}

/// The integer of a radix whose 0 is at `at`.
fn radix_at(text: &[u8], at: usize, radix: u64, set: Set) -> Option<(Found, usize)>
    requires within { at + 2 ≤ length text.now }
    requires small { length text.now ≤ MAX_FILE }
    requires low { 1 ≤ radix }
    requires high { radix ≤ 16 }
    ensures some { IfSome result (λ r. HasRadix text.now at radix set r.0 r.1) }
    ensures none { IfNone result (StopsRun set (drop (at + 2) text.now)) }
{
    let end = run_end(text, at + 2, set);
    if end == at + 2 {
        return None;
    }
    match numeral_of(&text[at + 2..end], radix) {
        None => Some((Found::Bad(TokenFault::NumberTooWide(at as u32)), end)),
        Some(value) => Some((Found::Item(TokenKind::Integer(value)), end)),
    }
}

/// The character at a place, and where it ends.
fn char_at(text: &str, at: usize) -> (char, usize)
    requires within { at < length text.now }
    requires boundary { IsCharBoundary text.now at }
    ensures { HasChar text.now at result.0 result.1 }
{
    let rest = &text[at..];
    let mut characters = rest.chars();
    match characters.next() {
        Some(c) => (c, at + c.len_utf8()),
        None => unreachable!(),
    }
}

/// The code of the character behind `0'`, or what stands in its place.
fn coded_at(text: &[u8], whole: &str, at: usize) -> (Found, usize)
    requires within { at + 1 < length text.now }
    requires same { whole.now ≡ text.now }
    requires small { length text.now ≤ MAX_FILE }
    requires digit { slice_index text.now at ≡ 48 }
    requires quote { slice_index text.now (at + 1) ≡ 39 }
    ensures { Scans text.now at result.0 result.1 }
{
    if text.len() == at + 2 {
        return (Found::Bad(TokenFault::OpenQuote(at as u32)), at + 2);
    }
    if text[at + 2] == b'\\' {
        if text.len() == at + 3 {
            return (Found::Bad(TokenFault::BadEscape(at as u32 + 2)), at + 3);
        }
        return match code_at(text, at + 3) {
            None => (Found::Bad(TokenFault::BadEscape(at as u32 + 2)), at + 3),
            Some((upto, c)) => (Found::Item(TokenKind::Integer(u64::from(c as u32))), upto),
        };
    }
    if text[at + 2] == b'\'' {
        if text.len() == at + 3 {
            return (Found::Bad(TokenFault::BadEscape(at as u32 + 2)), at + 3);
        }
        if text[at + 3] != b'\'' {
            return (Found::Bad(TokenFault::BadEscape(at as u32 + 2)), at + 3);
        }
        return (Found::Item(TokenKind::Integer(39)), at + 4);
    }
    let (c, upto) = char_at(whole, at + 2);
    (Found::Item(TokenKind::Integer(u64::from(c as u32))), upto)
}

/// A number with a mark behind its 0.
pub(crate) fn marked_at(text: &[u8], whole: &str, at: usize) -> Option<(Found, usize)>
    requires within { at < length text.now }
    requires same { whole.now ≡ text.now }
    requires small { length text.now ≤ MAX_FILE }
    ensures some { IfSome result (λ r. Scans text.now at r.0 r.1) }
    ensures none { IfNone result (NoMarked at (drop at text.now)) }
{
    if text[at] != b'0' {
        return None;
    }
    if text.len() - at < 2 {
        return None;
    }
    match mark_of(text[at + 1]) {
        NumberMark::Nothing => None,
        NumberMark::Code => {
            let found = coded_at(text, whole, at);
            Some(found)
        }
        NumberMark::Hex => match radix_at(text, at, 16, Set::Hex) {
            None => None,
            Some((what, end)) => Some((what, end)),
        },
        NumberMark::Octal => match radix_at(text, at, 8, Set::Octal) {
            None => None,
            Some((what, end)) => Some((what, end)),
        },
        NumberMark::Binary => match radix_at(text, at, 2, Set::Binary) {
            None => None,
            Some((what, end)) => Some((what, end)),
        },
    }
}
