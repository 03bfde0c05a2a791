//! What stands at a place of a text.

ghost use Rattle.std.specs.Prelude.{◌≡◌, ◌+◌, ◌<◌, ◌≤◌, length, drop, slice_index, slice_range};
ghost use Rattle.std.specs.Bool.{OnTrue, OnFalse};
ghost use Rattle.apd_token.specs.Bytes.{class_of};
ghost use Rattle.apd_token.specs.Grammar.{Separates, BeginsComment, IsEnd};
ghost use Rattle.apd_token.specs.Scan.{Scans};
ghost use Rattle.apd_base.specs.declared.limits.TheConstants.{MAX_FILE};

use crate::bytes::{Class, Set, is_layout};
use crate::items::TokenKind;
use crate::runs::{close_at, run_end};
use apd_causes::TokenFault;

/// What stands at a place: layout or a comment, an item, or a fault.
#[derive(Clone, Copy)]
pub enum Found {
    Passed,
    Item(TokenKind),
    Bad(TokenFault),
}

/// Whether layout, a line comment or nothing follows.
fn separates(text: &[u8], at: usize) -> bool
    requires { at ≤ length text.now }
    ensures yes { OnTrue result (Separates (drop at text.now)) }
    ensures no { OnFalse result (Separates (drop at text.now) → ⊥) }
{
    at == text.len() || is_layout(text[at]) || text[at] == b'%'
}

/// Whether `/*` stands at `at`.
fn begins_comment(text: &[u8], at: usize) -> bool
    requires { at ≤ length text.now }
    ensures yes { OnTrue result (BeginsComment (drop at text.now)) }
    ensures room { OnTrue result (at + 1 < length text.now) }
    ensures no { OnFalse result (BeginsComment (drop at text.now) → ⊥) }
{
    if text.len() - at < 2 {
        return false;
    }
    text[at] == b'/' && text[at + 1] == b'*'
}

/// Whether the graphic run from `at` to `end` ends a clause.
fn is_end(text: &[u8], at: usize, end: usize) -> bool
    requires order { at < end }
    requires within { end ≤ length text.now }
    ensures yes { OnTrue result (IsEnd (slice_range text.now at end) (drop end text.now)) }
    ensures no { OnFalse result (IsEnd (slice_range text.now at end) (drop end text.now) → ⊥) }
{
    if end != at + 1 {
        return false;
    }
    if text[at] != b'.' {
        return false;
    }
    separates(text, end)
}

/// A comment, an open comment, a graphic name or an end.
pub(crate) fn graphic_at(text: &[u8], at: usize) -> (Found, usize)
    requires within { at < length text.now }
    requires small { length text.now ≤ MAX_FILE }
    requires class { class_of (slice_index text.now at) ≡ Class.Graphic }
    ensures { Scans text.now at result.0 result.1 }
{
    if begins_comment(text, at) {
        return match close_at(text, at + 2) {
            Some(k) => (Found::Passed, k + 2),
            None => (Found::Bad(TokenFault::OpenComment(at as u32)), text.len()),
        };
    }
    let end = run_end(text, at + 1, Set::Symbols);
    if is_end(text, at, end) {
        (Found::Item(TokenKind::End), end)
    } else {
        (Found::Item(TokenKind::Name), end)
    }
}
