//! The tokens of a text.

ghost use Rattle.std.specs.Prelude.{◌≡◌, ℕ, ◌<◌, ◌≤◌, List, length, slice_index, IfOk, IfErr, IsUtf8, Result};
ghost use Rattle.std.specs.Bool.{OnTrue, OnFalse};
ghost use Rattle.apd_token.specs.Grammar.{HasTokens, HasFault, IsFaultOf, BeginsScript};
ghost use Rattle.apd_token.specs.Division.{IsDivided};
ghost use Rattle.apd_token.specs.Scan.{Scans, HasLead};
ghost use Rattle.apd_token.specs.declared.items.Token.{Token};
ghost use Rattle.apd_causes.specs.declared.faults.TokenFault.{TokenFault};
ghost use Rattle.apd_base.specs.declared.limits.TheConstants.{MAX_FILE};

use crate::bytes::{Class, Set, bracket_of, class_of};
use crate::found::{Found, graphic_at};
use crate::items::{Token, TokenKind, Tokens};
use crate::numbers::{digits_at, marked_at};
use crate::quoted::quoted_at;
use crate::runs::run_end;
use apd_causes::TokenFault;
use std::alloc::Global;
use std::str;

/// The piece at a place, and where it ends.
fn piece_at(text: &[u8], whole: &str, at: usize) -> (Found, usize)
    requires within { at < length text.now }
    requires same { whole.now ≡ text.now }
    requires small { length text.now ≤ MAX_FILE }
    ensures { Scans text.now at result.0 result.1 }
{
    let first = text[at];
    match class_of(first) {
        Class::Layout => (Found::Passed, at + 1),
        Class::Percent => (Found::Passed, run_end(text, at + 1, Set::Line)),
        Class::Small => (
            Found::Item(TokenKind::Name),
            run_end(text, at + 1, Set::Word),
        ),
        Class::Capital => (
            Found::Item(TokenKind::Variable),
            run_end(text, at + 1, Set::Word),
        ),
        Class::Solo => (Found::Item(TokenKind::Name), at + 1),
        Class::Bracket => (Found::Item(bracket_of(first)), at + 1),
        Class::Graphic => graphic_at(text, at),
        Class::Digit => match marked_at(text, whole, at) {
            Some((what, end)) => (what, end),
            None => digits_at(text, at),
        },
        Class::Quote => quoted_at(text, at),
        Class::Other => (Found::Bad(TokenFault::BadChar(at as u32)), at + 1),
    }
}

fn begins_script(text: &[u8]) -> bool
    ensures yes { OnTrue result ((1 < length text.now) × (slice_index text.now 0 ≡ 35) ×
        (slice_index text.now 1 ≡ 33)) }
    ensures no { OnFalse result (BeginsScript text.now → ⊥) }
{
    match text {
        [b'#', b'!', ..] => true,
        _ => false,
    }
}

/// Where the line ends that is passed over at the beginning, if any.
fn lead_end(text: &[u8]) -> usize
    ensures { HasLead text.now result }
{
    if begins_script(text) {
        return run_end(text, 2, Set::Line);
    }
    0
}

/// The tokens of a text of at most 1,048,576 bytes, in one pass.
///
/// The text is its division into layout, comments and tokens, each the longest at its place, behind
/// a first line that begins with `#!`. A fault is the first one from the left; whether the bytes are
/// UTF-8 is looked at before all else. `Memory` is the one answer that any text may get.
pub fn tokens(alloc: Global, text: &[u8]) -> Result<Tokens, TokenFault>
    requires { length text.now ≤ MAX_FILE }
    ensures ok { IfOk result (λ ts. IsUtf8 text.now × HasTokens text.now ts) }
    ensures err { IfErr result (IsFaultOf text.now) }
{
    let whole = match str::from_utf8(text) {
        Ok(whole) => whole,
        Err(e) => return Err(TokenFault::NotUtf8(e.valid_up_to() as u32)),
    };
    let mut out = Tokens::new(alloc);
    let mut at = lead_end(text);
    let mut spaced = true;
    'pieces: while at < text.len() {
        let (what, end) = piece_at(text, whole, at);
        match what {
            Found::Passed => spaced = true,
            Found::Item(kind) => {
                let (start, end) = (at as u32, end as u32);
                let token = Token {
                    kind,
                    start,
                    end,
                    spaced,
                };
                out.push(token)?;
                spaced = false;
            }
            Found::Bad(fault) => return Err(fault),
        }
        at = end;
    }
    Ok(out)
}

/// The law of one division: a text has at most one list of tokens, at most one first fault, and not
/// both.
pub fn one_division()
    ensures tokens { (text : List ℕ) (ts us : List Token) → HasTokens text ts → HasTokens text us →
        ts ≡ us }
    ensures faults { (text : List ℕ) (f g : TokenFault) → HasFault text f → HasFault text g →
        f ≡ g }
    ensures apart { (text : List ℕ) (ts : List Token) (f : TokenFault) → HasTokens text ts →
        HasFault text f → ⊥ }
    ensures answers { (text : List ℕ) (a b : Result (List Token) TokenFault) → IsDivided text a →
        IsDivided text b → a ≡ b }
{}

/// The law of every division: each text has a list of tokens or a first fault.
pub fn every_text_divides()
    ensures { (text : List ℕ) → (a : Result (List Token) TokenFault) × IsDivided text a }
{}
