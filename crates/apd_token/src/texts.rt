//! The characters that an item stands for.

ghost use Rattle.std.specs.Prelude.{◌≡◌, ℕ, ◌<◌, ◌≤◌, List, ◌++◌, length, slice_range, IfOk, OnOk, IsUtf8};
ghost use Rattle.apd_token.specs.Grammar.{IsTokenOf, HasText, ContentOf};
ghost use Rattle.apd_token.specs.Scan.{value_of, Unquotes};
ghost use Rattle.apd_token.specs.declared.items.TokenKind.{TokenKind};
ghost use Rattle.apd_base.specs.declared.limits.TheConstants.{MAX_FILE};

use crate::items::{Token, TokenKind};
use crate::quoted::{ElementValue, element_at};
use apd_base::Text;
use std::alloc::{AllocError, Global};

fn push_value(out: &mut Text, value: ElementValue) -> Result<(), AllocError>
    ensures { OnOk result (out.new ≡ out.old ++ value_of value) }
{
    match value {
        ElementValue::Nothing => Ok(()),
        ElementValue::Byte(b) => out.push(b),
        ElementValue::Char(c) => {
            let mut room = [0u8; 4];
            let bytes = c.encode_utf8(&mut room).as_bytes();
            out.extend(bytes)
        }
    }
}

/// What the elements behind the quote at `at` stand for.
fn unquoted(alloc: Global, text: &[u8], at: usize) -> Result<Text, AllocError>
    requires { at < length text.now }
    ensures { IfOk result (λ v. Unquotes text.now at v) }
{
    let q = text[at];
    let mut out = Text::new(alloc);
    let mut i = at + 1;
    'elements: while let Some((next, value)) = element_at(text, i, q) {
        push_value(&mut out, value)?;
        i = next;
    }
    Ok(out)
}

fn part(alloc: Global, text: &[u8], start: usize, end: usize) -> Result<Text, AllocError>
    requires order { start ≤ end }
    requires within { end ≤ length text.now }
    ensures { IfOk result (λ v. v ≡ slice_range text.now start end) }
{
    Text::copy_of(alloc, &text[start..end])
}

/// The characters that a name, a variable or a quoted item of the text stands for, in UTF-8.
///
/// A name or a variable stands for its own bytes. Between quotes a doubled quote stands for one, an
/// escape for its character, and each other byte for itself. So they are UTF-8 where the text is.
pub fn content(alloc: Global, text: &[u8], token: &Token) -> Result<Text, AllocError>
    requires small { length text.now ≤ MAX_FILE }
    requires token { IsTokenOf text.now token.now }
    requires kind { HasText token.now.kind }
    ensures stands { IfOk result (λ v. ContentOf token.now.kind
        (slice_range text.now token.now.start token.now.end) v) }
    ensures utf8 { IsUtf8 text.now → IfOk result (λ v. IsUtf8 v) }
{
    let start = token.start as usize;
    let end = token.end as usize;
    match token.kind {
        TokenKind::Quoted | TokenKind::Codes => {
            let value = unquoted(alloc, text, start)?;
            Ok(value)
        }
        TokenKind::Name | TokenKind::Variable => {
            let value = part(alloc, text, start, end)?;
            Ok(value)
        }
        _ => unreachable!(),
    }
}

/// The bytes of a name without quotes, which stands for them.
pub fn bare_name<'t>(text: &'t [u8], token: &Token) -> &'t [u8]
    requires small { length text.now ≤ MAX_FILE }
    requires token { IsTokenOf text.now token.now }
    requires kind { token.now.kind ≡ TokenKind.Name }
    ensures bytes { result.now ≡ slice_range text.now token.now.start token.now.end }
    ensures utf8 { IsUtf8 text.now → IsUtf8 result.now }
{
    &text[token.start as usize..token.end as usize]
}

/// The law of one content: an item stands for one text.
pub fn one_content()
    ensures { (k : TokenKind) (bytes u v : List ℕ) → HasText k → ContentOf k bytes u →
        ContentOf k bytes v → u ≡ v }
{}
