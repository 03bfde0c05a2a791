//! The codes of the characters of a text.

ghost use Rattle.std.specs.Prelude.{◌≡◌, ◌+◌, ◌*◌, ◌-◌, ◌≤◌, IfOk};
ghost use Rattle.std.specs.Str.{chars, chars_after, continuation_len, lead_bits};

use apd_base::Ids;
use std::alloc::{AllocError, Global};

/// How many bytes of a character stand behind its first.
fn continuation_len(b: u8) -> usize
    ensures count { result ≡ continuation_len b }
    ensures small { result ≤ 3 }
{
    if b < 128 {
        0
    } else if b < 224 {
        1
    } else if b < 240 {
        2
    } else {
        3
    }
}

/// What the first byte of a character says of its code.
fn lead_bits(b: u8) -> u32
    ensures bits { result ≡ lead_bits b }
    ensures small { result ≤ 127 }
{
    if b < 128 {
        u32::from(b)
    } else if b < 224 {
        u32::from(b.saturating_sub(192))
    } else if b < 240 {
        u32::from(b - 224)
    } else {
        u32::from(b - 240)
    }
}

/// The code with the bits of one more byte.
fn continued(code: u32, b: u8) -> u32
    requires { code ≤ 10000000 }
    ensures bits { result ≡ code * 64 + (b - 128) }
    ensures small { result ≤ 64 * code + 127 }
{
    code * 64 + u32::from(b.saturating_sub(128))
}

/// The codes of a character that has begun and of those behind it.
fn codes_after(alloc: Global, left: usize, code: u32, bytes: &[u8]) -> Result<Ids, AllocError>
    requires few { left ≤ 3 }
    requires small { code ≤ 127 }
    ensures { IfOk result (λ cs. cs ≡ chars_after left code bytes.now) }
{
    let mut codes = Ids::new(alloc);
    let mut left = left;
    let mut code = code;
    'bytes: for b in bytes {
        if left > 0 {
            code = continued(code, *b);
            left -= 1;
        } else {
            codes.push(code)?;
            code = lead_bits(*b);
            left = continuation_len(*b);
        }
    }
    if left == 0 {
        codes.push(code)?;
    }
    Ok(codes)
}

/// The codes of the characters that the bytes spell in UTF-8.
pub(crate) fn codes(alloc: Global, bytes: &[u8]) -> Result<Ids, AllocError>
    ensures { IfOk result (λ cs. cs ≡ chars bytes.now) }
{
    match bytes {
        [] => Ok(Ids::new(alloc)),
        [first, rest @ ..] => {
            let codes = codes_after(alloc, continuation_len(*first), lead_bits(*first), rest)?;
            Ok(codes)
        }
    }
}
