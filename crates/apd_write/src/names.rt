//! Names: bare, or in quotes.

ghost use Rattle.std.specs.Prelude.{◌≡◌, ◌++◌, ◌<◌, ◌||◌, codes, false, OnOk, OnErr};
ghost use Rattle.std.specs.List.{list_all};
ghost use Rattle.apd_term.specs.Names.{same_text};
ghost use Rattle.apd_token.specs.Bytes.{is_graphic};
ghost use Rattle.apd_write.specs.NameTexts.{is_word_name, is_graphic_name, begins_comment, is_solo_name, is_bracket_name, hex_digit, quoted_byte, quoted, function_text, name_text};

use crate::sheet::Sheet;
use apd_base::Text;
use apd_token::is_graphic;
use std::alloc::{AllocError, Global};

fn are_graphic_bytes(bytes: &[u8]) -> bool
    ensures { result ≡ list_all is_graphic bytes.now }
{
    bytes.iter().all(|b| is_graphic(*b))
}

fn is_full_stop(name: &[u8]) -> bool
    ensures { result ≡ same_text name.now (codes ".") }
{
    name == b".".as_slice()
}

fn begins_comment(name: &[u8]) -> bool
    ensures { result ≡ begins_comment name.now }
{
    name.starts_with(b"/*")
}

/// Graphic characters, not the full stop alone and not with the beginning of a comment.
fn is_graphic_name(name: &[u8]) -> bool
    ensures { result ≡ is_graphic_name name.now }
{
    !name.is_empty() && are_graphic_bytes(name) && !is_full_stop(name) && !begins_comment(name)
}

fn is_solo_name(name: &[u8]) -> bool
    ensures { result ≡ is_solo_name name.now }
{
    name == b"!".as_slice() || name == b";".as_slice()
}

fn is_bracket_name(name: &[u8]) -> bool
    ensures { result ≡ is_bracket_name name.now }
{
    name == b"[]".as_slice() || name == b"{}".as_slice()
}

/// Whether one token without quotes that isn't a word stands for the name.
fn is_other_token(name: &[u8]) -> bool
    ensures { result ≡ (is_graphic_name name.now || is_solo_name name.now) }
{
    is_graphic_name(name) || is_solo_name(name)
}

/// A hexadecimal digit in lower case.
fn hex_digit(digit: u8) -> u8
    requires { digit < 16 }
    ensures { result ≡ hex_digit digit }
{
    if digit < 10 { digit + b'0' } else { digit + 87 }
}

/// Writes a byte between quotes.
fn write_quoted_byte(byte: u8, out: &mut Sheet) -> Result<(), AllocError>
    ensures { OnOk result (out.new ≡ out.old ++ quoted_byte byte) }
{
    match byte {
        b'\\' => out.extend(b"\\\\"),
        b'\'' => out.extend(b"\\'"),
        b'\n' => out.extend(b"\\n"),
        b'\t' => out.extend(b"\\t"),
        0..=31 | 127 => {
            out.extend(b"\\x")?;
            out.push(hex_digit(byte / 16))?;
            out.push(hex_digit(byte % 16))?;
            out.push(b'\\')
        }
        _ => out.push(byte),
    }
}

#[inline(never)]
fn write_quoted(name: &[u8], out: &mut Sheet) -> Result<(), AllocError>
    ensures { OnOk result (out.new ≡ out.old ++ quoted name.now) }
{
    out.push(b'\'')?;
    'bytes: for byte in name {
        write_quoted_byte(*byte, out)?;
    }
    out.push(b'\'')?;
    Ok(())
}

/// Writes a name that isn't a word before its arguments. It isn't inlined: most names of programs are words.
#[inline(never)]
fn write_other_function(name: &[u8], out: &mut Sheet) -> Result<(), AllocError>
    requires { is_word_name name.now ≡ false }
    ensures { OnOk result (out.new ≡ out.old ++ function_text name.now) }
{
    if is_other_token(name) {
        out.extend(name)
    } else {
        write_quoted(name, out)
    }
}

/// Writes a name before its arguments in parentheses: `[]` and `{}` are in quotes there.
#[inline(always)]
pub(crate) fn write_function_name(name: &[u8], out: &mut Sheet) -> Result<(), AllocError>
    ensures { OnOk result (out.new ≡ out.old ++ function_text name.now) }
{
    if out.word(name)? {
        return Ok(());
    }
    write_other_function(name, out)
}

/// Writes a name that isn't a word, as it stands by itself.
#[inline(never)]
fn write_other_name(name: &[u8], out: &mut Sheet) -> Result<(), AllocError>
    requires { is_word_name name.now ≡ false }
    ensures { OnOk result (out.new ≡ out.old ++ name_text name.now) }
{
    if is_bracket_name(name) {
        out.extend(name)
    } else {
        write_other_function(name, out)
    }
}

/// Writes a name as it stands by itself.
#[inline(always)]
pub(crate) fn put_name(name: &[u8], out: &mut Sheet) -> Result<(), AllocError>
    ensures { OnOk result (out.new ≡ out.old ++ name_text name.now) }
{
    if out.word(name)? {
        return Ok(());
    }
    write_other_name(name, out)
}

/// Writes a name as it stands by itself: bare where one token or a pair of brackets stands for it,
/// else in single quotes. After want of memory the text is as it was.
pub fn write_name(alloc: Global, name: &[u8], out: &mut Text) -> Result<(), AllocError>
    ensures text { OnOk result (out.new ≡ out.old ++ name_text name.now) }
    ensures same { OnErr result (out.new ≡ out.old) }
{
    let mut sheet = Sheet::new(alloc);
    put_name(name, &mut sheet)?;
    out.extend(sheet.bytes())
}
