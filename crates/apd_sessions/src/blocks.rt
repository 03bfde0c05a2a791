//! The lines of a block: text that is written as it stands, repeated, or in hexadecimal.
//!
//! `| TEXT` is a line, `+ TEXT` is text without a newline, and `x 1B FF` are bytes. `*N ` before one of these repeats it.

use crate::fault::CaseFault;
use apd_base::Text;
use std::alloc::{AllocError, Global};

/// Whether a line belongs to a block.
pub fn is_block_line(line: &str) -> bool {
    line.starts_with('|') || line.starts_with('+') || line.starts_with('x') || line.starts_with('*')
}

/// Puts bytes that are written in hexadecimal behind a text.
fn put_bytes(out: &mut Text, pairs: &str) -> Result<(), CaseFault> {
    for pair in pairs.split_whitespace() {
        let Ok(byte) = u8::from_str_radix(pair, 16) else {
            return Err(CaseFault::Line);
        };
        out.push(byte)?;
    }
    Ok(())
}

/// Puts a text and a newline behind a text.
fn put_with_newline(out: &mut Text, line: &str) -> Result<(), CaseFault> {
    out.extend(line.as_bytes())?;
    out.push(b'\n')?;
    Ok(())
}

/// Puts the bytes of a line that isn't repeated behind a text.
fn put_piece(out: &mut Text, line: &str) -> Result<(), CaseFault> {
    if line == "|" {
        return put_with_newline(out, "");
    }
    if let Some(rest) = line.strip_prefix("| ") {
        return put_with_newline(out, rest);
    }
    if let Some(rest) = line.strip_prefix("+ ") {
        out.extend(rest.as_bytes())?;
        return Ok(());
    }
    match line.strip_prefix("x ") {
        Some(rest) => put_bytes(out, rest),
        None => Err(CaseFault::Line),
    }
}

/// Puts a text behind itself.
fn double(alloc: Global, text: &mut Text) -> Result<(), AllocError> {
    let same = Text::copy_of(alloc, text.bytes())?;
    text.extend(same.bytes())
}

/// Puts a text so many times behind another, by pieces that get twice as long.
fn put_times(
    alloc: Global,
    out: &mut Text,
    piece: &mut Text,
    times: u32,
) -> Result<(), AllocError> {
    let mut left = times;
    for _bit in 0..32 {
        if left % 2 == 1 {
            out.extend(piece.bytes())?;
        }
        left /= 2;
        if left == 0 {
            return Ok(());
        }
        double(alloc, piece)?;
    }
    Ok(())
}

/// Puts the bytes of a line of a block behind a text.
pub fn put_line(alloc: Global, out: &mut Text, line: &str) -> Result<(), CaseFault> {
    let Some(repeated) = line.strip_prefix('*') else {
        return put_piece(out, line);
    };
    let Some((times, rest)) = repeated.split_once(' ') else {
        return Err(CaseFault::Line);
    };
    let Ok(times) = times.parse::<u32>() else {
        return Err(CaseFault::Line);
    };
    let mut piece = Text::new(alloc);
    put_piece(&mut piece, rest)?;
    put_times(alloc, out, &mut piece, times)?;
    Ok(())
}
