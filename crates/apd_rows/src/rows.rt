//! The rows of a table.

use crate::builder::Builder;
use apd_base::{Text, VarNames};
use std::alloc::{AllocError, Global};

/// What stands between the items of a field that is a list.
pub const BETWEEN: char = '|';

/// A row of a table: its fields, of which the last is what is wanted.
#[derive(Drop)]
pub struct Row {
    fields: Vec<Vec<u8>>,
}

impl Row {
    /// A field of the row, counted from 0; no byte where there is none.
    pub fn bytes(&self, at: usize) -> &[u8] {
        match self.fields.get(at) {
            Some(field) => field.as_slice(),
            None => &[],
        }
    }

    /// A field of the row as text; empty where it isn't UTF-8.
    pub fn text(&self, at: usize) -> &str {
        match std::str::from_utf8(self.bytes(at)) {
            Ok(text) => text,
            Err(_) => "",
        }
    }

    /// The number in a field, and 0 where there is none.
    pub fn number(&self, at: usize) -> u32 {
        self.text(at).parse::<u32>().unwrap_or(0)
    }

    /// Adds the text that five fields tell: the first repeated, how often, a middle, a back repeated as often, and an end.
    pub fn put_repeated(&self, at: usize, text: &mut Builder) {
        let count = self.number(at.saturating_add(1));
        text.put_times(self.text(at), count);
        text.put(self.text(at.saturating_add(2)));
        text.put_times(self.text(at.saturating_add(3)), count);
        text.put(self.text(at.saturating_add(4)));
    }

    /// The fields from a place on, but for what is wanted.
    pub fn given(&self, from: usize) -> &[Vec<u8>] {
        let end = self.fields.len().saturating_sub(1);
        self.fields.as_slice().get(from..end).unwrap_or(&[])
    }

    /// What is wanted.
    pub fn wanted(&self) -> &[u8] {
        self.bytes(self.fields.len().saturating_sub(1))
    }
}

/// The number that a digit of base 16 stands for.
fn digit_of(byte: u8) -> u8 {
    match byte {
        b'0'..=b'9' => byte - b'0',
        b'a'..=b'f' => byte - b'a' + 10,
        _ => 0,
    }
}

/// How far an escape in a field is read.
#[derive(Clone, Copy)]
enum Escape {
    /// There is none.
    Outside,
    /// A backslash stood last.
    Begun,
    /// `\\x` stood last.
    Numbered,
    /// The first digit of base 16 stood last.
    Halfway(u8),
}

/// What a byte behind a backslash stands for.
fn escaped(byte: u8) -> u8 {
    match byte {
        b'n' => b'\n',
        b't' => b'\t',
        b'r' => b'\r',
        _ => byte,
    }
}

/// The bytes that a field stands for: `\n`, `\t`, `\r` and `\\` are what they are in Rust, and `\xHH` is one byte.
fn unescaped(alloc: Global, field: &str) -> Result<Vec<u8>, AllocError> {
    let mut out = Vec::new(alloc);
    let mut escape = Escape::Outside;
    for byte in field.bytes() {
        let (given, next) = match (escape, byte) {
            (Escape::Outside, b'\\') => (None, Escape::Begun),
            (Escape::Outside, _) => (Some(byte), Escape::Outside),
            (Escape::Begun, b'x') => (None, Escape::Numbered),
            (Escape::Begun, _) => (Some(escaped(byte)), Escape::Outside),
            (Escape::Numbered, _) => (None, Escape::Halfway(digit_of(byte))),
            (Escape::Halfway(high), _) => {
                let low = digit_of(byte);
                (Some(high.wrapping_mul(16) | low), Escape::Outside)
            }
        };
        if let Some(byte) = given {
            out.push(byte)?;
        }
        escape = next;
    }
    Ok(out)
}

/// The texts of a field that is a list; none where it is empty.
pub fn texts_of(alloc: Global, list: &str) -> Result<VarNames, AllocError> {
    let mut texts = VarNames::new(alloc);
    if list.is_empty() {
        return Ok(texts);
    }
    for item in list.split(BETWEEN) {
        let text = Text::copy_of(alloc, item.as_bytes())?;
        texts.push(text)?;
    }
    Ok(texts)
}

/// The row of a line; None of a line that is empty or begins with `#`.
pub fn row_of(alloc: Global, line: &str) -> Result<Option<Row>, AllocError> {
    if line.is_empty() || line.as_bytes().first() == Some(&b'#') {
        return Ok(None);
    }
    let mut fields = Vec::new(alloc);
    for field in line.split('\t') {
        fields.push(unescaped(alloc, field)?)?;
    }
    Ok(Some(Row { fields }))
}
