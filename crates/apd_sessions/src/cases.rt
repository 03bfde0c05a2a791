//! The cases of a file, from its lines.
//!
//!     case NAME
//!     words: --trace p
//!     file p:
//!     | q(1).
//!     input:
//!     | ?- q(X).
//!     fails: 0 0 3
//!     room: 50
//!     read: by line
//!     status: 5
//!     output:
//!     | loaded: 1 clauses
//!     last: TEXT
//!     case NAME like NAME
//!     pieces: 3
//!
//! What is left out is none, and its status 0. `fails` has the numbers of the load, the read and the write that fail.
//! With `read: by line` the input is read a line at a time, and the output that is wanted has each line where it was read,
//! behind `< `, and `<` where nothing was left. `pieces: 3` has at most three bytes pass in a read or a write. `last` has the
//! text of the log's last entry, which isn't looked at otherwise. A case that is like an earlier one of the file has its
//! words, files and input, and what stands below comes behind them. There may be several files, and blocks of any length
//! (`blocks.rt`). Lines that are empty or begin with `#` say nothing.

use crate::blocks::{is_block_line, put_line};
use crate::case::{Case, Failing, NamedFile, Passing};
use crate::fault::CaseFault;
use apd_base::Text;
use std::alloc::Global;

/// Where the lines of a block go.
#[derive(Clone, Copy)]
enum Block {
    None,
    File,
    Input,
    Output,
}

/// The number that a text is.
fn number(text: &str) -> Result<u32, CaseFault> {
    match text.parse::<u32>() {
        Ok(number) => Ok(number),
        Err(_) => Err(CaseFault::Line),
    }
}

/// Three numbers.
fn failing(text: &str) -> Result<Failing, CaseFault> {
    let Some((load, rest)) = text.split_once(' ') else {
        return Err(CaseFault::Line);
    };
    let Some((read, write)) = rest.split_once(' ') else {
        return Err(CaseFault::Line);
    };
    let load = number(load)?;
    let read = number(read)?;
    let write = number(write)?;
    Ok(Failing { load, read, write })
}

/// The status that a text is.
fn status(text: &str) -> Result<u8, CaseFault> {
    match text.parse::<u8>() {
        Ok(status) => Ok(status),
        Err(_) => Err(CaseFault::Line),
    }
}

/// How a text says that the input is read.
fn passing(text: &str) -> Result<Passing, CaseFault> {
    match text {
        "by line" => Ok(Passing::Lines),
        _ => Err(CaseFault::Line),
    }
}

/// A line of a text, with its newline.
fn line_of(alloc: Global, text: &str) -> Result<Text, CaseFault> {
    let mut line = Text::copy_of(alloc, text.as_bytes())?;
    line.push(b'\n')?;
    Ok(line)
}

impl Case {
    /// Puts the words of a text behind those of the case.
    fn add_words(&mut self, alloc: Global, text: &str) -> Result<(), CaseFault> {
        for word in text.split_whitespace() {
            let word = String::from_str(alloc, word)?;
            self.words.push(word)?;
        }
        Ok(())
    }

    /// Puts an empty file of this name behind those of the case.
    fn add_file(&mut self, alloc: Global, name: &str) -> Result<(), CaseFault> {
        let name = String::from_str(alloc, name)?;
        let content = Text::new(alloc);
        self.files.push(NamedFile { name, content })?;
        Ok(())
    }

    /// Takes a line that has a key.
    fn take_key(&mut self, alloc: Global, key: &str, value: &str) -> Result<(), CaseFault> {
        match key {
            "words" => self.add_words(alloc, value)?,
            "fails" => self.failing = failing(value)?,
            "room" => self.room = number(value)?,
            "read" => self.passing = passing(value)?,
            "pieces" => self.passing = Passing::Pieces(number(value)?),
            "last" => self.last = Some(line_of(alloc, value)?),
            "status" => self.status = status(value)?,
            _ => return Err(CaseFault::Line),
        }
        Ok(())
    }

    /// Takes a line that begins a block.
    fn take_block(&mut self, alloc: Global, head: &str) -> Result<Block, CaseFault> {
        match head {
            "input" => return Ok(Block::Input),
            "output" => return Ok(Block::Output),
            _ => {}
        }
        let Some(name) = head.strip_prefix("file ") else {
            return Err(CaseFault::Line);
        };
        self.add_file(alloc, name)?;
        Ok(Block::File)
    }

    /// Takes a line of a block.
    fn take_text(&mut self, alloc: Global, block: Block, line: &str) -> Result<(), CaseFault> {
        match block {
            Block::None => Err(CaseFault::Line),
            Block::File => match self.files.last_mut() {
                Some(file) => put_line(alloc, &mut file.content, line),
                None => Err(CaseFault::Line),
            },
            Block::Input => put_line(alloc, &mut self.input, line),
            Block::Output => put_line(alloc, &mut self.output, line),
        }
    }

    /// Takes a line, which may begin a block, and tells the block that it stands in.
    fn take(&mut self, alloc: Global, block: Block, line: &str) -> Result<Block, CaseFault> {
        if is_block_line(line) {
            self.take_text(alloc, block, line)?;
            return Ok(block);
        }
        if let Some((key, value)) = line.split_once(": ") {
            self.take_key(alloc, key, value)?;
            return Ok(Block::None);
        }
        match line.strip_suffix(':') {
            Some(head) => self.take_block(alloc, head),
            None => Err(CaseFault::Line),
        }
    }
}

/// The case that begins with these words: a new one, or one that is like another of those so far.
fn begun(alloc: Global, cases: &[Case], head: &str) -> Result<Case, CaseFault> {
    let Some((name, other)) = head.split_once(" like ") else {
        return Ok(Case::new(alloc, head)?);
    };
    for case in cases {
        if case.name.as_str() == other {
            return Ok(case.like(alloc, name)?);
        }
    }
    Err(CaseFault::Line)
}

/// Takes a line of a file of cases, and tells the block that it stands in.
fn take_line(
    alloc: Global,
    cases: &mut Vec<Case>,
    block: Block,
    line: &str,
) -> Result<Block, CaseFault> {
    if line.is_empty() || line.starts_with('#') {
        return Ok(block);
    }
    if let Some(head) = line.strip_prefix("case ") {
        let case = begun(alloc, cases.as_slice(), head)?;
        cases.push(case)?;
        return Ok(Block::None);
    }
    match cases.last_mut() {
        Some(case) => case.take(alloc, block, line),
        None => Err(CaseFault::Line),
    }
}

/// Takes the lines of a file of cases.
fn take_lines(alloc: Global, cases: &mut Vec<Case>, text: &str) -> Result<(), CaseFault> {
    let mut block = Block::None;
    for line in text.lines() {
        block = take_line(alloc, cases, block, line)?;
    }
    Ok(())
}

/// The cases of a text.
pub fn cases_of(alloc: Global, text: &str) -> Result<Vec<Case>, CaseFault> {
    let mut cases = Vec::new(alloc);
    match take_lines(alloc, &mut cases, text) {
        Ok(()) => Ok(cases),
        Err(fault) => {
            drop(cases);
            Err(fault)
        }
    }
}
