//! How the rows of tables are tried.

use crate::rows::{Row, row_of};
use crate::trial::Trial;
use apd_io::Files;
use std::alloc::Global;
use std::process::ExitCode;
use std::{io, str};

/// The exit status where a row differs, or a table can't be had.
const DIFFERS: u8 = 1;

/// The tables of a program.
pub trait Tables {
    /// Adds what the call that the table of this name is about gives for the row. None where a field isn't what the
    /// table has there, or where there is no such table.
    fn give(&self, name: &str, trial: &mut Trial) -> Option<()>;
}

/// Whether the row of a line gives what it wants; where it doesn't, the line is printed with what it gives.
fn try_row<T: Tables>(
    rt: &impl Print,
    alloc: Global,
    tables: &T,
    name: &str,
    line: &str,
    row: Row,
) -> io::Result<bool> {
    let mut trial = Trial::new(alloc, row)?;
    if tables.give(name, &mut trial).is_none() {
        trial.given.put("no reading");
    }
    let alike = trial.is_alike();
    if !alike {
        let given = trial.given.shown();
        println!(rt; "{line}\n  gives {given}")?;
    }
    // Dropped by calls, here and below: else each part is a step to check.
    drop(trial);
    Ok(alike)
}

/// Tries each row of a table, and prints how many there are and how many of them differ; whether none does.
fn try_rows<T: Tables>(
    rt: &impl Print,
    alloc: Global,
    tables: &T,
    name: &str,
    text: &str,
) -> io::Result<bool> {
    let mut rows: u32 = 0;
    let mut differing: u32 = 0;
    for line in text.lines() {
        let Some(row) = row_of(alloc, line)? else {
            continue;
        };
        rows = rows.saturating_add(1);
        if !try_row(rt, alloc, tables, name, line, row)? {
            differing = differing.saturating_add(1);
        }
    }
    println!(rt; "{name}: {rows} rows, {differing} differ")?;
    Ok(differing == 0)
}

/// Tries the rows of the file `NAME.table`; whether it is there, and no row differs.
fn try_table<T: Tables>(
    rt: &impl Print,
    alloc: Global,
    files: &mut impl Files,
    tables: &T,
    name: &str,
) -> io::Result<bool> {
    let file = format!(in alloc; "{name}.table")?;
    let loaded = files.load(alloc, file.as_str());
    drop(file);
    if let Ok(text) = loaded {
        if let Ok(rows) = str::from_utf8(text.bytes()) {
            let alike = try_rows(rt, alloc, tables, name, rows);
            drop(text);
            return alike;
        }
        drop(text);
    }
    println!(rt; "{name}: no such table")?;
    Ok(false)
}

/// Tries the tables of these names, and answers with the exit status.
pub fn try_tables<T: Tables>(
    rt: &impl Print,
    alloc: Global,
    files: &mut impl Files,
    tables: &T,
    names: &[String],
) -> io::Result<ExitCode> {
    let mut alike = true;
    for name in names {
        alike = try_table(rt, alloc, files, tables, name.as_str())? && alike;
    }
    if alike {
        return Ok(ExitCode::SUCCESS);
    }
    Ok(ExitCode::from(DIFFERS))
}
