//! Tries the rows of all tables: those of texts, of terms and programs, and of runs; and then whole sessions. Prints of each
//! table how many rows there are and which differ, and before them whether real files and streams pass their bytes, and what the
//! diagnoses of records that are made by hand find; at the end, how many sessions there are and which end otherwise than they
//! are to.
//!
//! The words name the tables. Each row of the file `NAME.table` has fields with a tab between them, of which the last is
//! what is wanted of the call that the table is about. Nothing is tried twice: a new case is a new line.
//!
//! Where the last word is `sessions`, the sessions are tried behind the tables: the cases of the files that `sessions/index`
//! names, one in each line. `cases.rt` of apd_sessions says what these have.
//!
//! The words `read`, a file's name and a number have the program read the clauses of the file so many times, and print how much
//! that is, for the measurement of times.
#![tactic(auto)]

mod by_hand;
mod outside;
mod sessions;
mod timed;

use crate::by_hand::print_by_hand;
use crate::sessions::{asked, try_sessions};
use apd_io::DiskFiles;
use apd_program_tables::ProgramTables;
use apd_rows::{Tables, Trial, try_tables};
use apd_run_tables::RunTables;
use apd_text_tables::TextTables;
use std::io;
use std::process::ExitCode;
use timed::{read_file, timed};

/// The tables of all layers.
#[derive(Clone, Copy)]
struct AllTables;

impl Tables for AllTables {
    fn give(&self, name: &str, trial: &mut Trial) -> Option<()> {
        TextTables
            .give(name, trial)
            .or_else(|| ProgramTables.give(name, trial))
            .or_else(|| RunTables.give(name, trial))
    }
}

fn main(rt: HostRuntime) -> io::Result<ExitCode> {
    let alloc = rt.alloc();
    let words = std::env::args(&rt)?.collect::<Vec<String>>(alloc)?;
    let words = words.as_slice();
    let mut files = DiskFiles::new(&rt);
    if let Some((name, times)) = timed(words) {
        return read_file(&rt, alloc, &mut files, name, times);
    }
    if !outside::holds(&rt)? {
        println!(&rt; "outside: a file or a stream doesn't pass its bytes")?;
        return Ok(ExitCode::FAILURE);
    }
    println!(&rt; "outside: files and streams pass their bytes")?;
    print_by_hand(&rt, alloc, &mut files)?;
    let (names, has_sessions) = asked(words);
    let status = try_tables(&rt, alloc, &mut files, &AllTables, names)?;
    if !has_sessions {
        return Ok(status);
    }
    try_sessions(&rt, alloc, &mut files, status)
}
