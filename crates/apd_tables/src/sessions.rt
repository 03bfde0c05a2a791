//! The cases of sessions.

use apd_io::Files;
use apd_sessions::play_all;
use std::alloc::Global;
use std::io;
use std::process::ExitCode;

/// The word that has the cases of sessions tried.
const WORD: &str = "sessions";

/// The file that names the files of cases.
const INDEX: &str = "sessions/index";

/// The words that name tables, and whether the last word has the cases of sessions tried.
pub fn asked(words: &[String]) -> (&[String], bool) {
    match words {
        [_, tables @ .., last] if last.as_str() == WORD => (tables, true),
        [_, tables @ ..] => (tables, false),
        [] => (&[], false),
    }
}

/// Tries the cases of sessions; the exit status, which stays where each of them ends as it is to.
pub fn try_sessions(
    rt: &impl Print,
    alloc: Global,
    files: &mut impl Files,
    status: ExitCode,
) -> io::Result<ExitCode> {
    match play_all(rt, alloc, files, INDEX) {
        Ok(true) => Ok(status),
        Ok(false) => Ok(ExitCode::FAILURE),
        Err(fault) => {
            println!(rt; "{WORD}: {fault}")?;
            Ok(ExitCode::FAILURE)
        }
    }
}
