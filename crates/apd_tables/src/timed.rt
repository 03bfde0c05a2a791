//! The reading of a file again and again, for the measurement of times.

use apd_io::Files;
use apd_rows::Builder;
use apd_text_tables::put_counts;
use std::alloc::Global;
use std::io;
use std::process::ExitCode;

/// The file's name and how often it is read, where the words ask for that.
pub fn timed(words: &[String]) -> Option<(&str, u32)> {
    match words {
        [_, read, name, times] if read.as_str() == "read" => {
            Some((name.as_str(), times.parse::<u32>().ok()?))
        }
        _ => None,
    }
}

/// Reads a file so many times, and prints how much was read.
pub fn read_file(
    rt: &impl Print,
    alloc: Global,
    files: &mut impl Files,
    name: &str,
    times: u32,
) -> io::Result<ExitCode> {
    let Ok(text) = files.load(alloc, name) else {
        println!(rt; "{name}: no such file")?;
        return Ok(ExitCode::FAILURE);
    };
    let mut counts = Builder::new(alloc);
    put_counts(text.bytes(), times, &mut counts);
    println!(rt; "{} bytes, {}", text.len(), counts.shown())?;
    Ok(ExitCode::SUCCESS)
}
