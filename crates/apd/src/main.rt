//! The program: its words, files, input and output are the runtime's.
#![tactic(auto)]

ghost use Rattle.std.specs.Prelude.{◌≡◌, ◌≢◌};
ghost use Rattle.std.specs.IoError.{error_kind};

use apd_io::{DiskFiles, StdSink, StdSource};
use apd_session::{Log, Untold, session};
use std::io;
use std::io::ErrorKind;
use std::process::ExitCode;

const NO_WORDS: u8 = 1;

const NO_MEMORY: u8 = 6;

/// The status where the runtime gives no words: memory ran out, or one of them isn't UTF-8.
fn without_words(error: &io::Error) -> u8
    ensures memory { error_kind error.now ≡ ErrorKind.OutOfMemory → result ≡ NO_MEMORY }
    ensures other { error_kind error.now ≢ ErrorKind.OutOfMemory → result ≡ NO_WORDS }
{
    match error.kind() {
        ErrorKind::OutOfMemory => NO_MEMORY,
        _ => NO_WORDS,
    }
}

fn main(rt: HostRuntime) -> ExitCode {
    let alloc = rt.alloc();
    let args = match std::env::args(&rt) {
        Ok(args) => args,
        Err(error) => return ExitCode::from(without_words(&error)),
    };
    let Ok(words) = args.collect::<Vec<String>>(alloc) else {
        return ExitCode::from(NO_MEMORY);
    };
    let Ok(mut log) = Log::new(alloc) else {
        return ExitCode::from(NO_MEMORY);
    };
    let mut files = DiskFiles::new(&rt);
    let mut input = StdSource::new(rt.reader());
    let mut out = StdSink::new(io::writer(&rt));
    let status = session(
        alloc,
        &Untold,
        words.as_slice(),
        &mut files,
        &mut input,
        &mut out,
        &mut log,
    );
    ExitCode::from(status.number())
}
