//! What only the operating system can show: files and streams that are there, and calls that fail.

use apd_base::OVER_MAX_FILE;
use apd_io::{DiskFiles, Files, LoadFault, MAX_FILE, Sink, Source, StdSink, StdSource};
use std::alloc::Global;
use std::{fs, io};

const FOLDER: &str = "outside";

const GIVEN: &str = "outside/given";

const LONG: &str = "outside/long";

/// Whether what a sink took of a file is what a source gives, and then the end.
fn is_passed_on(rt: &HostRuntime) -> io::Result<bool> {
    let mut buf = [0u8; 8];
    let taken = StdSink::new(fs::create(rt, GIVEN)?).write(b"facts");
    let mut source = StdSource::new(fs::open(rt, GIVEN)?);
    let given = source.read(&mut buf);
    let end = source.read(&mut buf[5..]);
    Ok(matches!((taken, given, end), (Ok(5), Ok(5), Ok(0))) && buf.starts_with(b"facts"))
}

/// Whether what a sink took is in the file while the writer, which keeps bytes back, still lives: no contract says that a sink
/// flushes.
fn is_flushed(rt: &HostRuntime, alloc: Global) -> io::Result<bool> {
    let mut sink = StdSink::new(io::BufWriter::new(alloc, fs::create(rt, GIVEN)?)?);
    let taken = sink.write(b"rules");
    let there = DiskFiles::new(rt).load(alloc, GIVEN);
    drop(sink);
    Ok(matches!(taken, Ok(5)) && there.is_ok_and(|text| text.bytes() == b"rules".as_slice()))
}

/// Whether a file that is open to be read takes nothing, also where only the flush fails, and one that is open to be written
/// gives nothing.
fn is_refused(rt: &HostRuntime, alloc: Global) -> io::Result<bool> {
    let written = StdSink::new(fs::open(rt, GIVEN)?).write(b"x");
    let flushed = StdSink::new(io::BufWriter::new(alloc, fs::open(rt, GIVEN)?)?).write(b"x");
    let read = StdSource::new(fs::create(rt, LONG)?).read(&mut [0u8; 8]);
    Ok(written.is_err() && flushed.is_err() && read.is_err())
}

/// Whether a file is loaded whole, and one that isn't there isn't.
fn is_loaded(rt: &HostRuntime, alloc: Global) -> bool {
    let mut files = DiskFiles::new(rt);
    let given = files.load(alloc, GIVEN);
    let none = files.load(alloc, "outside/none");
    given.is_ok_and(|text| text.bytes() == b"facts".as_slice())
        && matches!(none, Err(LoadFault::Failed))
}

/// Whether a file of the greatest length is loaded, and a longer one refused.
fn is_measured(rt: &HostRuntime, alloc: Global) -> io::Result<bool> {
    let mut files = DiskFiles::new(rt);
    let long = fs::File::options().write(true).open(rt, LONG)?;
    long.set_len(1 << 20)?;
    let greatest = files.load(alloc, LONG);
    long.set_len((1 << 20) + 1)?;
    let longer = files.load(alloc, LONG);
    Ok(
        greatest.is_ok_and(|text| text.len() == MAX_FILE)
            && matches!(longer, Err(LoadFault::TooLong(OVER_MAX_FILE))),
    )
}

/// Whether real files and streams pass their bytes, in a folder that is made for it and removed again.
pub fn holds(rt: &HostRuntime) -> io::Result<bool> {
    let alloc = rt.alloc();
    let _ = fs::remove_dir_all(rt, FOLDER);
    fs::create_dir(rt, FOLDER)?;
    let streams = is_flushed(rt, alloc)? && is_passed_on(rt)? && is_refused(rt, alloc)?;
    let files = is_loaded(rt, alloc) && is_measured(rt, alloc)?;
    fs::remove_dir_all(rt, FOLDER)?;
    Ok(streams && files)
}
