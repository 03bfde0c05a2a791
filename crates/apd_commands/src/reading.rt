//! What a line asks for, read by what things are said with.

ghost use Rattle.std.specs.Prelude.{◌≡◌, length, IfOk};
ghost use Rattle.apd_commands.specs.Commands.{command_in};
ghost use Rattle.apd_commands.specs.Obeying.{CanObey};
ghost use Rattle.apd_lines.specs.Lines.{LineFits, LineGrows};
ghost use Rattle.apd_read.specs.Reader.{Reader};
ghost use Rattle.apd_talk.specs.Speech.{Lasting, with_names};

use crate::commands::{Command, read_command};
use apd_console::Line;
use apd_io::Sink;
use apd_talk::Voice;
use apd_text::Log;
use std::alloc::{AllocError, Global};

/// The command that a line is, read by the operators of a log, which gets its names.
fn command_in(alloc: Global, log: &mut Log, line: &Line) -> Result<Command, AllocError>
    requires fits { LineFits (length log.old.names) line.now }
    ensures names { LineGrows line.now log.old.names log.new.names }
    ensures command { IfOk result (λ c. Lasting log.new.names (λ n. (reader : Reader n) →
        c ≡ command_in reader log.old.ops line.now)) }
    ensures can { IfOk result (CanObey (length log.new.names)) }
    ensures ops { log.new.ops ≡ log.old.ops }
    ensures entries { log.new.entries ≡ log.old.entries }
{
    read_command(alloc, &log.ops, &mut log.names, line)
}

/// The command that a line is, read by the operators that things are said with; nothing is said.
///
/// # Errors
///
/// Where there was no memory; then, too, the names have only grown.
pub fn command_for<K: Sink>(voice: &mut Voice<K>, line: &Line) -> Result<Command, AllocError>
    requires fits { LineFits (length voice.old.log.names) line.now }
    ensures names { LineGrows line.now voice.old.log.names voice.new.log.names }
    ensures command { IfOk result (λ c. Lasting voice.new.log.names (λ n. (reader : Reader n) →
        c ≡ command_in reader voice.old.log.ops line.now)) }
    ensures can { IfOk result (CanObey (length voice.new.log.names)) }
    ensures stays { voice.new ≡ with_names voice.old voice.new.log.names }
{
    command_in(voice.alloc, voice.log, line)
}
