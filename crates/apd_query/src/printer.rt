//! What a run is shown to: a printer of its lines.

ghost use Rattle.std.specs.Prelude.{◌≡◌, Ok};
ghost use Rattle.apd_io.specs.Outside.{Counts};
ghost use Rattle.apd_ports.specs.Hook.{is_write_fault};
ghost use Rattle.apd_query.specs.Printing.{PrintsLine};

use apd_base::{Text, VarNames};
use apd_io::Sink;
use apd_ports::{Admit, Event, Hook, HookFault};
use apd_talk::Voice;
use apd_term::Flat;
use apd_text::{PortLine, answer_line};
use std::alloc::AllocError;

/// Prints the ports that a filter admits, and the answers with their numbers.
#[derive(Drop)]
pub(crate) struct Printer<'v, 'q, 'a, 'l, 'k, K: Sink> {
    /// Prints the lines, with the names and the operators of its log.
    pub voice: &'v mut Voice<'l, 'k, K>,
    pub vars: &'q VarNames,
    pub admit: &'a mut Admit,
    /// The line of the last port.
    pub line: &'a mut PortLine,
    /// How many answers were printed.
    pub answers: u64,
}

/// Prints a line.
fn print_text<K: Sink>(voice: &mut Voice<K>, text: &[u8]) -> Result<(), HookFault>
    ensures line { PrintsLine voice.old.held voice.new.held (Ok text.now) result }
    ensures log { voice.new.log ≡ voice.old.log }
    ensures over { voice.new.over ≡ voice.old.over }
    ensures cause { Counts is_write_fault voice.old.write_faults voice.new.write_faults result }
{
    match voice.print(text) {
        Ok(()) => Ok(()),
        Err(_) => Err(HookFault::WriteFault),
    }
}

/// Prints a line, where there was memory for it.
fn print_line<K: Sink>(
    voice: &mut Voice<K>,
    line: Result<Text, AllocError>,
) -> Result<(), HookFault>
    ensures line { PrintsLine voice.old.held voice.new.held line result }
    ensures log { voice.new.log ≡ voice.old.log }
    ensures over { voice.new.over ≡ voice.old.over }
    ensures cause { Counts is_write_fault voice.old.write_faults voice.new.write_faults result }
{
    let Ok(text) = line else {
        return Err(HookFault::Memory);
    };
    print_text(voice, text.bytes())
}

impl<K: Sink> Hook for Printer<'_, '_, '_, '_, '_, K> {
    ghost use Rattle.std.specs.Prelude.{OnOk};
    ghost use Rattle.apd_query.specs.Printing.{Prints};
    ghost use Rattle.apd_query.specs.Runs.{next_admission};

    ghost faults = { λ p. p.voice.now.write_faults };

    ghost step = { λ p x r q. (q.voice.ghost_name ≡ p.voice.ghost_name)
        × (q.voice.now.log ≡ p.voice.now.log) × (q.voice.now.over ≡ p.voice.now.over)
        × (q.vars.now ≡ p.vars.now)
        × OnOk r (q.admit.now ≡ next_admission p.admit.now x)
        × Prints p.voice.now.log.ops p.voice.now.log.names p.vars.now p.admit.now
        p.voice.now.held q.voice.now.held p.answers q.answers x r
        × Counts is_write_fault p.voice.now.write_faults q.voice.now.write_faults r };

    fn ignores_ports(&self) -> bool {
        self.admit.admits_nothing()
    }

    fn event(&mut self, event: &Event) -> Result<(), HookFault> {
        match self.admit.admits(event) {
            Ok(true) => {}
            Ok(false) => return Ok(()),
            Err(_) => return Err(HookFault::Memory),
        }
        let log = self.voice.log();
        match self.line.write(&log.names, &log.ops, event) {
            Ok(()) => print_text(self.voice, self.line.bytes()),
            Err(_) => Err(HookFault::Memory),
        }
    }

    fn answer(&mut self, values: &Flat) -> Result<(), HookFault> {
        let number = self.answers.saturating_add(1);
        let log = self.voice.log();
        let alloc = self.voice.alloc();
        let line = answer_line(alloc, &log.names, &log.ops, self.vars, number, values);
        match print_line(self.voice, line) {
            Ok(()) => {
                self.answers = number;
                Ok(())
            }
            Err(fault) => Err(fault),
        }
    }
}
