//! The run of a query.

ghost use Rattle.std.specs.Prelude.{◌≡◌, ◌<◌, ◌≤◌, [], ◌∷◌, length, OnOk, OnErr, IfOk};
ghost use Rattle.apd_clauses.specs.Clauses.{MayRun};
ghost use Rattle.apd_console.specs.Print.{AddsFront};
ghost use Rattle.apd_io.specs.Outside.{Adds};
ghost use Rattle.apd_term.specs.Named.{TupleIsNamed};
ghost use Rattle.apd_text.specs.Entries.{Finishes};
ghost use Rattle.apd_text.specs.Lines.{end_text};
ghost use Rattle.apd_trace.specs.Run.{ran_of};
ghost use Rattle.apd_words.specs.Words.{AreLimits};
ghost use Rattle.apd_query.specs.Printed.{lines_by};
ghost use Rattle.apd_query.specs.Running.{Begins, BeginsFront, IsReady, IsRecordOf, IsRunOf, lines_of};
ghost use Rattle.apd_query.specs.Runs.{last_run, run_in, said_for};
ghost use Rattle.apd_talk.specs.Speech.{HasWriteCause, Says, Stays};

use crate::printer::Printer;
use crate::state::{LastRun, State};
use apd_causes::{Query, Ran};
use apd_engine::{RunFault, run};
use apd_io::Sink;
use apd_ports::Admit;
use apd_record::Record;
use apd_talk::{Trouble, Voice};
use apd_text::{Entry, PortLine, end_line, head_line};

/// Puts the entry of a run into the log, and prints its first line.
fn begin_run<K: Sink>(state: &State, query: &Query, voice: &mut Voice<K>) -> Result<(), Trouble>
    ensures ok { OnOk result (Begins state.now query.now voice.old voice.new) }
    ensures err { OnErr result (BeginsFront state.now query.now voice.old voice.new) }
    ensures stays { Stays voice.old voice.new }
    ensures cause { HasWriteCause voice.old.write_faults voice.new.write_faults result }
{
    let alloc = voice.alloc();
    let log = voice.log();
    let head = head_line(alloc, &log.names, &log.ops, query)?;
    let kept = query.copy(alloc)?;
    let filter = state.filter.copy(alloc)?;
    let entry = Entry::Run {
        query: kept,
        budget: state.budget,
        answers: state.answers,
        filter,
        end: None,
    };
    voice.push(entry)?;
    voice.print(head.bytes())?;
    Ok(())
}

/// Searches, shows the printer the ports and the answers, and records what is passed.
fn show_to<K: Sink>(
    state: &State,
    query: &Query,
    printer: &mut Printer<K>,
    history: &mut Record,
) -> Result<Ran, Trouble>
    requires limits { AreLimits state.now.budget state.now.answers }
    requires runnable { MayRun query.now.tuple }
    requires start { printer.old.answers ≡ 0 }
    ensures same_voice { printer.new.voice.ghost_name ≡ printer.old.voice.ghost_name }
    ensures log { printer.new.voice.now.log ≡ printer.old.voice.now.log }
    ensures over { printer.new.voice.now.over ≡ printer.old.voice.now.over }
    ensures ran { IfOk result (λ r. r ≡ ran_of (run_in state.now query.now)) }
    ensures lines { OnOk result (Adds printer.old.voice.now.held printer.new.voice.now.held
        (lines_by printer.old (run_in state.now query.now))) }
    ensures err { OnErr result (AddsFront printer.old.voice.now.held printer.new.voice.now.held
        (lines_by printer.old (run_in state.now query.now))) }
    ensures kept { OnOk result (IsRecordOf state.now query.now history.new) }
    ensures cause { HasWriteCause
        printer.old.voice.now.write_faults printer.new.voice.now.write_faults result }
{
    let alloc = printer.voice.alloc();
    match run(
        alloc,
        &state.program,
        query,
        state.budget,
        state.answers,
        printer,
        history,
    ) {
        Ok(ran) => Ok(ran),
        Err(RunFault::WriteFault) => Err(Trouble::WriteFault),
        Err(RunFault::Memory) => Err(Trouble::Memory),
    }
}

/// Searches, prints the ports that the filter admits and the answers, and records what is passed.
fn search<K: Sink>(
    state: &State,
    query: &Query,
    voice: &mut Voice<K>,
    history: &mut Record,
) -> Result<Ran, Trouble>
    requires ready { IsReady (length voice.old.log.names) state.now }
    requires runnable { MayRun query.now.tuple }
    ensures ran { IfOk result (λ r. r ≡ ran_of (run_in state.now query.now)) }
    ensures lines { OnOk result (Adds voice.old.held voice.new.held
        (lines_of voice.old.log.ops voice.old.log.names state.now query.now)) }
    ensures err { OnErr result (AddsFront voice.old.held voice.new.held
        (lines_of voice.old.log.ops voice.old.log.names state.now query.now)) }
    ensures kept { OnOk result (IsRecordOf state.now query.now history.new) }
    ensures log { voice.new.log ≡ voice.old.log }
    ensures over { voice.new.over ≡ voice.old.over }
    ensures cause { HasWriteCause voice.old.write_faults voice.new.write_faults result }
{
    let alloc = voice.alloc();
    let mut admit = Admit::new(alloc, &state.filter)?;
    let mut line = PortLine::new(alloc);
    let mut printer = Printer {
        voice,
        vars: &query.vars,
        admit: &mut admit,
        line: &mut line,
        answers: 0,
    };
    show_to(state, query, &mut printer, history)
}

/// Sets the end of a run in the log, and prints its last line.
fn end_run<K: Sink>(ran: Ran, voice: &mut Voice<K>) -> Result<(), Trouble>
    ensures finished { Finishes voice.old.log.entries.list ran voice.new.log.entries.list }
    ensures ok { OnOk result (Adds voice.old.held voice.new.held (end_text ran)) }
    ensures err { OnErr result (AddsFront voice.old.held voice.new.held (end_text ran)) }
    ensures stays { Stays voice.old voice.new }
    ensures cause { HasWriteCause voice.old.write_faults voice.new.write_faults result }
{
    voice.finish(ran);
    let end = end_line(voice.alloc(), ran)?;
    voice.print(end.bytes())?;
    Ok(())
}

/// Says a query's run: its entry, its lines and its end. What is passed is recorded.
fn say_run<K: Sink>(
    state: &State,
    query: &Query,
    voice: &mut Voice<K>,
    history: &mut Record,
) -> Result<Ran, Trouble>
    requires ready { IsReady (length voice.old.log.names) state.now }
    requires runnable { MayRun query.now.tuple }
    requires named { TupleIsNamed (length voice.old.log.names) query.now.tuple }
    ensures ran { IfOk result (λ r. r ≡ ran_of (run_in state.now query.now)) }
    ensures kept { OnOk result (IsRecordOf state.now query.now history.new) }
    ensures says { Says (λ ops names. said_for ops names state.now query.now ∷ [])
        voice.old voice.new result }
{
    begin_run(state, query, voice)?;
    let ran = search(state, query, voice, history)?;
    end_run(ran, voice)?;
    Ok(ran)
}

/// Runs a query: its entry, its lines and its end. The answer is the run as it is kept, with the record that it left.
///
/// # Errors
///
/// [`Trouble::Memory`] where there was no memory, [`Trouble::WriteFault`] where a write failed: a front of it was said.
pub fn run_query<K: Sink>(
    state: &State,
    query: Query,
    voice: &mut Voice<K>,
) -> Result<LastRun, Trouble>
    requires ready { IsReady (length voice.old.log.names) state.now }
    requires runnable { MayRun query.tuple }
    requires named { TupleIsNamed (length voice.old.log.names) query.tuple }
    ensures run { IfOk result (λ r. r ≡ last_run state.now query) }
    ensures kept { IfOk result (IsRunOf (length voice.old.log.names) state.now) }
    ensures says { Says (λ ops names. said_for ops names state.now query ∷ [])
        voice.old voice.new result }
{
    let mut history = Record::new(voice.alloc());
    match say_run(state, &query, voice, &mut history) {
        Ok(ran) => Ok(LastRun {
            query,
            history,
            end: ran.end,
        }),
        Err(trouble) => {
            // Dropped by calls: an end of the scope would drop them field by field, in as many
            // steps to check.
            drop(query);
            drop(history);
            Err(trouble)
        }
    }
}
