//! The run of a query, made again.

ghost use Rattle.std.specs.Prelude.{◌≡◌, IfOk};
ghost use Rattle.apd_clauses.specs.Clauses.{MayRun};
ghost use Rattle.apd_recorded.specs.Told.{record_of};
ghost use Rattle.apd_trace.specs.Run.{ran_of};
ghost use Rattle.apd_again.specs.Again.{answers_again};
ghost use Rattle.apd_check.specs.Checked.{made_again};
ghost use Rattle.apd_claims.specs.Sayable.{IsShown};

use apd_base::MOST_SHOWN;
use apd_causes::{Query, Ran, RunEnd};
use apd_clauses::Program;
use apd_engine::run;
use apd_ports::{Event, Hook, HookFault};
use apd_record::Record;
use apd_term::Flat;
use std::alloc::{AllocError, Global};

/// A hook that ignores all that it is shown.
#[derive(Drop)]
struct Ignoring;

impl Hook for Ignoring {
    ghost faults = { λ h. 0 };

    ghost step = { λ p x r q. Unit {0} };

    fn ignores_ports(&self) -> bool {
        true
    }

    fn event(&mut self, _event: &Event) -> Result<(), HookFault> {
        Ok(())
    }

    fn answer(&mut self, _values: &Flat) -> Result<(), HookFault> {
        Ok(())
    }
}

/// A run that was made again.
#[derive(Drop)]
pub(crate) struct Again {
    pub ran: Ran,
    pub history: Record,
}

/// How many answers are allowed: as many as were shown where these ended the run, else as many as a run may show.
fn answers_again(end: RunEnd, answers: u32) -> u32
    ensures { result ≡ answers_again end answers }
{
    match end {
        RunEnd::AnswerLimit => answers,
        RunEnd::Exhausted | RunEnd::Budget | RunEnd::Error(..) => MOST_SHOWN,
    }
}

/// Runs a query within as many ports as were shown, and as many answers where these ended the run.
pub(crate) fn run_again(
    alloc: Global,
    program: &Program,
    query: &Query,
    shown: Ran,
) -> Result<Again, AllocError>
    requires runnable { MayRun query.now.tuple }
    requires shown { IsShown shown }
    ensures ran { IfOk result (λ a. a.ran ≡ ran_of (made_again program.now query.now shown)) }
    ensures history { IfOk result (λ a.
        a.history ≡ record_of (made_again program.now query.now shown).passed) }
{
    let answers = answers_again(shown.end, shown.answers);
    let mut history = Record::new(alloc);
    match run(
        alloc,
        program,
        query,
        shown.ports,
        answers,
        &mut Ignoring,
        &mut history,
    ) {
        Ok(ran) => Ok(Again { ran, history }),
        Err(_) => {
            // Dropped by a call: else each part of it is a step to check.
            drop(history);
            Err(AllocError)
        }
    }
}
