//! The run of a query over its whole trace.

ghost use Rattle.std.specs.Prelude.{◌≡◌, ◌∷◌, [], ◌+◌, ◌≤◌, ◌<◌, IfOk, MatchOption};
ghost use Rattle.apd_clauses.specs.Clauses.{IsRunnable, tuples_of};
ghost use Rattle.apd_trace.specs.Frames.{query_frame};
ghost use Rattle.apd_trace.specs.Run.{query_run, ran_of, run_of, shown_of};
ghost use Rattle.apd_trace.specs.Trace.{search_from};
ghost use Rattle.apd_by_definition.specs.Searched.{IsFull};
ghost use Rattle.apd_base.specs.declared.limits.TheConstants.{MOST_SHOWN};

use crate::engine::search::trace;
use apd_causes::{Query, Ran, RunEnd};
use apd_clauses::Program;
use apd_ports::Shown;
use apd_trace::Item;
use std::alloc::{AllocError, Global};
use std::collections::VecDeque;

/// What a run shows, and how it ends.
#[derive(Drop)]
pub struct PlainRun {
    /// The ports and the answers in order.
    pub shown: VecDeque<Shown>,
    /// The end and the counts.
    pub ran: Ran,
}

/// A run that showed so many ports and answers, and ended so.
fn ended(end: RunEnd, ports: u32, answers: u32) -> Ran
    ensures { result ≡ record { end = end; ports = ports; answers = answers } }
{
    Ran {
        end,
        ports,
        answers,
    }
}

/// The run over a trace.
fn run_of(
    alloc: Global,
    mut items: VecDeque<Item>,
    budget: u32,
    answers: u32,
) -> Result<PlainRun, AllocError>
    requires { 0 < answers }
    ensures shown { IfOk result (λ r. r.shown.items
        ≡ shown_of (run_of items.items budget answers).passed) }
    ensures ran { IfOk result (λ r. r.ran ≡ ran_of (run_of items.items budget answers)) }
{
    let mut shown = VecDeque::new(alloc);
    let mut ports = 0;
    let mut answered = 0;
    'items: while let Some(item) = items.pop_front() {
        match item {
            Item::Made(_point) => {}
            Item::Error(error, box_no) => {
                let ran = ended(RunEnd::Error(error, box_no), ports, answered);
                return Ok(PlainRun { shown, ran });
            }
            Item::Passed(event) => {
                if ports == budget {
                    let ran = ended(RunEnd::Budget, ports, answered);
                    return Ok(PlainRun { shown, ran });
                }
                shown.push_back(Shown::Port(event))?;
                ports += 1;
            }
            Item::Answer(values) => {
                shown.push_back(Shown::Answer(values))?;
                answered += 1;
                if answered == answers {
                    let ran = ended(RunEnd::AnswerLimit, ports, answered);
                    return Ok(PlainRun { shown, ran });
                }
            }
        }
    }
    let ran = ended(RunEnd::Exhausted, ports, answered);
    Ok(PlainRun { shown, ran })
}

/// The run of a query, shown at once; none only where a search makes as many boxes or points as
/// 32 bits can number. The only error is want of memory.
pub fn plain_run(
    alloc: Global,
    program: &Program,
    query: &Query,
    budget: u32,
    answers: u32,
) -> Result<Option<PlainRun>, AllocError>
    requires runnable { IsRunnable query.now.tuple }
    requires budget { budget ≤ MOST_SHOWN }
    requires answers { 0 < answers }
    ensures { IfOk result (λ o. MatchOption o
        (IsFull (search_from (tuples_of program.now) (budget + 1)
        (query_frame query.now.tuple ∷ []) 0 1))
        (λ r. (r.shown.items ≡ shown_of (query_run
        (tuples_of program.now) query.now.tuple budget answers).passed) ×
        (r.ran ≡ ran_of (query_run (tuples_of program.now) query.now.tuple budget answers)))) }
{
    match trace(alloc, program, &query.tuple, budget + 1)? {
        None => Ok(None),
        Some(items) => Ok(Some(run_of(alloc, items, budget, answers)?)),
    }
}
