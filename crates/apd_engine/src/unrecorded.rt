//! A run on the way that leaves no record: its ports and answers are shown, and no point of it is written out.

ghost use Rattle.std.specs.Prelude.{◌≡◌, ◌<◌, ◌≤◌, MatchOption, IfNone, IfOk, IfErr};
ghost use Rattle.apd_base.specs.Counts.{Counts};
ghost use Rattle.apd_base.specs.declared.limits.TheConstants.{MOST_SHOWN};
ghost use Rattle.apd_clauses.specs.Clauses.{IsProgram, IsRunnable, tuples_of};
ghost use Rattle.apd_trace.specs.Run.{shown_of};
ghost use Rattle.apd_engine.specs.Cut.{IsCut, is_write_fault};
ghost use Rattle.apd_engine.specs.Progress.{Course, HasShown, items_left};
ghost use Rattle.apd_engine.specs.Unrecorded.{IsFirstShown, IsShowing};

use crate::given::{Given, Unread};
use crate::progress::Limits;
use crate::running::RunFault;
use crate::search::Search;
use apd_causes::{Ran, RunEnd};
use apd_clauses::Program;
use apd_ports::Hook;
use apd_record::held::Held;
use apd_term::Tuple;
use apd_trace::Item;
use std::alloc::{AllocError, Global};
use std::boxed::Box;

/// Where such a run stands: its search, and how many ports and answers were passed.
#[derive(Drop)]
pub struct Unrecorded {
    search: Search,
    ports: u32,
    answered: u32,
}

impl Unrecorded {
    /// A run before its first item.
    pub fn open(
        alloc: Global,
        query: &Tuple,
        program: &Program,
    ) -> Result<Box<Unrecorded>, AllocError>
        requires { IsRunnable query.now }
        ensures { IfOk result (λ p. IsFirstShown query.now p.value) }
    {
        let first = Unrecorded {
            search: Search::open(alloc, query, program)?,
            ports: 0,
            answered: 0,
        };
        Ok(Box::new(alloc, first)?)
    }

    /// The run ends so here.
    fn ended(&self, end: RunEnd) -> Ran
        ensures { result ≡
            record { end = end; ports = self.now.ports; answers = self.now.answered } }
    {
        Ran {
            end,
            ports: self.ports,
            answers: self.answered,
        }
    }

    /// Passes the next item; or tells how the run ended, where it passes no more after this.
    fn pass<H: Hook>(
        &mut self,
        alloc: Global,
        program: &Program,
        limits: Limits,
        hook: &mut H,
    ) -> Result<Option<Ran>, RunFault>
        ghost course: { Course H }
        requires program { IsProgram program.now }
        requires budget_limit { limits.budget ≤ MOST_SHOWN }
        requires answers_limit { limits.answers ≤ MOST_SHOWN }
        requires on { IsShowing H.step H.faults course (tuples_of program.now) limits
            self.old hook.old }
        ensures passed { IfOk result (λ o. MatchOption o
            (IsShowing H.step H.faults course (tuples_of program.now) limits self.new hook.new)
            (λ ran. HasShown H.step course hook.new ran)) }
        ensures nearer { IfOk result (λ o. IfNone o
            (items_left limits self.new.ports self.new.answered self.new.search.mode
            < items_left limits self.old.ports self.old.answered self.old.search.mode)) }
        ensures cut { IfErr result
            (IsCut H.step course.start (shown_of course.run.passed) hook.new) }
        ensures cause { Counts is_write_fault (H.faults course.start) (H.faults hook.new) result }
    {
        let unread = Unread {
            ports: hook.ignores_ports(),
            points: true,
        };
        let mut held = Held::none();
        let Some(given) = self.search.next(alloc, program, unread, &mut held)? else {
            return Ok(Some(self.ended(RunEnd::Exhausted)));
        };
        match given {
            Given::Whole(item) => match &*item {
                Item::Made(_) => Ok(None),
                Item::Error(error, at) => Ok(Some(self.ended(RunEnd::Error(*error, *at)))),
                Item::Passed(event) => {
                    if self.ports == limits.budget {
                        return Ok(Some(self.ended(RunEnd::Budget)));
                    }
                    hook.event(event)?;
                    self.search.frames.give_up(item);
                    self.ports += 1;
                    Ok(None)
                }
                Item::Answer(values) => {
                    hook.answer(values)?;
                    self.answered += 1;
                    if self.answered == limits.answers {
                        return Ok(Some(self.ended(RunEnd::AnswerLimit)));
                    }
                    Ok(None)
                }
            },
            Given::Point => Ok(None),
            Given::Kept => unreachable!(),
            Given::Call(_) => unreachable!(),
            Given::Port(_, _) => {
                if self.ports == limits.budget {
                    return Ok(Some(self.ended(RunEnd::Budget)));
                }
                self.ports += 1;
                Ok(None)
            }
        }
    }

    /// Passes items until the run ends, and tells how.
    pub fn pass_all<H: Hook>(
        &mut self,
        alloc: Global,
        program: &Program,
        limits: Limits,
        hook: &mut H,
    ) -> Result<Ran, RunFault>
        ghost course: { Course H }
        requires program { IsProgram program.now }
        requires budget_limit { limits.budget ≤ MOST_SHOWN }
        requires answers_limit { limits.answers ≤ MOST_SHOWN }
        requires on { IsShowing H.step H.faults course (tuples_of program.now) limits
            self.old hook.old }
        ensures ended { IfOk result (λ ran. HasShown H.step course hook.new ran) }
        ensures cut { IfErr result
            (IsCut H.step course.start (shown_of course.run.passed) hook.new) }
        ensures cause { Counts is_write_fault (H.faults course.start) (H.faults hook.new) result }
    {
        'items: loop {
            if let Some(ran) = self.pass(alloc, program, limits, hook)? {
                return Ok(ran);
            }
        }
    }
}
