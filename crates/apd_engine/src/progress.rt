//! A run on the way: it passes its items one by one, up to its limits.

ghost use Rattle.std.specs.Prelude.{◌≡◌, ◌-◌, ◌<◌, ◌≤◌, ◌^◌, length, MatchOption, IfNone, Ok};
ghost use Rattle.std.specs.Prelude.{OnOk, IfOk, IfErr};
ghost use Rattle.apd_base.specs.Counts.{Counts};
ghost use Rattle.apd_base.specs.declared.limits.TheConstants.{MOST_SHOWN};
ghost use Rattle.apd_clauses.specs.Clauses.{IsProgram, IsRunnable, tuples_of};
ghost use Rattle.apd_record.specs.Open.{rows_held, told_by, AreIn, MayAdd};
ghost use Rattle.apd_record.specs.Sound.{IsKept};
ghost use Rattle.apd_ports.specs.declared.hook.Shown.TheVariants.{Port as ShownPort, Answer as ShownAnswer};
ghost use Rattle.apd_trace.specs.Run.{shown_of};
ghost use Rattle.apd_engine.specs.Cut.{FailsAt, IsCut, is_write_fault};
ghost use Rattle.apd_engine.specs.Progress.{Course, HasEnded, IsFirst, IsOn, items_left};
ghost use Rattle.apd_engine.specs.Progress.{PassesAnswer, PassesLater};
ghost use Rattle.apd_engine.specs.Recording.{HasRow};
ghost use Rattle.apd_engine.specs.Stepped.{HasStepped};

use crate::given::{Given, Unread, give_up_call};
use crate::recording::tell_later;
use crate::running::RunFault;
use crate::search::{Mode, Search};
use crate::showing::{show_answer, show_call, show_later};
use apd_causes::{Ran, RunEnd};
use apd_clauses::Program;
use apd_ports::{Event, Hook};
use apd_record::Record;
use apd_record::held::Held;
use apd_record::ongoing::Open;
use apd_term::{Flat, Tuple};
use apd_trace::Item;
use std::alloc::{AllocError, Global};
use std::boxed::Box;

/// How many ports and answers a run passes at most.
#[derive(Clone, Copy)]
pub struct Limits {
    pub budget: u32,
    pub answers: u32,
}

/// Where a run stands: its search, what was recorded of it, how many ports and answers were passed, and the point that is
/// held back till a port or an answer is passed after it.
#[derive(Drop)]
pub struct Progress {
    search: Search,
    rows: Open,
    held: Held,
    ports: u32,
    answered: u32,
}

impl Progress {
    /// A run before its first item.
    pub fn open(
        alloc: Global,
        query: &Tuple,
        program: &Program,
    ) -> Result<Box<Progress>, AllocError>
        requires { IsRunnable query.now }
        ensures { IfOk result (λ p. IsFirst query.now p.value) }
    {
        let (search, point) = Search::open_kept(alloc, query, program)?;
        let mut held = Held::none();
        held.put(point);
        let first = Progress {
            search,
            rows: Open::new(alloc),
            held,
            ports: 0,
            answered: 0,
        };
        Ok(Box::new(alloc, first)?)
    }

    /// The record of the run, which is over.
    pub fn into_record(self) -> Record
        requires sound { IsKept (told_by self.search.frames.tuples self.rows) }
        requires there { AreIn self.search.frames.tuples self.rows }
        ensures { result ≡ told_by self.search.frames.tuples self.rows }
    {
        let Progress { search, rows, .. } = self;
        Record::close(rows, search.into_kept())
    }

    /// The run ends so here.
    fn ended(&self, end: RunEnd) -> Ran
        ensures { result ≡
            record { end = end; ports = self.now.ports; answers = self.now.answered } }
    {
        Ran {
            end,
            ports: self.ports,
            answers: self.answered,
        }
    }

    /// Passes a port other than Call; or tells that the budget is spent, and passes nothing.
    #[inline(always)]
    fn pass_later<H: Hook>(
        &mut self,
        limits: Limits,
        hook: &mut H,
        event: &Event,
    ) -> Result<Option<Ran>, RunFault>
        requires within { self.old.ports ≤ limits.budget }
        requires budget_limit { limits.budget ≤ MOST_SHOWN }
        requires held { self.old.ports < limits.budget → MayAdd self.old.rows self.old.held }
        requires there { self.old.ports < limits.budget →
            HasRow (rows_held self.old.rows self.old.held) event.now.box_no }
        requires few_points { length self.old.rows.points < 2 ^ 32 - 1 }
        ensures passed { IfOk result (λ o. PassesLater H.step limits self.old hook.old event.now
            self.new hook.new o) }
        ensures cut { IfErr result (λ fault. (self.old.ports < limits.budget)
            × FailsAt H.step hook.old (ShownPort event.now) hook.new fault) }
        ensures cause { Counts is_write_fault (H.faults hook.old) (H.faults hook.new) result }
    {
        if self.ports == limits.budget {
            return Ok(Some(self.ended(RunEnd::Budget)));
        }
        show_later(hook, &mut self.rows, &mut self.held, event)?;
        self.ports += 1;
        Ok(None)
    }

    /// Passes an answer, and tells where it is the last that is asked for.
    #[inline(always)]
    fn pass_answer<H: Hook>(
        &mut self,
        limits: Limits,
        hook: &mut H,
        values: &Flat,
    ) -> Result<Option<Ran>, RunFault>
        requires below { self.old.answered < limits.answers }
        requires held { MayAdd self.old.rows self.old.held }
        requires few_points { length self.old.rows.points < 2 ^ 32 - 1 }
        ensures answered { IfOk result (λ o. PassesAnswer limits self.old self.new o) }
        ensures shown { OnOk result (H.step hook.old (ShownAnswer values.now) (Ok tt) hook.new) }
        ensures cut { IfErr result (FailsAt H.step hook.old (ShownAnswer values.now) hook.new) }
        ensures cause { Counts is_write_fault (H.faults hook.old) (H.faults hook.new) result }
    {
        show_answer(hook, &mut self.rows, &mut self.held, values)?;
        self.answered += 1;
        if self.answered == limits.answers {
            return Ok(Some(self.ended(RunEnd::AnswerLimit)));
        }
        Ok(None)
    }

    /// Passes the item of which the search gave this, if it did; or tells how the run ended, where it passes no more after this.
    #[inline(always)]
    fn take<H: Hook>(
        &mut self,
        limits: Limits,
        hook: &mut H,
        given: Option<Given>,
    ) -> Result<Option<Ran>, RunFault>
        ghost course: { Course H }
        requires budget_limit { limits.budget ≤ MOST_SHOWN }
        requires answers_limit { limits.answers ≤ MOST_SHOWN }
        requires stepped { HasStepped H.step H.faults course limits given self.old hook.old }
        ensures passed { (s : HasStepped H.step H.faults course limits given self.old hook.old) →
            IfOk result (λ o. MatchOption o
            (IsOn H.step H.faults course s.program limits self.new hook.new)
            (λ ran. HasEnded H.step course self.new hook.new ran)) }
        ensures nearer { (s : HasStepped H.step H.faults course limits given self.old hook.old) →
            IfOk result (λ o. IfNone o
            (items_left limits self.new.ports self.new.answered self.new.search.mode
            < items_left limits self.old.ports self.old.answered s.search.mode)) }
        ensures cut { IfErr result
            (IsCut H.step course.start (shown_of course.run.passed) hook.new) }
        ensures cause { Counts is_write_fault (H.faults course.start) (H.faults hook.new) result }
    {
        let Some(given) = given else {
            return Ok(Some(self.ended(RunEnd::Exhausted)));
        };
        match given {
            Given::Whole(item) => match &*item {
                Item::Made(_) => unreachable!(),
                Item::Error(error, at) => Ok(Some(self.ended(RunEnd::Error(*error, *at)))),
                Item::Passed(event) => {
                    let passed = self.pass_later(limits, hook, event);
                    self.search.frames.give_up(item);
                    passed
                }
                Item::Answer(values) => self.pass_answer(limits, hook, values),
            },
            Given::Point => unreachable!(),
            Given::Kept => Ok(None),
            Given::Call(call) => {
                if self.ports == limits.budget {
                    return Ok(Some(self.ended(RunEnd::Budget)));
                }
                let from = self.search.newest();
                show_call(hook, &mut self.rows, &mut self.held, &call, from)?;
                give_up_call(&mut self.search.frames, call.port);
                self.ports += 1;
                Ok(None)
            }
            Given::Port(port, box_no) => {
                if self.ports == limits.budget {
                    return Ok(Some(self.ended(RunEnd::Budget)));
                }
                tell_later(&mut self.rows, &mut self.held, port, box_no)?;
                self.ports += 1;
                Ok(None)
            }
        }
    }

    /// Passes the next item; or tells how the run ended, where it passes no more after this. What each mode gives is taken in its
    /// own arm: what it may be is known there. It is too large for a hint, and compiled into `pass_all` as its only caller.
    fn pass<H: Hook>(
        &mut self,
        alloc: Global,
        program: &Program,
        limits: Limits,
        hook: &mut H,
    ) -> Result<Option<Ran>, RunFault>
        ghost course: { Course H }
        requires program { IsProgram program.now }
        requires budget_limit { limits.budget ≤ MOST_SHOWN }
        requires answers_limit { limits.answers ≤ MOST_SHOWN }
        requires on { IsOn H.step H.faults course (tuples_of program.now) limits
            self.old hook.old }
        ensures passed { IfOk result (λ o. MatchOption o
            (IsOn H.step H.faults course (tuples_of program.now) limits
            self.new hook.new)
            (λ ran. HasEnded H.step course self.new hook.new ran)) }
        ensures nearer { IfOk result (λ o. IfNone o
            (items_left limits self.new.ports self.new.answered self.new.search.mode
            < items_left limits self.old.ports self.old.answered self.old.search.mode)) }
        ensures cut { IfErr result
            (IsCut H.step course.start (shown_of course.run.passed) hook.new) }
        ensures cause { Counts is_write_fault (H.faults course.start) (H.faults hook.new) result }
    {
        let unread = Unread {
            ports: hook.ignores_ports(),
            points: false,
        };
        match self.search.mode {
            Mode::Forward => {
                let given = self.search.forward(alloc, unread)?;
                self.take(limits, hook, Some(given))
            }
            Mode::Hand(exit) => {
                let given = self
                    .search
                    .hand(alloc, program, exit, unread, &mut self.held)?;
                self.take(limits, hook, given)
            }
            Mode::Leave => {
                let given = self.search.leave(alloc, unread)?;
                self.take(limits, hook, Some(given))
            }
            Mode::Back => {
                let given = self.search.back(alloc, program, unread, &mut self.held)?;
                self.take(limits, hook, given)
            }
        }
    }

    /// Passes items until the run ends, and tells how. It is a function of its own, so that its loop has the registers.
    #[inline(never)]
    pub fn pass_all<H: Hook>(
        &mut self,
        alloc: Global,
        program: &Program,
        limits: Limits,
        hook: &mut H,
    ) -> Result<Ran, RunFault>
        ghost course: { Course H }
        requires program { IsProgram program.now }
        requires budget_limit { limits.budget ≤ MOST_SHOWN }
        requires answers_limit { limits.answers ≤ MOST_SHOWN }
        requires on { IsOn H.step H.faults course (tuples_of program.now) limits
            self.old hook.old }
        ensures ended { IfOk result (λ ran. HasEnded H.step course self.new hook.new ran) }
        ensures cut { IfErr result
            (IsCut H.step course.start (shown_of course.run.passed) hook.new) }
        ensures cause { Counts is_write_fault (H.faults course.start) (H.faults hook.new) result }
    {
        'items: loop {
            if let Some(ran) = self.pass(alloc, program, limits, hook)? {
                return Ok(ran);
            }
        }
    }
}
