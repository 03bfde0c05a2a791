//! A search whose innermost frame goes on: it calls its next goal, or exits, or answers.

ghost use Rattle.std.specs.Prelude.{◌≡◌, ℕ, OnOk, IfOk, ◌<◌, ◌+◌, ◌-◌, ◌^◌};
ghost use Rattle.apd_frames.specs.Kept.{ahead_of};
ghost use Rattle.apd_trace.specs.Frames.{look_of};
ghost use Rattle.apd_engine.specs.Search.{GivesAlways, IsOpen, Waits, called_at, in_mode, left_at, stand};
ghost use Rattle.apd_engine.specs.Given.{IsCalled, IsToldWhole, MayBeWhole, TellsAlways};

use crate::choices::push;
use crate::given::{Given, ToldCall, Unread, event, is_user, whole_again};
use crate::search::{Choice, Mode, Search};
use apd_frames::ahead::Ahead;
use apd_ports::Port;
use apd_trace::{Item, Look};
use std::alloc::{AllocError, Global};
use std::boxed::Box;

impl Search {
    /// The innermost frame calls its next goal, or exits, or answers.
    #[inline(always)]
    pub fn forward(&mut self, alloc: Global, unread: Unread) -> Result<Given, AllocError>
        requires boxes { self.old.boxes < 2 ^ 32 - 1 }
        requires waits { Waits (stand self.old) }
        requires goes { IsOpen self.old.boxes self.old.frames.current }
        ensures told { IfOk result (λ given. TellsAlways unread given
            (GivesAlways (in_mode Mode.Forward (stand self.old)) (stand self.new))) }
        ensures tuples { OnOk result (self.new.frames.tuples ≡ self.old.frames.tuples) }
    {
        match self.frames.ahead() {
            Ahead::Call => self.call(alloc, unread),
            Ahead::Exit(box_no, exit) => {
                if unread.ports {
                    self.exit(exit)?;
                    return Ok(Given::Port(Port::Exit, box_no));
                }
                let item = self.ends(alloc)?;
                Ok(Given::Whole(item))
            }
            _ => {
                let item = self.ends(alloc)?;
                Ok(Given::Whole(item))
            }
        }
    }

    /// The innermost frame calls its next goal.
    #[inline(always)]
    fn call(&mut self, alloc: Global, unread: Unread) -> Result<Given, AllocError>
        requires boxes { self.old.boxes < 2 ^ 32 - 1 }
        requires waits { Waits (stand self.old) }
        requires goes { IsOpen self.old.boxes self.old.frames.current }
        requires calls { (n : ℕ) → Ahead.Call ≡ ahead_of (look_of self.old.frames.current n) }
        ensures told { IfOk result (λ given. TellsAlways unread given
            (GivesAlways (in_mode Mode.Forward (stand self.old)) (stand self.new))) }
        ensures tuples { OnOk result (self.new.frames.tuples ≡ self.old.frames.tuples) }
    {
        if unread.points {
            if unread.ports {
                self.step_in()?;
                return Ok(Given::Port(Port::Call, self.boxes));
            }
            let port = self.called()?;
            self.step_in()?;
            return whole_again(&mut self.frames, alloc, port);
        }
        // Asked before the port is written out: the innermost frame's link, which was looked up
        // just before, needn't be looked up again then.
        let is_user = is_user(self.frames.predicate());
        // Only calls of the program's own stand in chains, whose sizes are compared.
        let size = self.frames.goal_size(is_user)?;
        let port = self.read_call(alloc, unread)?;
        self.step_in()?;
        Ok(Given::Call(ToldCall {
            size,
            is_user,
            port,
        }))
    }

    /// The Call of the innermost frame's next goal, in a new box.
    #[inline(always)]
    fn called(&mut self) -> Result<Item, AllocError>
        requires boxes { self.old.boxes < 2 ^ 32 - 1 }
        requires goes { IsOpen self.old.boxes self.old.frames.current }
        requires calls { (n : ℕ) → Ahead.Call ≡ ahead_of (look_of self.old.frames.current n) }
        ensures called { IfOk result
            (λ i. IsCalled self.old.frames.current (self.old.boxes + 1) i) }
        ensures kept { self.new ≡ self.old }
    {
        match self.frames.look(self.boxes + 1)? {
            Look::Goal(g) => Ok(event(Port::Call, g)),
            _ => unreachable!(),
        }
    }

    /// The Call of the innermost frame's next goal, where somebody reads ports.
    #[inline(always)]
    fn read_call(&mut self, alloc: Global, unread: Unread) -> Result<Option<Box<Item>>, AllocError>
        requires boxes { self.old.boxes < 2 ^ 32 - 1 }
        requires goes { IsOpen self.old.boxes self.old.frames.current }
        requires calls { (n : ℕ) → Ahead.Call ≡ ahead_of (look_of self.old.frames.current n) }
        ensures called { IfOk result (λ o. IsToldWhole unread
            (IsCalled self.old.frames.current (self.old.boxes + 1)) o) }
        ensures kept { self.new ≡ self.old }
    {
        if unread.ports {
            return Ok(None);
        }
        let port = self.written_call(alloc)?;
        Ok(Some(port))
    }

    /// The Call, written out. It is a function of its own, with all that it calls, so that the loop of a run has the
    /// registers.
    #[inline(never)]
    fn written_call(&mut self, alloc: Global) -> Result<Box<Item>, AllocError>
        requires boxes { self.old.boxes < 2 ^ 32 - 1 }
        requires goes { IsOpen self.old.boxes self.old.frames.current }
        requires calls { (n : ℕ) → Ahead.Call ≡ ahead_of (look_of self.old.frames.current n) }
        ensures called { IfOk result
            (λ port. IsCalled self.old.frames.current (self.old.boxes + 1) port.value) }
        ensures kept { self.new ≡ self.old }
    {
        let port = self.called()?;
        let boxed = self.frames.boxed(alloc, port)?;
        Ok(boxed)
    }

    /// The innermost frame's next goal is called, in a new box.
    #[inline(always)]
    fn step_in(&mut self) -> Result<(), AllocError>
        requires { self.old.boxes < 2 ^ 32 - 1 }
        ensures called { OnOk result (stand self.new ≡ called_at (stand self.old)) }
        ensures tuples { OnOk result (self.new.frames.tuples ≡ self.old.frames.tuples) }
    {
        self.frames.save()?;
        self.boxes += 1;
        push(&mut self.stack, Choice::Alternatives(self.boxes, 0))?;
        self.mode = Mode::Back;
        Ok(())
    }

    /// The innermost frame is left at this exit.
    #[inline(always)]
    fn exit(&mut self, exit: u32) -> Result<(), AllocError>
        ensures left { OnOk result (stand self.new ≡ left_at (stand self.old) exit) }
        ensures tuples { OnOk result (self.new.frames.tuples ≡ self.old.frames.tuples) }
    {
        self.frames.save()?;
        self.frames.leave();
        push(&mut self.stack, Choice::Again)?;
        self.mode = Mode::Hand(exit);
        Ok(())
    }

    /// The innermost frame exits, or answers, which is given whole.
    #[inline(never)]
    #[cold]
    fn ends(&mut self, alloc: Global) -> Result<Box<Item>, AllocError>
        requires boxes { self.old.boxes < 2 ^ 32 - 1 }
        requires waits { Waits (stand self.old) }
        requires goes { IsOpen self.old.boxes self.old.frames.current }
        requires ends { (n : ℕ) → ¬ (Ahead.Call ≡ ahead_of (look_of self.old.frames.current n)) }
        ensures gives { IfOk result (λ item.
            GivesAlways (in_mode Mode.Forward (stand self.old)) (stand self.new) item.value) }
        ensures whole { IfOk result (λ item. (unread : Unread) → MayBeWhole unread item.value) }
        ensures tuples { OnOk result (self.new.frames.tuples ≡ self.old.frames.tuples) }
    {
        let item = self.ending()?;
        let boxed = self.frames.boxed(alloc, item)?;
        Ok(boxed)
    }

    /// The innermost frame exits, or answers: the whole item.
    #[inline(always)]
    fn ending(&mut self) -> Result<Item, AllocError>
        requires boxes { self.old.boxes < 2 ^ 32 - 1 }
        requires waits { Waits (stand self.old) }
        requires goes { IsOpen self.old.boxes self.old.frames.current }
        requires ends { (n : ℕ) → ¬ (Ahead.Call ≡ ahead_of (look_of self.old.frames.current n)) }
        ensures gives { IfOk result
            (GivesAlways (in_mode Mode.Forward (stand self.old)) (stand self.new)) }
        ensures whole { IfOk result (λ i. (unread : Unread) → MayBeWhole unread i) }
        ensures tuples { OnOk result (self.new.frames.tuples ≡ self.old.frames.tuples) }
    {
        match self.frames.look(self.boxes + 1)? {
            Look::Exit(g, exit) => {
                self.exit(exit)?;
                Ok(event(Port::Exit, g))
            }
            Look::Answer(atom) => {
                self.mode = Mode::Back;
                Ok(Item::Answer(atom))
            }
            _ => unreachable!(),
        }
    }
}
