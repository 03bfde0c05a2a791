//! A search that hands an exit to the innermost frame, and one that leaves a built-in goal.

ghost use Rattle.std.specs.Prelude.{◌≡◌, OnOk, IfOk, ◌<◌, ◌-◌, ◌^◌};
ghost use Rattle.apd_clauses.specs.Clauses.{IsProgram, tuples_of};
ghost use Rattle.apd_engine.specs.Search.{AllWait, GivesAlways, GivesOrEnds, Grows, IsOpen, Waits, in_mode, stand};
ghost use Rattle.apd_engine.specs.Given.{SetsHeldSome, TellsAlways, TellsSome};

use crate::given::{Given, Unread, leaving, made, of_point, too_large};
use crate::search::{Mode, Search};
use apd_clauses::Program;
use apd_ports::Port;
use apd_record::held::Held;
use apd_trace::{PointId, Step};
use std::alloc::{AllocError, Global};
use std::boxed::Box;

impl Search {
    /// An exit is handed where there is no frame. It is a function of its own, as no run comes here, and answers a pointer,
    /// so that the loop of a run has no place for what it gives.
    #[inline(never)]
    #[cold]
    fn hand_none(
        &mut self,
        alloc: Global,
        program: &Program,
        unread: Unread,
        held: &mut Held,
    ) -> Result<Box<Option<Given>>, AllocError>
        requires program { IsProgram program.now }
        requires boxes { self.old.boxes < 2 ^ 32 - 1 }
        requires points { self.old.points < 2 ^ 32 - 1 }
        requires mode { self.old.mode ≡ Mode.Back }
        requires waits { Waits (stand self.old) }
        ensures told { IfOk result (λ o. TellsSome
            (record { tuples = self.new.frames.tuples; held = held.new }) unread o.value
            (GivesOrEnds (tuples_of program.now) (in_mode Mode.Back (stand self.old))
            (stand self.new))) }
        ensures held { IfOk result (λ o. SetsHeldSome o.value held.old held.new) }
        ensures more { OnOk result (Grows self.old.frames.tuples self.new.frames.tuples) }
    {
        let given = self.back(alloc, program, unread, held)?;
        let boxed = Box::new(alloc, given)?;
        Ok(boxed)
    }

    /// An exit is handed to the innermost frame.
    #[inline(always)]
    pub fn hand(
        &mut self,
        alloc: Global,
        program: &Program,
        exit: u32,
        unread: Unread,
        held: &mut Held,
    ) -> Result<Option<Given>, AllocError>
        requires program { IsProgram program.now }
        requires boxes { self.old.boxes < 2 ^ 32 - 1 }
        requires points { self.old.points < 2 ^ 32 - 1 }
        requires waits { Waits (stand self.old) }
        requires goes { AllWait self.old.boxes self.old.frames.current }
        ensures told { IfOk result (λ o. TellsSome
            (record { tuples = self.new.frames.tuples; held = held.new }) unread o
            (GivesOrEnds (tuples_of program.now) (in_mode (Mode.Hand exit) (stand self.old))
            (stand self.new))) }
        ensures held { IfOk result (λ o. SetsHeldSome o held.old held.new) }
        ensures more { OnOk result (Grows self.old.frames.tuples self.new.frames.tuples) }
    {
        self.mode = Mode::Back;
        match self.frames.newest() {
            None => {
                let given = self.hand_none(alloc, program, unread, held)?;
                Ok(Box::into_inner(given))
            }
            Some((box_no, newest)) => {
                self.frames.take_over(self.points)?;
                let step = Step {
                    point: PointId(newest),
                    exit: PointId(exit),
                };
                let is_made = made(&mut self.frames, Some(step), unread, held)?;
                if !is_made {
                    let item = too_large(alloc, box_no)?;
                    return Ok(Some(Given::Whole(item)));
                }
                self.points += 1;
                self.mode = Mode::Forward;
                Ok(Some(of_point(unread)))
            }
        }
    }

    /// A built-in goal exits.
    #[inline(always)]
    pub fn leave(&mut self, alloc: Global, unread: Unread) -> Result<Given, AllocError>
        requires waits { Waits (stand self.old) }
        requires goes { IsOpen self.old.boxes self.old.frames.current }
        ensures told { IfOk result (λ given. TellsAlways unread given
            (GivesAlways (in_mode Mode.Leave (stand self.old)) (stand self.new))) }
        ensures tuples { OnOk result (self.new.frames.tuples ≡ self.old.frames.tuples) }
    {
        let (given, exit) = leaving(&mut self.frames, alloc, Port::Exit, unread)?;
        self.frames.leave();
        self.mode = Mode::Hand(exit);
        Ok(given)
    }
}
