//! The frames of a search: the clause instances that it is in, and those of its earlier choices.
//!
//! The search reaches frames by these functions alone. Contracts see the list of the frames'
//! tuples with all bindings applied, up to a renaming of variables.

ghost use Rattle.std.specs.Prelude.{◌≡◌, ℕ, ◌∷◌, [], ◌<◌, length, drop, Some, OnOk, IfOk};
ghost use Rattle.apd_term.specs.Tuple.{canonical_tuple};
ghost use Rattle.apd_clauses.specs.Clauses.{IsRunnable};
ghost use Rattle.apd_trace.specs.Frames.{entering, look_of, handed_all, outer, query_frame};
ghost use Rattle.apd_trace.specs.BuiltIn.{solution};
ghost use Rattle.apd_trace.specs.Renaming.{AreAlike};
ghost use Rattle.apd_frames.specs.Kept.{Calls, Enters, IsKey, MayCall, Takes, Points, ahead_of, exit_in, fits, newest_of};
ghost use Rattle.apd_trace.specs.declared.frame.Called.{Called};
ghost use Rattle.apd_term.specs.Term.{predicate_of};
ghost use Rattle.apd_frames.specs.Solves.{solution_as, Keeps};

use crate::ahead::Ahead;
use crate::builtin::Solved;
use crate::linked::Linked;
use apd_cells::front::NO_FRONT;
use apd_term::{Pred, Sym, Tuple};
use apd_trace::{Called, Look, Point, Step};
use std::alloc::{AllocError, Global};
use std::marker::Model;

/// The frames, kept as links over a store.
#[derive(Drop)]
pub struct Frames {
    linked: Linked,
}

impl Model for Frames {
    ghost use Rattle.apd_frames.specs.Kept.{Kept, kept_code};
    ghost use Rattle.apd_frames.specs.Framed.{frames_of, AreFramed};

    ghost Value = { Kept };

    ghost coded = { kept_code };

    ghost view = { λ f. frames_of f.linked };

    ghost invariant = { λ f. AreFramed f.linked };
}

impl Frames {
    /// The frame of a query.
    pub fn open(alloc: Global, query: &Tuple) -> Result<Frames, AllocError>
        requires { IsRunnable query.now }
        ensures { IfOk result (λ f. f ≡ record {
          current = query_frame
              (canonical_tuple query.now) ∷ [];
          saved = [];
        }) }
    {
        let linked = Linked::open(alloc, query, None)?;
        Ok(Frames { linked })
    }

    /// What the innermost frame does next, if the next box has this number.
    pub fn look(&mut self, box_no: u32) -> Result<Look, AllocError>
        requires { MayCall self.old.current }
        ensures look { IfOk result (λ l. l ≡ look_of self.old.current box_no) }
        ensures kept { self.new ≡ self.old }
    {
        self.linked.look(box_no)
    }

    /// What the innermost frame does next, without its terms: none is written.
    pub fn ahead(&self) -> Ahead
        ensures { (n : ℕ) → result ≡ ahead_of (look_of self.now.current n) }
    {
        self.linked.ahead()
    }

    /// The innermost frame's head in its box, and its newest point.
    pub fn exited(&mut self) -> Result<(Called, u32), AllocError>
        requires { 0 < length self.old.current }
        ensures exit { IfOk result (λ e. Some e ≡ exit_in self.old.current) }
        ensures kept { self.new ≡ self.old }
    {
        self.linked.exited()
    }

    /// The innermost frame's box and newest point.
    pub fn newest(&self) -> Option<(u32, u32)>
        ensures { result ≡ newest_of self.now.current }
    {
        self.linked.newest()
    }

    /// The innermost frame as a point; none exactly where its instance is too large.
    pub fn point(
        &mut self,
        alloc: Global,
        before: Option<Step>,
    ) -> Result<Option<Point>, AllocError>
        requires { 0 < length self.old.current }
        ensures point { IfOk result (λ p. Points p self.old.current before) }
        ensures kept { self.new ≡ self.old }
    {
        self.linked.point(alloc, before)
    }

    /// Whether the innermost frame's instance is small enough for a point. No term is written.
    pub fn fits(&self) -> Result<bool, AllocError>
        ensures { IfOk result (λ b. b ≡ fits self.now.current) }
    {
        self.linked.fits()
    }

    /// The predicate of the innermost frame's next goal; none where it calls none.
    pub fn predicate(&self) -> Option<Pred>
        ensures { (n : ℕ) (g : Called) → Calls self.now.current n g → result ≡ predicate_of g.atom }
    {
        self.linked.predicate()
    }

    /// What the first argument of the innermost frame's next goal begins with; a variable where
    /// nothing is known of it.
    pub fn key(&self) -> Sym
        ensures { IsKey result self.now.current }
    {
        self.linked.key()
    }

    /// Enters a clause for the innermost frame's next goal, called in this box, where it can.
    pub fn enter(
        &mut self,
        alloc: Global,
        box_no: u32,
        clause: u32,
        rule: &Tuple,
        point: u32,
    ) -> Result<bool, AllocError>
        requires deep { MayCall self.old.current }
        requires runnable { IsRunnable rule.now }
        ensures { IfOk result (λ b. (g : Called) → Calls self.old.current box_no g →
            Enters (entering self.old.current g rule.now clause point) b self.old self.new) }
    {
        self.linked.enter(alloc, box_no, clause, rule, point)
    }

    /// Solves the innermost frame's next goal, called in this box, if it is built in.
    pub fn solve(&mut self, alloc: Global, box_no: u32, point: u32) -> Result<Solved, AllocError>
        requires { MayCall self.old.current }
        ensures alike { IfOk result (λ r. (g : Called) → Calls self.old.current box_no g →
            AreAlike (solution self.old.current g point) (solution_as r self.new.current)) }
        ensures kept { IfOk result (λ r. Keeps r self.old self.new) }
    {
        self.linked.solve(alloc, box_no, point)
    }

    /// Leaves the innermost frame.
    pub fn leave(&mut self)
        ensures { self.new ≡ record { current = outer self.old.current; saved = self.old.saved } }
    {
        self.linked.leave();
    }

    /// The innermost frame takes over an exit.
    pub fn take_over(&mut self, point: u32) -> Result<(), AllocError>
        requires { Takes self.old.current }
        ensures { OnOk result (self.new ≡ record {
          current = handed_all self.old.current point;
          saved = self.old.saved;
        }) }
    {
        self.linked.take_over(point)
    }

    /// Saves the frames for a choice; want of memory also where no note can tell the innermost link, where no search saves.
    pub fn save(&mut self) -> Result<(), AllocError>
        ensures { OnOk result (self.new ≡ record {
          current = self.old.current;
          saved = self.old.current ∷ self.old.saved;
        }) }
    {
        self.linked.save()
    }

    /// Goes back to the frames as they were at the newest choice. They stay saved.
    pub fn restore(&mut self)
        requires { 0 < length self.old.saved }
        ensures current { self.old.saved ≡ self.new.current ∷ drop 1 self.old.saved }
        ensures saved { self.new.saved ≡ self.old.saved }
    {
        self.linked.restore(NO_FRONT);
    }

    /// Gives up the frames that were saved at the newest choice.
    pub fn forget(&mut self)
        requires { 0 < length self.old.saved }
        ensures { self.new ≡ record { current = self.old.current; saved = drop 1 self.old.saved } }
    {
        self.linked.forget();
    }
}
