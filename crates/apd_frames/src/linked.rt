//! Frames as links over a store, and notes of the way back.

ghost use Rattle.std.specs.Prelude.{◌≡◌, ℕ, ◌∷◌, [], ◌<◌, length, drop, Some, OnOk, IfOk};
ghost use Rattle.apd_term.specs.Tuple.{canonical_tuple};
ghost use Rattle.apd_clauses.specs.Clauses.{IsRunnable};
ghost use Rattle.apd_trace.specs.Frames.{entering, look_of, handed_all, outer, query_frame};
ghost use Rattle.apd_trace.specs.BuiltIn.{solution};
ghost use Rattle.apd_trace.specs.Renaming.{AreAlike};
ghost use Rattle.apd_frames.specs.Kept.{Calls, Enters, IsKey, MayCall, Takes, Points, ahead_of, exit_in, fits, newest_of};
ghost use Rattle.apd_trace.specs.declared.frame.Called.{Called};
ghost use Rattle.apd_term.specs.Term.{predicate_of};
ghost use Rattle.apd_cells.specs.Store.{IsSound};
ghost use Rattle.apd_cells.specs.Undone.{IsFront};
ghost use Rattle.apd_frames.specs.Measures.{MeasuresInnermost};
ghost use Rattle.apd_frames.specs.Framed.{frames_of, AreFramed, BeginsEmpty, GoesBack, IsSame, KeepsStore};
ghost use Rattle.apd_frames.specs.Solves.{solution_as, Keeps};

use crate::ahead::Ahead;
use crate::back::take_back;
use crate::builtin::Solved;
use crate::instance::{Made, canonical_within, instantiate, is_within, lay_query};
use crate::links::{Links, entered};
use crate::measuring::{Measure, measured};
use crate::reading::{ahead, goal_depth, left, look, next_goal};
use crate::settling::{predicate_at, settle};
use apd_cells::front::Front;
use apd_clauses::Program;
use apd_notes::notes::{Branch, Note, Notes};
use apd_ports::BUILTIN;
use apd_term::tuple::canonical_tuple;
use apd_term::{Pred, Sym, Tuple};
use apd_trace::{Called, Item, Look, Point, Step};
use apd_unify::scratch::Scratch;
use apd_unify::store::Store;
use std::alloc::{AllocError, Global};

/// Links over a store, and what is noted of the way back. Contracts see all parts; what frames they are is `frames_of` them.
#[derive(Drop)]
pub struct Linked {
    pub store: Store,
    pub links: Links,
    pub innermost: usize,
    pub notes: Notes,
    scratch: Scratch,
    made: Made,
}

impl Linked {
    /// The frame of a query, over a store that has the large terms of the program once.
    pub fn open(
        alloc: Global,
        query: &Tuple,
        program: Option<&Program>,
    ) -> Result<Linked, AllocError>
        requires { IsRunnable query.now }
        ensures framed { IfOk result AreFramed }
        ensures kept { IfOk result (λ l. frames_of l ≡ record {
          current = query_frame
              (canonical_tuple query.now) ∷ [];
          saved = [];
        }) }
        ensures begun { IfOk result BeginsEmpty }
    {
        let tuple = canonical_tuple(alloc, query)?;
        let mut linked = Linked {
            store: Store::new(alloc),
            links: Links::new(alloc),
            innermost: 1,
            notes: Notes::new(alloc),
            scratch: Scratch::new(alloc),
            made: Made {
                goals: Vec::new(alloc),
                slots: Vec::new(alloc),
                small: Vec::new(alloc),
                floor: Vec::new(alloc),
                hints: Vec::new(alloc),
            },
        };
        let begun = lay_query(
            &mut linked.store,
            &mut linked.links,
            &mut linked.made,
            alloc,
            &tuple,
            program,
        );
        // Dropped by calls: else each part of them is a step to check.
        drop(tuple);
        match begun {
            Ok(()) => Ok(linked),
            Err(AllocError) => {
                drop(linked);
                Err(AllocError)
            }
        }
    }

    /// What the innermost frame does next, if the next box has this number.
    #[inline(always)]
    pub fn look(&mut self, box_no: u32) -> Result<Look, AllocError>
        requires framed { AreFramed self.old }
        requires deep { MayCall (frames_of self.old).current }
        ensures look { IfOk result (λ l. l ≡ look_of (frames_of self.old).current box_no) }
        ensures same { IsSame self.old self.new }
    {
        match self.links.get(self.innermost) {
            None => Ok(Look::Nothing),
            Some(link) => look(&self.store, &self.links, &mut self.scratch, &link, box_no),
        }
    }

    /// What the innermost frame does next, without its terms: none is written.
    pub fn ahead(&self) -> Ahead
        requires { AreFramed self.now }
        ensures { (n : ℕ) → result ≡ ahead_of (look_of (frames_of self.now).current n) }
    {
        match self.links.get(self.innermost) {
            None => Ahead::Nothing,
            Some(link) => ahead(&link),
        }
    }

    /// The innermost frame's head in its box, and its newest point.
    pub fn exited(&mut self) -> Result<(Called, u32), AllocError>
        requires framed { AreFramed self.old }
        requires some { 0 < length (frames_of self.old).current }
        ensures exit { IfOk result (λ e. Some e ≡ exit_in (frames_of self.old).current) }
        ensures same { IsSame self.old self.new }
    {
        match self.links.get(self.innermost) {
            None => unreachable!(),
            Some(link) => {
                let called = left(&self.store, &self.links, &mut self.scratch, &link)?;
                Ok((called, link.point))
            }
        }
    }

    /// Gives up an item. The next goal or head that is read is written in the room of its term.
    pub fn give_up(&mut self, item: Item)
        ensures { IsSame self.old self.new }
    {
        match item {
            Item::Passed(event) => self.scratch.give_up(event.atom),
            other => drop(other),
        }
    }

    /// The innermost frame's box and newest point.
    pub fn newest(&self) -> Option<(u32, u32)>
        requires { AreFramed self.now }
        ensures { result ≡ newest_of (frames_of self.now).current }
    {
        match self.links.get(self.innermost) {
            None => None,
            Some(link) => Some((link.box_no, link.point)),
        }
    }

    /// The innermost frame as a point; none exactly where its instance is too large.
    pub fn point(
        &mut self,
        alloc: Global,
        before: Option<Step>,
    ) -> Result<Option<Point>, AllocError>
        requires framed { AreFramed self.old }
        requires some { 0 < length (frames_of self.old).current }
        ensures point { IfOk result (λ p. Points p (frames_of self.old).current before) }
        ensures same { IsSame self.old self.new }
    {
        match self.links.get(self.innermost) {
            None => unreachable!(),
            Some(link) => {
                let within = canonical_within(&self.store, &mut self.scratch, alloc, &link)?;
                let Some(tuple) = within else {
                    return Ok(None);
                };
                Ok(Some(Point {
                    owner: link.box_no,
                    clause: link.clause,
                    done: link.done,
                    tuple,
                    before,
                }))
            }
        }
    }

    /// Whether the innermost frame's instance is small enough for a point. No term is written.
    pub fn fits(&self) -> Result<bool, AllocError>
        requires { AreFramed self.now }
        ensures { IfOk result (λ b. b ≡ fits (frames_of self.now).current) }
    {
        match self.links.get(self.innermost) {
            None => Ok(true),
            Some(link) => is_within(&self.store, &link),
        }
    }

    /// Whether the innermost instance is small enough for a point, and where its symbols are passed
    /// for that, whether it has variables. Sizes of long terms are kept on the way, so that later
    /// looks needn't count them.
    #[inline(always)]
    pub fn measure(&mut self) -> Result<Measure, AllocError>
        requires { AreFramed self.old }
        ensures measured { IfOk result
            (λ m. MeasuresInnermost m (frames_of self.old).current) }
        ensures same { IsSame self.old self.new }
    {
        match self.links.get(self.innermost) {
            None => Ok(Measure::Fits),
            Some(link) => measured(&mut self.store, &link),
        }
    }

    /// The predicate of the innermost frame's next goal; none where it calls none.
    #[inline(always)]
    pub fn predicate(&self) -> Option<Pred>
        requires { AreFramed self.now }
        ensures { (n : ℕ) (g : Called) → Calls (frames_of self.now).current n g →
            result ≡ predicate_of g.atom }
    {
        let goal = next_goal(&self.links, self.innermost)?;
        predicate_at(&self.store, goal)
    }

    /// What the first argument of the innermost frame's next goal begins with; a variable where
    /// nothing is known of it.
    #[inline(always)]
    pub fn key(&self) -> Sym
        requires { AreFramed self.now }
        ensures { IsKey result (frames_of self.now).current }
    {
        match next_goal(&self.links, self.innermost) {
            Some(goal) => self.store.key(goal),
            None => Sym::Var(0),
        }
    }

    /// Enters a clause for the innermost frame's next goal, called in this box, where it can.
    #[inline(always)]
    pub fn enter(
        &mut self,
        alloc: Global,
        box_no: u32,
        clause: u32,
        rule: &Tuple,
        point: u32,
    ) -> Result<bool, AllocError>
        requires framed { AreFramed self.old }
        requires deep { MayCall (frames_of self.old).current }
        requires runnable { IsRunnable rule.now }
        ensures framed { AreFramed self.new }
        ensures enters { IfOk result (λ b. (g : Called) →
            Calls (frames_of self.old).current box_no g →
            Enters (entering (frames_of self.old).current g rule.now clause point)
            b (frames_of self.old) (frames_of self.new)) }
        ensures store { KeepsStore self.old self.new }
    {
        let Some(goal) = next_goal(&self.links, self.innermost) else {
            return Ok(false);
        };
        let mark = self.store.mark();
        if !instantiate(&mut self.store, &mut self.made, alloc, goal, clause, rule)? {
            self.store.undo(mark);
            return Ok(false);
        }
        let depth = goal_depth(&self.links, self.innermost);
        let goals = self.made.goals.as_slice();
        let link = entered(box_no, depth, clause, goal, goals, point, self.innermost);
        self.innermost = self.links.push(&link)?;
        Ok(true)
    }

    /// Solves the innermost frame's next goal, called in this box, if it is built in.
    #[inline(always)]
    pub fn solve(&mut self, alloc: Global, box_no: u32, point: u32) -> Result<Solved, AllocError>
        requires framed { AreFramed self.old }
        requires deep { MayCall (frames_of self.old).current }
        ensures framed { AreFramed self.new }
        ensures alike { IfOk result (λ r. (g : Called) →
            Calls (frames_of self.old).current box_no g →
            AreAlike (solution (frames_of self.old).current g point)
            (solution_as r (frames_of self.new).current)) }
        ensures kept { IfOk result (λ r. Keeps r (frames_of self.old) (frames_of self.new)) }
        ensures store { KeepsStore self.old self.new }
    {
        let Some(goal) = next_goal(&self.links, self.innermost) else {
            return Ok(Solved::Program);
        };
        let solved = settle(&mut self.store, alloc, goal)?;
        if solved != Solved::Entered {
            return Ok(solved);
        }
        let depth = goal_depth(&self.links, self.innermost);
        let link = entered(box_no, depth, BUILTIN, goal, &[], point, self.innermost);
        self.innermost = self.links.push(&link)?;
        Ok(solved)
    }

    /// Leaves the innermost frame.
    pub fn leave(&mut self)
        requires { AreFramed self.old }
        ensures framed { AreFramed self.new }
        ensures left { frames_of self.new ≡ record {
          current = outer (frames_of self.old).current;
          saved = (frames_of self.old).saved;
        } }
        ensures store { self.new.store ≡ self.old.store }
    {
        match self.links.get(self.innermost) {
            None => {}
            Some(link) => self.innermost = link.around,
        }
    }

    /// The innermost frame takes over an exit.
    #[inline(always)]
    pub fn take_over(&mut self, point: u32) -> Result<(), AllocError>
        requires framed { AreFramed self.old }
        requires takes { Takes (frames_of self.old).current }
        ensures framed { AreFramed self.new }
        ensures taken { OnOk result (frames_of self.new ≡ record {
          current = handed_all (frames_of self.old).current point;
          saved = (frames_of self.old).saved;
        }) }
        ensures store { self.new.store ≡ self.old.store }
    {
        let number = self.innermost;
        let Some(before) = self.links.hand(number, point) else {
            return Ok(());
        };
        match self.notes.push(Note::Handed(number, before)) {
            Ok(()) => Ok(()),
            Err(AllocError) => {
                self.links.take(number, before);
                Err(AllocError)
            }
        }
    }

    /// Saves the frames for a choice; want of memory also where no note can tell the innermost link, where no search saves.
    #[inline(always)]
    pub fn save(&mut self) -> Result<(), AllocError>
        requires { AreFramed self.old }
        ensures framed { AreFramed self.new }
        ensures saved { OnOk result (frames_of self.new ≡ record {
          current = (frames_of self.old).current;
          saved = (frames_of self.old).current ∷ (frames_of self.old).saved;
        }) }
        ensures store { self.new.store ≡ self.old.store }
    {
        let mark = self.store.mark();
        let links = self.links.len();
        self.notes.push(Note::Saved(Branch {
            mark,
            links,
            innermost: self.innermost,
        }))?;
        Ok(())
    }

    /// Goes back to the frames as they were at the newest choice. They stay saved, and a front of the cells stays.
    #[inline(always)]
    pub fn restore(&mut self, kept: Front)
        requires framed { AreFramed self.old }
        requires some { 0 < length (frames_of self.old).saved }
        requires front { IsFront kept self.old.store.cells }
        ensures framed { AreFramed self.new }
        ensures current { (frames_of self.old).saved
            ≡ (frames_of self.new).current ∷ drop 1 (frames_of self.old).saved }
        ensures saved { (frames_of self.new).saved ≡ (frames_of self.old).saved }
        ensures store { GoesBack kept self.old self.new }
        ensures sound { IsSound self.old.store }
    {
        match take_back(&mut self.links, &mut self.notes) {
            None => unreachable!(),
            Some(branch) => {
                self.store.go_back(branch.mark, kept);
                self.links.keep(branch.links);
                self.innermost = branch.innermost;
            }
        }
    }

    /// Gives up the frames that were saved at the newest choice.
    pub fn forget(&mut self)
        requires framed { AreFramed self.old }
        requires some { 0 < length (frames_of self.old).saved }
        ensures framed { AreFramed self.new }
        ensures forgotten { frames_of self.new ≡ record {
          current = (frames_of self.old).current;
          saved = drop 1 (frames_of self.old).saved;
        } }
        ensures store { self.new.store ≡ self.old.store }
    {
        self.notes.forget();
    }
}
