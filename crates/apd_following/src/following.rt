//! Frames over a store that a journal follows.
//!
//! A tuple is kept by its cells and the moment, in time that doesn't depend on its terms, and can
//! be read as it was then.

ghost use Rattle.std.specs.Prelude.{◌≡◌, ℕ, List, ◌∷◌, [], ◌<◌, length, drop, Some, OnOk, OnErr, IfOk};
ghost use Rattle.apd_term.specs.Tuple.{canonical_tuple};
ghost use Rattle.apd_clauses.specs.Clauses.{IsRunnable};
ghost use Rattle.apd_trace.specs.Frames.{entering, look_of, handed_all, outer, query_frame};
ghost use Rattle.apd_trace.specs.BuiltIn.{solution};
ghost use Rattle.apd_trace.specs.Renaming.{AreAlike};
ghost use Rattle.apd_frames.specs.Kept.{Calls, Enters, IsKey, MayCall, Takes, ahead_of, exit_in, fits, newest_of};
ghost use Rattle.apd_trace.specs.declared.frame.Called.{Called};
ghost use Rattle.apd_term.specs.Term.{predicate_of};
ghost use Rattle.apd_trace.specs.declared.frame.Frame.{Frame};
ghost use Rattle.apd_frames.specs.Linked.{IsThere, frame_in};
ghost use Rattle.apd_frames.specs.Links.{link_of};
ghost use Rattle.apd_frames.specs.Measures.{MeasuresInnermost};
ghost use Rattle.apd_frames.specs.Solves.{solution_as, Keeps};
ghost use Rattle.apd_following.specs.Tied.{past_of, IsTied};
ghost use Rattle.apd_tuples.specs.Tuples.{kept_tuples, AreThere, Holds};
ghost use Rattle.apd_following.specs.Followed.{IsGoalSized, IsKept, KeepsInstance, kept_of};

mod room;

use crate::facts::{fact_of_measure, size_of};
use crate::placing::push_link;
use crate::tie::Tie;
use apd_clauses::Program;
use apd_frames::ahead::Ahead;
use apd_frames::builtin::Solved;
use apd_frames::linked::Linked;
use apd_frames::links::{LinkRef, Links};
use apd_frames::measuring::{Measure, measured};
use apd_frames::reading::next_goal;
use apd_term::{Pred, Sym, Tuple};
use apd_trace::{Called, Item, Look, Step};
use apd_tuples::spots::{Fact, Numbered, Spots};
use apd_tuples::tuples::KeptTuples;
use apd_unify::store::Store;
use std::alloc::{AllocError, Global};
use std::boxed::Box;
use std::marker::Model;

/// Frames, and the tuples that were kept of them.
#[derive(Drop)]
pub struct Following {
    linked: Linked,
    tie: Tie,
    spots: Spots,
    /// The room of an item that was given up: the next one is put there.
    room: Option<Box<Item>>,
}

impl Model for Following {
    ghost use Rattle.apd_frames.specs.Framed.{frames_of, AreFramed};
    ghost use Rattle.apd_following.specs.Followed.{Followed, followed_code};
    ghost use Rattle.apd_following.specs.Tied.{past_of, IsTied};
    ghost use Rattle.apd_tuples.specs.Tuples.{kept_tuples, AreThere};

    ghost Value = { Followed };

    ghost coded = { followed_code };

    ghost view = { λ f. record { current = (frames_of f.linked).current; saved = (frames_of f.linked).saved; tuples = kept_tuples (past_of f.tie f.linked.store) f.spots } };

    ghost invariant = { λ f. AreFramed f.linked × IsTied f.tie f.linked.store × AreThere (past_of f.tie f.linked.store) f.spots };
}

/// A frame whose instance was kept: the box that owns it, its clause, how many of its goals are
/// solved, and the kept tuple.
#[derive(Clone, Copy)]
pub struct KeptFrame {
    pub owner: u32,
    pub clause: u32,
    pub done: u8,
    pub tuple: Numbered,
}

/// Keeps the tuple of a link over the store that is followed, with what is known of it, and tells of its frame.
#[inline(always)]
fn keep_at(
    tie: &mut Tie,
    spots: &mut Spots,
    store: &Store,
    links: &Links,
    link: &LinkRef<'_>,
    fact: Fact,
    step: Option<Step>,
) -> Result<KeptFrame, AllocError>
    requires tied { IsTied tie.old store.now }
    requires there { AreThere (past_of tie.old store.now) spots.old }
    requires link { IsThere store.now link.now }
    requires fact { Holds fact (canonical_tuple (frame_in store.now (link_of link.now)).tuple) }
    ensures tied { IsTied tie.new store.now }
    ensures there { AreThere (past_of tie.new store.now) spots.new }
    ensures kept { IfOk result (λ n. (F : List Frame) →
        IsKept n (frame_in store.now (link_of link.now) ∷ F)
        (kept_tuples (past_of tie.old store.now) spots.old)
        (kept_tuples (past_of tie.new store.now) spots.new)) }
    ensures err { OnErr result (kept_tuples (past_of tie.new store.now) spots.new
        ≡ kept_tuples (past_of tie.old store.now) spots.old) }
{
    tie.catch_up(store)?;
    let moment = tie.journal.moment();
    let tuple = push_link(spots, links, link, moment, fact, step)?;
    Ok(KeptFrame {
        owner: link.box_no,
        clause: link.clause,
        done: link.done,
        tuple,
    })
}

impl Following {
    /// The frame of a query to the program. No tuple is kept.
    pub fn open(alloc: Global, query: &Tuple, program: &Program) -> Result<Following, AllocError>
        requires { IsRunnable query.now }
        ensures { IfOk result (λ f. f ≡ record {
          current = query_frame
              (canonical_tuple query.now) ∷ [];
          saved = [];
          tuples = [];
        }) }
    {
        let linked = Linked::open(alloc, query, Some(program))?;
        Ok(Following {
            linked,
            tie: Tie::new(alloc),
            spots: Spots::new(alloc),
            room: None,
        })
    }

    /// What the innermost frame does next, if the next box has this number.
    #[inline(always)]
    pub fn look(&mut self, box_no: u32) -> Result<Look, AllocError>
        requires { MayCall self.old.current }
        ensures look { IfOk result (λ l. l ≡ look_of self.old.current box_no) }
        ensures kept { self.new ≡ self.old }
    {
        self.linked.look(box_no)
    }

    /// What the innermost frame does next, without its terms: none is written.
    pub fn ahead(&self) -> Ahead
        ensures { (n : ℕ) → result ≡ ahead_of (look_of self.now.current n) }
    {
        self.linked.ahead()
    }

    /// The innermost frame's head in its box, and its newest point.
    pub fn exited(&mut self) -> Result<(Called, u32), AllocError>
        requires { 0 < length self.old.current }
        ensures exit { IfOk result (λ e. Some e ≡ exit_in self.old.current) }
        ensures kept { self.new ≡ self.old }
    {
        self.linked.exited()
    }

    /// The innermost frame's box and newest point.
    pub fn newest(&self) -> Option<(u32, u32)>
        ensures { result ≡ newest_of self.now.current }
    {
        self.linked.newest()
    }

    /// Whether the innermost frame's instance is small enough for a point. No term is written. Sizes of long terms are kept on
    /// the way, so that later looks needn't count them.
    #[inline(never)]
    pub fn measure(&mut self) -> Result<bool, AllocError>
        ensures fits { IfOk result (λ b. b ≡ fits self.old.current) }
        ensures kept { self.new ≡ self.old }
    {
        let seen = self.measured()?;
        Ok(seen.fits())
    }

    /// What is seen of the innermost frame's instance.
    #[inline(always)]
    fn measured(&mut self) -> Result<Measure, AllocError>
        ensures measured { IfOk result (λ m. MeasuresInnermost m self.old.current) }
        ensures kept { self.new ≡ self.old }
    {
        self.linked.measure()
    }

    /// The predicate of the innermost frame's next goal; none where it calls none.
    #[inline(always)]
    pub fn predicate(&self) -> Option<Pred>
        ensures { (n : ℕ) (g : Called) → Calls self.now.current n g →
            result ≡ predicate_of g.atom }
    {
        self.linked.predicate()
    }

    /// What the first argument of the innermost frame's next goal begins with; a variable where
    /// nothing is known of it.
    #[inline(always)]
    pub fn key(&self) -> Sym
        ensures { IsKey result self.now.current }
    {
        self.linked.key()
    }

    /// Enters a clause for the innermost frame's next goal, called in this box, where it can.
    #[inline(always)]
    pub fn enter(
        &mut self,
        alloc: Global,
        box_no: u32,
        clause: u32,
        rule: &Tuple,
        point: u32,
    ) -> Result<bool, AllocError>
        requires deep { MayCall self.old.current }
        requires runnable { IsRunnable rule.now }
        ensures enters { IfOk result (λ b. (g : Called) →
            Calls self.old.current box_no g →
            Enters (entering self.old.current g rule.now clause point)
            b (kept_of self.old) (kept_of self.new)) }
        ensures tuples { self.new.tuples ≡ self.old.tuples }
    {
        self.linked.enter(alloc, box_no, clause, rule, point)
    }

    /// Solves the innermost frame's next goal, called in this box, if it is built in.
    #[inline(always)]
    pub fn solve(&mut self, alloc: Global, box_no: u32, point: u32) -> Result<Solved, AllocError>
        requires { MayCall self.old.current }
        ensures alike { IfOk result (λ r. (g : Called) →
            Calls self.old.current box_no g →
            AreAlike (solution self.old.current g point)
            (solution_as r self.new.current)) }
        ensures kept { IfOk result (λ r. Keeps r (kept_of self.old) (kept_of self.new)) }
        ensures tuples { self.new.tuples ≡ self.old.tuples }
    {
        self.linked.solve(alloc, box_no, point)
    }

    /// Leaves the innermost frame.
    pub fn leave(&mut self)
        ensures { self.new ≡ record {
          current = outer self.old.current;
          saved = self.old.saved;
          tuples = self.old.tuples;
        } }
    {
        self.linked.leave();
    }

    /// The innermost frame takes over an exit.
    #[inline(always)]
    pub fn take_over(&mut self, point: u32) -> Result<(), AllocError>
        requires { Takes self.old.current }
        ensures taken { OnOk result (self.new ≡ record {
          current = handed_all self.old.current point;
          saved = self.old.saved;
          tuples = self.old.tuples;
        }) }
        ensures tuples { self.new.tuples ≡ self.old.tuples }
    {
        self.linked.take_over(point)
    }

    /// Saves the frames for a choice; want of memory also where no note can tell the innermost link, where no search saves.
    #[inline(always)]
    pub fn save(&mut self) -> Result<(), AllocError>
        ensures saved { OnOk result (self.new ≡ record {
          current = self.old.current;
          saved = self.old.current ∷ self.old.saved;
          tuples = self.old.tuples;
        }) }
        ensures tuples { self.new.tuples ≡ self.old.tuples }
    {
        self.linked.save()
    }

    /// Goes back to the frames as they were at the newest choice. They stay saved.
    #[inline(always)]
    pub fn restore(&mut self)
        requires { 0 < length self.old.saved }
        ensures current { self.old.saved
            ≡ self.new.current ∷ drop 1 self.old.saved }
        ensures saved { self.new.saved ≡ self.old.saved }
        ensures tuples { self.new.tuples ≡ self.old.tuples }
    {
        let kept = self.tie.front();
        self.linked.restore(kept);
        self.tie.go_back(&self.linked.store);
    }

    /// Gives up the frames that were saved at the newest choice.
    pub fn forget(&mut self)
        requires { 0 < length self.old.saved }
        ensures { self.new ≡ record {
          current = self.old.current;
          saved = drop 1 self.old.saved;
          tuples = self.old.tuples;
        } }
    {
        self.linked.forget();
    }

    /// Keeps the innermost frame's instance, and tells of the frame; none exactly where it is too
    /// large. Its link is looked up once: a run comes here at each point, which came about by a step or by none.
    #[inline(always)]
    pub fn keep(&mut self, step: Option<Step>) -> Result<Option<KeptFrame>, AllocError>
        requires { 0 < length self.old.current }
        ensures frames { kept_of self.new ≡ kept_of self.old }
        ensures kept { IfOk result
            (λ o. KeepsInstance o self.old.current self.old.tuples self.new.tuples) }
        ensures err { OnErr result (self.new.tuples ≡ self.old.tuples) }
    {
        match self.linked.links.get(self.linked.innermost) {
            None => unreachable!(),
            Some(link) => {
                let seen = measured(&mut self.linked.store, &link)?;
                if !seen.fits() {
                    return Ok(None);
                }
                let fact = fact_of_measure(seen);
                let (tie, spots) = (&mut self.tie, &mut self.spots);
                let (store, links) = (&self.linked.store, &self.linked.links);
                let kept = keep_at(tie, spots, store, links, &link, fact, step)?;
                Ok(Some(kept))
            }
        }
    }

    /// Keeps the innermost frame's instance, however large it is, and tells of the frame.
    pub fn keep_any(&mut self) -> Result<KeptFrame, AllocError>
        requires { 0 < length self.old.current }
        ensures frames { kept_of self.new ≡ kept_of self.old }
        ensures kept { IfOk result
            (λ n. IsKept n self.old.current self.old.tuples self.new.tuples) }
        ensures err { OnErr result (self.new.tuples ≡ self.old.tuples) }
    {
        match self.linked.links.get(self.linked.innermost) {
            None => unreachable!(),
            Some(link) => {
                let (tie, spots) = (&mut self.tie, &mut self.spots);
                let (store, links) = (&self.linked.store, &self.linked.links);
                let kept = keep_at(tie, spots, store, links, &link, Fact::Nothing, None)?;
                Ok(kept)
            }
        }
    }

    /// How many symbols the innermost frame's next goal has, where that is asked for; 0 where it isn't, or there is no such
    /// goal, or it is larger than an instance may be.
    #[inline(always)]
    pub fn goal_size(&self, is_asked: bool) -> Result<u32, AllocError>
        ensures { IfOk result (λ n. IsGoalSized n self.now.current) }
    {
        if !is_asked {
            return Ok(0);
        }
        match next_goal(&self.linked.links, self.linked.innermost) {
            None => Ok(0),
            Some(goal) => size_of(&self.linked.store, goal),
        }
    }

    /// The tuples that were kept. The frames are given up.
    pub fn into_kept(self) -> KeptTuples
        ensures { result ≡ self.tuples }
    {
        let Following {
            linked,
            tie,
            spots,
            room,
        } = self;
        drop(room);
        let cells = linked.store.into_cells();
        KeptTuples::new(tie.into_past(cells), spots)
    }
}
