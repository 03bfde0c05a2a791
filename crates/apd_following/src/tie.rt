//! A journal that follows a store from time to time, and which of the store's cells are kept.

ghost use Rattle.std.specs.Prelude.{◌≡◌, ℕ, List, OnOk, take};
ghost use Rattle.std.specs.Bool.{OnTrue};
ghost use Rattle.apd_term.specs.declared.term.Sym.{Sym};
ghost use Rattle.apd_cells.specs.Stored.{Stored};
ghost use Rattle.apd_cells.specs.Store.{IsSound};
ghost use Rattle.apd_past.specs.Follows.{Follows};
ghost use Rattle.apd_past.specs.History.{history_of, HasDoneMore, IsRight, IsRightHistory, KeepsMoments};
ghost use Rattle.apd_cells.specs.Live.{store_of};
ghost use Rattle.apd_following.specs.Tied.{front_of, past_of, IsAhead, IsBack, IsLevel, IsTied};

use apd_cells::front::Front;
use apd_cells::live::Live;
use apd_past::journal::Journal;
use apd_past::past::Past;
use apd_term::Sym;
use apd_unify::store::Store;
use std::alloc::{AllocError, Global};

/// A journal, and how far it has followed a store.
#[derive(Drop)]
pub struct Tie {
    pub journal: Journal,
    /// So many of the store's first cells are kept, with the variables of the journal.
    pub cells: usize,
    /// So many notes of the store's trail it has followed, and these are there still.
    pub followed: usize,
    /// After want of memory it follows no store any more.
    pub holds: bool,
}

/// Frees variables that were bound last, as far as they are free in the store.
fn free_newest(journal: &mut Journal, store: &Store) -> Result<(), AllocError>
    requires { IsAhead journal.old store.now }
    ensures follows { OnOk result (Follows journal.new store.now) }
    ensures right { (cells : List Sym) (n : ℕ) → IsRight cells n journal.old.spans →
        IsRight cells n journal.new.spans }
    ensures more { HasDoneMore journal.old journal.new }
{
    'bound: while let Some(v) = journal.newest() {
        if !store.is_free(v) {
            return Ok(());
        }
        journal.unbind()?;
    }
    Ok(())
}

impl Tie {
    /// The journal of any store that begins without a term. Nothing is kept.
    pub fn new(alloc: Global) -> Tie
        ensures { (s : Stored) → IsTied result s }
    {
        Tie {
            journal: Journal::new(alloc),
            cells: 0,
            followed: 0,
            holds: true,
        }
    }

    /// What is kept of the store.
    pub fn front(&self) -> Front
        ensures { result ≡ front_of self.now }
    {
        Front {
            cells: self.cells,
            variables: self.journal.variables(),
        }
    }

    /// Whether it has followed all that was done to a store with these parts, and all cells are kept. False says nothing.
    fn is_level(&self, live: &Live<'_>) -> bool
        ensures { OnTrue result (IsLevel self.now (store_of live.now)) }
    {
        if !self.holds {
            return false;
        }
        if self.followed < live.notes.len() {
            return false;
        }
        if self.cells < live.cells.len() {
            return false;
        }
        true
    }

    /// Catches up with the store, as [`Tie::catch_up`] does. It is a function of its own, as there is mostly nothing to
    /// follow.
    #[inline(never)]
    fn follow(&mut self, store: &Store) -> Result<(), AllocError>
        requires { IsTied self.old store.now }
        ensures tied { IsTied self.new store.now }
        ensures follows { OnOk result (Follows self.new.journal store.now) }
        ensures all { OnOk result
            (past_of self.new store.now ≡ history_of store.now.cells self.new.journal) }
        ensures kept { KeepsMoments (past_of self.old store.now) (past_of self.new store.now) }
    {
        if !self.holds {
            return Err(AllocError);
        }
        let live = store.live();
        self.journal.make_room(live.variables)?;
        self.cells = live.cells.len();
        // After want of memory halfway the journal has a part of what was done: it follows no store any more.
        self.holds = false;
        self.journal.follow(&live, self.followed)?;
        self.followed = live.notes.len();
        self.holds = true;
        Ok(())
    }

    /// Catches up with the store, all of whose cells are kept then. What was at earlier moments stays.
    #[inline(always)]
    pub fn catch_up(&mut self, store: &Store) -> Result<(), AllocError>
        requires { IsTied self.old store.now }
        ensures tied { IsTied self.new store.now }
        ensures follows { OnOk result (Follows self.new.journal store.now) }
        ensures sound { OnOk result (IsSound store.now) }
        ensures all { OnOk result
            (past_of self.new store.now ≡ history_of store.now.cells self.new.journal) }
        ensures kept { KeepsMoments (past_of self.old store.now) (past_of self.new store.now) }
    {
        let live = store.live();
        if self.is_level(&live) {
            return Ok(());
        }
        self.follow(store)
    }

    /// The store went back to an earlier mark. What was at earlier moments stays. Want of memory for that is told where more is
    /// to be kept: what was kept stays right without it.
    pub fn go_back(&mut self, store: &Store)
        requires { IsBack self.old store.now }
        ensures tied { IsTied self.new store.now }
        ensures kept { KeepsMoments (past_of self.old store.now) (past_of self.new store.now) }
    {
        if !self.holds {
            return;
        }
        let notes = store.mark().0;
        if self.followed <= notes {
            return;
        }
        self.followed = notes;
        self.holds = free_newest(&mut self.journal, store).is_ok();
    }

    /// The past, where these are the store's cells.
    pub fn into_past(self, cells: Vec<Sym>) -> Past
        requires { IsRightHistory (history_of (take self.cells cells.items) self.journal) }
        ensures { result ≡ history_of (take self.cells cells.items) self.journal }
    {
        let Tie {
            journal,
            cells: kept,
            ..
        } = self;
        let mut cells = cells;
        cells.truncate(kept);
        Past::of(cells, journal)
    }
}
