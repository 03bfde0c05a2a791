//! What is known of the sizes of a store's terms.

ghost use Rattle.std.specs.Prelude.{◌≡◌, ◌<◌, [], length, IfSome};
ghost use Rattle.apd_cells.specs.Known.{HasExtent, IsSized};
ghost use Rattle.apd_cells.specs.Store.{before_note, bound};
ghost use Rattle.apd_cells.specs.Stored.{Stored};

use crate::known::{
    Extent, KeptExtent, MOST_RECENT, above_all, forget_above, forget_many, forget_measured,
    forget_recent, forget_since, known_at, make_place, recent_at,
};
use apd_base::stack::Stack;
use apd_term::Sym;
use std::alloc::{AllocError, Global};

/// Extents of terms. Contracts see the lists; that they are right is `IsSized`.
#[derive(Drop)]
pub struct Extents {
    /// The extents of terms without variables, as far as they are known.
    pub ground_terms: Stack<KeptExtent>,
    /// The same of terms with variables.
    pub open_terms: Stack<KeptExtent>,
    /// The place of each cell in one of the two. What is left of earlier places says nothing.
    places: Vec<u32>,
    /// The extents of terms that were measured lately, since the last binding that may have changed one.
    pub recent: Stack<KeptExtent>,
    /// The place there of a cell, by its remainder. What is left of earlier places says nothing.
    near: Vec<u32>,
}

impl Extents {
    /// Nothing is known.
    pub fn new(alloc: Global) -> Extents
        ensures ground { result.ground_terms ≡ [] }
        ensures open { result.open_terms ≡ [] }
        ensures recent { result.recent ≡ [] }
    {
        Extents {
            ground_terms: Stack::new(alloc),
            open_terms: Stack::new(alloc),
            places: Vec::new(alloc),
            recent: Stack::new(alloc),
            near: Vec::new(alloc),
        }
    }

    /// The extent of the term at a cell, where it is known; none says nothing.
    #[inline(always)]
    pub fn known(&self, cell: usize) -> Option<Extent>
        ensures { (s : Stored) → IsSized s self.now → IfSome result (HasExtent s cell) }
    {
        let place = *self.places.get(cell)? as usize;
        if let Some(extent) = known_at(&self.ground_terms, place, cell) {
            return Some(extent);
        }
        known_at(&self.open_terms, place, cell)
    }

    /// The same where the term was measured lately.
    #[inline(always)]
    pub fn recalled(&self, cell: usize) -> Option<Extent>
        ensures { (s : Stored) → IsSized s self.now → IfSome result (HasExtent s cell) }
    {
        let place = *self.near.get(cell % MOST_RECENT)? as usize;
        recent_at(&self.recent, place, cell)
    }

    /// Keeps the extent of the term at a cell, or nothing, where the trail has so many notes.
    pub fn keep(&mut self, cell: usize, extent: Extent, since: usize) -> Result<(), AllocError>
        ensures { (s : Stored) → HasExtent s cell extent → since ≡ length s.trail →
            IsSized s self.old → IsSized s self.new }
    {
        make_place(&mut self.places, cell)?;
        if extent.above == 0 {
            let Some(kept) = KeptExtent::of(cell, extent, since) else {
                return Ok(());
            };
            self.places[cell] = u32::try_from(self.ground_terms.len()).unwrap_or(u32::MAX);
            self.ground_terms.push(kept)?;
            return Ok(());
        }
        let above = above_all(&self.open_terms, extent.above);
        let size = extent.size;
        let Some(kept) = KeptExtent::of(cell, Extent { size, above }, since) else {
            return Ok(());
        };
        self.places[cell] = u32::try_from(self.open_terms.len()).unwrap_or(u32::MAX);
        self.open_terms.push(kept)?;
        Ok(())
    }

    /// Notes the extent of a term that was measured, or nothing, where the trail has so many notes.
    #[inline(always)]
    pub fn remember(&mut self, cell: usize, extent: Extent, since: usize) -> Result<(), AllocError>
        ensures { (s : Stored) → HasExtent s cell extent → since ≡ length s.trail →
            IsSized s self.old → IsSized s self.new }
    {
        let near = cell % MOST_RECENT;
        make_place(&mut self.near, near)?;
        forget_many(&mut self.recent);
        let Some(kept) = KeptExtent::of(cell, extent, since) else {
            return Ok(());
        };
        self.near[near] = u32::try_from(self.recent.len()).unwrap_or(u32::MAX);
        self.recent.push(kept)?;
        Ok(())
    }

    /// Forgets what a binding of a variable to the term at a cell may change.
    pub fn forget_bound(&mut self, cells: &[Sym], v: u64, to: usize)
        requires { to < length cells.now }
        ensures { (s : Stored) → s.cells ≡ cells.now → IsSized s self.old →
            IsSized (bound s v to) self.new }
    {
        forget_above(&mut self.open_terms, v);
        forget_measured(&mut self.recent, cells, to);
    }

    /// Forgets what was found since the newest note of the trail, which has so many.
    pub fn forget_since_note(&mut self, notes: usize)
        ensures { (s : Stored) → notes ≡ length s.trail → IsSized s self.old →
            IsSized (before_note s.cells s.variables s.trail) self.new }
    {
        forget_since(&mut self.ground_terms, notes);
        forget_since(&mut self.open_terms, notes);
        forget_recent(&mut self.recent, notes);
    }
}
