//! Extents of terms that are known without a count.
//!
//! A size stays right as long as no variable of its term is bound, and as the trail is no shorter than where it was
//! found. So what is known stands in stacks: a binding and an undoing drop what is newest there. Of what was measured
//! lately a binding drops all, but that of a variable to an integer or an atom, which changes no size.

ghost use Rattle.std.specs.Prelude.{◌≡◌, ℕ, ◌+◌, ◌-◌, ◌<◌, ◌≤◌, ◌⊎◌, ◌^◌, [], get_or, max, length, OnOk, IfSome};
ghost use Rattle.apd_term.specs.declared.term.Sym.TheVariants.{Var};
ghost use Rattle.apd_cells.specs.Known.{AreKnown, AreRecent, HasExtent, IsConstant};
ghost use Rattle.apd_cells.specs.Stored.{Stored};

use apd_base::room::room_for_one;
use apd_base::stack::Stack;
use apd_term::Sym;
use std::alloc::AllocError;
use std::marker::Model;
use std::mem::size_of;

/// How many symbols a term has, and a number above its variables: 0 only where it has none.
#[derive(Clone, Copy)]
pub struct Extent {
    pub size: u64,
    pub above: u64,
}

impl Extent {
    /// The extent of what has the one and the other together.
    pub fn and(self, other: Extent) -> Extent
        requires { self.size + other.size < 2 ^ 64 }
        ensures size { result.size ≡ self.size + other.size }
        ensures above { result.above ≡ max self.above other.above }
    {
        let mut above = self.above;
        if above < other.above {
            above = other.above;
        }
        Extent {
            size: self.size + other.size,
            above,
        }
    }
}

/// The extent of the term at a cell, since the trail had so many notes.
#[derive(Clone, Copy)]
pub struct KnownExtent {
    pub cell: usize,
    pub extent: Extent,
    pub since: usize,
}

/// An extent that is known of a cell, in 16 bytes. Contracts see cell, extent and notes.
#[derive(Drop)]
pub struct KeptExtent {
    cell: u32,
    size: u32,
    above: u32,
    since: u32,
}

const _: () = prove!(size_of::<KeptExtent>() == 16);

impl Model for KeptExtent {
    ghost use Rattle.apd_cells.specs.declared.known.KnownExtent.{KnownExtent};

    ghost Value = { KnownExtent };

    ghost view = { λ k. record {
      cell = k.cell;
      extent = record { size = k.size; above = k.above };
      since = k.since;
    } };
}

impl KeptExtent {
    /// The extent as it is kept, where its numbers have room; none says nothing.
    pub fn of(cell: usize, extent: Extent, since: usize) -> Option<KeptExtent>
        ensures { IfSome result
            (λ k. k ≡ record { cell = cell; extent = extent; since = since }) }
    {
        if cell > MOST || since > MOST {
            return None;
        }
        if extent.size > MOST as u64 || extent.above > MOST as u64 {
            return None;
        }
        Some(KeptExtent {
            cell: cell as u32,
            size: extent.size as u32,
            above: extent.above as u32,
            since: since as u32,
        })
    }

    /// The extent.
    #[inline(always)]
    pub fn read(&self) -> KnownExtent
        ensures { result ≡ self.now }
    {
        KnownExtent {
            cell: self.cell as usize,
            extent: Extent {
                size: self.size as u64,
                above: self.above as u64,
            },
            since: self.since as usize,
        }
    }
}

/// What is known of a cell's term, if it stands at this place, counted from the oldest.
#[inline(always)]
pub fn known_at(known: &Stack<KeptExtent>, place: usize, cell: usize) -> Option<Extent>
    ensures { (s : Stored) (n a : ℕ) → n ≤ length s.trail → AreKnown s n a known.now →
        IfSome result (HasExtent s cell) }
{
    let kept = known.get(place)?;
    let found = kept.read();
    if found.cell != cell {
        return None;
    }
    Some(found.extent)
}

/// What was measured lately of a cell's term, if it stands at this place, counted from the oldest.
#[inline(always)]
pub fn recent_at(recent: &Stack<KeptExtent>, place: usize, cell: usize) -> Option<Extent>
    ensures { (s : Stored) (n : ℕ) → n ≤ length s.trail → AreRecent s n recent.now →
        IfSome result (HasExtent s cell) }
{
    let kept = recent.get(place)?;
    let found = kept.read();
    if found.cell != cell {
        return None;
    }
    Some(found.extent)
}

/// Forgets what was measured since the trail had so many notes.
pub fn forget_recent(recent: &mut Stack<KeptExtent>, notes: usize)
    ensures { (s : Stored) (n : ℕ) → AreRecent s n recent.old → AreRecent s (notes - 1) recent.new }
{
    'known: while let Some(newest) = recent.top() {
        if newest.read().since < notes {
            return;
        }
        recent.pop();
    }
}

/// Forgets all that was measured, unless a binding to the term at this place leaves it right.
pub fn forget_measured(recent: &mut Stack<KeptExtent>, cells: &[Sym], to: usize)
    requires { to < length cells.now }
    ensures { (recent.new ≡ []) ⊎
        (IsConstant (get_or cells.now to (Var 0)) × (recent.new ≡ recent.old)) }
{
    match cells[to] {
        Sym::Int(_) => {}
        Sym::Fun(_, 0) => {}
        _ => recent.clear(),
    }
}

/// The extents of so many terms that were measured lately are kept.
pub const MOST_RECENT: usize = 64;

/// Forgets all that was measured, where it is much.
#[inline(always)]
pub fn forget_many(recent: &mut Stack<KeptExtent>)
    ensures { (recent.new ≡ recent.old) ⊎ (recent.new ≡ []) }
{
    if recent.len() >= MOST_RECENT {
        recent.clear();
    }
}

/// Forgets what was found since the trail had so many notes.
pub fn forget_since(known: &mut Stack<KeptExtent>, notes: usize)
    ensures { (s : Stored) (n a : ℕ) → AreKnown s n a known.old →
        AreKnown s (notes - 1) a known.new }
{
    'known: while let Some(newest) = known.top() {
        if newest.read().since < notes {
            return;
        }
        known.pop();
    }
}

/// Forgets what the binding of a variable may change.
pub fn forget_above(known: &mut Stack<KeptExtent>, v: u64)
    ensures { (s : Stored) (n a : ℕ) → AreKnown s n a known.old → AreKnown s n v known.new }
{
    'known: while let Some(newest) = known.top() {
        if newest.read().extent.above <= v {
            return;
        }
        known.pop();
    }
}

/// A number that is no less than this one, and above the variables of all that is known.
pub fn above_all(known: &Stack<KeptExtent>, above: u64) -> u64
    ensures more { above ≤ result }
    ensures all { (s : Stored) (n a : ℕ) → AreKnown s n a known.now →
        AreKnown s n result known.now }
{
    match known.top() {
        None => above,
        Some(newest) => {
            let least = newest.read().extent.above;
            if least > above {
                return least;
            }
            above
        }
    }
}

/// The greatest number that is kept.
const MOST: usize = 4_294_967_295;

/// Makes room for the place of a cell.
#[inline(always)]
pub fn make_place(places: &mut Vec<u32>, cell: usize) -> Result<(), AllocError>
    ensures { OnOk result (cell < length places.new.items) }
{
    'room: while places.len() <= cell {
        room_for_one(places)?;
        places.push_reserved(0);
    }
    Ok(())
}
