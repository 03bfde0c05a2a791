//! Notes and bindings as they are kept, in eight and in four bytes.

ghost use Rattle.std.specs.Prelude.{◌≡◌, ◌<◌, ◌-◌, ◌^◌, IfOk, OnOk};
ghost use Rattle.apd_cells.specs.declared.heap.Binding.TheVariants.{Free, At};
ghost use Rattle.apd_cells.specs.declared.heap.TrailNote.TheVariants.{Loaded, Bound};

use crate::heap::{Binding, TrailNote};
use std::alloc::AllocError;
use std::marker::Model;

/// A note as it is kept. Contracts see the note.
#[derive(Drop)]
pub struct KeptNote {
    /// How many cells there were, or the variable that was bound.
    first: u32,
    /// How many variables there were, below [`HALF`]; or the cell, raised by it.
    second: u32,
}

impl Model for KeptNote {
    ghost use Rattle.apd_cells.specs.declared.heap.TrailNote.{TrailNote};
    ghost use Rattle.apd_cells.specs.Kept.{note_in};

    ghost Value = { TrailNote };

    ghost view = { λ n. note_in n.first n.second };
}

/// What a variable is bound to, as it is kept. Contracts see the binding.
#[derive(Drop)]
pub struct KeptBinding {
    /// One more than the cell; 0 where the variable is free.
    raw: u32,
}

impl Model for KeptBinding {
    ghost use Rattle.apd_cells.specs.declared.heap.Binding.{Binding};
    ghost use Rattle.apd_cells.specs.Kept.{binding_in};

    ghost Value = { Binding };

    ghost view = { λ b. binding_in b.raw };
}

/// Half of the numbers of 32 bits.
const HALF: u32 = 2_147_483_648;

/// The greatest number of 32 bits.
const MOST: u64 = 4_294_967_295;

impl KeptNote {
    /// The note of a load where so many cells and so many variables are; want of memory where they are too many.
    pub fn loaded(cells: usize, variables: usize) -> Result<KeptNote, AllocError>
        ensures { IfOk result (λ n. n ≡ Loaded cells variables) }
    {
        if cells as u64 > MOST || variables >= HALF as usize {
            return Err(AllocError);
        }
        Ok(KeptNote {
            first: cells as u32,
            second: variables as u32,
        })
    }

    /// The note of a binding; want of memory where a number is too great.
    pub fn bound(v: u64, to: usize) -> Result<KeptNote, AllocError>
        ensures note { IfOk result (λ n. n ≡ Bound v to) }
        ensures small { OnOk result (to < 2 ^ 32 - 1) }
    {
        if v > MOST || to >= HALF as usize {
            return Err(AllocError);
        }
        Ok(KeptNote {
            first: v as u32,
            second: to as u32 + HALF,
        })
    }

    /// The note.
    #[inline(always)]
    pub fn get(&self) -> TrailNote
        ensures { result ≡ self.now }
    {
        if self.second < HALF {
            return TrailNote::Loaded(self.first as usize, self.second as usize);
        }
        TrailNote::Bound(self.first as u64, (self.second - HALF) as usize)
    }
}

impl KeptBinding {
    /// A variable is free.
    #[inline(always)]
    pub fn free() -> KeptBinding
        ensures { result ≡ Free }
    {
        KeptBinding { raw: 0 }
    }

    /// A variable is bound to the term at a cell.
    #[inline(always)]
    pub fn at(cell: usize) -> KeptBinding
        requires { cell < 2 ^ 32 - 1 }
        ensures { result ≡ At cell }
    {
        KeptBinding {
            raw: cell as u32 + 1,
        }
    }

    /// The binding.
    #[inline(always)]
    pub fn get(&self) -> Binding
        ensures { result ≡ self.now }
    {
        if self.raw == 0 {
            return Binding::Free;
        }
        Binding::At((self.raw - 1) as usize)
    }
}
