//! Which places may have an instance of an atom is told by the `and` of the rows of those of its symbols that many share. The founder of
//! the symbol above one isn't struck out by that one: for a constant it isn't noted. (For a symbol with arguments it is, and is spared too.)

ghost use Rattle.std.specs.Prelude.{◌≡◌, ℕ, IfOk, IfSome, OnOk, Some, slice_get};
ghost use Rattle.apd_term.specs.Term.{IsAmong};
ghost use Rattle.apd_marks.specs.Positions.{any_term};
ghost use Rattle.apd_index.specs.Nodes.{IsFounder, IsSound, noted_at};
ghost use Rattle.apd_index.specs.Spots.{AreSpots, Leaves, IsSpot, StandsIn};
ghost use Rattle.apd_index.specs.declared.sharing.SymbolSpot.{SymbolSpot as SpotValue};
ghost use Rattle.apd_bits.specs.Rows.{HasBit};

use crate::nodes::{Nodes, bits_of, count_at, founder_at, row_at};
use crate::positions::{mark_of, positions_of};
use apd_bits::Row;
use apd_marks::ANY_TERM;
use apd_term::Flat;
use std::alloc::{AllocError, Global};

/// A symbol of an atom: its mark, and that of the symbol above it.
#[derive(Clone, Copy)]
pub(crate) struct SymbolSpot {
    pub parent: u64,
    pub mark: u64,
}

/// The spots of the atom's symbols, but for variables. The contract says that they are spots of it, and leaves open which.
fn spots_of(alloc: Global, atom: &Flat) -> Result<Vec<SymbolSpot>, AllocError>
    ensures { IfOk result (λ spots. AreSpots atom.now spots.items) }
{
    let positions = positions_of(alloc, atom)?;
    let symbols = atom.symbols();
    let mut spots = Vec::new(alloc);
    'symbols: for i in 0..symbols.len() {
        let position = positions[i];
        let Some(mark) = mark_of(position, symbols[i]) else {
            continue;
        };
        spots.push(SymbolSpot {
            parent: position.mark,
            mark,
        })?;
    }
    Ok(spots)
}

/// The spot for whose mark the fewest places are noted; none where each has more than there are. The contract says that it is one of these.
fn rarest(nodes: &Nodes, spots: &[SymbolSpot]) -> Option<SymbolSpot>
    ensures { IfSome result (StandsIn spots.now) }
{
    let mut rarest = None;
    let mut least = count_at(nodes, ANY_TERM);
    'spots: for spot in spots {
        let count = count_at(nodes, spot.mark);
        if count <= least {
            rarest = Some(*spot);
            least = count;
        }
    }
    rarest
}

/// A row with the bits of the places that a spot leaves; without a spot, of all that are noted.
fn first_row(alloc: Global, nodes: &Nodes, spot: Option<SymbolSpot>) -> Result<Row, AllocError>
    requires { IsSound nodes.now }
    ensures { IfOk result (λ row. (k : ℕ) → IsAmong (noted_at nodes.now any_term) k
        → IfSome spot (Leaves nodes.now k) → HasBit row k) }
{
    let Some(spot) = spot else {
        return bits_of(alloc, nodes, ANY_TERM);
    };
    let mut row = bits_of(alloc, nodes, spot.mark)?;
    if let Some(founder) = founder_at(nodes, spot.parent) {
        row.set(founder)?;
    }
    Ok(row)
}

/// The founder of the symbol above a spot, where the row has its bit.
fn kept_founder(nodes: &Nodes, spot: SymbolSpot, row: &Row) -> Option<usize>
    ensures kept { (k : ℕ) → IsFounder nodes.now spot.parent k → HasBit row.now k
        → result ≡ Some k }
    ensures there { IfSome result (HasBit row.now) }
{
    match founder_at(nodes, spot.parent) {
        Some(founder) if row.has(founder) => Some(founder),
        _ => None,
    }
}

/// Leaves those bits that a spot leaves, where its mark has a row.
fn meet_spot(nodes: &Nodes, spot: SymbolSpot, row: &mut Row) -> Result<(), AllocError>
    requires { IsSound nodes.now }
    ensures { OnOk result ((k : ℕ) → HasBit row.old k → Leaves nodes.now k spot
        → HasBit row.new k) }
{
    let Some(other) = row_at(nodes, spot.mark) else {
        return Ok(());
    };
    let founder = kept_founder(nodes, spot, row);
    row.meet(other);
    match founder {
        Some(founder) => row.set(founder),
        None => Ok(()),
    }
}

/// A row with the bit of each place that all spots of the atom leave.
pub(crate) fn alike(alloc: Global, nodes: &Nodes, atom: &Flat) -> Result<Row, AllocError>
    requires { IsSound nodes.now }
    ensures { IfOk result (λ row. (k : ℕ) → IsAmong (noted_at nodes.now any_term) k
        → ((s : SpotValue) → IsSpot atom.now s → Leaves nodes.now k s) → HasBit row k) }
{
    let spots = spots_of(alloc, atom)?;
    let mut row = first_row(alloc, nodes, rarest(nodes, spots.as_slice()))?;
    'spots: for spot in spots.as_slice() {
        meet_spot(nodes, *spot, &mut row)?;
    }
    Ok(row)
}
