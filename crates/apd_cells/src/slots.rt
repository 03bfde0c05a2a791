//! What stands for the variables of a clause while it is entered, and terms of the clause that are put behind the cells.

ghost use Rattle.std.specs.Prelude.{◌≡◌, ◌<◌, ℕ, List, length, take, IfOk, IfSome, OnOk};
ghost use Rattle.std.specs.List.{flat_map};
ghost use Rattle.apd_term.specs.Term.{IsWhole, Term, spell, term_of, variables};
ghost use Rattle.apd_cells.specs.Heap.{HasMore};
ghost use Rattle.apd_cells.specs.Slots.{slot_at, AreSlots, HasRoom, HasSet, IsPutFor, Places, PlacesNext, Placing, HasPut};
ghost use Rattle.apd_cells.specs.Stretches.{AreMeant, AreStretches, IsMeant, IsStretch};

use crate::kept::KeptBinding;
use crate::symbols::{above_symbol, make_room};
use apd_base::room::{room_for, room_for_one};
use apd_term::{Flat, Sym};
use std::alloc::AllocError;

/// What stands for a variable of a clause.
#[derive(Clone, Copy)]
pub enum Slot {
    /// Nothing yet.
    New,
    /// A variable of its own, which is written at a cell.
    Own(usize),
    /// The term at a cell where one symbol is written.
    Given(usize),
}

/// From a place of a clause's term on, one symbol that is put behind the cells stands for so many of its symbols.
#[derive(Clone, Copy)]
pub struct Stretch {
    pub from: usize,
    pub size: usize,
    pub symbol: Sym,
}

/// What stands for a variable.
#[inline(always)]
pub fn slot_at(slots: &[Slot], v: u64) -> Slot
    ensures { result ≡ slot_at slots.now v }
{
    if v as usize >= slots.len() {
        return Slot::New;
    }
    slots[v as usize]
}

/// Makes room for what stands for a variable.
#[inline(always)]
fn make_slot(slots: &mut Vec<Slot>, v: u64) -> Result<(), AllocError>
    ensures room { OnOk result (v < length slots.new.items) }
    ensures same { HasRoom slots.old.items slots.new.items }
{
    'room: while slots.len() as u64 <= v {
        room_for_one(slots)?;
        slots.push_reserved(Slot::New);
    }
    Ok(())
}

/// Lets something stand for a variable.
#[inline(always)]
pub fn set_slot(slots: &mut Vec<Slot>, v: u64, slot: Slot) -> Result<(), AllocError>
    ensures { OnOk result (HasSet slots.old.items slots.new.items v slot) }
{
    make_slot(slots, v)?;
    slots[v as usize] = slot;
    Ok(())
}

/// The symbol that is put behind the cells for a symbol of the clause, where there are so many variables. A variable for
/// which nothing stands has one of its own then.
#[inline(always)]
fn place(
    cells: &[Sym],
    slots: &mut Vec<Slot>,
    symbol: Sym,
    variables: usize,
) -> Result<Sym, AllocError>
    requires { AreSlots cells.now variables slots.old.items }
    ensures { IfOk result (Places cells.now variables slots.old.items slots.new.items symbol) }
{
    let Sym::Var(v) = symbol else {
        return Ok(symbol);
    };
    match slot_at(slots.as_slice(), v) {
        Slot::New => {
            set_slot(slots, v, Slot::Own(cells.len()))?;
            Ok(Sym::Var(variables as u64))
        }
        Slot::Own(cell) => Ok(cells[cell]),
        Slot::Given(cell) => Ok(cells[cell]),
    }
}

/// Puts the symbols of a clause's term behind the cells, and tells how many variables there are then, with `there` of them
/// before.
#[inline(always)]
fn append_placed(
    cells: &mut Vec<Sym>,
    slots: &mut Vec<Slot>,
    there: usize,
    symbols: &[Sym],
) -> Result<usize, AllocError>
    requires { AreSlots cells.old.items there slots.old.items }
    ensures put { IfOk result (λ n. Placing cells.old.items cells.new.items there n
        slots.old.items slots.new.items symbols.now) }
    ensures front { take (length cells.old.items) cells.new.items ≡ cells.old.items }
{
    room_for(cells, symbols.len())?;
    let mut count = there;
    for symbol in symbols {
        let put = place(cells.as_slice(), slots, *symbol, count)?;
        count = above_symbol(put, count)?;
        cells.push_reserved(put);
    }
    Ok(count)
}

/// What is put for the next symbols of a clause's term: the symbol of a stretch that was found, or that for one symbol.
fn place_next(
    cells: &[Sym],
    slots: &mut Vec<Slot>,
    symbols: &[Sym],
    at: usize,
    variables: usize,
    found: Option<Stretch>,
) -> Result<Stretch, AllocError>
    requires slots { AreSlots cells.now variables slots.old.items }
    requires there { at < length symbols.now }
    requires found { IfSome found (IsStretch symbols.now) }
    ensures places { IfOk result
        (PlacesNext cells.now variables slots.old.items slots.new.items symbols.now at) }
    ensures put { IfOk result (λ c. (means : ℕ → Term) → IfSome found (IsMeant means symbols.now) →
        IsPutFor means cells.now slots.new.items symbols.now at c) }
{
    if let Some(stretch) = found {
        if stretch.from == at {
            return Ok(stretch);
        }
    }
    let symbol = place(cells, slots, symbols[at], variables)?;
    Ok(Stretch {
        from: at,
        size: 1,
        symbol,
    })
}

/// The stretch with this number, counted from 0.
fn stretch_at(copied: &[Stretch], number: usize) -> Option<Stretch>
    ensures stretch { (symbols : List Sym) → AreStretches symbols copied.now →
        IfSome result (IsStretch symbols) }
    ensures meant { (means : ℕ → Term) (symbols : List Sym) → AreMeant means symbols copied.now →
        IfSome result (IsMeant means symbols) }
{
    if number >= copied.len() {
        return None;
    }
    Some(copied[number])
}

/// The number of the stretch that comes after some symbols were passed.
fn number_behind(number: usize, size: usize) -> usize {
    if size > 1 {
        return number.saturating_add(1);
    }
    number
}

/// Puts the symbols of a clause's term behind the cells as [`append_placed`] does, but for stretches of them one symbol
/// each.
#[inline(never)]
fn append_copied(
    cells: &mut Vec<Sym>,
    slots: &mut Vec<Slot>,
    there: usize,
    symbols: &[Sym],
    copied: &[Stretch],
) -> Result<usize, AllocError>
    requires slots { AreSlots cells.old.items there slots.old.items }
    requires whole { IsWhole symbols.now }
    requires stretches { AreStretches symbols.now copied.now }
    ensures put { IfOk result (λ n. (means : ℕ → Term) → AreMeant means symbols.now copied.now →
        HasPut means cells.old.items cells.new.items there n
        slots.old.items slots.new.items (term_of symbols.now)) }
    ensures front { take (length cells.old.items) cells.new.items ≡ cells.old.items }
{
    room_for(cells, symbols.len())?;
    let mut count = there;
    let mut next: usize = 0;
    let mut at: usize = 0;
    'symbols: while at < symbols.len() {
        let found = stretch_at(copied, next);
        let put = place_next(cells.as_slice(), slots, symbols, at, count, found)?;
        count = above_symbol(put.symbol, count)?;
        cells.push_reserved(put.symbol);
        at += put.size;
        next = number_behind(next, put.size);
    }
    Ok(count)
}

/// Puts the symbols of a clause's term behind the cells, and one symbol each for stretches of it.
#[inline(always)]
fn append_symbols(
    cells: &mut Vec<Sym>,
    slots: &mut Vec<Slot>,
    there: usize,
    symbols: &[Sym],
    copied: &[Stretch],
) -> Result<usize, AllocError>
    requires slots { AreSlots cells.old.items there slots.old.items }
    requires whole { IsWhole symbols.now }
    requires stretches { AreStretches symbols.now copied.now }
    ensures put { IfOk result (λ n. (means : ℕ → Term) → AreMeant means symbols.now copied.now →
        HasPut means cells.old.items cells.new.items there n
        slots.old.items slots.new.items (term_of symbols.now)) }
    ensures front { take (length cells.old.items) cells.new.items ≡ cells.old.items }
{
    if copied.is_empty() {
        return append_placed(cells, slots, there, symbols);
    }
    append_copied(cells, slots, there, symbols, copied)
}

/// Puts a clause's term behind the cells, with what stands for its variables in their places, and one symbol each for
/// stretches of it that stand there already.
pub fn append_for(
    cells: &mut Vec<Sym>,
    bindings: &mut Vec<KeptBinding>,
    slots: &mut Vec<Slot>,
    symbols: &[Sym],
    copied: &[Stretch],
) -> Result<(), AllocError>
    requires slots { AreSlots cells.old.items (length bindings.old.items) slots.old.items }
    requires whole { IsWhole symbols.now }
    requires stretches { AreStretches symbols.now copied.now }
    ensures put { OnOk result ((means : ℕ → Term) → AreMeant means symbols.now copied.now →
        HasPut means cells.old.items cells.new.items
        (length bindings.old.items) (length bindings.new.items)
        slots.old.items slots.new.items (term_of symbols.now)) }
    ensures front { take (length cells.old.items) cells.new.items ≡ cells.old.items }
    ensures more { HasMore bindings.old.items bindings.new.items }
{
    let count = append_symbols(cells, slots, bindings.len(), symbols, copied)?;
    make_room(bindings, count)?;
    Ok(())
}

/// Puts terms of a clause behind the cells, one behind the other, with what stands for its variables in their places.
pub fn append_all(
    cells: &mut Vec<Sym>,
    bindings: &mut Vec<KeptBinding>,
    slots: &mut Vec<Slot>,
    terms: &[Flat],
) -> Result<(), AllocError>
    requires { AreSlots cells.old.items (length bindings.old.items) slots.old.items }
    ensures put { OnOk result (Placing cells.old.items cells.new.items
        (length bindings.old.items) (length bindings.new.items)
        slots.old.items slots.new.items (flat_map spell terms.now)) }
    ensures front { take (length cells.old.items) cells.new.items ≡ cells.old.items }
    ensures more { HasMore bindings.old.items bindings.new.items }
{
    let mut count = bindings.len();
    'terms: for term in terms {
        count = append_placed(cells, slots, count, term.symbols())?;
    }
    make_room(bindings, count)?;
    Ok(())
}
