//! Symbols of terms that are put behind others, and whether a symbol has arguments.

ghost use Rattle.std.specs.Prelude.{◌≡◌, ℕ, ◌+◌, ◌<◌, ◌^◌, ◌++◌, get_or, length, max, IfOk, OnOk, take};
ghost use Rattle.std.specs.Bool.{OnTrue};
ghost use Rattle.apd_term.specs.Term.{Occurs, spell, variables};
ghost use Rattle.apd_term.specs.Canonical.{shifted};
ghost use Rattle.apd_term.specs.declared.term.Sym.TheVariants.{Var};
ghost use Rattle.apd_term.specs.Spelling.{variable_in};
ghost use Rattle.apd_cells.specs.Flat.{compound_in};
ghost use Rattle.apd_cells.specs.Heap.{HasMore, raised};
ghost use Rattle.apd_cells.specs.Known.{IsConstant};
ghost use Rattle.apd_cells.specs.Store.{above};

use crate::kept::KeptBinding;
use apd_base::room::{room_for, room_for_one};
use apd_term::{Flat, Sym};
use std::alloc::AllocError;

/// Free variables behind those that are there, until there are so many.
#[inline(always)]
pub(crate) fn make_room(bindings: &mut Vec<KeptBinding>, count: usize) -> Result<(), AllocError>
    ensures more { HasMore bindings.old.items bindings.new.items }
    ensures ok { OnOk result
        (length bindings.new.items ≡ max (length bindings.old.items) count) }
{
    'room: while bindings.len() < count {
        room_for_one(bindings)?;
        bindings.push_reserved(KeptBinding::free());
    }
    Ok(())
}

/// 1 where the symbol at this place has arguments.
pub(crate) fn compound_at(cells: &[Sym], at: usize) -> usize
    requires { at < length cells.now }
    ensures { result ≡ compound_in (get_or cells.now at (Var 0)) }
{
    match cells[at] {
        Sym::Fun(_, 0) => 0,
        Sym::Fun(..) => 1,
        _ => 0,
    }
}

/// Whether an integer or an atom is at this place.
pub(crate) fn constant_at(cells: &[Sym], at: usize) -> bool
    requires { at < length cells.now }
    ensures { OnTrue result (IsConstant (get_or cells.now at (Var 0))) }
{
    match cells[at] {
        Sym::Int(_) => true,
        Sym::Fun(_, 0) => true,
        _ => false,
    }
}

/// The greatest number that a variable may have.
const MOST: u64 = 4_294_967_294;

/// The number or one more than the variable that a symbol is, whichever is greater; want of memory where that is
/// too great.
pub(crate) fn above_symbol(symbol: Sym, there: usize) -> Result<usize, AllocError>
    ensures { IfOk result (λ n. n ≡ above there (variable_in symbol)) }
{
    match symbol {
        Sym::Var(v) => {
            if v > MOST {
                return Err(AllocError);
            }
            Ok(there.max(v as usize + 1))
        }
        _ => Ok(there),
    }
}

/// The symbol with its variable raised by `base`.
fn raised(symbol: Sym, base: u64) -> Sym
    requires { (v : ℕ) → symbol ≡ Var v → base + v < 2 ^ 64 }
    ensures { result ≡ raised base symbol }
{
    match symbol {
        Sym::Var(v) => Sym::Var(base + v),
        other => other,
    }
}

/// Puts the symbols of a term behind the cells, the variables raised by `base`, and tells how many variables there are
/// then, with `there` of them before.
fn append_symbols(
    cells: &mut Vec<Sym>,
    there: usize,
    t: &Flat,
    base: u64,
) -> Result<usize, AllocError>
    requires { (v : ℕ) → Occurs v t.now → base + v < 2 ^ 64 }
    ensures cells { OnOk result
        (cells.new.items ≡ cells.old.items ++ spell (shifted base t.now)) }
    ensures count { IfOk result (λ n. n ≡ above there (variables (shifted base t.now))) }
    ensures front { take (length cells.old.items) cells.new.items ≡ cells.old.items }
{
    let symbols = t.symbols();
    room_for(cells, symbols.len())?;
    let mut count = there;
    for symbol in symbols {
        let moved = raised(*symbol, base);
        count = above_symbol(moved, count)?;
        cells.push_reserved(moved);
    }
    Ok(count)
}

/// Puts the term behind the cells, its variables raised by `base`.
pub fn append(
    cells: &mut Vec<Sym>,
    bindings: &mut Vec<KeptBinding>,
    t: &Flat,
    base: u64,
) -> Result<(), AllocError>
    requires { (v : ℕ) → Occurs v t.now → base + v < 2 ^ 64 }
    ensures cells { OnOk result
        (cells.new.items ≡ cells.old.items ++ spell (shifted base t.now)) }
    ensures variables { OnOk result
        (length bindings.new.items ≡ above (length bindings.old.items) (variables (shifted base t.now))) }
    ensures front { take (length cells.old.items) cells.new.items ≡ cells.old.items }
    ensures more { HasMore bindings.old.items bindings.new.items }
{
    let count = append_symbols(cells, bindings.len(), t, base)?;
    make_room(bindings, count)?;
    Ok(())
}
