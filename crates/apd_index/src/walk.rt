//! The walk over an atom's symbols that notes each of them, and what the atom has at its positions.

ghost use Rattle.std.specs.Prelude.{◌≡◌, ◌⊎◌, ℕ, IfOk, IsTrue, OnOk, List};
ghost use Rattle.apd_term.specs.Term.{IsAmong, Term};
ghost use Rattle.apd_marks.specs.Mixing.{mixed};
ghost use Rattle.apd_marks.specs.Positions.{noted, onward, waiting};
ghost use Rattle.apd_index.specs.Columns.{AddsOf, AreColumns, HasColumns, KeepsEntries, tagged};
ghost use Rattle.apd_index.specs.Nodes.{IsSound as AreSound, noted_at};
ghost use Rattle.apd_index.specs.Spots.{AllLeave, IsNotedAbove};
ghost use Rattle.apd_index.specs.Subterms.{digests as digests_in, position_below};
ghost use Rattle.apd_index.specs.Table.{AddsNext, AreOpen, Grow, Grows, IsOpen, IsSound, PutsNext, kept_open, parent_of, parents_of};

use crate::columns::{Columns, put};
use crate::nodes::{Nodes, Slots, note, number_in};
use crate::positions::next_position;
use apd_marks::{ANY_TERM, Parent, TOP, mixed};
use apd_term::{Flat, Sym};
use std::alloc::{AllocError, Global};

/// What is noted of atoms: of their symbols and positions, and of large ones their places alone.
#[derive(Drop)]
pub(crate) struct Table {
    pub nodes: Nodes,
    pub columns: Columns,
    /// The places of large atoms.
    pub large: Vec<usize>,
    /// Whether nothing is put into columns any more.
    pub is_given_up: bool,
}

impl Table {
    /// Nothing noted.
    pub(crate) fn new(alloc: Global) -> Table
        ensures sound { IsSound result }
        ensures none { (xs : List Term) → HasColumns xs result.nodes result.columns }
    {
        Table {
            nodes: Nodes::new(alloc),
            columns: Columns::new(alloc),
            large: Vec::new(alloc),
            is_given_up: false,
        }
    }
}

/// A symbol's mark, how many of the terms below it are still to be read, the columns of these, and whether the atom's place is its founder.
#[derive(Clone, Copy)]
struct Open {
    mark: u64,
    left: u64,
    slots: Slots,
    is_founder: bool,
}

/// Puts a symbol, where terms below it are left to be read.
fn wait(open: &mut Vec<Open>, symbol: Open) -> Result<(), AllocError>
    ensures { OnOk result (open.new.items ≡ kept_open symbol open.old.items) }
{
    if symbol.left == 0 {
        return Ok(());
    }
    open.push(symbol)?;
    Ok(())
}

/// Puts what stands as the next term of a symbol into its column, where all was right so far, and tells whether all is right.
fn put_next(
    columns: &mut Columns,
    is_right: bool,
    parent: Open,
    digest: u64,
    place: u32,
) -> Result<bool, AllocError>
    requires { AreColumns columns.old }
    ensures columns { AreColumns columns.new }
    ensures keeps { KeepsEntries columns.old columns.new }
    ensures adds { AddsNext columns.old parent place (tagged digest place) columns.new }
    ensures right { IfOk result (λ b. IsTrue b
        → IsTrue is_right × PutsNext columns.old parent place columns.new) }
{
    if !is_right {
        return Ok(false);
    }
    match number_in(parent.slots, parent.left) {
        Some(number) => put(columns, number, digest, place),
        None => Ok(false),
    }
}

/// The mark of a symbol that is read as the next one of a parent.
fn mark_below(parent: Open, symbol: Sym) -> u64
    ensures { result ≡ mixed (position_below parent.mark parent.left) symbol }
{
    let position = next_position(Parent {
        mark: parent.mark,
        left: parent.left,
    });
    mixed(position, symbol)
}

/// Notes a symbol, and puts what is to be read below it.
fn note_symbol(
    alloc: Global,
    nodes: &mut Nodes,
    open: &mut Vec<Open>,
    mark: u64,
    count: u8,
    place: u32,
) -> Result<(), AllocError>
    requires sound { AreSound nodes.old }
    requires open { AreOpen nodes.old place open.old.items }
    ensures grow { Grow nodes.old nodes.new }
    ensures noted { OnOk result (IsAmong (noted_at nodes.new mark) place) }
    ensures open { OnOk result (AreOpen nodes.new place open.new.items) }
    ensures parents { OnOk result
        (parents_of open.new.items ≡ waiting mark count (parents_of open.old.items)) }
{
    let noted = note(alloc, nodes, mark, count, place)?;
    wait(
        open,
        Open {
            mark,
            left: count as u64,
            slots: noted.slots,
            is_founder: noted.is_founder,
        },
    )
}

/// Notes a symbol that stands below a parent, unless the atom's place is the parent's founder: that is looked at wherever the parent is.
/// Nothing is to stand below the symbol.
fn note_constant(
    alloc: Global,
    nodes: &mut Nodes,
    parent: Open,
    mark: u64,
    place: u32,
) -> Result<(), AllocError>
    requires { AreSound nodes.old }
    ensures grow { Grow nodes.old nodes.new }
    ensures noted { OnOk result
        (IsAmong (noted_at nodes.new mark) place ⊎ IsTrue parent.is_founder) }
{
    if parent.is_founder {
        return Ok(());
    }
    note(alloc, nodes, mark, 0, place)?;
    Ok(())
}

/// Notes a symbol that is read as the next one of a parent, and puts what is left to be read.
fn note_next(
    alloc: Global,
    nodes: &mut Nodes,
    open: &mut Vec<Open>,
    parent: Open,
    symbol: Sym,
    place: u32,
) -> Result<(), AllocError>
    requires sound { AreSound nodes.old }
    requires open { AreOpen nodes.old place open.old.items }
    requires parent { IsOpen nodes.old place parent }
    ensures grow { Grow nodes.old nodes.new }
    ensures noted { OnOk result ((m : ℕ) → IsAmong (noted (parent_of parent) symbol) m
        → IsAmong (noted_at nodes.new m) place ⊎ IsTrue parent.is_founder) }
    ensures open { OnOk result (AreOpen nodes.new place open.new.items) }
    ensures parents { OnOk result (parents_of open.new.items
        ≡ onward (parent_of parent) symbol (parents_of open.old.items)) }
{
    wait(
        open,
        Open {
            mark: parent.mark,
            left: parent.left.saturating_sub(1),
            slots: parent.slots,
            is_founder: parent.is_founder,
        },
    )?;
    match symbol {
        Sym::Var(_) => Ok(()),
        Sym::Fun(_, arity) if arity > 0 => {
            note_symbol(alloc, nodes, open, mark_below(parent, symbol), arity, place)
        }
        _ => note_constant(alloc, nodes, parent, mark_below(parent, symbol), place),
    }
}

/// Notes an atom's symbols, and tells whether what was put into columns is right.
fn note_symbols(
    alloc: Global,
    table: &mut Table,
    atom: &Flat,
    digests: &[u64],
    place: u32,
) -> Result<bool, AllocError>
    requires sound { IsSound table.old }
    requires digests { digests.now ≡ digests_in atom.now }
    ensures grows { Grows table.old table.new }
    ensures noted { OnOk result (AllLeave table.new.nodes place atom.now) }
    ensures adds { IfOk result (λ b. IsTrue b
        → AddsOf table.new.nodes table.old.columns atom.now place table.new.columns) }
{
    let mut open = Vec::new(alloc);
    note_symbol(alloc, &mut table.nodes, &mut open, TOP, 1, place)?;
    let symbols = atom.symbols();
    let mut is_right = !table.is_given_up;
    'symbols: for i in 0..symbols.len() {
        let Some(parent) = open.pop() else {
            return Ok(is_right);
        };
        is_right = put_next(&mut table.columns, is_right, parent, digests[i], place)?;
        note_next(
            alloc,
            &mut table.nodes,
            &mut open,
            parent,
            symbols[i],
            place,
        )?;
    }
    Ok(is_right)
}

/// Notes an atom, and tells whether what was put into columns is right.
pub(crate) fn note_atom(
    alloc: Global,
    table: &mut Table,
    atom: &Flat,
    digests: &[u64],
    place: u32,
) -> Result<bool, AllocError>
    requires sound { IsSound table.old }
    requires digests { digests.now ≡ digests_in atom.now }
    ensures grows { Grows table.old table.new }
    ensures noted { OnOk result (IsNotedAbove table.new.nodes place atom.now) }
    ensures adds { IfOk result (λ b. IsTrue b
        → AddsOf table.new.nodes table.old.columns atom.now place table.new.columns) }
{
    let is_right = note_symbols(alloc, table, atom, digests, place)?;
    note(alloc, &mut table.nodes, ANY_TERM, 0, place)?;
    Ok(is_right)
}
