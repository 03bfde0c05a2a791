//! Nodes: what is kept of a symbol that atoms have at a position, by its mark. The places of its atoms are a chain, the last one first:
//! links of all chains stand in one vector in the order in which they were put, so what is put is put at its end.

ghost use Rattle.std.specs.Prelude.{◌≡◌, ◌+◌, ◌≤◌, ◌∷◌, ℕ, length, IfOk, IfSome, IsTrue, None, OnOk};
ghost use Rattle.apd_term.specs.Term.{IsAmong};
ghost use Rattle.apd_index.specs.Nodes.{AreKept, AreSlots, HasLinks, HasRow, HaveNumbers, IsFounder, IsNumber, IsNumberIn, IsRight, IsSound, KeepBits, KeepChains, KeepsFounders, KeepsNumbers, founder_at, noted_at, places};
ghost use Rattle.apd_bits.specs.Rows.{HasBits, IsWithin};

use apd_bits::Row;
use apd_marks::Parent;
use indexmap::IndexMap;
use std::alloc::{AllocError, Global};

/// After so many places a node gets a row.
const MANY: u32 = 256;

/// The columns of a symbol's arguments: so many, from this number on, the last argument first.
#[derive(Clone, Copy)]
pub(crate) struct Slots {
    pub first: u32,
    pub count: u32,
}

/// The places that are noted for a symbol at a position: the last link of their chain, how many they are, their row, and the first one, the
/// founder; and the columns of the symbol's arguments. Links and rows are counted from 1, and 0 is none.
#[derive(Clone, Copy)]
pub(crate) struct SymbolNode {
    pub last: u32,
    pub count: u32,
    pub row: u32,
    pub founder: u32,
    pub slots: Slots,
}

/// What is told of a symbol that was noted: the columns of its arguments, and whether the place is its founder.
#[derive(Clone, Copy)]
pub(crate) struct NotedSymbol {
    pub slots: Slots,
    pub is_founder: bool,
}

/// A place, and the link before it.
#[derive(Clone, Copy)]
pub(crate) struct PlaceLink {
    pub place: u32,
    pub before: u32,
}

/// Nodes by marks of symbols, with their chains and rows, and the first number that no column has.
#[derive(Drop)]
pub(crate) struct Nodes {
    pub nodes: IndexMap<u64, SymbolNode>,
    pub links: Vec<PlaceLink>,
    pub rows: Vec<Row>,
    pub next: u32,
}

impl Nodes {
    /// No nodes.
    pub(crate) fn new(alloc: Global) -> Nodes
        ensures { IsSound result }
    {
        Nodes {
            nodes: IndexMap::new(alloc),
            links: Vec::new(alloc),
            rows: Vec::new(alloc),
            next: 0,
        }
    }
}

/// The number of what is put next behind so many, where it has 32 bits.
pub(crate) fn next_number(count: usize) -> Option<u32>
    ensures { IfSome result (λ number. number ≡ count + 1) }
{
    u32::try_from(count.saturating_add(1)).ok()
}

/// The columns of a new symbol's arguments, where there are numbers left for them.
fn slots_from(next: u32, count: u32) -> Slots
    ensures first { result.first ≡ next }
    ensures fits { HaveNumbers result }
{
    match next.checked_add(count) {
        Some(_) => Slots { first: next, count },
        None => Slots {
            first: next,
            count: 0,
        },
    }
}

/// The first number that is behind these columns, and not before the one that was.
fn behind(next: u32, slots: Slots) -> u32
    ensures still { next ≤ result }
    ensures behind { HaveNumbers slots → slots.first + slots.count ≤ result }
{
    let end = slots.first.saturating_add(slots.count);
    if end > next {
        return end;
    }
    next
}

/// Sets the bits of a chain.
fn set_chain(row: &mut Row, links: &[PlaceLink], last: u32) -> Result<(), AllocError>
    requires falling { HasLinks links.now }
    requires within { last ≤ length links.now }
    ensures kept { IsWithin row.old row.new }
    ensures set { OnOk result (HasBits row.new (places links.now last)) }
{
    let mut at = last;
    'links: while at != 0 {
        let link = links[at as usize - 1];
        row.set(link.place as usize)?;
        at = link.before;
    }
    Ok(())
}

/// A row with the bits of a chain.
pub(crate) fn row_of_chain(alloc: Global, links: &[PlaceLink], last: u32) -> Result<Row, AllocError>
    requires falling { HasLinks links.now }
    requires within { last ≤ length links.now }
    ensures { IfOk result (λ row. HasBits row (places links.now last)) }
{
    let mut row = Row::new(alloc);
    set_chain(&mut row, links, last)?;
    Ok(row)
}

/// The number of a row that has the bits of a node's chain and of one more place; 0 where it gets none, with so few places.
fn row_with(
    alloc: Global,
    rows: &mut Vec<Row>,
    links: &[PlaceLink],
    node: SymbolNode,
    place: u32,
) -> Result<u32, AllocError>
    requires falling { HasLinks links.now }
    requires right { IsRight links.now rows.old.items node }
    ensures bits { KeepBits rows.old.items rows.new.items }
    ensures row { IfOk result
        (λ number. HasRow rows.new.items number (place ∷ places links.now node.last)) }
{
    if node.row != 0 {
        rows[node.row as usize - 1].set(place as usize)?;
        return Ok(node.row);
    }
    if node.count < MANY {
        return Ok(0);
    }
    let Some(number) = next_number(rows.len()) else {
        return Ok(0);
    };
    let mut row = row_of_chain(alloc, links, node.last)?;
    row.set(place as usize)?;
    rows.push(row)?;
    Ok(number)
}

/// Puts a place at the end of a node's chain, and its bit into the node's row. Where there is no number for a link, there is no room.
fn put_place(
    alloc: Global,
    links: &mut Vec<PlaceLink>,
    rows: &mut Vec<Row>,
    node: &mut SymbolNode,
    place: u32,
) -> Result<(), AllocError>
    requires falling { HasLinks links.old.items }
    requires right { IsRight links.old.items rows.old.items node.old }
    ensures falling { HasLinks links.new.items }
    ensures chains { KeepChains links.old.items links.new.items }
    ensures bits { KeepBits rows.old.items rows.new.items }
    ensures right { IsRight links.new.items rows.new.items node.new }
    ensures slots { node.new.slots ≡ node.old.slots }
    ensures founder { node.new.founder ≡ node.old.founder }
    ensures kept { (k : ℕ) → IsAmong (places links.old.items node.old.last) k
        → IsAmong (places links.new.items node.new.last) k }
    ensures noted { OnOk result (IsAmong (places links.new.items node.new.last) place) }
{
    let Some(last) = next_number(links.len()) else {
        return Err(AllocError);
    };
    let row = row_with(alloc, rows, links.as_slice(), *node, place)?;
    links.push(PlaceLink {
        place,
        before: node.last,
    })?;
    node.last = last;
    node.count = node.count.saturating_add(1);
    node.row = row;
    Ok(())
}

/// Notes a place for the mark. A new mark gets the next numbers for the columns of its arguments.
pub(crate) fn note(
    alloc: Global,
    nodes: &mut Nodes,
    mark: u64,
    count: u8,
    place: u32,
) -> Result<NotedSymbol, AllocError>
    requires { IsSound nodes.old }
    ensures sound { IsSound nodes.new }
    ensures kept { AreKept nodes.old nodes.new }
    ensures numbers { KeepsNumbers nodes.old nodes.new }
    ensures founders { KeepsFounders nodes.old nodes.new }
    ensures noted { OnOk result (IsAmong (noted_at nodes.new mark) place) }
    ensures slots { IfOk result (λ n. AreSlots nodes.new mark n.slots) }
    ensures founder { IfOk result (λ n. IsTrue n.is_founder → IsFounder nodes.new mark place) }
    ensures first { founder_at nodes.old mark ≡ None
        → OnOk result (IsFounder nodes.new mark place) }
{
    let node = nodes.nodes.entry(mark)?.or_insert(SymbolNode {
        last: 0,
        count: 0,
        row: 0,
        founder: place,
        slots: slots_from(nodes.next, count as u32),
    });
    nodes.next = behind(nodes.next, node.slots);
    put_place(alloc, &mut nodes.links, &mut nodes.rows, node, place)?;
    Ok(NotedSymbol {
        slots: node.slots,
        is_founder: node.founder == place,
    })
}

/// The founder of the mark: the first place that was noted for it.
pub(crate) fn founder_at(nodes: &Nodes, mark: u64) -> Option<usize>
    ensures { result ≡ founder_at nodes.now mark }
{
    match nodes.nodes.get(&mark) {
        Some(node) => Some(node.founder as usize),
        None => None,
    }
}

/// How many places are noted for the mark.
pub(crate) fn count_at(nodes: &Nodes, mark: u64) -> usize {
    match nodes.nodes.get(&mark) {
        Some(node) => node.count as usize,
        None => 0,
    }
}

/// The row of the mark, where many places have it.
pub(crate) fn row_at(nodes: &Nodes, mark: u64) -> Option<&Row>
    requires { IsSound nodes.now }
    ensures { IfSome result (λ row. HasBits row.now (noted_at nodes.now mark)) }
{
    match nodes.nodes.get(&mark) {
        Some(node) if node.row != 0 => nodes.rows.get(node.row as usize - 1),
        _ => None,
    }
}

/// A row with the bits of the mark's places.
pub(crate) fn bits_of(alloc: Global, nodes: &Nodes, mark: u64) -> Result<Row, AllocError>
    requires { IsSound nodes.now }
    ensures { IfOk result (λ row. HasBits row (noted_at nodes.now mark)) }
{
    if let Some(row) = row_at(nodes, mark) {
        return row.copy(alloc);
    }
    match nodes.nodes.get(&mark) {
        Some(node) => row_of_chain(alloc, nodes.links.as_slice(), node.last),
        None => Ok(Row::new(alloc)),
    }
}

/// The number of the column of an argument, which is counted from the end, where these columns have one for it.
pub(crate) fn number_in(slots: Slots, left: u64) -> Option<usize>
    ensures { IfSome result (IsNumberIn slots left) }
{
    if left == 0 || left > slots.count as u64 {
        return None;
    }
    Some((slots.first as usize).saturating_add(left as usize - 1))
}

/// The number of a position's column.
pub(crate) fn number_at(nodes: &Nodes, position: Parent) -> Option<usize>
    ensures { IfSome result (IsNumber nodes.now position) }
{
    match nodes.nodes.get(&position.mark) {
        Some(node) => number_in(node.slots, position.left),
        None => None,
    }
}
