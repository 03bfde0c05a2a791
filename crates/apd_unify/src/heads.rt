//! A clause's head that is matched with a goal where it stands. Of the head are loaded only subterms that meet a free
//! variable of the goal, and variables that first meet a term with arguments.

ghost use Rattle.std.specs.Prelude.{◌≡◌, ◌∷◌, ◌<◌, ◌≤◌, ◌^◌, ℕ, [], get_or, length, slice_get, Some, IfOk, OnOk, OnErr};
ghost use Rattle.apd_term.specs.Term.{IsTerms, IsWhole, term_of};
ghost use Rattle.apd_term.specs.declared.term.Sym.TheVariants.{Var};
ghost use Rattle.apd_cells.specs.Slots.{AreSlots, HasLoaded};
ghost use Rattle.apd_cells.specs.Store.{IsSound, Keeps};
ghost use Rattle.apd_cells.specs.Work.{AreRuns, IsRun, Leads};
ghost use Rattle.apd_unify.specs.Heads.{GoesUnder, HasGoneOn, IsPastFirst, Matches, Meets};

use crate::copies::{Hint, find_copied};
use crate::unify::{Pairs, unify};
use apd_base::stack::Stack;
use apd_cells::heap::Heap;
use apd_cells::slots::{Slot, Stretch, set_slot, slot_at};
use apd_cells::walk::{Run, arity_of, next_run, pass_from};
use apd_resolved::reading::Looking;
use apd_term::term::term_end;
use apd_term::{Flat, Sym};
use std::alloc::AllocError;

/// What equations are solved with, kept from call to call so that its memory is taken once.
#[derive(Drop)]
pub struct Solver {
    pub looking: Looking,
    pub pairs: Stack<Pairs>,
    /// What is expected of the clause's term that is loaded or matched next.
    pub hints: Vec<Hint>,
    /// What stands of it in the cells.
    pub copied: Vec<Stretch>,
}

/// What was done with the term at a cell and one of a head's terms.
#[derive(Clone, Copy)]
pub enum Met {
    /// They have no unifier.
    Clash,
    /// They were made equal: the head's symbols go on here.
    Past(usize),
    /// They begin with one symbol, which the cell leads to here. What stands under it is still to be made equal.
    Symbol(usize),
}

/// Loads a term of a clause's term, whose symbols are its own from a place on. What is expected of it isn't copied where it
/// stands in the cells.
#[inline(never)]
fn load_sharing(
    heap: &mut Heap,
    solver: &mut Solver,
    slots: &mut Vec<Slot>,
    begin: usize,
    symbols: &[Sym],
) -> Result<usize, AllocError>
    requires whole { IsWhole symbols.now }
    requires slots { AreSlots heap.old.cells heap.old.variables slots.old.items }
    ensures cell { IfOk result (λ c. c ≡ length heap.old.cells) }
    ensures ok { OnOk result
        (HasLoaded heap.old heap.new slots.old.items slots.new.items (term_of symbols.now)) }
    ensures store { IsSound heap.old }
    ensures err { OnErr result (heap.new ≡ heap.old) }
{
    let _variables = heap.variables();
    let hints = solver.hints.as_slice();
    find_copied(heap, symbols, begin, hints, &mut solver.copied)?;
    heap.load_for(symbols, slots, solver.copied.as_slice())
}

/// Loads a term of a clause's term as [`load_sharing`] does. Mostly nothing is expected, and nothing looked for then.
#[inline(always)]
pub fn load_part(
    heap: &mut Heap,
    solver: &mut Solver,
    slots: &mut Vec<Slot>,
    begin: usize,
    symbols: &[Sym],
) -> Result<usize, AllocError>
    requires whole { IsWhole symbols.now }
    requires slots { AreSlots heap.old.cells heap.old.variables slots.old.items }
    ensures cell { IfOk result (λ c. c ≡ length heap.old.cells) }
    ensures ok { OnOk result
        (HasLoaded heap.old heap.new slots.old.items slots.new.items (term_of symbols.now)) }
    ensures store { IsSound heap.old }
    ensures err { OnErr result (heap.new ≡ heap.old) }
{
    if solver.hints.is_empty() {
        return heap.load_for(symbols, slots, &[]);
    }
    load_sharing(heap, solver, slots, begin, symbols)
}

/// Makes a term of a head, which is loaded, and the term at a cell equal.
fn match_loaded(
    heap: &mut Heap,
    solver: &mut Solver,
    slots: &mut Vec<Slot>,
    at: usize,
    begin: usize,
    symbols: &[Sym],
) -> Result<bool, AllocError>
    requires at { at < length heap.old.cells }
    requires whole { IsWhole symbols.now }
    requires slots { AreSlots heap.old.cells heap.old.variables slots.old.items }
    ensures answer { IfOk result (λ r.
        Matches r heap.old heap.new slots.old.items slots.new.items at (term_of symbols.now)) }
    ensures gone { OnOk result (HasGoneOn heap.old heap.new slots.old.items slots.new.items) }
    ensures kept { Keeps heap.old heap.new }
    ensures more { length heap.old.cells ≤ length heap.new.cells }
{
    let loaded = load_part(heap, solver, slots, begin, symbols)?;
    unify(heap, &mut solver.looking, &mut solver.pairs, at, loaded)
}

/// Makes a variable of a head, whose only symbol is given too, and the term at a cell equal. The term stands for the
/// variable if nothing did, and one symbol is written at the cell.
fn match_variable(
    heap: &mut Heap,
    solver: &mut Solver,
    slots: &mut Vec<Slot>,
    at: usize,
    v: u64,
    begin: usize,
    symbols: &[Sym],
) -> Result<bool, AllocError>
    requires at { at < length heap.old.cells }
    requires whole { IsWhole symbols.now }
    requires variable { slice_get symbols.now 0 ≡ Some (Var v) }
    requires slots { AreSlots heap.old.cells heap.old.variables slots.old.items }
    ensures answer { IfOk result (λ r.
        Matches r heap.old heap.new slots.old.items slots.new.items at (term_of symbols.now)) }
    ensures gone { OnOk result (HasGoneOn heap.old heap.new slots.old.items slots.new.items) }
    ensures store { IsSound heap.old }
    ensures kept { Keeps heap.old heap.new }
    ensures more { length heap.old.cells ≤ length heap.new.cells }
{
    let arity = arity_of(heap.symbol(at));
    match slot_at(slots.as_slice(), v) {
        Slot::Own(cell) => unify(heap, &mut solver.looking, &mut solver.pairs, at, cell),
        Slot::Given(cell) => unify(heap, &mut solver.looking, &mut solver.pairs, at, cell),
        Slot::New => {
            if arity > 0 {
                return match_loaded(heap, solver, slots, at, begin, symbols);
            }
            set_slot(slots, v, Slot::Given(at))?;
            Ok(true)
        }
    }
}

/// Goes on with the head's term that begins at a place, where no variable stands, and the term at a cell.
fn meet_symbol(
    heap: &mut Heap,
    solver: &mut Solver,
    slots: &mut Vec<Slot>,
    at: usize,
    head: &[Sym],
    from: usize,
) -> Result<Met, AllocError>
    requires at { at < length heap.old.cells }
    requires there { from < length head.now }
    requires head { IsTerms head.now }
    requires fixed { (v : ℕ) → ¬ (get_or head.now from (Var 0) ≡ Var v) }
    requires slots { AreSlots heap.old.cells heap.old.variables slots.old.items }
    ensures met { IfOk result
        (λ m. Meets m heap.old heap.new slots.old.items slots.new.items at head.now from) }
    ensures gone { OnOk result (HasGoneOn heap.old heap.new slots.old.items slots.new.items) }
    ensures store { IsSound heap.old }
    ensures kept { Keeps heap.old heap.new }
    ensures more { length heap.old.cells ≤ length heap.new.cells }
{
    let end = heap.follow(at);
    let symbol = heap.symbol(end);
    if symbol == head[from] {
        return Ok(Met::Symbol(end));
    }
    let Sym::Var(_) = symbol else {
        return Ok(Met::Clash);
    };
    let past = term_end(head, from);
    if !match_loaded(heap, solver, slots, end, from, &head[from..past])? {
        return Ok(Met::Clash);
    }
    Ok(Met::Past(past))
}

/// Goes on with the head's term that begins at a place and the term at a cell.
fn meet_term(
    heap: &mut Heap,
    solver: &mut Solver,
    slots: &mut Vec<Slot>,
    at: usize,
    head: &[Sym],
    from: usize,
) -> Result<Met, AllocError>
    requires at { at < length heap.old.cells }
    requires there { from < length head.now }
    requires head { IsTerms head.now }
    requires slots { AreSlots heap.old.cells heap.old.variables slots.old.items }
    ensures met { IfOk result
        (λ m. Meets m heap.old heap.new slots.old.items slots.new.items at head.now from) }
    ensures gone { OnOk result (HasGoneOn heap.old heap.new slots.old.items slots.new.items) }
    ensures store { IsSound heap.old }
    ensures kept { Keeps heap.old heap.new }
    ensures more { length heap.old.cells ≤ length heap.new.cells }
{
    let Sym::Var(v) = head[from] else {
        return meet_symbol(heap, solver, slots, at, head, from);
    };
    if !match_variable(heap, solver, slots, at, v, from, &head[from..from + 1])? {
        return Ok(Met::Clash);
    }
    Ok(Met::Past(from + 1))
}

/// The run behind its first term.
fn past_first(heap: &Heap, here: Run) -> Run
    requires right { IsRun heap.now.cells here.at here.left }
    requires some { 0 < here.left }
    ensures { IsPastFirst heap.now here result }
{
    if here.left == 1 {
        return Run {
            at: here.at,
            left: 0,
        };
    }
    Run {
        at: heap.end(here.at),
        left: here.left - 1,
    }
}

/// The run behind the first symbol of a run, whose first cell leads to this one.
fn under(heap: &Heap, rest: &mut Stack<Run>, here: Run, at: usize) -> Result<Run, AllocError>
    requires right { AreRuns heap.now.cells (here ∷ rest.old) }
    requires some { 0 < here.left }
    requires leads { Leads heap.now here.at at }
    requires fits { length heap.now.cells < 2 ^ 64 }
    ensures { IfOk result (λ r. GoesUnder heap.now (here ∷ rest.old) (r ∷ rest.new)) }
{
    let symbol = heap.symbol(at);
    let arity = arity_of(symbol);
    if at == here.at {
        let next = Run {
            at: here.at + 1,
            left: here.left - 1 + arity,
        };
        return Ok(next);
    }
    let passed = pass_from(heap, rest, here, at)?;
    Ok(passed.next)
}

/// Makes the head of a clause and the term at a cell equal by a most general unifier; false exactly where they have none.
/// It tells what stands for the clause's variables then. After false or want of memory more terms may be there, and some
/// variables may be bound.
pub fn unify_head(
    heap: &mut Heap,
    solver: &mut Solver,
    runs: &mut Stack<Run>,
    slots: &mut Vec<Slot>,
    goal: usize,
    head: &Flat,
) -> Result<bool, AllocError>
    requires { goal < length heap.old.cells }
    ensures answer { IfOk result
        (λ r. Matches r heap.old heap.new [] slots.new.items goal head.now) }
    ensures gone { OnOk result (HasGoneOn heap.old heap.new [] slots.new.items) }
    ensures kept { Keeps heap.old heap.new }
    ensures more { length heap.old.cells ≤ length heap.new.cells }
{
    slots.clear();
    runs.clear();
    let symbols = head.symbols();
    let mut here = Run { at: goal, left: 1 };
    let mut from: usize = 0;
    'symbols: while from < symbols.len() {
        let Some(next) = next_run(runs, here) else {
            return Ok(true);
        };
        match meet_term(heap, solver, slots, next.at, symbols, from)? {
            Met::Clash => return Ok(false),
            Met::Past(end) => {
                here = past_first(heap, next);
                from = end;
            }
            Met::Symbol(end) => {
                here = under(heap, runs, next, end)?;
                from += 1;
            }
        }
    }
    Ok(true)
}
