//! Instances of clauses in a store.

ghost use Rattle.std.specs.Prelude.{◌≡◌, ℕ, ◌∷◌, [], ◌<◌, ◌≤◌, ◌^◌, length, map, IfOk, OnOk};
ghost use Rattle.std.specs.List.{flat_map};
ghost use Rattle.apd_term.specs.Term.{variables, IsAmong};
ghost use Rattle.apd_cells.specs.Numbered.{IsNumbered};
ghost use Rattle.apd_cells.specs.Slots.{AreSlots};
ghost use Rattle.apd_term.specs.Tuple.{variables_of_tuple};
ghost use Rattle.apd_cells.specs.Store.{at_mark, IsSound, Keeps};
ghost use Rattle.apd_trace.specs.Frames.{query_frame};
ghost use Rattle.apd_clauses.specs.Clauses.{IsRunnable};
ghost use Rattle.apd_unify.specs.Cells.{AreCells};
ghost use Rattle.apd_unify.specs.Heads.{HasBody, HasGoneOn, IsLoadedFor, Matches};
ghost use Rattle.apd_frames.specs.Links.{link_of};
ghost use Rattle.apd_frames.specs.Linked.{frames_at, IsFramed, IsThere};
ghost use Rattle.apd_frames.specs.Instances.{terms_in, instance_where, tuple_in, raised_in, CanonicalWithin, IsWithin, HasGrown, InstantiatesVariant};

use crate::floor::{Laid, expect_goal, expect_head, lay, may_share};
use crate::links::{LinkRef, Links};
use crate::small::is_small;
use apd_base::{MOST_GOALS, MOST_INSTANCE_SYMBOLS};
use apd_cells::slots::Slot;
use apd_clauses::Program;
use apd_term::{Atoms, Flat, Tuple, canonical_tuple};
use apd_unify::copies::Hint;
use apd_unify::scratch::Scratch;
use apd_unify::store::{Cell, Store};
use std::alloc::{AllocError, Global};

/// What is made of the clause that was entered last, kept from clause to clause for its memory.
#[derive(Drop)]
pub struct Made {
    /// The cells of its goals.
    pub goals: Vec<Cell>,
    /// What stands for its variables.
    pub slots: Vec<Slot>,
    /// Of which clauses it is known that their variables have small numbers.
    pub small: Vec<bool>,
    /// The cells of the program's pieces.
    pub floor: Vec<Laid>,
    /// What is expected of a term of it.
    pub hints: Vec<Hint>,
}

/// Loads the terms, and leaves their cells alone in `cells`.
pub fn load_all(store: &mut Store, cells: &mut Vec<Cell>, terms: &[Flat]) -> Result<(), AllocError>
    requires { (v : ℕ) → IsAmong (flat_map variables terms.now) v → v < 2 ^ 64 }
    ensures grown { HasGrown store.old store.new }
    ensures made { OnOk result
        (terms_in store.new cells.new.items ≡ map (raised_in store.old 0) terms.now) }
    ensures inside { OnOk result (AreCells (length store.new.cells) cells.new.items) }
{
    cells.clear();
    'terms: for term in terms {
        let cell = store.load(term)?;
        cells.push(cell)?;
    }
    Ok(())
}

/// Loads the tuple of a query, and puts its link, where nothing was loaded and no link was put. Of `goals` its goals' cells
/// are left.
fn put_query(
    store: &mut Store,
    links: &mut Links,
    goals: &mut Vec<Cell>,
    tuple: &Tuple,
) -> Result<(), AllocError>
    requires small { (v : ℕ) → IsAmong (variables_of_tuple tuple.now) v → v < 2 ^ 64 }
    requires store { store.old ≡ record { cells = []; variables = 0; trail = [] } }
    requires links { links.old ≡ [] }
    ensures framed { OnOk result (IsFramed store.new links.new 1 []) }
    ensures frames { OnOk result
        (frames_at store.new links.new 1 ≡ query_frame tuple.now ∷ []) }
    ensures begun { OnOk result
        (at_mark 0 store.new ≡ record { cells = []; variables = 0; trail = [] }) }
{
    let head = store.load(&tuple.head)?;
    load_all(store, goals, tuple.body.as_slice())?;
    links.push(&LinkRef {
        box_no: 0,
        depth: 0,
        clause: 0,
        head,
        goals: goals.as_slice(),
        done: 0,
        point: 0,
        around: 0,
    })?;
    Ok(())
}

/// Puts a query as [`put_query`] does, and behind its terms the pieces of the program, whose cells stand in `made` then.
pub fn lay_query(
    store: &mut Store,
    links: &mut Links,
    made: &mut Made,
    alloc: Global,
    tuple: &Tuple,
    program: Option<&Program>,
) -> Result<(), AllocError>
    requires small { (v : ℕ) → IsAmong (variables_of_tuple tuple.now) v → v < 2 ^ 64 }
    requires store { store.old ≡ record { cells = []; variables = 0; trail = [] } }
    requires links { links.old ≡ [] }
    ensures framed { OnOk result (IsFramed store.new links.new 1 []) }
    ensures frames { OnOk result
        (frames_at store.new links.new 1 ≡ query_frame tuple.now ∷ []) }
    ensures begun { OnOk result
        (at_mark 0 store.new ≡ record { cells = []; variables = 0; trail = [] }) }
{
    put_query(store, links, &mut made.goals, tuple)?;
    lay(store, &mut made.floor, alloc, program)?;
    Ok(())
}

/// Loads a goal of a clause as [`Store::load_for`] does. Its pieces aren't copied where they stand in the store.
fn load_goal(
    store: &mut Store,
    made: &mut Made,
    goal: &Flat,
    clause: u32,
    number: u32,
) -> Result<Cell, AllocError>
    requires { AreSlots store.old.cells store.old.variables made.old.slots.items }
    ensures ok { IfOk result (λ c. IsLoadedFor store.old store.new
        made.old.slots.items made.new.slots.items goal.now c.0) }
    ensures kept { Keeps store.old store.new }
    ensures more { length store.old.cells ≤ length store.new.cells }
    ensures goals { made.new.goals.items ≡ made.old.goals.items }
{
    let floor = made.floor.as_slice();
    expect_goal(store, &mut made.hints, floor, clause, number)?;
    store.load_for(goal, &mut made.slots)
}

/// Loads the goals of a clause one by one, since its pieces aren't copied where they stand in the store.
fn load_in_turn(
    store: &mut Store,
    made: &mut Made,
    body: &[Flat],
    clause: u32,
) -> Result<(), AllocError>
    requires { AreSlots store.old.cells store.old.variables made.old.slots.items }
    ensures loaded { OnOk result (HasBody store.old store.new
        made.old.slots.items made.new.slots.items body.now made.new.goals.items) }
    ensures kept { Keeps store.old store.new }
    ensures more { length store.old.cells ≤ length store.new.cells }
{
    made.goals.clear();
    let mut number: u32 = 0;
    'goals: for goal in body {
        number = number.saturating_add(1);
        let cell = load_goal(store, made, goal, clause, number)?;
        made.goals.push(cell)?;
    }
    Ok(())
}

/// Loads the goals of a clause, with what stands for its variables in their places, and leaves their cells alone in
/// `made`.
fn load_goals(
    store: &mut Store,
    made: &mut Made,
    body: &[Flat],
    clause: u32,
) -> Result<(), AllocError>
    requires { AreSlots store.old.cells store.old.variables made.old.slots.items }
    ensures loaded { OnOk result (HasBody store.old store.new
        made.old.slots.items made.new.slots.items body.now made.new.goals.items) }
    ensures kept { Keeps store.old store.new }
    ensures more { length store.old.cells ≤ length store.new.cells }
{
    if !may_share(made.floor.as_slice(), clause) {
        return store.load_body(body, &mut made.slots, &mut made.goals);
    }
    load_in_turn(store, made, body, clause)
}

/// Makes the goal at a cell and the head of a clause equal as [`Store::unify_head`] does. Pieces of the head aren't copied
/// where they stand in the store.
fn match_head(
    store: &mut Store,
    made: &mut Made,
    goal: Cell,
    clause: u32,
    head: &Flat,
) -> Result<bool, AllocError>
    requires { goal.0 < length store.old.cells }
    ensures answer { IfOk result
        (λ r. Matches r store.old store.new [] made.new.slots.items goal.0 head.now) }
    ensures gone { OnOk result (HasGoneOn store.old store.new [] made.new.slots.items) }
    ensures sound { OnOk result (IsSound store.old) }
    ensures kept { Keeps store.old store.new }
    ensures more { length store.old.cells ≤ length store.new.cells }
{
    let floor = made.floor.as_slice();
    expect_head(store, &mut made.hints, floor, clause)?;
    store.unify_head(goal, head, &mut made.slots)
}

/// Makes the instance of a clause whose variables have small numbers, as [`instantiate`] does.
fn instantiate_small(
    store: &mut Store,
    made: &mut Made,
    goal: Cell,
    clause: u32,
    rule: &Tuple,
) -> Result<bool, AllocError>
    requires goal { goal.0 < length store.old.cells }
    ensures kept { Keeps store.old store.new }
    ensures cells { length store.old.cells ≤ length store.new.cells }
    ensures numbered { IsNumbered store.old }
    ensures answer { IfOk result (λ b. InstantiatesVariant
        (instance_where b goal made.new.goals.items) store.old store.new goal.0 rule.now) }
{
    let _variables = store.variables();
    if !match_head(store, made, goal, clause, &rule.head)? {
        return Ok(false);
    }
    load_goals(store, made, rule.body.as_slice(), clause)?;
    Ok(true)
}

/// Makes the clause's instance for the goal at a cell, where its head unifies with it; false exactly where it doesn't. The
/// instance is of the goal's own cell, which has the head's term then, and of the cells of the clause's goals, which stand
/// alone in `made`. The clause's canonical form is taken where its variables have great numbers. After false or want of
/// memory more terms may be there, and some variables may be bound.
#[inline(always)]
pub fn instantiate(
    store: &mut Store,
    made: &mut Made,
    alloc: Global,
    goal: Cell,
    clause: u32,
    rule: &Tuple,
) -> Result<bool, AllocError>
    requires goal { goal.0 < length store.old.cells }
    requires runnable { IsRunnable rule.now }
    ensures kept { Keeps store.old store.new }
    ensures cells { length store.old.cells ≤ length store.new.cells }
    ensures numbered { IsNumbered store.old }
    ensures answer { IfOk result (λ b. InstantiatesVariant
        (instance_where b goal made.new.goals.items) store.old store.new goal.0 rule.now) }
{
    let _variables = store.variables();
    if is_small(&mut made.small, clause, rule) {
        return instantiate_small(store, made, goal, clause, rule);
    }
    let canonical = canonical_tuple(alloc, rule)?;
    instantiate_small(store, made, goal, clause, &canonical)
}

/// A head and [`MOST_GOALS`] goals of so many symbols have no more together than an instance may have.
pub(crate) const MOST_OF_EACH: usize = 15_384;

/// Whether a link's instance has no more symbols than it may have. No more than these are passed, and
/// none where the store tells that no term is long.
pub fn is_within(store: &Store, link: &LinkRef<'_>) -> Result<bool, AllocError>
    requires { IsThere store.now link.now }
    ensures { IfOk result (λ b. IsWithin b (tuple_in store.now (link_of link.now).instance)) }
{
    if link.goals.len() <= MOST_GOALS && store.are_within(MOST_OF_EACH) {
        return Ok(true);
    }
    let Some(head) = store.size_within(link.head, MOST_INSTANCE_SYMBOLS)? else {
        return Ok(false);
    };
    let mut left = MOST_INSTANCE_SYMBOLS - head;
    'goals: for goal in link.goals {
        let Some(size) = store.size_within(*goal, left)? else {
            return Ok(false);
        };
        left -= size;
    }
    Ok(true)
}

/// The tuple of a link's instance in canonical form, with all bindings applied; none exactly where it
/// has more symbols than it may have. No more than these are passed.
pub fn canonical_within(
    store: &Store,
    scratch: &mut Scratch,
    alloc: Global,
    link: &LinkRef<'_>,
) -> Result<Option<Tuple>, AllocError>
    requires { IsThere store.now link.now }
    ensures { IfOk result (CanonicalWithin (tuple_in store.now (link_of link.now).instance)) }
{
    scratch.clear();
    let Some(head) = store.number_within(scratch, link.head, MOST_INSTANCE_SYMBOLS)? else {
        return Ok(None);
    };
    let mut left = MOST_INSTANCE_SYMBOLS - head.size();
    let mut body = Atoms::of_items(Vec::with_capacity(alloc, link.goals.len())?);
    'goals: for goal in link.goals {
        let Some(atom) = store.number_within(scratch, *goal, left)? else {
            return Ok(None);
        };
        left -= atom.size();
        body.push(atom)?;
    }
    Ok(Some(Tuple { head, body }))
}
