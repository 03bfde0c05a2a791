//! The trace of a query by a program in the shape of its definition.
//!
//! It recurses over the depth of the search and searches whole trees, so it is for small inputs.

ghost use Rattle.std.specs.Prelude.{◌≡◌, ◌∷◌, [], ℕ, ◌+◌, ◌*◌, ◌-◌, ◌≤◌, ◌<◌, ◌^◌, length, drop, IfOk, MatchOption};
ghost use Rattle.apd_clauses.specs.Clauses.{IsProgram, IsRunnable, clauses_for, tuples_of};
ghost use Rattle.apd_trace.specs.BuiltIn.{solution};
ghost use Rattle.apd_trace.specs.Frames.{look_of, query_frame};
ghost use Rattle.apd_trace.specs.Renaming.{IsBelow};
ghost use Rattle.apd_trace.specs.Trace.{Out, begun, tries, hand, succeeded, settled, search_from, trace, turn};
ghost use Rattle.apd_by_definition.specs.Searched.{Advances, Grows, IsFull, Makes, out_of, traced};
ghost use Rattle.apd_by_definition.specs.declared.engine.goals.TheConstants.{BLOCK};
ghost use Rattle.apd_engine.specs.Search.{AllWait, IsOpen, numbers_for};

use crate::engine::frames::FrameList;
use crate::engine::goals::{Attempt, BLOCK, attempted, numbers, resolved};
use crate::engine::place::Place;
use crate::engine::ports::{
    answer_alone, exit_around, point_before, port_after, port_alone, port_before, put_behind,
    success_around,
};
use crate::engine::searched::{Counts, Searched, no_item, one_item, up_to_error};
use apd_causes::RunError;
use apd_clauses::Program;
use apd_ports::Port;
use apd_term::Tuple;
use apd_trace::{Called, Item, Look, PointId, Step};
use std::alloc::{AllocError, Global};
use std::collections::VecDeque;

/// How a search goes on after a clause that was tried.
#[derive(Clone, Copy)]
pub(crate) enum Advance {
    /// There are too many boxes or points.
    Full,
    /// An error ends it.
    Ends,
    /// The other clauses follow.
    Goes,
}

/// The search from these frames, at most so many ports deep.
#[cycle(search)]
fn search_from(
    alloc: Global,
    program: &Program,
    depth: u32,
    place: &Place,
    counts: Counts,
) -> Result<Option<Searched>, AllocError>
    requires program { IsProgram program.now }
    requires open { IsOpen counts.boxes place.now.frames }
    requires below { IsBelow place.now.fresh place.now.frames }
    requires room { place.now.fresh + BLOCK * depth ≤ 2 ^ 64 - 1 }
    ensures { IfOk result (λ o. Makes o (search_from
        (tuples_of program.now) depth place.now.frames counts.boxes counts.points)) }
{
    if depth == 0 {
        return Ok(Some(no_item(alloc, counts)));
    }
    if counts.boxes == u32::MAX {
        return Ok(None);
    }
    let look = place.frames.look(alloc, counts.boxes + 1)?;
    let made = turn(alloc, program, depth - 1, place, &look, counts);
    // Dropped by calls, here and below: else each part is a step to check.
    drop(look);
    made
}

/// What the innermost frame does next, and what follows it.
#[cycle(search)]
fn turn(
    alloc: Global,
    program: &Program,
    depth: u32,
    place: &Place,
    look: &Look,
    counts: Counts,
) -> Result<Option<Searched>, AllocError>
    requires program { IsProgram program.now }
    requires open { IsOpen counts.boxes place.now.frames }
    requires below { IsBelow place.now.fresh place.now.frames }
    requires room { place.now.fresh + BLOCK * (depth + 1) ≤ 2 ^ 64 - 1 }
    requires boxes { counts.boxes + 1 < 2 ^ 32 }
    requires look { look.now ≡ look_of place.now.frames (counts.boxes + 1) }
    ensures { IfOk result (λ o. Makes o (turn (search_from (tuples_of program.now) depth)
        (tuples_of program.now) look.now place.now.frames counts.boxes counts.points)) }
{
    match look {
        Look::Nothing => Ok(Some(no_item(alloc, counts))),
        Look::Goal(g) => {
            let called = Counts {
                boxes: counts.boxes + 1,
                points: counts.points,
            };
            let rest = settled(alloc, program, depth, place, g, called)?;
            port_before(alloc, Port::Call, g, rest)
        }
        Look::Exit(g, point) => {
            let around = place.outer(alloc)?;
            let rest = hand(alloc, program, depth, &around, *point, counts)?;
            drop(around);
            exit_around(alloc, g, rest)
        }
        Look::Answer(values) => answer_alone(alloc, values, counts),
    }
}

/// What comes of a called goal: its clauses are tried, or it is built in.
#[cycle(search)]
fn settled(
    alloc: Global,
    program: &Program,
    depth: u32,
    place: &Place,
    g: &Called,
    counts: Counts,
) -> Result<Option<Searched>, AllocError>
    requires program { IsProgram program.now }
    requires deep { g.now.depth ≤ counts.boxes }
    requires waits { AllWait counts.boxes place.now.frames }
    requires below { IsBelow place.now.fresh place.now.frames }
    requires room { place.now.fresh + BLOCK * (depth + 1) ≤ 2 ^ 64 - 1 }
    ensures { IfOk result (λ o. Makes o (settled (search_from (tuples_of program.now) depth)
        (clauses_for g.now.atom (tuples_of program.now)) place.now.frames g.now
        (solution place.now.frames g.now counts.points) counts.boxes counts.points)) }
{
    match attempted(alloc, &place.frames, g, counts.points)? {
        Attempt::Program => tries(alloc, program, depth, place, g, counts),
        Attempt::Fault(cause) => one_item(alloc, Item::Error(cause, g.box_no), counts),
        Attempt::Failed => port_alone(alloc, Port::Fail, g, counts),
        Attempt::Entered(frames) => {
            let entered = Place {
                frames,
                fresh: place.fresh,
            };
            let made = succeeded(alloc, program, depth, &entered, g, counts);
            drop(entered);
            made
        }
    }
}

/// A built-in goal that succeeds: its point, its exit, and later Redo and Fail.
#[cycle(search)]
fn succeeded(
    alloc: Global,
    program: &Program,
    depth: u32,
    entered: &Place,
    g: &Called,
    counts: Counts,
) -> Result<Option<Searched>, AllocError>
    requires program { IsProgram program.now }
    requires open { IsOpen counts.boxes entered.now.frames }
    requires below { IsBelow entered.now.fresh entered.now.frames }
    requires room { entered.now.fresh + BLOCK * depth ≤ 2 ^ 64 - 1 }
    ensures { IfOk result (λ o. Makes o (succeeded
        (search_from (tuples_of program.now) depth) g.now entered.now.frames counts.boxes counts.points)) }
{
    let Some((_box_no, newest)) = entered.frames.newest() else {
        return Ok(Some(no_item(alloc, counts)));
    };
    if entered.frames.is_large() {
        return one_item(alloc, Item::Error(RunError::Size, g.box_no), counts);
    }
    if counts.points == u32::MAX {
        return Ok(None);
    }
    let around = entered.outer(alloc)?;
    let made = Counts {
        boxes: counts.boxes,
        points: counts.points + 1,
    };
    let rest = hand(alloc, program, depth, &around, newest, made)?;
    drop(around);
    success_around(alloc, &entered.frames, g, rest)
}

/// The exit at this point is handed to the innermost frame.
#[cycle(search)]
fn hand(
    alloc: Global,
    program: &Program,
    depth: u32,
    place: &Place,
    exit: u32,
    counts: Counts,
) -> Result<Option<Searched>, AllocError>
    requires program { IsProgram program.now }
    requires waits { AllWait counts.boxes place.now.frames }
    requires below { IsBelow place.now.fresh place.now.frames }
    requires room { place.now.fresh + BLOCK * depth ≤ 2 ^ 64 - 1 }
    ensures { IfOk result (λ o. Makes o (hand
        (search_from (tuples_of program.now) depth) place.now.frames exit counts.boxes counts.points)) }
{
    let Some((box_no, newest)) = place.frames.newest() else {
        return Ok(Some(no_item(alloc, counts)));
    };
    if place.frames.is_large() {
        return one_item(alloc, Item::Error(RunError::Size, box_no), counts);
    }
    if counts.points == u32::MAX {
        return Ok(None);
    }
    let step = Step {
        point: PointId(newest),
        exit: PointId(exit),
    };
    let next = place.handed(alloc, counts.points)?;
    let made = Counts {
        boxes: counts.boxes,
        points: counts.points + 1,
    };
    let rest = search_from(alloc, program, depth, &next, made)?;
    let pointed = point_before(alloc, &next.frames, Some(step), rest);
    drop(next);
    pointed
}

/// Each of the goal's clauses in turn, and at last Fail.
#[cycle(search)]
fn tries(
    alloc: Global,
    program: &Program,
    depth: u32,
    place: &Place,
    g: &Called,
    counts: Counts,
) -> Result<Option<Searched>, AllocError>
    requires program { IsProgram program.now }
    requires deep { g.now.depth ≤ counts.boxes }
    requires waits { AllWait counts.boxes place.now.frames }
    requires below { IsBelow place.now.fresh place.now.frames }
    requires room { place.now.fresh + BLOCK * (depth + 1) ≤ 2 ^ 64 - 1 }
    ensures { IfOk result (λ o. Makes o (tries
        (search_from (tuples_of program.now) depth) place.now.frames g.now
        (clauses_for g.now.atom (tuples_of program.now)) counts.boxes counts.points)) }
{
    let numbers = numbers(program, &g.atom);
    let mut out = no_item(alloc, counts);
    let mut at = 0;
    'clauses: while at < numbers.len() {
        match tried(alloc, program, depth, place, g, at, &mut out)? {
            Advance::Full => {
                drop(out);
                return Ok(None);
            }
            Advance::Ends => return Ok(Some(out)),
            Advance::Goes => at += 1,
        }
    }
    port_after(alloc, Some(out), Port::Fail, g)
}

/// The goal's clause at this index, before those after it.
#[cycle(search)]
fn tried(
    alloc: Global,
    program: &Program,
    depth: u32,
    place: &Place,
    g: &Called,
    at: usize,
    out: &mut Searched,
) -> Result<Advance, AllocError>
    requires program { IsProgram program.now }
    requires there { at < length (numbers_for g.now.atom program.now) }
    requires deep { g.now.depth ≤ out.old.counts.boxes }
    requires waits { AllWait out.old.counts.boxes place.now.frames }
    requires below { IsBelow place.now.fresh place.now.frames }
    requires room { place.now.fresh + BLOCK * (depth + 1) ≤ 2 ^ 64 - 1 }
    ensures advances { IfOk result (λ b. Advances (out_of out.old)
        (tries (search_from (tuples_of program.now) depth) place.now.frames g.now
        (drop at (clauses_for g.now.atom (tuples_of program.now)))) b (out_of out.new)
        (tries (search_from (tuples_of program.now) depth) place.now.frames g.now
        (drop (at + 1) (clauses_for g.now.atom (tuples_of program.now))))) }
    ensures boxes { IfOk result (λ b. b ≡ Advance.Goes →
        out.old.counts.boxes ≤ out.new.counts.boxes) }
{
    let numbers = numbers(program, &g.atom);
    let clause = program.clause(numbers[at]);
    let entered = resolved(
        alloc,
        &place.frames,
        place.fresh,
        g,
        numbers[at],
        &clause.tuple,
        out.counts.points,
    )?;
    match entered {
        None => Ok(Advance::Goes),
        Some(frames) => {
            let entered = Place {
                frames,
                fresh: place.fresh + BLOCK,
            };
            let advance = begun(alloc, program, depth, &entered, g, out);
            drop(entered);
            advance
        }
    }
}

/// A clause that was entered: an error where its instance is too large, else its point and its search.
#[cycle(search)]
fn begun(
    alloc: Global,
    program: &Program,
    depth: u32,
    entered: &Place,
    g: &Called,
    out: &mut Searched,
) -> Result<Advance, AllocError>
    requires program { IsProgram program.now }
    requires open { IsOpen out.old.counts.boxes entered.now.frames }
    requires below { IsBelow entered.now.fresh entered.now.frames }
    requires room { entered.now.fresh + BLOCK * depth ≤ 2 ^ 64 - 1 }
    ensures advances { IfOk result (λ b. (others : ℕ → ℕ → Out) → Grows others →
        Advances (out_of out.old) (begun (search_from
        (tuples_of program.now) depth) g.now others entered.now.frames) b (out_of out.new) others) }
    ensures boxes { IfOk result (λ b. b ≡ Advance.Goes →
        out.old.counts.boxes ≤ out.new.counts.boxes) }
{
    if entered.frames.is_large() {
        out.items.push_back(Item::Error(RunError::Size, g.box_no))?;
        return Ok(Advance::Ends);
    }
    if out.counts.points == u32::MAX {
        return Ok(Advance::Full);
    }
    let made = Counts {
        boxes: out.counts.boxes,
        points: out.counts.points + 1,
    };
    let Some(rest) = search_from(alloc, program, depth, entered, made)? else {
        return Ok(Advance::Full);
    };
    put_behind(alloc, out, &entered.frames, rest)?;
    Ok(Advance::Goes)
}

/// The innermost frame's point, and the items up to the first error.
fn traced(
    alloc: Global,
    frames: &FrameList,
    items: VecDeque<Item>,
) -> Result<VecDeque<Item>, AllocError>
    requires { 0 < length frames.now }
    ensures { IfOk result (λ r. r.items ≡ traced frames.now items.items) }
{
    let mut kept = up_to_error(alloc, items)?;
    let point = frames.point(alloc, None)?;
    kept.push_front(Item::Made(point))?;
    Ok(kept)
}

/// The trace of a query by the program's clauses, at most `depth` ports deep; none only where a
/// search makes as many boxes or points as 32 bits can number. The only error is want of memory.
pub fn trace(
    alloc: Global,
    program: &Program,
    query: &Tuple,
    depth: u32,
) -> Result<Option<VecDeque<Item>>, AllocError>
    requires runnable { IsRunnable query.now }
    requires depth { depth ≤ 1000001 }
    ensures { IfOk result (λ o. MatchOption o
        (IsFull (search_from (tuples_of program.now) depth (query_frame query.now ∷ []) 0 1))
        (λ items. items.items ≡ trace (tuples_of program.now) query.now depth)) }
{
    let _count = program.count();
    let place = Place {
        frames: FrameList::of_query(alloc, query)?,
        fresh: BLOCK,
    };
    let counts = Counts {
        boxes: 0,
        points: 1,
    };
    let Some(searched) = search_from(alloc, program, depth, &place, counts)? else {
        drop(place);
        return Ok(None);
    };
    let items = traced(alloc, &place.frames, searched.items)?;
    drop(place);
    Ok(Some(items))
}
