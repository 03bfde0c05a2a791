//! The ports and the points that are passed before and after a search.

ghost use Rattle.std.specs.Prelude.{◌≡◌, ◌<◌, length, IfOk, OnOk};
ghost use Rattle.apd_ports.specs.declared.event.Port.TheVariants.{Exit};
ghost use Rattle.apd_trace.specs.Trace.{Out, nothing, emit, and_then, at_port, again};
ghost use Rattle.apd_trace.specs.declared.item.Item.TheVariants.{Answer};
ghost use Rattle.apd_by_definition.specs.Searched.{Makes, around, out_of, pointed};

use crate::engine::frames::FrameList;
use crate::engine::goals::event;
use crate::engine::searched::{Counts, Searched, one_item, put_after, put_before};
use apd_ports::Port;
use apd_term::Flat;
use apd_trace::{Called, Item, Step};
use std::alloc::{AllocError, Global};

/// A box's port alone.
pub(crate) fn port_alone(
    alloc: Global,
    port: Port,
    g: &Called,
    counts: Counts,
) -> Result<Option<Searched>, AllocError>
    ensures { IfOk result (λ o. Makes o (emit (at_port port g.now)
        (nothing counts.boxes counts.points))) }
{
    let item = event(alloc, port, g)?;
    one_item(alloc, item, counts)
}

/// An answer alone.
pub(crate) fn answer_alone(
    alloc: Global,
    values: &Flat,
    counts: Counts,
) -> Result<Option<Searched>, AllocError>
    ensures { IfOk result (λ o. Makes o (emit (Answer values.now)
        (nothing counts.boxes counts.points))) }
{
    let copied = values.copy(alloc)?;
    one_item(alloc, Item::Answer(copied), counts)
}

/// A box's port, and then the search.
pub(crate) fn port_before(
    alloc: Global,
    port: Port,
    g: &Called,
    rest: Option<Searched>,
) -> Result<Option<Searched>, AllocError>
    ensures { IfOk result (λ o. (whole : Out) → Makes rest whole →
        Makes o (emit (at_port port g.now) whole)) }
{
    let item = event(alloc, port, g)?;
    put_before(item, rest)
}

/// The search, and then a box's port.
pub(crate) fn port_after(
    alloc: Global,
    first: Option<Searched>,
    port: Port,
    g: &Called,
) -> Result<Option<Searched>, AllocError>
    ensures { IfOk result (λ o. (whole : Out) → Makes first whole →
        Makes o (and_then whole (λ n m. emit (at_port port g.now) (nothing n m)))) }
{
    let item = event(alloc, port, g)?;
    put_after(first, item)
}

/// A box's exit, the search that follows it, and Redo.
pub(crate) fn exit_around(
    alloc: Global,
    g: &Called,
    rest: Option<Searched>,
) -> Result<Option<Searched>, AllocError>
    ensures { IfOk result (λ o. (whole : Out) → Makes rest whole →
        Makes o (emit (at_port Exit g.now) (and_then whole (again g.now)))) }
{
    let redone = port_after(alloc, rest, Port::Redo, g)?;
    port_before(alloc, Port::Exit, g, redone)
}

/// The innermost frame's point, and then the search.
pub(crate) fn point_before(
    alloc: Global,
    frames: &FrameList,
    before: Option<Step>,
    rest: Option<Searched>,
) -> Result<Option<Searched>, AllocError>
    requires { 0 < length frames.now }
    ensures { IfOk result (λ o. (whole : Out) → Makes rest whole →
        Makes o (pointed frames.now before whole)) }
{
    let point = frames.point(alloc, before)?;
    put_before(Item::Made(point), rest)
}

/// A built-in goal's point and exit, the search that follows them, and Redo and Fail.
pub(crate) fn success_around(
    alloc: Global,
    frames: &FrameList,
    g: &Called,
    rest: Option<Searched>,
) -> Result<Option<Searched>, AllocError>
    requires { 0 < length frames.now }
    ensures { IfOk result (λ o. (whole : Out) → Makes rest whole →
        Makes o (around frames.now g.now whole)) }
{
    let (left, _newest) = frames.exited(alloc)?;
    let passed = exit_around(alloc, &left, rest)?;
    // Dropped by calls, here and below: else each part is a step to check.
    drop(left);
    let failed = port_after(alloc, passed, Port::Fail, g)?;
    point_before(alloc, frames, None, failed)
}

/// Puts the innermost frame's point and the search behind what was made before.
pub(crate) fn put_behind(
    alloc: Global,
    out: &mut Searched,
    frames: &FrameList,
    rest: Searched,
) -> Result<(), AllocError>
    requires { 0 < length frames.now }
    ensures { OnOk result (out_of out.new ≡ and_then (out_of out.old)
        (λ n m. pointed frames.now None (out_of rest))) }
{
    let point = frames.point(alloc, None)?;
    let mut items = rest.items;
    items.push_front(Item::Made(point))?;
    out.items.append(&mut items)?;
    drop(items);
    out.counts = rest.counts;
    Ok(())
}
