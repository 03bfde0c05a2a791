//! What a search gives of an item, and the ports that it reads from its frames.

ghost use Rattle.std.specs.Prelude.{◌≡◌, ◌≢◌, ◌<◌, length, IfOk, OnOk};
ghost use Rattle.apd_term.specs.Term.{Term, predicate_of};
ghost use Rattle.apd_record.specs.Recorded.{is_user_atom};
ghost use Rattle.apd_trace.specs.Trace.{at_port};
ghost use Rattle.apd_trace.specs.declared.frame.Called.{Called};
ghost use Rattle.apd_frames.specs.Kept.{Calls, MayCall};
ghost use Rattle.apd_following.specs.Followed.{kept_of};
ghost use Rattle.apd_engine.specs.Search.{Grows, HasFailed, IsLeft};
ghost use Rattle.apd_engine.specs.Given.{HoldsWhere, IsWhole, Makes, TellsAlways, of_point};

use apd_arith::Builtin;
use apd_causes::RunError;
use apd_following::following::Following;
use apd_ports::{Event, Port};
use apd_record::held::Held;
use apd_record::ongoing::OpenPoint;
use apd_term::Pred;
use apd_trace::{Called, Item, Look, Step};
use std::alloc::{AllocError, Global};
use std::boxed::Box;

/// What nobody reads, so that it may be given bare.
#[derive(Clone, Copy)]
pub struct Unread {
    /// Ports. Where points are read, a Call is told all the same.
    pub ports: bool,
    /// Points. Where they are read, each point is kept.
    pub points: bool,
}

/// What is told of a goal that is called: the newest point, which is kept, has it.
#[derive(Drop)]
pub struct ToldCall {
    /// How many symbols it has, or 0 where that isn't known.
    pub size: u32,
    /// Whether it is one of the program's, and not built in.
    pub is_user: bool,
    /// The port, where somebody reads ports.
    pub port: Option<Box<Item>>,
}

/// What is given of an item.
#[derive(Drop)]
pub enum Given {
    /// The item itself, behind a pointer: what is given is handed on through several calls.
    Whole(Box<Item>),
    /// A port and its box: its atom isn't written out.
    Port(Port, u32),
    /// A point: it isn't written out, and its instance isn't kept.
    Point,
    /// A point whose instance is kept: the point is held.
    Kept,
    /// A Call of the next goal of the newest point, which is kept.
    Call(ToldCall),
}

/// The item, given whole.
#[inline(always)]
pub fn whole(alloc: Global, item: Item) -> Result<Given, AllocError>
    ensures { IfOk result (λ given. IsWhole given item) }
{
    let item = Box::new(alloc, item)?;
    Ok(Given::Whole(item))
}

/// The item, given whole in the room of one that was given up, where there is one.
#[inline(always)]
pub fn whole_again(frames: &mut Following, alloc: Global, item: Item) -> Result<Given, AllocError>
    ensures whole { IfOk result (λ given. IsWhole given item) }
    ensures kept { frames.new ≡ frames.old }
{
    let item = frames.boxed(alloc, item)?;
    Ok(Given::Whole(item))
}

/// A Call that was shown is given up, where it was told whole.
#[inline(always)]
pub fn give_up_call(frames: &mut Following, port: Option<Box<Item>>)
    ensures { frames.new ≡ frames.old }
{
    if let Some(item) = port {
        frames.give_up(item);
    }
}

/// The error of an instance that is too large.
#[inline(never)]
#[cold]
pub fn too_large(alloc: Global, box_no: u32) -> Result<Box<Item>, AllocError>
    ensures { IfOk result (λ item. item.value ≡ Item.Error RunError.Size box_no) }
{
    let item = Box::new(alloc, Item::Error(RunError::Size, box_no))?;
    Ok(item)
}

/// The port of a box.
#[inline(always)]
pub fn event(port: Port, g: Called) -> Item
    ensures { result ≡ at_port port g }
{
    Item::Passed(Event {
        port,
        box_no: g.box_no,
        caller: g.caller,
        depth: g.depth,
        atom: g.atom,
    })
}

/// Whether a goal of this predicate is one of the program's, and not built in.
pub fn is_user(pred: Option<Pred>) -> bool
    ensures { (atom : Term) → pred ≡ predicate_of atom → result ≡ is_user_atom atom }
{
    match pred {
        Some(pred) => Builtin::of(pred).is_none(),
        None => true,
    }
}

/// Whether the innermost frame's instance isn't too large for a point. Where points are read it is then kept, and the point
/// is held.
#[inline(always)]
pub fn made(
    frames: &mut Following,
    before: Option<Step>,
    unread: Unread,
    held: &mut Held,
) -> Result<bool, AllocError>
    requires { 0 < length frames.old.current }
    ensures made { IfOk result (λ b. Makes
        (record { tuples = frames.new.tuples; held = held.new }) unread b frames.old.current before) }
    ensures held { IfOk result (λ b. HoldsWhere b unread.points held.old held.new) }
    ensures frames { kept_of frames.new ≡ kept_of frames.old }
    ensures more { OnOk result (Grows frames.old.tuples frames.new.tuples) }
{
    if unread.points {
        return frames.measure();
    }
    match frames.keep(before)? {
        None => Ok(false),
        Some(kept) => {
            held.put(OpenPoint {
                owner: kept.owner,
                clause: kept.clause,
                done: kept.done,
                tuple: kept.tuple,
                before,
            });
            Ok(true)
        }
    }
}

/// What is given of a point.
pub fn of_point(unread: Unread) -> Given
    ensures { result ≡ of_point unread }
{
    if unread.points {
        return Given::Point;
    }
    Given::Kept
}

/// A port of the box that the innermost frame leaves, written out, and the frame's newest point. It is a function of its own,
/// so that the loop of a run has the registers.
#[inline(never)]
fn written_left(
    frames: &mut Following,
    alloc: Global,
    port: Port,
) -> Result<(Box<Item>, u32), AllocError>
    requires { 0 < length frames.old.current }
    ensures left { IfOk result (λ x. IsLeft frames.old.current port x.1 x.0.value) }
    ensures kept { frames.new ≡ frames.old }
{
    let (left, point) = frames.exited()?;
    let item = frames.boxed(alloc, event(port, left))?;
    Ok((item, point))
}

/// A port of the box that the innermost frame leaves, and the frame's newest point.
#[inline(always)]
pub fn leaving(
    frames: &mut Following,
    alloc: Global,
    port: Port,
    unread: Unread,
) -> Result<(Given, u32), AllocError>
    requires some { 0 < length frames.old.current }
    requires later { port ≢ Port.Call }
    ensures left { IfOk result
        (λ x. TellsAlways unread x.0 (IsLeft frames.old.current port x.1)) }
    ensures kept { frames.new ≡ frames.old }
{
    if !unread.ports {
        let (item, point) = written_left(frames, alloc, port)?;
        return Ok((Given::Whole(item), point));
    }
    match frames.newest() {
        None => unreachable!(),
        Some((box_no, point)) => Ok((Given::Port(port, box_no), point)),
    }
}

/// Fail of the goal that the frames call in this box, written out. It is a function of its own, so that the loop of a
/// run has the registers.
#[inline(never)]
fn written_fail(frames: &mut Following, alloc: Global, box_no: u32) -> Result<Box<Item>, AllocError>
    requires deep { MayCall frames.old.current }
    requires goal { (g : Called) × Calls frames.old.current box_no g }
    ensures failed { IfOk result (λ item. (g : Called) → Calls frames.old.current box_no g →
        item.value ≡ at_port Port.Fail g) }
    ensures kept { frames.new ≡ frames.old }
{
    match frames.look(box_no)? {
        Look::Goal(g) => {
            let item = frames.boxed(alloc, event(Port::Fail, g))?;
            Ok(item)
        }
        _ => unreachable!(),
    }
}

/// Fail of the goal that the frames call in this box; what was saved for it is given up.
#[inline(always)]
pub fn fail(
    frames: &mut Following,
    alloc: Global,
    box_no: u32,
    unread: Unread,
) -> Result<Given, AllocError>
    requires saved { 0 < length frames.old.saved }
    requires deep { MayCall frames.old.current }
    requires goal { (g : Called) × Calls frames.old.current box_no g }
    ensures failed { IfOk result (λ given. TellsAlways unread given
        (HasFailed box_no (kept_of frames.old) (kept_of frames.new))) }
    ensures tuples { frames.new.tuples ≡ frames.old.tuples }
{
    if unread.ports {
        frames.forget();
        return Ok(Given::Port(Port::Fail, box_no));
    }
    let item = written_fail(frames, alloc, box_no)?;
    frames.forget();
    Ok(Given::Whole(item))
}
