//! Operators that wait for their operand on the right.

ghost use Rattle.std.specs.Prelude.{◌≡◌, IfOk};
ghost use Rattle.apd_read.specs.Stack.{operator_of, done_of, top_of, place_of, closed, reduced, PutsPrefix, PutsInfix};

use crate::phrase::{Phrase, binary, unary};
use apd_base::stack::Stack;
use apd_ops::Op;
use std::alloc::{AllocError, Global};

/// An operator that waits for its operand on the right, with its operand on the left.
#[derive(Drop)]
pub(crate) enum OperatorFrame {
    Prefix(Op),
    Infix(Phrase, Op),
}

fn operator_of(frame: &OperatorFrame) -> Op
    ensures { result ≡ operator_of frame.now }
{
    match frame {
        OperatorFrame::Prefix(o) => *o,
        OperatorFrame::Infix(_, o) => *o,
    }
}

/// The frame's term, with its operand on the right.
fn done_of(alloc: Global, frame: OperatorFrame, p: Phrase) -> Result<Phrase, AllocError>
    ensures { IfOk result (λ r. r ≡ done_of frame p) }
{
    match frame {
        OperatorFrame::Prefix(o) => unary(alloc, o, p),
        OperatorFrame::Infix(left, o) => binary(alloc, o, left, p),
    }
}

/// The greatest priority of what may stand behind the top.
fn place_of(frames: &Stack<OperatorFrame>, max: u16) -> u16
    ensures { result ≡ place_of max frames.now }
{
    match frames.top() {
        None => max,
        Some(frame) => operator_of(frame).right(),
    }
}

fn top_of(frames: &Stack<OperatorFrame>) -> Option<Op>
    ensures { result ≡ top_of frames.now }
{
    match frames.top() {
        None => None,
        Some(frame) => Some(operator_of(frame)),
    }
}

/// Does the frames that may stand on the operator's left.
fn reduced(
    alloc: Global,
    frames: &mut Stack<OperatorFrame>,
    last: Phrase,
    o: Op,
) -> Result<Phrase, AllocError>
    ensures { IfOk result (λ p. reduced o frames.old last ≡ (frames.new, p)) }
{
    let mut p = last;
    'frames: while let Some(before) = top_of(frames) {
        if before.priority > o.left() {
            break;
        }
        match frames.pop() {
            None => break,
            Some(frame) => p = done_of(alloc, frame, p)?,
        }
    }
    Ok(p)
}

/// Puts a prefix operator behind the frames; false where it doesn't fit there.
pub(crate) fn put_prefix(
    frames: &mut Stack<OperatorFrame>,
    o: Op,
    max: u16,
) -> Result<bool, AllocError>
    ensures { IfOk result (λ fits. PutsPrefix max o frames.old fits frames.new) }
{
    if o.priority > place_of(frames, max) {
        return Ok(false);
    }
    frames.push(OperatorFrame::Prefix(o))?;
    Ok(true)
}

/// Puts an infix operator behind the frames and the last operand; false where it doesn't fit there.
pub(crate) fn put_infix(
    alloc: Global,
    frames: &mut Stack<OperatorFrame>,
    last: Phrase,
    o: Op,
    max: u16,
) -> Result<bool, AllocError>
    ensures { IfOk result (λ fits. PutsInfix max o frames.old last fits frames.new) }
{
    let left = reduced(alloc, frames, last, o)?;
    if o.priority > place_of(frames, max) {
        return Ok(false);
    }
    frames.push(OperatorFrame::Infix(left, o))?;
    Ok(true)
}

/// Does all frames, the top first.
pub(crate) fn closed(
    alloc: Global,
    frames: Stack<OperatorFrame>,
    last: Phrase,
) -> Result<Phrase, AllocError>
    ensures { IfOk result (λ r. r ≡ closed frames last) }
{
    let mut frames = frames;
    let mut p = last;
    'frames: while let Some(frame) = frames.pop() {
        p = done_of(alloc, frame, p)?;
    }
    Ok(p)
}
