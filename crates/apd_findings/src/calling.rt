//! Whether a call isn't below its caller by the replies.

ghost use Rattle.std.specs.Prelude.{◌≡◌, ◌↔◌, ◌<◌, ◌≤◌, IsTrue, IfOk, length};
ghost use Rattle.std.specs.List.{list_all};
ghost use Rattle.apd_record.specs.Reading.{point_of};
ghost use Rattle.apd_answers.specs.Bugs.{earlier_atoms};
ghost use Rattle.apd_answers.specs.Findings.{IsViolationByReplies};
ghost use Rattle.apd_findings.specs.Calling.{IsBox, is_call, is_call_of, is_called_by, is_made_by};
ghost use Rattle.apd_findings.specs.Deciding.{affirms};

use crate::affirming::affirms_all;
use crate::parted::Parted;
use apd_ports::PointId;
use apd_record::Record;
use apd_term::Flat;
use apd_term::canonical::canonical;
use std::alloc::{AllocError, Global};

/// A call that a finding names, with its caller.
#[derive(Clone, Copy)]
pub struct NamedCall<'a> {
    pub clause: u32,
    pub goal: u8,
    pub caller: u32,
    pub callee: u32,
    pub caller_atom: &'a Flat,
    pub callee_atom: &'a Flat,
}

/// Whether the point is one of this clause in this box, and this goal, counted from 1, is its next.
fn is_made_by(record: &Record, point: PointId, clause: u32, goal: u8, caller: u32) -> bool
    requires { point.0 < length record.now.points }
    ensures made { result ≡ is_made_by (point_of record.now point.0) clause goal caller }
    ensures there { IsTrue result → caller ≤ length record.now.boxes }
{
    record.owner(point) == caller
        && (record.clause(point) == clause && record.done(point) as u32 + 1 == goal as u32)
}

/// Whether the callee was called from such a point. Then its caller is there.
fn is_called_by(record: &Record, clause: u32, goal: u8, caller: u32, callee: u32) -> bool
    ensures called { result ≡ is_called_by record.now clause goal caller callee }
    ensures caller { IsTrue result → IsBox record.now caller }
    ensures callee { IsTrue result → IsBox record.now callee }
{
    if caller == 0 || callee == 0 || record.boxes() < callee {
        return false;
    }
    is_made_by(record, record.from(callee), clause, goal, caller)
}

/// Whether the box was called for this atom, in canonical form.
fn is_call_of(alloc: Global, record: &Record, box_no: u32, atom: &Flat) -> Result<bool, AllocError>
    requires { IsBox record.now box_no }
    ensures { IfOk result (λ b. b ≡ is_call_of record.now box_no atom.now) }
{
    let own = record.call_atom(box_no)?;
    Ok(canonical(alloc, &own)?.same(atom))
}

/// Whether the call is as the finding says.
fn is_call(alloc: Global, record: &Record, called: &NamedCall<'_>) -> Result<bool, AllocError>
    ensures call { IfOk result
        (λ b. b ≡ is_call record.now called.now.clause called.now.goal called.now.caller
        called.now.callee called.now.caller_atom.now called.now.callee_atom.now) }
    ensures callee { IfOk result (λ b. IsTrue b → IsBox record.now called.now.callee) }
{
    if !is_called_by(
        record,
        called.clause,
        called.goal,
        called.caller,
        called.callee,
    ) {
        return Ok(false);
    }
    if !is_call_of(alloc, record, called.caller, called.caller_atom)? {
        return Ok(false);
    }
    is_call_of(alloc, record, called.callee, called.callee_atom)
}

/// Whether the store says yes to each goal before the call, or it is one of a built-in goal and always true.
fn are_earlier_affirmed(
    alloc: Global,
    record: &Record,
    answers: &Parted,
    callee: u32,
) -> Result<bool, AllocError>
    requires { IsBox record.now callee }
    ensures { IfOk result (λ b. b ≡ list_all (affirms answers.now)
        (earlier_atoms record.now callee)) }
{
    let point = record.from(callee);
    let tuple = record.tuple(point)?;
    let body = tuple.body.as_slice();
    let done = record.done(point) as usize;
    if done < body.len() {
        return affirms_all(alloc, answers, &body[..done]);
    }
    affirms_all(alloc, answers, body)
}

/// Whether the call isn't below its caller by the replies.
pub fn is_violation(
    alloc: Global,
    record: &Record,
    answers: &Parted,
    called: &NamedCall<'_>,
) -> Result<bool, AllocError>
    ensures { IfOk result
        (λ b. IsTrue b ↔ IsViolationByReplies record.now answers.now called.now.clause
        called.now.goal called.now.caller called.now.callee called.now.caller_atom.now called.now.callee_atom.now) }
{
    if !is_call(alloc, record, called)? {
        return Ok(false);
    }
    if !are_earlier_affirmed(alloc, record, answers, called.callee)? {
        return Ok(false);
    }
    answers.is_apart(called.callee_atom, called.caller_atom)
}
