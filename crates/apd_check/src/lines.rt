//! What the lines of a log make of its course.

ghost use Rattle.std.specs.Prelude.{◌≡◌, ◌≤◌, None, Some, IfOk, if◌then◌else◌};
ghost use Rattle.std.specs.Option.{option_map};
ghost use Rattle.apd_console.specs.Lines.{lines_of};
ghost use Rattle.apd_read.specs.Reader.{Reader};
ghost use Rattle.apd_term.specs.Growth.{Grown};
ghost use Rattle.apd_talk.specs.Speech.{Lasting};
ghost use Rattle.apd_claims.specs.Parting.{called_in, claim_parted};
ghost use Rattle.apd_claims.specs.Saying.{claim_at};
ghost use Rattle.apd_claims.specs.Texts.{KeepsFew};
ghost use Rattle.apd_check.specs.Checked.{found_in, reason_for};
ghost use Rattle.apd_check.specs.Steps.{IsKept, KnowsDescent, Stays, Takes};

use crate::calls::{is_found, prepare};
use crate::checked::Why;
use crate::course::LogCourse;
use crate::source::Source;
use apd_claims::{CallLine, Claim, LogLine, claim_at};
use apd_ops::Ops;
use apd_term::names::Names;
use std::alloc::{AllocError, Global};

/// How many findings a line says, and why it isn't good, if it isn't.
#[derive(Clone, Copy)]
pub(crate) struct Taken {
    pub found: u32,
    pub why: Option<Why>,
}

/// How many findings a line says.
fn found_in(claim: &Claim) -> u32
    ensures found { result ≡ found_in claim.now }
    ensures few { result ≤ 1 }
{
    match claim {
        Claim::Finds(..) | Claim::Descends(_) => 1,
        _ => 0,
    }
}

/// Why the line of a call isn't good.
fn reason_for(claim: &Claim) -> Why
    ensures { result ≡ reason_for claim.now }
{
    match claim {
        Claim::Garbled => Why::Text,
        _ => Why::Finding,
    }
}

/// A line that isn't one of a call.
fn take_claim(
    alloc: Global,
    source: &Source<'_>,
    names: &mut Names,
    course: &mut LogCourse,
    place: &LogLine<'_>,
) -> Result<Taken, AllocError>
    requires kept { IsKept course.old.state }
    requires known { KnowsDescent source.now.program.now course.old.state course.old.descent }
    ensures names { Grown names.old names.new }
    ensures few { KeepsFew names.old names.new }
    ensures taken { IfOk result (λ x. Lasting names.new (λ n. (reader : Reader n) →
        Takes source.now.program.now course.old.state (claim_at reader source.now.ops.now
        place.now.in_group place.now.line.now (lines_of place.now.rest.now)) None
        course.new.state x.found x.why)) }
    ensures stays { IfOk result (λ x. Stays source.now.program.now course.new x.why) }
    ensures one { IfOk result (λ x. x.found ≤ 1) }
{
    let claim = claim_at(alloc, source.ops, names, place)?;
    let found = found_in(&claim);
    let why = course.take(alloc, source.program, claim)?;
    Ok(Taken { found, why })
}

/// Why the line of a call isn't good, if it can't be read as a finding that is right.
fn judge_call(
    alloc: Global,
    ops: &Ops,
    names: &mut Names,
    place: &LogLine<'_>,
    found: bool,
) -> Result<Option<Why>, AllocError>
    ensures names { Grown names.old names.new }
    ensures few { KeepsFew names.old names.new }
    ensures why { IfOk result (λ w. Lasting names.new (λ n. (reader : Reader n) →
        w ≡ (if found then None else Some (reason_for (claim_at reader ops.now
        place.now.in_group place.now.line.now (lines_of place.now.rest.now)))))) }
{
    if found {
        return Ok(None);
    }
    let claim = claim_at(alloc, ops, names, place)?;
    let reason = reason_for(&claim);
    // Dropped by a call: else each part of each kind of claim is a step to check.
    drop(claim);
    Ok(Some(reason))
}

/// A line of a log.
pub(crate) fn take_line(
    alloc: Global,
    source: &Source<'_>,
    names: &mut Names,
    course: &mut LogCourse,
    place: &LogLine<'_>,
) -> Result<Taken, AllocError>
    requires kept { IsKept course.old.state }
    requires known { KnowsDescent source.now.program.now course.old.state course.old.descent }
    ensures names { Grown names.old names.new }
    ensures few { KeepsFew names.old names.new }
    ensures taken { IfOk result (λ x. Lasting names.new (λ n. (reader : Reader n) →
        Takes source.now.program.now course.old.state (claim_at reader source.now.ops.now
        place.now.in_group place.now.line.now (lines_of place.now.rest.now))
        (option_map (claim_parted reader source.now.ops.now) (called_in place.now.line.now))
        course.new.state x.found x.why)) }
    ensures stays { IfOk result (λ x. Stays source.now.program.now course.new x.why) }
    ensures one { IfOk result (λ x. x.found ≤ 1) }
{
    let Some(call) = CallLine::of(alloc, place.line)? else {
        return take_claim(alloc, source, names, course, place);
    };
    prepare(&mut course.state, &call)?;
    let found = is_found(alloc, source, names, &course.state, &call)?;
    let why = judge_call(alloc, source.ops, names, place, found)?;
    Ok(Taken { found: 1, why })
}
