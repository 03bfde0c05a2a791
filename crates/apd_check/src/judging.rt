//! Whether what a line finds follows from what was told so far.

ghost use Rattle.std.specs.Prelude.{◌≡◌, ◌↔◌, ◌<◌, ◌^◌, IfOk, IsTrue};
ghost use Rattle.apd_term.specs.Canonical.{canonical};
ghost use Rattle.apd_record.specs.Reading.{call_atom};
ghost use Rattle.apd_answers.specs.Findings.{AllDescendByReplies};
ghost use Rattle.apd_findings.specs.Calling.{IsBox};
ghost use Rattle.apd_loop.specs.Loop.{calls_in};
ghost use Rattle.apd_loop.specs.Turning.{HasBoxes};
ghost use Rattle.apd_check.specs.Checked.{IsJudged, IsLineOf, IsPlaced};
ghost use Rattle.apd_claims.specs.declared.claim.Claim.TheVariants as claims;

use crate::checked::Why;
use crate::state::LogState;
use apd_answers::Finding;
use apd_clauses::Program;
use apd_findings::{do_descend, is_by_replies};
use apd_record::Record;
use apd_term::canonical::canonical;
use apd_term::{Atoms, Flat};
use std::alloc::{AllocError, Global};

/// Whether the clause of this number begins in this line of the program.
fn is_line_of(program: &Program, clause: u32, line: u32) -> bool
    ensures { IsTrue result ↔ IsLineOf program.now clause line }
{
    if clause == 0 || program.count() < clause {
        return false;
    }
    program.clause(clause).line == line
}

/// Whether the line that is printed with a finding, where one is, is that of its clause.
fn is_placed(program: &Program, finding: &Finding, line: u32) -> bool
    ensures { IsTrue result ↔ IsPlaced program.now finding.now line }
{
    match finding {
        Finding::Uncovered { .. } | Finding::Candidates(_) => true,
        Finding::WrongInstance { clause, .. } | Finding::Violation { clause, .. } => {
            is_line_of(program, *clause, line)
        }
    }
}

/// Whether a finding follows from the replies, and its line is right.
pub(crate) fn judge_finding(
    alloc: Global,
    program: &Program,
    state: &LogState,
    finding: &Finding,
    line: u32,
) -> Result<Option<Why>, AllocError>
    ensures { IfOk result (IsJudged program.now state.now (claims.Finds finding.now line)) }
{
    if !is_placed(program, finding, line) {
        return Ok(Some(Why::Finding));
    }
    if !is_by_replies(alloc, program, &state.history, &state.known, finding)? {
        return Ok(Some(Why::Finding));
    }
    Ok(None)
}

/// At most so many calls of a chain are held at a time: so few that they stay in the processor's cache.
const MOST_CALLS: usize = 8192;

/// The call of a box in canonical form.
fn canonical_call(alloc: Global, history: &Record, box_no: u32) -> Result<Flat, AllocError>
    requires { IsBox history.now box_no }
    ensures { IfOk result (λ call. call ≡ canonical (call_atom history.now box_no)) }
{
    let call = history.call_atom(box_no)?;
    if call.is_ground() {
        return Ok(call);
    }
    canonical(alloc, &call)
}

/// The calls of the boxes in canonical form.
fn canonical_calls(alloc: Global, history: &Record, chain: &[u32]) -> Result<Atoms, AllocError>
    requires { HasBoxes history.now chain.now }
    ensures { IfOk result (λ calls. calls ≡ calls_in history.now chain.now) }
{
    let mut calls = Atoms::new(alloc);
    'boxes: for i in 0..chain.len() {
        calls.push(canonical_call(alloc, history, chain[i])?)?;
    }
    Ok(calls)
}

/// Whether of the calls of these boxes each is below the one before by the replies.
fn do_calls_descend(alloc: Global, state: &LogState, chain: &[u32]) -> Result<bool, AllocError>
    requires { HasBoxes state.now.history chain.now }
    ensures { IfOk result (λ b. IsTrue b ↔
        AllDescendByReplies state.now.known (calls_in state.now.history chain.now)) }
{
    let atoms = canonical_calls(alloc, &state.history, chain)?;
    do_descend(alloc, &state.known, atoms.as_slice())
}

/// Whether that is so of a chain, which is looked at in parts of so many; each ends with the call that the next one begins with.
fn does_chain_descend(
    alloc: Global,
    state: &LogState,
    chain: &[u32],
    most: usize,
) -> Result<bool, AllocError>
    requires boxes { HasBoxes state.now.history chain.now }
    requires most { 1 < most }
    requires few { most < 2 ^ 32 }
    ensures { IfOk result (λ b. IsTrue b ↔
        AllDescendByReplies state.now.known (calls_in state.now.history chain.now)) }
{
    let mut rest = chain;
    'parts: while rest.len() > most {
        let part = &rest[..most];
        if !do_calls_descend(alloc, state, part)? {
            return Ok(false);
        }
        rest = &rest[most - 1..];
    }
    do_calls_descend(alloc, state, rest)
}

/// Whether the calls of the last run's chain are so many, and each is below the one before by the replies.
pub(crate) fn judge_descent(
    alloc: Global,
    program: &Program,
    state: &LogState,
    calls: u32,
) -> Result<Option<Why>, AllocError>
    ensures { IfOk result (IsJudged program.now state.now (claims.Descends calls)) }
{
    let chain = state.history.chain()?;
    if chain.len() != calls as usize {
        return Ok(Some(Why::Finding));
    }
    if !does_chain_descend(alloc, state, chain.as_slice(), MOST_CALLS)? {
        return Ok(Some(Why::Finding));
    }
    Ok(None)
}
