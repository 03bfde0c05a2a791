//! Whether the line of a call that isn't below its caller says what is right, wherever it is parted.
//!
//! The words between the two calls may stand in the text of an atom too. The caller's atom is known from the record, so the place is
//! that of its text; only where a name of that atom isn't known is each place tried.

ghost use Rattle.std.specs.Prelude.{◌≡◌, ◌≤◌, ◌↔◌, Some, IfOk, IfSome, IsTrue, length};
ghost use Rattle.apd_read.specs.Reader.{Reader};
ghost use Rattle.apd_term.specs.Growth.{Grown};
ghost use Rattle.apd_talk.specs.Speech.{Lasting};
ghost use Rattle.apd_findings.specs.Calling.{IsBox};
ghost use Rattle.apd_claims.specs.Parting.{claim_parted};
ghost use Rattle.apd_claims.specs.Texts.{KeepsFew};
ghost use Rattle.apd_check.specs.Checked.{IsFound, IsFoundIn};
ghost use Rattle.apd_check.specs.Steps.{IsCallText, may_be};

use crate::judging::judge_finding;
use crate::source::Source;
use crate::state::LogState;
use apd_base::Text;
use apd_claims::{CallLine, Claim, lasting_text};
use apd_clauses::Program;
use apd_record::Record;
use apd_term::names::Names;
use std::alloc::{AllocError, Global};

/// Whether this is a finding, and is right.
fn is_right_claim(
    alloc: Global,
    program: &Program,
    state: &LogState,
    claim: &Claim,
) -> Result<bool, AllocError>
    ensures { IfOk result (λ b. IsTrue b ↔ IsFound program.now state.now (Some claim.now)) }
{
    match claim {
        Claim::Finds(finding, line) => {
            let judged = judge_finding(alloc, program, state, finding, *line)?;
            Ok(judged.is_none())
        }
        _ => Ok(false),
    }
}

/// Whether a finding is said, and is right.
fn is_right(
    alloc: Global,
    program: &Program,
    state: &LogState,
    claim: &Option<Claim>,
) -> Result<bool, AllocError>
    ensures { IfOk result (λ b. IsTrue b ↔ IsFound program.now state.now claim.now) }
{
    match claim {
        Some(claim) => is_right_claim(alloc, program, state, claim),
        None => Ok(false),
    }
}

/// Whether the text may be this one, where one is known.
fn may_be(wanted: &Option<Text>, text: &[u8]) -> bool
    ensures { result ≡ may_be wanted.now text.now }
{
    match wanted {
        Some(wanted) => wanted.bytes() == text,
        None => true,
    }
}

/// The line of a call, and what tells whether it can be read as a finding that is right.
#[derive(Clone, Copy)]
struct Search<'a> {
    source: Source<'a>,
    state: &'a LogState,
    call: &'a CallLine,
    /// The text of the caller's atom, where it stays so whatever names come later.
    wanted: &'a Option<Text>,
}

impl Search<'_> {
    /// Whether the line, if it is parted at this place, says a finding that is right.
    fn is_found_at(
        &self,
        alloc: Global,
        names: &mut Names,
        place: usize,
    ) -> Result<bool, AllocError>
        requires place { place ≤ length self.now.call.now.text }
        requires wanted { IfSome self.now.wanted.now (IsCallText self.now.source.ops.now names.old
            self.now.state.now.history self.now.call.now.calling.caller) }
        ensures names { Grown names.old names.new }
        ensures few { KeepsFew names.old names.new }
        ensures found { IfOk result (λ b. Lasting names.new (λ n. (reader : Reader n) →
            IsTrue b ↔ IsFound self.now.source.program.now self.now.state.now
            (claim_parted reader self.now.source.ops.now self.now.call.now place))) }
    {
        let call = self.call;
        let source = self.source;
        let Some(rest) = call.caller_at(place) else {
            return Ok(false);
        };
        if !may_be(self.wanted, rest) {
            return Ok(false);
        }
        let claim = call.claim_at(alloc, source.ops, names, place)?;
        let right = is_right(alloc, source.program, self.state, &claim);
        // Dropped by a call: else each part of each kind of claim is a step to check.
        drop(claim);
        right
    }

    /// Whether it does at some place.
    fn is_found(&self, alloc: Global, names: &mut Names) -> Result<bool, AllocError>
        requires { IfSome self.now.wanted.now (IsCallText self.now.source.ops.now names.old
            self.now.state.now.history self.now.call.now.calling.caller) }
        ensures names { Grown names.old names.new }
        ensures few { KeepsFew names.old names.new }
        ensures found { IfOk result (λ b. Lasting names.new (λ n. (reader : Reader n) →
            IsTrue b ↔ IsFoundIn self.now.source.program.now self.now.state.now
            (claim_parted reader self.now.source.ops.now self.now.call.now))) }
    {
        let call = self.call;
        'partings: for place in 0..call.places() {
            let found = self.is_found_at(alloc, names, place)?;
            if found {
                return Ok(true);
            }
        }
        Ok(false)
    }
}

/// Whether the record has this box.
fn is_box(record: &Record, box_no: u32) -> bool
    ensures { IsTrue result ↔ IsBox record.now box_no }
{
    0 < box_no && box_no <= record.boxes()
}

/// Computes ahead what tells of each call whether it isn't below the caller of this one. What was told stays as it is.
pub(crate) fn prepare(state: &mut LogState, call: &CallLine) -> Result<(), AllocError>
    ensures { state.new ≡ state.old }
{
    let caller = call.calling.caller;
    state.history.is_kept();
    if !is_box(&state.history, caller) {
        return Ok(());
    }
    let atom = state.history.call_atom(caller)?;
    state.known.prepare(&atom)
}

/// Whether it does, by the caller's atom in the record.
pub(crate) fn is_found(
    alloc: Global,
    source: &Source<'_>,
    names: &mut Names,
    state: &LogState,
    call: &CallLine,
) -> Result<bool, AllocError>
    ensures names { Grown names.old names.new }
    ensures few { KeepsFew names.old names.new }
    ensures found { IfOk result (λ b. Lasting names.new (λ n. (reader : Reader n) →
        IsTrue b ↔ IsFoundIn source.now.program.now state.now
        (claim_parted reader source.now.ops.now call.now))) }
{
    let caller = call.calling.caller;
    state.history.is_kept();
    if !is_box(&state.history, caller) {
        return Ok(false);
    }
    let atom = state.history.call_atom(caller)?;
    let wanted = lasting_text(alloc, source.ops, names, &atom)?;
    let search = Search {
        source: *source,
        state,
        call,
        wanted: &wanted,
    };
    search.is_found(alloc, names)
}
