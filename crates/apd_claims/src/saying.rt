//! What a line says.

ghost use Rattle.std.specs.Prelude.{◌≡◌, IfOk, Some};
ghost use Rattle.apd_console.specs.Lines.{lines_of};
ghost use Rattle.apd_read.specs.Reader.{Reader};
ghost use Rattle.apd_term.specs.Growth.{Grown};
ghost use Rattle.apd_talk.specs.Speech.{Lasting};
ghost use Rattle.apd_text.specs.declared.entry.Entry.TheVariants.{AllDescend};
ghost use Rattle.apd_claims.specs.Claims.{claim_as};
ghost use Rattle.apd_claims.specs.Forms.{with_newline};
ghost use Rattle.apd_claims.specs.Saying.{claim_at, claim_by, goes_on};
ghost use Rattle.apd_claims.specs.Sayable.{FormIsSayable, IsSayable};
ghost use Rattle.apd_claims.specs.Texts.{KeepsFew};

use crate::calls::call_claim;
use crate::claim::Claim;
use crate::claims::{claim_as, framed_claim, run_claim, symptom_claim, with_newline};
use crate::form::LineForm;
use crate::forms::form_in;
use crate::groups::group_claim;
use crate::means::Means;
use apd_ops::Ops;
use apd_parts::after;
use apd_term::names::Names;
use apd_text::Entry;
use std::alloc::{AllocError, Global};

/// A line, with the text behind it, and whether candidates stand directly before it.
#[derive(Clone, Copy)]
pub struct LogLine<'a> {
    pub line: &'a [u8],
    pub rest: &'a [u8],
    pub in_group: bool,
}

/// What a line says of calls that descend.
fn descent_claim(
    means: &Means<'_>,
    names: &Names,
    line: &[u8],
    calls: u32,
) -> Result<Claim, AllocError>
    ensures claim { IfOk result (λ c. Lasting names.now (λ n.
        c ≡ claim_as means.now.ops.now n (with_newline line.now) (Some (AllDescend calls)))) }
    ensures sayable { IfOk result IsSayable }
{
    let whole = with_newline(means.alloc, line)?;
    let entry = Entry::AllDescend { calls };
    claim_as(means, names, whole.bytes(), Some(entry))
}

/// What a line of this form says.
fn claim_by(
    means: &Means<'_>,
    names: &mut Names,
    place: &LogLine<'_>,
    form: LineForm,
) -> Result<Claim, AllocError>
    requires { FormIsSayable form }
    ensures names { Grown names.old names.new }
    ensures few { KeepsFew names.old names.new }
    ensures claim { IfOk result (λ c. Lasting names.new (λ n. (reader : Reader n) →
        c ≡ claim_by reader means.now.ops.now place.now.in_group place.now.line.now
        (lines_of place.now.rest.now) form)) }
    ensures sayable { IfOk result IsSayable }
{
    match form {
        LineForm::Query(goals) => run_claim(means, names, goals.bytes()),
        LineForm::End(ran) => Ok(Claim::Ends(ran)),
        LineForm::Symptom(is_true, text) => symptom_claim(means, names, is_true, text.bytes()),
        LineForm::Framed(frame, text) => {
            framed_claim(means, names, place.line, frame, text.bytes())
        }
        LineForm::Call(calling, text) => call_claim(means, names, place.line, calling, text),
        LineForm::Candidates => group_claim(means, names, place.line, place.rest),
        LineForm::Candidate if place.in_group => Ok(Claim::Nothing),
        LineForm::Descent(calls) => descent_claim(means, names, place.line, calls),
        LineForm::Other => Ok(Claim::Nothing),
        LineForm::Candidate | LineForm::Unread => Ok(Claim::Garbled),
    }
}

/// What a line says.
pub fn claim_at(
    alloc: Global,
    ops: &Ops,
    names: &mut Names,
    place: &LogLine<'_>,
) -> Result<Claim, AllocError>
    ensures names { Grown names.old names.new }
    ensures few { KeepsFew names.old names.new }
    ensures claim { IfOk result (λ c. Lasting names.new (λ n. (reader : Reader n) →
        c ≡ claim_at reader ops.now place.now.in_group place.now.line.now
        (lines_of place.now.rest.now))) }
    ensures sayable { IfOk result IsSayable }
{
    let form = form_in(alloc, place.line)?;
    let means = Means { alloc, ops };
    claim_by(&means, names, place, form)
}

/// Whether the lines behind a line may be those of candidates.
pub fn goes_on(in_group: bool, line: &[u8]) -> bool
    ensures { result ≡ goes_on in_group line.now }
{
    if after(b"candidates: ", line).is_some() {
        return true;
    }
    in_group && after(b"candidate: ", line).is_some()
}
