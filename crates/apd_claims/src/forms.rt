//! What a line is by how it begins and by the numbers in it.

ghost use Rattle.std.specs.Prelude.{◌≡◌, ◌++◌, codes, IfOk, MatchOption};
ghost use Rattle.apd_claims.specs.Forms.{bug_form, call_form, descent_form, form_in, found_form, framed_reply, instance_form, kind_form, question_form, reply_form, talked_form, told_form};
ghost use Rattle.apd_parts.specs.Parts.{counted};
ghost use Rattle.apd_claims.specs.Sayable.{FormIsSayable};

use crate::ends::end_form;
use crate::form::{Calling, LineForm, LineFrame, NumberedQuestion};
use apd_base::Text;
use apd_parts::{after, before, counted, cut, cut_last, led_by, number_64};
use std::alloc::{AllocError, Global};

/// What is said of a term.
fn framed(alloc: Global, frame: LineFrame, text: &[u8]) -> Result<LineForm, AllocError>
    ensures form { IfOk result (λ f. f ≡ LineForm.Framed frame text.now) }
    ensures sayable { IfOk result FormIsSayable }
{
    Ok(LineForm::Framed(frame, Text::copy_of(alloc, text)?))
}

/// What is asked of two terms, which are read as two arguments.
fn order_form(alloc: Global, place: NumberedQuestion, pair: &[u8]) -> Result<LineForm, AllocError>
    ensures form { IfOk result (λ f.
        f ≡ LineForm.Framed (LineFrame.Order place) (codes "below(" ++ pair.now ++ codes ")")) }
    ensures sayable { IfOk result FormIsSayable }
{
    let mut text = Text::copy_of(alloc, b"below(")?;
    text.extend(pair)?;
    text.extend(b")")?;
    Ok(LineForm::Framed(LineFrame::Order(place), text))
}

/// What is asked.
fn kind_form(alloc: Global, place: NumberedQuestion, text: &[u8]) -> Result<LineForm, AllocError>
    ensures form { IfOk result (λ f. f ≡ kind_form place text.now) }
    ensures sayable { IfOk result FormIsSayable }
{
    if let Some(atom) = after(b"true? ", text) {
        return framed(alloc, LineFrame::Truth(place), atom);
    }
    if let Some(clause) = after(b"covers? ", text) {
        return framed(alloc, LineFrame::Cover(place), clause);
    }
    if let Some(pair) = after(b"below? ", text) {
        return order_form(alloc, place, pair);
    }
    Ok(LineForm::Unread)
}

/// What a question is, with its number.
fn question_form(alloc: Global, text: &[u8]) -> Result<LineForm, AllocError>
    ensures form { IfOk result (λ f. f ≡ question_form text.now) }
    ensures sayable { IfOk result FormIsSayable }
{
    let Some(parts) = cut(b": ", text) else {
        return Ok(LineForm::Unread);
    };
    let Some(number) = number_64(parts.front) else {
        return Ok(LineForm::Unread);
    };
    let counted = counted(b" suspects]", parts.rest);
    let place = NumberedQuestion {
        number,
        suspects: counted.number,
    };
    kind_form(alloc, place, counted.text)
}

/// What a reply is that was given so.
fn framed_reply(alloc: Global, by_reference: bool, text: &[u8]) -> Result<LineForm, AllocError>
    ensures form { IfOk result (λ f.
        f ≡ framed_reply by_reference (counted (codes " left]") text.now)) }
    ensures sayable { IfOk result FormIsSayable }
{
    let counted = counted(b" left]", text);
    let frame = LineFrame::Reply {
        left: counted.number,
        by_reference,
    };
    framed(alloc, frame, counted.text)
}

/// What a reply is.
fn reply_form(alloc: Global, text: &[u8]) -> Result<LineForm, AllocError>
    ensures form { IfOk result (λ f. f ≡ reply_form text.now) }
    ensures sayable { IfOk result FormIsSayable }
{
    match before(b" (reference)", text) {
        Some(text) => framed_reply(alloc, true, text),
        None => framed_reply(alloc, false, text),
    }
}

/// What a wrong instance is.
fn instance_form(alloc: Global, text: &[u8]) -> Result<LineForm, AllocError>
    ensures form { IfOk result (λ f. f ≡ instance_form text.now) }
    ensures sayable { IfOk result FormIsSayable }
{
    let Some(clause) = led_by(b", line ", text) else {
        return Ok(LineForm::Unread);
    };
    let Some(line) = led_by(b": ", clause.rest) else {
        return Ok(LineForm::Unread);
    };
    let frame = LineFrame::Instance {
        clause: clause.number,
        line: line.number,
    };
    framed(alloc, frame, line.rest)
}

/// The numbers of a call that isn't below its caller, and the text with its atoms.
#[derive(Clone, Copy)]
struct Called<'a> {
    calling: Calling,
    text: &'a [u8],
}

/// The numbers of such a call.
fn called_in(text: &[u8]) -> Option<Called<'_>>
    ensures { MatchOption result (call_form text.now ≡ LineForm.Unread)
        (λ c. call_form text.now ≡ LineForm.Call c.calling c.text.now) }
{
    let clause = led_by(b", line ", text)?;
    let line = led_by(b", goal ", clause.rest)?;
    let goal = led_by(b": ", line.rest)?;
    if goal.number > 255 {
        return None;
    }
    let parts = cut_last(b" (box ", goal.rest)?;
    let caller = led_by(b")", parts.rest)?;
    let calling = Calling {
        clause: clause.number,
        line: line.number,
        goal: goal.number as u8,
        caller: caller.number,
    };
    Some(Called {
        calling,
        text: parts.front,
    })
}

/// What a call that isn't below its caller is.
fn call_form(alloc: Global, text: &[u8]) -> Result<LineForm, AllocError>
    ensures form { IfOk result (λ f. f ≡ call_form text.now) }
    ensures sayable { IfOk result FormIsSayable }
{
    match called_in(text) {
        Some(called) => Ok(LineForm::Call(called.calling, Text::copy_of(alloc, called.text)?)),
        None => Ok(LineForm::Unread),
    }
}

/// What a bug is.
fn bug_form(alloc: Global, text: &[u8]) -> Result<LineForm, AllocError>
    ensures form { IfOk result (λ f. f ≡ bug_form text.now) }
    ensures sayable { IfOk result FormIsSayable }
{
    if let Some(rest) = after(b"wrong instance of clause ", text) {
        return instance_form(alloc, rest);
    }
    if let Some(atom) = after(b"uncovered goal: ", text) {
        return framed(alloc, LineFrame::Uncovered, atom);
    }
    if let Some(rest) = after(b"call not below its caller: clause ", text) {
        return call_form(alloc, rest);
    }
    Ok(LineForm::Unread)
}

/// What calls that descend are.
fn descent_form(text: &[u8]) -> LineForm
    ensures form { result ≡ descent_form text.now }
    ensures sayable { FormIsSayable result }
{
    let Some(rest) = after(b"all ", text) else {
        return LineForm::Unread;
    };
    match led_by(b" calls", rest) {
        Some(calls) => LineForm::Descent(calls.number),
        None => LineForm::Unread,
    }
}

/// What a line is that tells what was found, or isn't checked.
fn found_form(alloc: Global, line: &[u8]) -> Result<LineForm, AllocError>
    ensures form { IfOk result (λ f. f ≡ found_form line.now) }
    ensures sayable { IfOk result FormIsSayable }
{
    if let Some(text) = after(b"bug: ", line) {
        return bug_form(alloc, text);
    }
    if after(b"candidates: ", line).is_some() {
        return Ok(LineForm::Candidates);
    }
    if after(b"candidate: ", line).is_some() {
        return Ok(LineForm::Candidate);
    }
    match after(b"no bug: ", line) {
        Some(text) => Ok(descent_form(text)),
        None => Ok(LineForm::Other),
    }
}

/// What a line is that is one of a dialogue, or such a one.
fn talked_form(alloc: Global, line: &[u8]) -> Result<LineForm, AllocError>
    ensures form { IfOk result (λ f. f ≡ talked_form line.now) }
    ensures sayable { IfOk result FormIsSayable }
{
    if let Some(text) = after(b"question ", line) {
        return question_form(alloc, text);
    }
    if let Some(text) = after(b"reply: ", line) {
        return reply_form(alloc, text);
    }
    found_form(alloc, line)
}

/// What a line is that tells a symptom, or such a one.
fn told_form(alloc: Global, line: &[u8]) -> Result<LineForm, AllocError>
    ensures form { IfOk result (λ f. f ≡ told_form line.now) }
    ensures sayable { IfOk result FormIsSayable }
{
    if let Some(atom) = after(b"symptom: not true: ", line) {
        return Ok(LineForm::Symptom(false, Text::copy_of(alloc, atom)?));
    }
    if let Some(atom) = after(b"symptom: true: ", line) {
        return Ok(LineForm::Symptom(true, Text::copy_of(alloc, atom)?));
    }
    talked_form(alloc, line)
}

/// What a line is.
#[tactic(auto, unfolding(crate::specs::Forms::form_in))]
pub(crate) fn form_in(alloc: Global, line: &[u8]) -> Result<LineForm, AllocError>
    ensures form { IfOk result (λ f. f ≡ form_in line.now) }
    ensures sayable { IfOk result FormIsSayable }
{
    if let Some(goals) = after(b"run: ", line) {
        return Ok(LineForm::Query(Text::copy_of(alloc, goals)?));
    }
    if let Some(text) = after(b"end: ", line) {
        return end_form(alloc, line, text);
    }
    told_form(alloc, line)
}
