//! The end of a run, as a line tells it.

ghost use Rattle.std.specs.Prelude.{◌≡◌, IfOk, IfSome};
ghost use Rattle.apd_claims.specs.Forms.{boxed_in, counts_in, end_form, failed_in, ran_in, shown};
ghost use Rattle.apd_claims.specs.Sayable.{FormIsSayable, IsShown};

use crate::form::LineForm;
use apd_base::{MOST_SHOWN, Text};
use apd_causes::{Ran, RunEnd, RunError};
use apd_parts::{after, led_by};
use apd_text::end_line;
use std::alloc::{AllocError, Global};

/// A run that ended so, where a run may.
fn shown(end: RunEnd, ports: u32, answers: u32) -> Option<Ran>
    ensures ran { result ≡ shown end ports answers }
    ensures shown { IfSome result IsShown }
{
    if ports < 1 || MOST_SHOWN < ports || MOST_SHOWN < answers {
        return None;
    }
    if answers == 0 && matches!(end, RunEnd::AnswerLimit) {
        return None;
    }
    Some(Ran {
        end,
        ports,
        answers,
    })
}

/// The counts behind an end.
fn counts_in(end: RunEnd, text: &[u8]) -> Option<Ran>
    ensures ran { result ≡ counts_in end text.now }
    ensures shown { IfSome result IsShown }
{
    let ports = led_by(b" ports, ", text)?;
    let answers = led_by(b" answers", ports.rest)?;
    shown(end, ports.number, answers.number)
}

/// The box and the counts behind an error.
fn boxed_in(error: RunError, text: &[u8]) -> Option<Ran>
    ensures ran { result ≡ boxed_in error text.now }
    ensures shown { IfSome result IsShown }
{
    let led = led_by(b", ", text)?;
    counts_in(RunEnd::Error(error, led.number), led.rest)
}

/// The end of a run that a line tells as an error's.
fn failed_in(text: &[u8]) -> Option<Ran>
    ensures ran { result ≡ failed_in text.now }
    ensures shown { IfSome result IsShown }
{
    if let Some(rest) = after(b"error Unbound in box ", text) {
        return boxed_in(RunError::Unbound, rest);
    }
    if let Some(rest) = after(b"error NotEvaluable in box ", text) {
        return boxed_in(RunError::NotEvaluable, rest);
    }
    if let Some(rest) = after(b"error Overflow in box ", text) {
        return boxed_in(RunError::Overflow, rest);
    }
    if let Some(rest) = after(b"error ZeroDivisor in box ", text) {
        return boxed_in(RunError::ZeroDivisor, rest);
    }
    if let Some(rest) = after(b"error Size in box ", text) {
        return boxed_in(RunError::Size, rest);
    }
    None
}

/// The end of a run that a line tells.
fn ran_in(text: &[u8]) -> Option<Ran>
    ensures ran { result ≡ ran_in text.now }
    ensures shown { IfSome result IsShown }
{
    if let Some(rest) = after(b"exhausted, ", text) {
        return counts_in(RunEnd::Exhausted, rest);
    }
    if let Some(rest) = after(b"budget, ", text) {
        return counts_in(RunEnd::Budget, rest);
    }
    if let Some(rest) = after(b"answer limit, ", text) {
        return counts_in(RunEnd::AnswerLimit, rest);
    }
    failed_in(text)
}

/// What a line is that begins as an end, before this text.
pub(crate) fn end_form(alloc: Global, line: &[u8], text: &[u8]) -> Result<LineForm, AllocError>
    ensures form { IfOk result (λ f. f ≡ end_form line.now text.now) }
    ensures sayable { IfOk result FormIsSayable }
{
    let Some(ran) = ran_in(text) else {
        return Ok(LineForm::Unread);
    };
    let mut expected = Text::copy_of(alloc, line)?;
    expected.extend(b"\n")?;
    let written = end_line(alloc, ran)?;
    if written.bytes() != expected.bytes() {
        return Ok(LineForm::Unread);
    }
    Ok(LineForm::End(ran))
}
