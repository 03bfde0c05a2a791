//! A question and a reply over the parts of a desk, which are lent one by one.

ghost use Rattle.std.specs.Prelude.{◌≡◌, ◌≤◌, length, IfOk};
ghost use Rattle.apd_answers.specs.Oracle.{asking};
ghost use Rattle.apd_answers.specs.Questions.{FitsAsked};
ghost use Rattle.apd_oracle.specs.Dialogue.{Calls, CanHear, HasFaults, SaysReply, referred};
ghost use Rattle.apd_talk.specs.Moment.{among};
ghost use Rattle.apd_talk.specs.Speech.{bare, said};
ghost use Rattle.apd_term.specs.StandardNames.{standard_names};

use crate::asking::{ask_question, tell_reply};
use apd_answers::{AskEnd, Asked, Replier, Reply};
use apd_console::Console;
use apd_io::{Sink, Source};
use apd_talk::{Desk, Voice};
use apd_text::Log;
use std::alloc::Global;

/// Says a question, where so many were asked before, and gets a reply to it, as [`ask_question`] does.
fn ask_with<S: Source, K: Sink, R: Replier>(
    count: u64,
    asked: &Asked,
    replier: &mut R,
    marked: bool,
    by_reference: &mut bool,
    console: &mut Console,
    input: &mut S,
    voice: &mut Voice<K>,
) -> Result<Reply, AskEnd>
    requires hear { CanHear (among S.Source console.old input.old (bare voice.old)) }
    requires few { R.names replier.old ≤ length voice.old.log.names }
    ensures calls { Calls (R.replies replier.old) (asking asked.now result) count by_reference.old
        (among S.Source console.old input.old (bare voice.old))
        (among S.Source console.new input.new (bare voice.new)) }
    ensures faults { HasFaults (among S.Source console.old input.old (bare voice.old))
        (among S.Source console.new input.new (bare voice.new)) result }
    ensures fits { IfOk result (FitsAsked asked.now) }
    ensures same { replier.new ≡ replier.old }
    ensures by { by_reference.new ≡
        referred (R.replies replier.old) marked (asking asked.now result) by_reference.old }
    ensures over { voice.new.over ≡ voice.old.over }
{
    let mut desk = Desk {
        console,
        input,
        voice,
    };
    ask_question(count, asked, replier, marked, by_reference, &mut desk)
}

/// Asks as [`ask_with`] does, over a log and a sink.
pub(crate) fn ask_over<S: Source, K: Sink, R: Replier>(
    alloc: Global,
    count: u64,
    asked: &Asked,
    replier: &mut R,
    marked: bool,
    by_reference: &mut bool,
    console: &mut Console,
    input: &mut S,
    log: &mut Log,
    out: &mut K,
) -> Result<Reply, AskEnd>
    requires hear { CanHear
        (among S.Source console.old input.old (said K.Sink log.old out.old)) }
    requires few { R.names replier.old ≤ length log.old.names }
    ensures calls { Calls (R.replies replier.old) (asking asked.now result) count by_reference.old
        (among S.Source console.old input.old (said K.Sink log.old out.old))
        (among S.Source console.new input.new (said K.Sink log.new out.new)) }
    ensures faults { HasFaults
        (among S.Source console.old input.old (said K.Sink log.old out.old))
        (among S.Source console.new input.new (said K.Sink log.new out.new)) result }
    ensures fits { IfOk result (FitsAsked asked.now) }
    ensures same { replier.new ≡ replier.old }
    ensures by { by_reference.new ≡
        referred (R.replies replier.old) marked (asking asked.now result) by_reference.old }
{
    let mut voice = Voice { alloc, log, out };
    let answer = ask_with(
        count,
        asked,
        replier,
        marked,
        by_reference,
        console,
        input,
        &mut voice,
    );
    // What the voice was lent is given back.
    let Voice { log, out, .. } = voice;
    let _log = &*log;
    let _out = &*out;
    answer
}

/// Says a reply, as [`tell_reply`] does, over a log and a sink.
pub(crate) fn tell_over<K: Sink>(
    alloc: Global,
    reply: &Reply,
    left: Option<u32>,
    by_reference: bool,
    log: &mut Log,
    out: &mut K,
) -> Result<(), AskEnd>
    requires { length standard_names ≤ length log.old.names }
    ensures { SaysReply by_reference reply.now left
        (said K.Sink log.old out.old) (said K.Sink log.new out.new) result }
{
    let mut voice = Voice { alloc, log, out };
    let answer = tell_reply(reply, left, by_reference, &mut voice);
    let Voice { log, out, .. } = voice;
    let _log = &*log;
    let _out = &*out;
    answer
}
