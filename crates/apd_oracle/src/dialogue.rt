//! Whoever is asked by lines, unless a replier has the reply.

ghost use Rattle.std.specs.Prelude.{◌≡◌, ◌<◌, ◌≤◌, ◌+◌, length, None};
ghost use Rattle.apd_answers.specs.Oracle.{end_after};
ghost use Rattle.apd_base.specs.declared.limits.TheConstants.{MOST_NAMES};
ghost use Rattle.apd_console.specs.Console.{room_of};
ghost use Rattle.apd_term.specs.StandardNames.{standard_names};

use crate::lending::{ask_over, tell_over};
use apd_answers::{AskEnd, Asked, Oracle, Replier, Reply};
use apd_console::Console;
use apd_io::{Sink, Source};
use apd_text::Log;
use std::alloc::Global;

/// Whoever is asked by lines: questions are said, replies are those of a replier, or else lines that are heard, and both are
/// kept in the log.
///
/// The names of the log, and the bytes that the console may still hand out, are together fewer than names may be. A desk, which
/// refers to what itself refers to things, can't be lent to a value of which facts are stated; so it is lent part by part.
#[derive(Drop)]
pub struct Dialogue<'c, 's, 'l, 'k, 'r, S: Source, K: Sink, R: Replier> {
    /// Where what is made takes its memory.
    pub alloc: Global,
    /// How many questions were asked, as far as a u64 goes.
    pub asked: u64,
    /// The lines that weren't heard yet.
    pub console: &'c mut Console,
    /// Where they come from.
    pub input: &'s mut S,
    /// What was said, with the names and the operators that it is written with.
    pub log: &'l mut Log,
    /// Where the texts go.
    pub out: &'k mut K,
    /// Who is asked before a line is heard.
    pub replier: &'r mut R,
    /// Whether his replies are marked as a reference program's.
    pub marked: bool,
    /// Whether the last reply is marked so.
    pub by_reference: bool,
    /// Why the last question had no reply, if that ended the dialogue.
    pub end: Option<AskEnd>,
    pub ghost fits: { length log.now.names + room_of console.now < MOST_NAMES },
    pub ghost standard: { length standard_names ≤ length log.now.names },
    pub ghost known: { R.names replier.now ≤ length log.now.names },
}

impl<'c, 's, 'l, 'k, 'r, S: Source, K: Sink, R: Replier> Dialogue<'c, 's, 'l, 'k, 'r, S, K, R> {
    /// A dialogue in which so many questions were asked before, and this replier has the first word; his replies are marked as a reference
    /// program's or not.
    pub fn new(
        alloc: Global,
        asked: u64,
        console: &'c mut Console,
        input: &'s mut S,
        log: &'l mut Log,
        out: &'k mut K,
        replier: &'r mut R,
        marked: bool,
    ) -> Dialogue<'c, 's, 'l, 'k, 'r, S, K, R>
        requires fits { length log.old.names + room_of console.old < MOST_NAMES }
        requires standard { length standard_names ≤ length log.old.names }
        requires known { R.names replier.old ≤ length log.old.names }
        ensures asked { result.asked ≡ asked }
        ensures console { (result.console.ghost_name ≡ console.entry.ghost_name)
            × (result.console.now ≡ console.old) }
        ensures input { (result.input.ghost_name ≡ input.entry.ghost_name)
            × (result.input.now ≡ input.old) }
        ensures log { (result.log.ghost_name ≡ log.entry.ghost_name)
            × (result.log.now ≡ log.old) }
        ensures out { (result.out.ghost_name ≡ out.entry.ghost_name)
            × (result.out.now ≡ out.old) }
        ensures replier { (result.replier.ghost_name ≡ replier.entry.ghost_name)
            × (result.replier.now ≡ replier.old) }
        ensures marked { result.marked ≡ marked }
        ensures end { result.end ≡ None }
    {
        Dialogue {
            alloc,
            asked,
            console,
            input,
            log,
            out,
            replier,
            marked,
            by_reference: false,
            end: None,
        }
    }
}

impl<S: Source, K: Sink, R: Replier> Oracle for Dialogue<'_, '_, '_, '_, '_, S, K, R> {
    ghost use Rattle.apd_oracle.specs.Dialogue.{Calls, counted, referred};
    ghost use Rattle.apd_talk.specs.Moment.{among};
    ghost use Rattle.apd_talk.specs.Speech.{said};

    ghost end = { λ d. d.end };

    ghost read_faults = { λ d. S.faults d.input.now };

    ghost write_faults = { λ d. K.faults d.out.now };

    ghost step = { λ d call e. (e.console.ghost_name ≡ d.console.ghost_name)
        × (e.input.ghost_name ≡ d.input.ghost_name)
        × (e.log.ghost_name ≡ d.log.ghost_name)
        × (e.out.ghost_name ≡ d.out.ghost_name)
        × (e.replier.ghost_name ≡ d.replier.ghost_name)
        × (e.replier.now ≡ d.replier.now)
        × (e.by_reference ≡ referred (R.replies d.replier.now) d.marked call d.by_reference)
        × (e.asked ≡ counted call d.asked)
        × Calls (R.replies d.replier.now) call d.asked d.by_reference
        (among S.Source d.console.now d.input.now (said K.Sink d.log.now d.out.now))
        (among S.Source e.console.now e.input.now (said K.Sink e.log.now e.out.now))
        × (e.marked ≡ d.marked) };

    fn ask(&mut self, asked: &Asked) -> Result<Reply, AskEnd> {
        let count = self.asked;
        self.asked = count.saturating_add(1);
        let answer = ask_over(
            self.alloc,
            count,
            asked,
            self.replier,
            self.marked,
            &mut self.by_reference,
            self.console,
            self.input,
            self.log,
            self.out,
        );
        self.end = end_after(self.end, &answer);
        answer
    }

    fn told(&mut self, reply: &Reply, left: Option<u32>) -> Result<(), AskEnd> {
        self.console.keeps_its_limits();
        let answer = tell_over(
            self.alloc,
            reply,
            left,
            self.by_reference,
            self.log,
            self.out,
        );
        self.end = end_after(self.end, &answer);
        answer
    }
}

/// An oracle's end after a call.
fn end_after<T>(end: Option<AskEnd>, answer: &Result<T, AskEnd>) -> Option<AskEnd>
    ensures { result ≡ end_after answer.now end }
{
    match answer {
        Ok(_) => end,
        Err(AskEnd::Memory) => end,
        Err(fault) => Some(*fault),
    }
}
