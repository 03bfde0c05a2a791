//! A question that is asked, and the lines that are heard till one is a reply.

ghost use Rattle.std.specs.Prelude.{◌≡◌, ◌<◌, ◌≤◌, length, IfOk, IfSome, OnOk};
ghost use Rattle.apd_answers.specs.Oracle.{asking};
ghost use Rattle.apd_answers.specs.Questions.{FitsAsked};
ghost use Rattle.apd_console.specs.Console.{room_of};
ghost use Rattle.apd_lines.specs.Lines.{LineFits, LineGrows, LineIsNamed, line_in};
ghost use Rattle.apd_read.specs.Reader.{Reader};
ghost use Rattle.apd_talk.specs.Moment.{moment};
ghost use Rattle.apd_talk.specs.Speech.{Lasting, with_names};
ghost use Rattle.apd_term.specs.StandardNames.{standard_names};
ghost use Rattle.apd_text.specs.Named.{QuestionIsNamed};
ghost use Rattle.apd_oracle.specs.Dialogue.{Calls, CanHear, HasFaults, HasHeard, Hears, HearsFrom, HearsOne, IsReply, SaysReply, end_of_line, end_of_trouble, referred};
ghost use Rattle.apd_oracle.specs.Waiting.{answering, waiting};

use crate::spoken::{Spoken, spoken_of};
use apd_answers::{AskEnd, Asked, Replier, Reply};
use apd_console::{Line, LineEnd};
use apd_io::{Sink, Source};
use apd_lines::{LineRead, read_line};
use apd_talk::{Desk, Trouble, Voice};
use apd_text::{Entry, Log};
use std::alloc::{AllocError, Global};

/// Why there is no reply, where no line is heard.
fn end_of_line(end: LineEnd) -> AskEnd
    ensures { result ≡ end_of_line end }
{
    match end {
        LineEnd::Ended => AskEnd::Ended,
        LineEnd::ReadFault => AskEnd::ReadFault,
        LineEnd::InputLimit => AskEnd::InputLimit,
        LineEnd::Memory => AskEnd::Memory,
    }
}

/// Why there is no reply, where nothing more can be said.
fn end_of_trouble(trouble: Trouble) -> AskEnd
    ensures { result ≡ end_of_trouble trouble }
{
    match trouble {
        Trouble::WriteFault => AskEnd::WriteFault,
        Trouble::Memory => AskEnd::Memory,
    }
}

/// What is read of a line, by the operators of a log, which gets its names.
fn read_in(alloc: Global, log: &mut Log, line: &Line) -> Result<LineRead, AllocError>
    requires fits { LineFits (length log.old.names) line.now }
    ensures names { LineGrows line.now log.old.names log.new.names }
    ensures line { IfOk result (λ l. Lasting log.new.names (λ n. (reader : Reader n) →
        l ≡ line_in reader log.old.ops line.now)) }
    ensures named { IfOk result (LineIsNamed (length log.new.names)) }
    ensures ops { log.new.ops ≡ log.old.ops }
    ensures entries { log.new.entries ≡ log.old.entries }
{
    read_line(alloc, &log.ops, &mut log.names, line)
}

/// What is read of a line, by the operators that things are said with; nothing is said.
fn read_for<K: Sink>(voice: &mut Voice<K>, line: &Line) -> Result<LineRead, AllocError>
    requires fits { LineFits (length voice.old.log.names) line.now }
    ensures names { LineGrows line.now voice.old.log.names voice.new.log.names }
    ensures line { IfOk result (λ l. Lasting voice.new.log.names (λ n. (reader : Reader n) →
        l ≡ line_in reader voice.old.log.ops line.now)) }
    ensures named { IfOk result (LineIsNamed (length voice.new.log.names)) }
    ensures stays { voice.new ≡ with_names voice.old voice.new.log.names }
{
    read_in(voice.alloc, voice.log, line)
}

/// Hears one line, and refuses it if it is no reply.
fn hear_one<S: Source, K: Sink>(
    asked: &Asked,
    desk: &mut Desk<S, K>,
) -> Result<Option<Reply>, AskEnd>
    requires { CanHear (moment S.Source desk.old) }
    ensures heard { HasHeard HearsOne (waiting asked.now)
        (moment S.Source desk.old) (moment S.Source desk.new) result }
    ensures reply { IfOk result (λ r. IfSome r
        (IsReply (length desk.new.voice.now.log.names) asked.now)) }
    ensures less { OnOk result (room_of desk.new.console.now < room_of desk.old.console.now) }
{
    let line = match desk.console.line(desk.input) {
        Ok(line) => line,
        Err(end) => return Err(end_of_line(end)),
    };
    let read = read_for(desk.voice, &line)?;
    // Dropped by calls: else each part of each is a step to check, in each arm.
    drop(line);
    let spoken = spoken_of(desk.voice.alloc(), asked, &read)?;
    drop(read);
    match spoken {
        Spoken::Nothing => Ok(None),
        Spoken::Reply(reply) => Ok(Some(reply)),
        Spoken::Stop => Err(AskEnd::Stopped),
        Spoken::Quit => Err(AskEnd::Quit),
        Spoken::Bad(reason) => match desk.voice.say_kept(Entry::BadReply { reason }) {
            Ok(()) => Ok(None),
            Err(trouble) => Err(end_of_trouble(trouble)),
        },
    }
}

/// Hears lines till one is a reply.
fn hear_reply<S: Source, K: Sink>(asked: &Asked, desk: &mut Desk<S, K>) -> Result<Reply, AskEnd>
    requires { CanHear (moment S.Source desk.old) }
    ensures heard { HasHeard Hears (waiting asked.now)
        (moment S.Source desk.old) (moment S.Source desk.new) result }
    ensures reply { IfOk result (IsReply (length desk.new.voice.now.log.names) asked.now) }
{
    'lines: loop {
        if let Some(reply) = hear_one(asked, desk)? {
            return Ok(reply);
        }
    }
}

/// Takes the reply of whoever has one without a line, or hears lines till one is a reply. It is noted whether the reply is marked, which
/// one of a line never is.
fn answer_question<S: Source, K: Sink, R: Replier>(
    asked: &Asked,
    replier: &mut R,
    marked: bool,
    by_reference: &mut bool,
    desk: &mut Desk<S, K>,
) -> Result<Reply, AskEnd>
    requires hear { CanHear (moment S.Source desk.old) }
    requires few { R.names replier.old ≤ length desk.old.voice.now.log.names }
    ensures heard { HasHeard (HearsFrom (R.replies replier.old asked.now.question))
        (answering (R.replies replier.old asked.now.question) asked.now)
        (moment S.Source desk.old) (moment S.Source desk.new) result }
    ensures reply { QuestionIsNamed (length desk.old.voice.now.log.names) asked.now.question →
        IfOk result (IsReply (length desk.new.voice.now.log.names) asked.now) }
    ensures fits { IfOk result (FitsAsked asked.now) }
    ensures same { replier.new ≡ replier.old }
    ensures by { by_reference.new ≡
        referred (R.replies replier.old) marked (asking asked.now result) by_reference.old }
{
    desk.console.keeps_its_limits();
    if let Some(given) = replier.reply(&asked.question)? {
        *by_reference = marked;
        return Ok(given);
    }
    let heard = hear_reply(asked, desk)?;
    *by_reference = false;
    Ok(heard)
}

/// Says a question, where so many were asked before, and gets a reply to it: of whoever has one without a line, else of the
/// first line that is one.
pub(crate) fn ask_question<S: Source, K: Sink, R: Replier>(
    count: u64,
    asked: &Asked,
    replier: &mut R,
    marked: bool,
    by_reference: &mut bool,
    desk: &mut Desk<S, K>,
) -> Result<Reply, AskEnd>
    requires hear { CanHear (moment S.Source desk.old) }
    requires few { R.names replier.old ≤ length desk.old.voice.now.log.names }
    ensures calls { Calls (R.replies replier.old) (asking asked.now result) count by_reference.old
        (moment S.Source desk.old) (moment S.Source desk.new) }
    ensures faults { HasFaults (moment S.Source desk.old) (moment S.Source desk.new) result }
    ensures fits { IfOk result (FitsAsked asked.now) }
    ensures same { replier.new ≡ replier.old }
    ensures by { by_reference.new ≡
        referred (R.replies replier.old) marked (asking asked.now result) by_reference.old }
{
    desk.console.keeps_its_limits();
    let entry = Entry::Question {
        number: count.saturating_add(1),
        asked: Asked {
            question: asked.question.copy(desk.voice.alloc())?,
            suspects: asked.suspects,
        },
    };
    match desk.voice.say_kept(entry) {
        Ok(()) => answer_question(asked, replier, marked, by_reference, desk),
        Err(trouble) => Err(end_of_trouble(trouble)),
    }
}

/// Says a reply, which is marked as a reference program's or not.
pub(crate) fn tell_reply<K: Sink>(
    reply: &Reply,
    left: Option<u32>,
    by_reference: bool,
    voice: &mut Voice<K>,
) -> Result<(), AskEnd>
    requires { length standard_names ≤ length voice.old.log.names }
    ensures { SaysReply by_reference reply.now left voice.old voice.new result }
{
    let reply = reply.copy(voice.alloc())?;
    let entry = Entry::Replied {
        reply,
        left,
        by_reference,
    };
    match voice.say_kept(entry) {
        Ok(()) => Ok(()),
        Err(trouble) => Err(end_of_trouble(trouble)),
    }
}
