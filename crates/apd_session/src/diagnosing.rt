//! What all diagnoses of a session have in common: how a command is refused, what a symptom says, and how a diagnosis ends.

ghost use Rattle.std.specs.Prelude.{◌≡◌, ◌<◌, ℕ, length, OnOk, IfOk};
ghost use Rattle.apd_account.specs.Account.{with_told};
ghost use Rattle.apd_answers.specs.Questions.{Fits};
ghost use Rattle.apd_answers.specs.Store.{with_pair};
ghost use Rattle.apd_clauses.specs.Clauses.{IsProgram};
ghost use Rattle.apd_debug.specs.Diagnosed.{SaysEnd, SaysLast, is_said, last_entry, next_after, trouble_of};
ghost use Rattle.apd_debug.specs.NamedStates.{loop_entry};
ghost use Rattle.apd_debug.specs.Steps.{most_in_a_row};
ghost use Rattle.apd_divide.specs.Exits.{IsUserExit};
ghost use Rattle.apd_record.specs.Reading.{point_of};
ghost use Rattle.apd_session.specs.Steps.{found_in, wrong_of};
ghost use Rattle.apd_symptoms.specs.Symptoms.{line_found};
ghost use Rattle.apd_talk.specs.Speech.{Says, one};
ghost use Rattle.apd_term.specs.Named.{IsNamed};
ghost use Rattle.apd_text.specs.Named.{EntryIsNamed, RefusalIsNamed, ToldIsNamed};

use apd_answers::{Answers, AskEnd, Finding, Question, Reply};
use apd_clauses::Program;
use apd_io::Sink;
use apd_loop::LoopEnd;
use apd_ports::PointId;
use apd_record::Record;
use apd_symptoms::line_found;
use apd_talk::{Ending, Next, Trouble, Voice};
use apd_term::{Flat, Tuple};
use apd_text::{Entry, Log, Refusal, Told};
use std::alloc::{AllocError, Global};

/// Says why a command is refused.
pub(crate) fn refuse<K: Sink>(refusal: Refusal, voice: &mut Voice<K>) -> Result<Next, Trouble>
    requires { RefusalIsNamed (length voice.old.log.names) refusal }
    ensures goes { IfOk result (λ next. next ≡ Next.Goes) }
    ensures says { Says (one (Entry.Refused refusal))
        voice.old voice.new result }
{
    voice.say(Entry::Refused { refusal })?;
    Ok(Next::Goes)
}

/// Keeps a reply to whether an atom is true.
fn keep_reply(
    alloc: Global,
    atom: &Flat,
    reply: &Reply,
    replies: &mut Answers,
) -> Result<(), AllocError>
    requires { Fits (Question.True atom.now) reply.now }
    ensures { OnOk result
        (replies.new ≡ with_pair replies.old (Question.True atom.now) reply.now) }
{
    let question = Question::True(atom.copy(alloc)?);
    replies.add(&question, reply)
}

/// Keeps what a symptom says of an atom.
fn keep_told(alloc: Global, what: &Told, replies: &mut Answers) -> Result<(), AllocError>
    ensures { OnOk result (replies.new ≡ with_told replies.old what.now) }
{
    match what {
        Told::Wrong { atom, exit: _ } => keep_reply(alloc, atom, &Reply::No, replies),
        Told::Missing { atom, box_no: _ } => keep_reply(alloc, atom, &Reply::Yes, replies),
        Told::NoEnd(_) => Ok(()),
    }
}

/// Keeps a place in the log for what is said last of a diagnosis, keeps what its symptom says, and says it.
pub(crate) fn keep_symptom<K: Sink>(
    what: Told,
    replies: &mut Answers,
    voice: &mut Voice<K>,
) -> Result<(), Trouble>
    requires { ToldIsNamed (length voice.old.log.names) what }
    ensures place { OnOk result (0 < voice.new.log.entries.spare) }
    ensures replies { OnOk result (replies.new ≡ with_told replies.old what) }
    ensures says { Says (one (Entry.Symptom what))
        voice.old voice.new result }
{
    if let Err(AllocError) = voice.reserve(1) {
        // Dropped by calls, here and below: else each part is a step to check.
        drop(what);
        return Err(Trouble::Memory);
    }
    if let Err(AllocError) = keep_told(voice.alloc(), &what, replies) {
        drop(what);
        return Err(Trouble::Memory);
    }
    voice.say_kept(Entry::Symptom { what })
}

/// Keeps such a place, and that the head of an exit isn't true, and says that; gives the head.
pub(crate) fn keep_wrong<K: Sink>(
    history: &Record,
    exit: PointId,
    replies: &mut Answers,
    voice: &mut Voice<K>,
) -> Result<Flat, Trouble>
    requires user { IsUserExit history.now exit.0 }
    requires named { IsNamed (length voice.old.log.names) (point_of history.now exit.0).tuple.head }
    ensures head { IfOk result (λ h. h ≡ (point_of history.now exit.0).tuple.head) }
    ensures place { OnOk result (0 < voice.new.log.entries.spare) }
    ensures replies { OnOk result (replies.new ≡
        with_told replies.old (wrong_of history.now exit.0)) }
    ensures says { Says (one (Entry.Symptom (wrong_of history.now exit.0)))
        voice.old voice.new result }
{
    let Tuple { head, body } = history.tuple(exit)?;
    drop(body);
    let what = Told::Wrong {
        atom: head.copy(voice.alloc())?,
        exit,
    };
    keep_symptom(what, replies, voice)?;
    Ok(head)
}

/// Keeps such a place, and that an atom is true that the box of this number didn't give, and says that.
pub(crate) fn keep_missing<K: Sink>(
    atom: &Flat,
    box_no: u32,
    replies: &mut Answers,
    voice: &mut Voice<K>,
) -> Result<(), Trouble>
    requires { IsNamed (length voice.old.log.names) atom.now }
    ensures place { OnOk result (0 < voice.new.log.entries.spare) }
    ensures replies { OnOk result (replies.new ≡
        with_told replies.old (Told.Missing atom.now box_no)) }
    ensures says { Says (one (Entry.Symptom (Told.Missing atom.now box_no)))
        voice.old voice.new result }
{
    let what = Told::Missing {
        atom: atom.copy(voice.alloc())?,
        box_no,
    };
    keep_symptom(what, replies, voice)
}

/// Whether something is said after a diagnosis that ends so.
fn is_said(end: AskEnd) -> bool
    ensures { result ≡ is_said end }
{
    match end {
        AskEnd::WriteFault | AskEnd::Memory => false,
        AskEnd::Ended | AskEnd::Stopped | AskEnd::Quit | AskEnd::ReadFault | AskEnd::InputLimit =>
            true,
    }
}

/// The last entry of a diagnosis that ends so without a finding.
fn last_entry(end: AskEnd) -> Entry
    ensures is { result ≡ last_entry end }
    ensures named { (n : ℕ) → EntryIsNamed n result }
{
    match end {
        AskEnd::Ended => Entry::Unanswered { stopped: false },
        AskEnd::ReadFault => Entry::InputFault,
        AskEnd::InputLimit => Entry::InputOver,
        AskEnd::Stopped | AskEnd::Quit | AskEnd::WriteFault | AskEnd::Memory => {
            Entry::Unanswered { stopped: true }
        }
    }
}

/// What comes after it.
fn next_after(end: AskEnd) -> Next
    ensures { result ≡ next_after end }
{
    match end {
        AskEnd::Quit | AskEnd::Ended => Next::Ends(Ending::Done),
        AskEnd::ReadFault => Next::Ends(Ending::ReadFault),
        AskEnd::InputLimit => Next::Ends(Ending::InputLimit),
        AskEnd::Stopped | AskEnd::WriteFault | AskEnd::Memory => Next::Goes,
    }
}

/// Why nothing more is said.
fn trouble_of(end: AskEnd) -> Trouble
    ensures { result ≡ trouble_of end }
{
    match end {
        AskEnd::WriteFault => Trouble::WriteFault,
        AskEnd::Ended
        | AskEnd::Stopped
        | AskEnd::Quit
        | AskEnd::ReadFault
        | AskEnd::InputLimit
        | AskEnd::Memory => Trouble::Memory,
    }
}

/// The clauses are those of a program.
pub(crate) fn is_program(program: &Program)
    ensures { IsProgram program.now }
{
    let _clauses = program.count();
}

/// A log has no more entries than are counted.
pub(crate) fn has_few_entries(log: &Log)
    ensures { length log.now.entries.list < most_in_a_row }
{
    let _entries = log.entries.len();
}

/// Says how a diagnosis without a finding ended, in the place that was kept.
fn say_end<K: Sink>(end: AskEnd, voice: &mut Voice<K>) -> Result<Next, Trouble>
    requires place { 0 < voice.old.log.entries.spare }
    ensures { SaysEnd end
        voice.old voice.new result }
{
    if is_said(end) {
        voice.say_last(last_entry(end))?;
        return Ok(next_after(end));
    }
    Err(trouble_of(end))
}

/// Says what a diagnosis ended in, in the place that was kept.
pub(crate) fn conclude<K: Sink>(
    program: &Program,
    answer: Result<Finding, AskEnd>,
    voice: &mut Voice<K>,
) -> Result<Next, Trouble>
    requires place { 0 < voice.old.log.entries.spare }
    requires named { IfOk answer
        (λ f. EntryIsNamed (length voice.old.log.names) (found_in program.now f)) }
    ensures { SaysLast (found_in program.now) answer
        voice.old voice.new result }
{
    match answer {
        Ok(finding) => {
            let line = line_found(program, &finding);
            voice.say_last(Entry::Found { finding, line })?;
            Ok(Next::Goes)
        }
        Err(end) => say_end(end, voice),
    }
}

/// Says what the diagnosis of a run that doesn't end came to, with a chain of so many calls, in the place that was kept.
pub(crate) fn conclude_loop<K: Sink>(
    program: &Program,
    calls: u32,
    answer: Result<LoopEnd, AskEnd>,
    voice: &mut Voice<K>,
) -> Result<Next, Trouble>
    requires place { 0 < voice.old.log.entries.spare }
    requires named { IfOk answer (λ e.
        EntryIsNamed (length voice.old.log.names) (loop_entry (line_found program.now) calls e)) }
    ensures { SaysLast (loop_entry (line_found program.now) calls) answer
        voice.old voice.new result }
{
    match answer {
        Ok(LoopEnd::Found(finding)) => {
            let line = line_found(program, &finding);
            voice.say_last(Entry::Found { finding, line })?;
            Ok(Next::Goes)
        }
        Ok(LoopEnd::AllDescend) => {
            voice.say_last(Entry::AllDescend { calls })?;
            Ok(Next::Goes)
        }
        Err(end) => say_end(end, voice),
    }
}
