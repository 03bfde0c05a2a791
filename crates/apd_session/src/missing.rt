//! The diagnosis of a missing answer, with questions to the user.

ghost use Rattle.std.specs.Prelude.{◌≡◌, length, ◌≤◌};
ghost use Rattle.apd_commands.specs.declared.commands.Command.TheVariants as command;
ghost use Rattle.apd_console.specs.Console.{IsKept};
ghost use Rattle.apd_debug.specs.Asking.{SameReferences, moment_of};
ghost use Rattle.apd_debug.specs.NamedStates.{AreReplies};
ghost use Rattle.apd_clauses.specs.Clauses.{tuples_of};
ghost use Rattle.apd_missing.specs.Known.{IsKnown};
ghost use Rattle.apd_missing.specs.Missing.{missing};
ghost use Rattle.apd_record.specs.Full.{IsFull};
ghost use Rattle.apd_record.specs.Sound.{IsSound};
ghost use Rattle.apd_oracle.specs.Dialogue.{CanHear};
ghost use Rattle.apd_oracle.specs.Waiting.{replying};
ghost use Rattle.apd_reference.specs.Referees.{names_known};
ghost use Rattle.apd_session.specs.Diagnosing.{Diagnoses, answered};
ghost use Rattle.apd_session.specs.Steps.{by_missing, first_word};
ghost use Rattle.apd_session.specs.Turns.{CanConverse, Leads, obeying};
ghost use Rattle.apd_talk.specs.Moment.{moment};
ghost use Rattle.apd_term.specs.Named.{AllTuplesNamed, IsNamed};

use crate::diagnosing::{conclude, has_few_entries, is_program, keep_missing, refuse};
use apd_answers::{Answers, AskEnd, Finding, Replier};
use apd_clauses::Program;
use apd_io::{Sink, Source};
use apd_missing::diagnose_missing;
use apd_oracle::Dialogue;
use apd_query::State;
use apd_record::Record;
use apd_reference::Referee;
use apd_symptoms::unanswered_box;
use apd_talk::{Desk, Next, Trouble};
use apd_term::Flat;
use apd_text::Refusal;

/// An atom that is true, and a box that didn't give it.
#[derive(Drop)]
struct MissingAtom<'a> {
    box_no: u32,
    atom: &'a Flat,
}

/// Diagnoses an atom that is true and that a box didn't give, over a dialogue.
fn diagnose_over<S: Source, K: Sink, R: Replier>(
    program: &Program,
    history: &Record,
    symptom: &MissingAtom<'_>,
    replies: &mut Answers,
    dialogue: &mut Dialogue<S, K, R>,
) -> Result<Finding, AskEnd>
    requires sound { IsKept dialogue.old.console.now }
    requires replies { AreReplies (length dialogue.old.log.now.names) replies.old }
    requires recorded { IsSound (tuples_of program.now) history.now }
    requires full { IsFull (tuples_of program.now) history.now }
    requires known { IsKnown history.now replies.old
        (record { box_no = symptom.now.box_no; goal = symptom.now.atom.now }) }
    requires program { AllTuplesNamed (length dialogue.old.log.now.names)
        (tuples_of program.now) }
    requires named { IsNamed (length dialogue.old.log.now.names)
        symptom.now.atom.now }
    ensures over { SameReferences S.Source K.Sink R.Replier dialogue.old dialogue.new }
    ensures replier { dialogue.new.replier.now ≡ dialogue.old.replier.now }
    ensures diagnoses { Diagnoses by_missing
        (replying (R.replies dialogue.old.replier.now) dialogue.old.marked)
        (missing (tuples_of program.now) history.now)
        (record { box_no = symptom.now.box_no; goal = symptom.now.atom.now })
        (answered replies.old dialogue.old.asked) (answered replies.new dialogue.new.asked)
        (moment_of S.Source K.Sink R.Replier dialogue.old)
        (moment_of S.Source K.Sink R.Replier dialogue.new) result }
{
    is_program(program);
    let MissingAtom { box_no, atom } = symptom;
    let answer = diagnose_missing(
        dialogue.alloc,
        program,
        history,
        *box_no,
        atom,
        replies,
        dialogue,
    );
    has_few_entries(dialogue.log);
    answer
}

/// Diagnoses an atom that is true and that a box didn't give, with questions to the user where the referee has no reply.
fn diagnose<S: Source, K: Sink>(
    program: &Program,
    history: &Record,
    symptom: &MissingAtom<'_>,
    replies: &mut Answers,
    asked: &mut u64,
    referee: &mut Referee,
    desk: &mut Desk<S, K>,
) -> Result<Finding, AskEnd>
    requires hear { CanHear (moment S.Source desk.old) }
    requires sound { IsKept desk.old.console.now }
    requires referee { names_known referee.old ≤ length desk.old.voice.now.log.names }
    requires replies { AreReplies (length desk.old.voice.now.log.names) replies.old }
    requires recorded { IsSound (tuples_of program.now) history.now }
    requires full { IsFull (tuples_of program.now) history.now }
    requires known { IsKnown history.now replies.old
        (record { box_no = symptom.now.box_no; goal = symptom.now.atom.now }) }
    requires program { AllTuplesNamed (length desk.old.voice.now.log.names)
        (tuples_of program.now) }
    requires named { IsNamed (length desk.old.voice.now.log.names) symptom.now.atom.now }
    ensures referee { referee.new ≡ referee.old }
    ensures diagnoses { Diagnoses by_missing (first_word referee.old)
        (missing (tuples_of program.now) history.now)
        (record { box_no = symptom.now.box_no; goal = symptom.now.atom.now })
        (answered replies.old asked.old) (answered replies.new asked.new)
        (moment S.Source desk.old)
        (moment S.Source desk.new) result }
{
    let marked = referee.is_marked();
    let voice = &mut *desk.voice;
    let mut dialogue = Dialogue::new(
        voice.alloc,
        *asked,
        desk.console,
        desk.input,
        voice.log,
        voice.out,
        referee,
        marked,
    );
    let answer = diagnose_over(program, history, symptom, replies, &mut dialogue);
    *asked = dialogue.asked;
    answer
}

/// Seeks why the run didn't give an atom.
fn seek<S: Source, K: Sink>(
    state: &mut State,
    box_no: i64,
    atom: &Flat,
    desk: &mut Desk<S, K>,
) -> Result<Next, Trouble>
    requires ready { CanConverse state.old
        (moment S.Source desk.old) }
    requires named { IsNamed (length desk.old.voice.now.log.names) atom.now }
    ensures { Leads (obeying state.old (command.Missing box_no atom.now)) state.new
        (moment S.Source desk.old)
        (moment S.Source desk.new) result }
{
    let Some(run) = &state.last else {
        return refuse(Refusal::NoRun, desk.voice);
    };
    let history = &run.history;
    let found = match unanswered_box(desk.voice.alloc(), history, box_no, atom)? {
        Ok(found) => found,
        Err(refusal) => return refuse(refusal, desk.voice),
    };
    is_program(&state.program);
    keep_missing(atom, found, &mut state.replies, desk.voice)?;
    let symptom = MissingAtom {
        box_no: found,
        atom,
    };
    let answer = diagnose(
        &state.program,
        history,
        &symptom,
        &mut state.replies,
        &mut state.asked,
        &mut state.referee,
        desk,
    );
    conclude(&state.program, answer, desk.voice)
}

/// Does what `missing(B, A)` says.
///
/// # Errors
///
/// [`Trouble::Memory`] where there was no memory, [`Trouble::WriteFault`] where a write failed.
pub(crate) fn missing<S: Source, K: Sink>(
    state: &mut State,
    box_no: i64,
    atom: Flat,
    desk: &mut Desk<S, K>,
) -> Result<Next, Trouble>
    requires ready { CanConverse state.old
        (moment S.Source desk.old) }
    requires named { IsNamed (length desk.old.voice.now.log.names) atom }
    ensures { Leads (obeying state.old (command.Missing box_no atom)) state.new
        (moment S.Source desk.old)
        (moment S.Source desk.new) result }
{
    seek(state, box_no, &atom, desk)
}
