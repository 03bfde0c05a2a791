//! The diagnosis of a wrong answer, with questions to the user.

ghost use Rattle.std.specs.Prelude.{◌≡◌, ◌≤◌, length};
ghost use Rattle.apd_commands.specs.declared.commands.Command.TheVariants as command;
ghost use Rattle.apd_console.specs.Console.{IsKept};
ghost use Rattle.apd_debug.specs.Asking.{SameReferences, moment_of};
ghost use Rattle.apd_debug.specs.NamedStates.{AreReplies};
ghost use Rattle.apd_answers.specs.Store.{SaysNo};
ghost use Rattle.apd_debug.specs.NamedTrees.{HasOwnLabels, TreeIsNamed};
ghost use Rattle.apd_divide.specs.Exits.{IsLabelled};
ghost use Rattle.apd_divide.specs.Recorded.{tree};
ghost use Rattle.apd_oracle.specs.Dialogue.{CanHear};
ghost use Rattle.apd_oracle.specs.Waiting.{replying};
ghost use Rattle.apd_reference.specs.Referees.{names_known};
ghost use Rattle.apd_session.specs.Diagnosing.{Diagnoses, answered};
ghost use Rattle.apd_session.specs.Steps.{by_wrong, first_word};
ghost use Rattle.apd_session.specs.Turns.{CanConverse, Leads, obeying};
ghost use Rattle.apd_talk.specs.Moment.{moment};
ghost use Rattle.apd_wrong.specs.Wrong.{wrong};

use crate::diagnosing::{conclude, has_few_entries, is_program, keep_wrong, refuse};
use apd_answers::{Answers, AskEnd, Finding, Replier};
use apd_divide::Strategy;
use apd_io::{Sink, Source};
use apd_oracle::Dialogue;
use apd_ports::PointId;
use apd_query::State;
use apd_record::Record;
use apd_reference::Referee;
use apd_symptoms::exit_of;
use apd_talk::{Desk, Next, Trouble};
use apd_term::Flat;
use apd_text::Refusal;
use apd_wrong::diagnose_wrong;

/// An exit, and its label, which isn't true.
#[derive(Drop)]
struct WrongExit {
    exit: PointId,
    label: Flat,
}

/// Diagnoses an exit whose label isn't true, over a dialogue.
fn diagnose_over<S: Source, K: Sink, R: Replier>(
    history: &Record,
    symptom: &WrongExit,
    strategy: Strategy,
    replies: &mut Answers,
    dialogue: &mut Dialogue<S, K, R>,
) -> Result<Finding, AskEnd>
    requires sound { IsKept dialogue.old.console.now }
    requires replies { AreReplies (length dialogue.old.log.now.names) replies.old }
    requires labelled { IsLabelled history.now symptom.now.exit.0 symptom.now.label }
    requires symptom { SaysNo replies.old symptom.now.label }
    requires own { HasOwnLabels (tree history.now symptom.now.exit.0 symptom.now.label) }
    requires named { TreeIsNamed (length dialogue.old.log.now.names)
        (tree history.now symptom.now.exit.0 symptom.now.label) }
    ensures over { SameReferences S.Source K.Sink R.Replier dialogue.old dialogue.new }
    ensures replier { dialogue.new.replier.now ≡ dialogue.old.replier.now }
    ensures diagnoses { Diagnoses by_wrong
        (replying (R.replies dialogue.old.replier.now) dialogue.old.marked)
        (wrong strategy)
        (tree history.now symptom.now.exit.0 symptom.now.label)
        (answered replies.old dialogue.old.asked) (answered replies.new dialogue.new.asked)
        (moment_of S.Source K.Sink R.Replier dialogue.old)
        (moment_of S.Source K.Sink R.Replier dialogue.new) result }
{
    let WrongExit { exit, label } = symptom;
    let answer = diagnose_wrong(
        dialogue.alloc,
        history,
        *exit,
        label,
        strategy,
        replies,
        dialogue,
    );
    has_few_entries(dialogue.log);
    answer
}

/// Diagnoses an exit whose label isn't true, with questions to the user where the referee has no reply.
fn diagnose<S: Source, K: Sink>(
    history: &Record,
    symptom: &WrongExit,
    strategy: Strategy,
    replies: &mut Answers,
    asked: &mut u64,
    referee: &mut Referee,
    desk: &mut Desk<S, K>,
) -> Result<Finding, AskEnd>
    requires hear { CanHear (moment S.Source desk.old) }
    requires sound { IsKept desk.old.console.now }
    requires referee { names_known referee.old ≤ length desk.old.voice.now.log.names }
    requires replies { AreReplies (length desk.old.voice.now.log.names) replies.old }
    requires labelled { IsLabelled history.now symptom.now.exit.0 symptom.now.label }
    requires symptom { SaysNo replies.old symptom.now.label }
    requires own { HasOwnLabels (tree history.now symptom.now.exit.0 symptom.now.label) }
    requires named { TreeIsNamed (length desk.old.voice.now.log.names)
        (tree history.now symptom.now.exit.0 symptom.now.label) }
    ensures referee { referee.new ≡ referee.old }
    ensures diagnoses { Diagnoses by_wrong (first_word referee.old)
        (wrong strategy)
        (tree history.now symptom.now.exit.0 symptom.now.label)
        (answered replies.old asked.old) (answered replies.new asked.new)
        (moment S.Source desk.old)
        (moment S.Source desk.new) result }
{
    let marked = referee.is_marked();
    let voice = &mut *desk.voice;
    let mut dialogue = Dialogue::new(
        voice.alloc,
        *asked,
        desk.console,
        desk.input,
        voice.log,
        voice.out,
        referee,
        marked,
    );
    let answer = diagnose_over(history, symptom, strategy, replies, &mut dialogue);
    *asked = dialogue.asked;
    answer
}

/// Does what `wrong(B, K)` says.
///
/// # Errors
///
/// [`Trouble::Memory`] where there was no memory, [`Trouble::WriteFault`] where a write failed.
pub(crate) fn wrong<S: Source, K: Sink>(
    state: &mut State,
    box_no: i64,
    exit: i64,
    desk: &mut Desk<S, K>,
) -> Result<Next, Trouble>
    requires { CanConverse state.old
        (moment S.Source desk.old) }
    ensures { Leads (obeying state.old (command.Wrong box_no exit)) state.new
        (moment S.Source desk.old)
        (moment S.Source desk.new) result }
{
    let Some(run) = &state.last else {
        return refuse(Refusal::NoRun, desk.voice);
    };
    let history = &run.history;
    let exit = match exit_of(history, box_no, exit) {
        Ok(exit) => exit,
        Err(refusal) => return refuse(refusal, desk.voice),
    };
    is_program(&state.program);
    let label = keep_wrong(history, exit, &mut state.replies, desk.voice)?;
    let symptom = WrongExit { exit, label };
    let answer = diagnose(
        history,
        &symptom,
        state.strategy,
        &mut state.replies,
        &mut state.asked,
        &mut state.referee,
        desk,
    );
    conclude(&state.program, answer, desk.voice)
}
