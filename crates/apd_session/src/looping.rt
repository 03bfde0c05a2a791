//! The diagnosis of a run that doesn't end, with questions to the user.

ghost use Rattle.std.specs.Prelude.{◌≡◌, length, ◌≤◌};
ghost use Rattle.apd_commands.specs.declared.commands.Command.TheVariants as command;
ghost use Rattle.apd_console.specs.Console.{IsKept};
ghost use Rattle.apd_debug.specs.Asking.{SameReferences, moment_of};
ghost use Rattle.apd_debug.specs.NamedStates.{AreReplies, IsOwnChain, MayGoOn};
ghost use Rattle.apd_debug.specs.NamedTrees.{RecordIsNamed};
ghost use Rattle.apd_loop.specs.Known.{IsChain};
ghost use Rattle.apd_record.specs.Recorded.{chain};
ghost use Rattle.apd_loop.specs.Loop.{loop, loop_start};
ghost use Rattle.apd_oracle.specs.Dialogue.{CanHear};
ghost use Rattle.apd_oracle.specs.Waiting.{replying};
ghost use Rattle.apd_reference.specs.Referees.{names_known};
ghost use Rattle.apd_session.specs.Diagnosing.{Diagnoses, answered};
ghost use Rattle.apd_session.specs.Steps.{by_loop, first_word};
ghost use Rattle.apd_session.specs.Turns.{CanConverse, Leads, obeying};
ghost use Rattle.apd_talk.specs.Moment.{moment};

use crate::diagnosing::{conclude_loop, has_few_entries, is_program, keep_symptom, refuse};
use apd_answers::{Answers, AskEnd, Replier};
use apd_base::Ids;
use apd_divide::Strategy;
use apd_io::{Sink, Source};
use apd_loop::{LoopEnd, diagnose_loop};
use apd_oracle::Dialogue;
use apd_query::State;
use apd_record::Record;
use apd_reference::Referee;
use apd_symptoms::stopped_chain;
use apd_talk::{Desk, Next, Trouble};
use apd_text::{Refusal, Told};

/// Diagnoses a run that was within these calls, over a dialogue.
fn diagnose_over<S: Source, K: Sink, R: Replier>(
    history: &Record,
    calls: &Ids,
    strategy: Strategy,
    replies: &mut Answers,
    dialogue: &mut Dialogue<S, K, R>,
) -> Result<LoopEnd, AskEnd>
    requires sound { IsKept dialogue.old.console.now }
    requires replies { AreReplies (length dialogue.old.log.now.names) replies.old }
    requires chain { IsChain history.now calls.now }
    requires own { IsOwnChain history.now calls.now }
    requires start { MayGoOn history.now calls.now (loop_start history.now calls.now) }
    requires named { RecordIsNamed (length dialogue.old.log.now.names) history.now }
    ensures over { SameReferences S.Source K.Sink R.Replier dialogue.old dialogue.new }
    ensures replier { dialogue.new.replier.now ≡ dialogue.old.replier.now }
    ensures diagnoses { Diagnoses by_loop
        (replying (R.replies dialogue.old.replier.now) dialogue.old.marked)
        (loop history.now calls.now strategy)
        (loop_start history.now calls.now)
        (answered replies.old dialogue.old.asked) (answered replies.new dialogue.new.asked)
        (moment_of S.Source K.Sink R.Replier dialogue.old)
        (moment_of S.Source K.Sink R.Replier dialogue.new) result }
{
    let answer = diagnose_loop(dialogue.alloc, history, calls, strategy, replies, dialogue);
    has_few_entries(dialogue.log);
    answer
}

/// Diagnoses a run that was within these calls, with questions to the user where the referee has no reply.
fn diagnose<S: Source, K: Sink>(
    history: &Record,
    calls: &Ids,
    strategy: Strategy,
    replies: &mut Answers,
    asked: &mut u64,
    referee: &mut Referee,
    desk: &mut Desk<S, K>,
) -> Result<LoopEnd, AskEnd>
    requires hear { CanHear (moment S.Source desk.old) }
    requires sound { IsKept desk.old.console.now }
    requires referee { names_known referee.old ≤ length desk.old.voice.now.log.names }
    requires replies { AreReplies (length desk.old.voice.now.log.names) replies.old }
    requires chain { IsChain history.now calls.now }
    requires own { IsOwnChain history.now calls.now }
    requires start { MayGoOn history.now calls.now (loop_start history.now calls.now) }
    requires named { RecordIsNamed (length desk.old.voice.now.log.names) history.now }
    ensures referee { referee.new ≡ referee.old }
    ensures diagnoses { Diagnoses by_loop (first_word referee.old)
        (loop history.now calls.now strategy)
        (loop_start history.now calls.now)
        (answered replies.old asked.old) (answered replies.new asked.new)
        (moment S.Source desk.old)
        (moment S.Source desk.new) result }
{
    let marked = referee.is_marked();
    let voice = &mut *desk.voice;
    let mut dialogue = Dialogue::new(
        voice.alloc,
        *asked,
        desk.console,
        desk.input,
        voice.log,
        voice.out,
        referee,
        marked,
    );
    let answer = diagnose_over(history, calls, strategy, replies, &mut dialogue);
    *asked = dialogue.asked;
    answer
}

/// How many calls a chain has.
fn call_count(history: &Record, calls: &Ids) -> u32
    requires { calls.now ≡ chain history.now }
    ensures { result ≡ length calls.now }
{
    let _boxes = history.boxes();
    calls.len() as u32
}

/// Does what `loop` says.
///
/// # Errors
///
/// [`Trouble::Memory`] where there was no memory, [`Trouble::WriteFault`] where a write failed.
pub(crate) fn no_end<S: Source, K: Sink>(
    state: &mut State,
    desk: &mut Desk<S, K>,
) -> Result<Next, Trouble>
    requires { CanConverse state.old
        (moment S.Source desk.old) }
    ensures { Leads (obeying state.old command.Loop) state.new
        (moment S.Source desk.old)
        (moment S.Source desk.new) result }
{
    let Some(run) = &state.last else {
        return refuse(Refusal::NoRun, desk.voice);
    };
    let history = &run.history;
    let calls = match stopped_chain(history, run.end)? {
        Ok(calls) => calls,
        Err(refusal) => return refuse(refusal, desk.voice),
    };
    is_program(&state.program);
    let count = call_count(history, &calls);
    keep_symptom(Told::NoEnd(count), &mut state.replies, desk.voice)?;
    let answer = diagnose(
        history,
        &calls,
        state.strategy,
        &mut state.replies,
        &mut state.asked,
        &mut state.referee,
        desk,
    );
    conclude_loop(&state.program, count, answer, desk.voice)
}
