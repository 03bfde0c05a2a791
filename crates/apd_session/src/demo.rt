//! A demonstration: a session over lines that are known, in which the tree has the first word.

ghost use Rattle.std.specs.Prelude.{◌≡◌, ◌≢◌, ◌<◌, ◌≤◌, [], length, map, option_to_list, Some, IfOk, OnOk};
ghost use Rattle.apd_gen.specs.Nodes.{IsNodeCount};
ghost use Rattle.apd_io.specs.Outside.{Rose};
ghost use Rattle.apd_read.specs.Reader.{Reader};
ghost use Rattle.apd_base.specs.declared.limits.TheConstants.{MAX_INPUT};
ghost use Rattle.apd_session.specs.Demo.{clause_found, demo_lines, first_clause, is_done, outcome_of, questions_in, with_question, with_tree, within_32_bits};
ghost use Rattle.apd_session.specs.Outcome.{IsSaid, status_shown};
ghost use Rattle.apd_session.specs.Preparing.{IsStart};
ghost use Rattle.apd_session.specs.Session.{demonstrates, shows};
ghost use Rattle.apd_session.specs.Turns.{most_before};
ghost use Rattle.apd_talk.specs.Speech.{Lasting, Says, plain};
ghost use Rattle.apd_term.specs.Growth.{GrowsBy};

use crate::hearing::hear;
use crate::known_lines::KnownLines;
use crate::opening::Start;
use crate::status::{Status, status_of};
use apd_answers::Finding;
use apd_base::Text;
use apd_demo::TreeReplier;
use apd_io::Sink;
use apd_reference::Referee;
use apd_talk::{Trouble, Voice};
use apd_term::Instance;
use apd_text::{Entries, Entry};
use std::alloc::{AllocError, Global};
use std::mem::replace;

/// The lines of a demonstration: its query, and that its first answer is wrong.
const LINES: &[u8] = b"?- n1.\nwrong(1, 1).\n";

/// The number of the first candidate's clause; 0 where there is none.
fn first_clause(candidates: &[Instance]) -> u32
    ensures { result ≡ first_clause candidates.now }
{
    match candidates {
        [first, ..] => first.clause,
        [] => 0,
    }
}

/// The number of the clause that was found, of candidates the first one's; 0 where what was found has none.
fn clause_found(finding: &Finding) -> u32
    ensures { result ≡ clause_found finding.now }
{
    match finding {
        Finding::WrongInstance { clause, .. } | Finding::Violation { clause, .. } => *clause,
        Finding::Uncovered { .. } => 0,
        Finding::Candidates(candidates) => first_clause(candidates.as_slice()),
    }
}

/// The count as far as 32 bits go.
fn within_32_bits(count: usize) -> u32
    ensures { result ≡ within_32_bits count }
{
    match u32::try_from(count) {
        Ok(count) => count,
        Err(_) => u32::MAX,
    }
}

/// One more where the entry is a question.
fn with_question(entry: &Entry, count: usize) -> usize
    requires { count < usize.MAX }
    ensures { result ≡ with_question entry.now count }
{
    match entry {
        Entry::Question { .. } => count + 1,
        _ => count,
    }
}

/// How many of the entries are questions.
fn questions_in(entries: &Entries) -> usize
    ensures { result ≡ questions_in entries.now.list }
{
    let mut count = 0;
    'entries: for i in 0..entries.len() {
        count = with_question(entries.entry(i), count);
    }
    count
}

/// What a demonstration came to, where the last entry tells what was found.
fn outcome_of(nodes: u32, entries: &Entries) -> Option<Entry>
    ensures { option_to_list result ≡ outcome_of nodes entries.now.list }
{
    let count = entries.len();
    if count == 0 {
        return None;
    }
    match entries.entry(count - 1) {
        Entry::Found { finding, .. } => Some(Entry::Demo {
            nodes,
            questions: within_32_bits(questions_in(entries)),
            clause: clause_found(finding),
        }),
        _ => None,
    }
}

/// Says what a demonstration came to, where the last entry tells what was found.
fn say_outcome<K: Sink>(nodes: u32, voice: &mut Voice<K>) -> Result<(), Trouble>
    ensures { Says (λ ops names.
        map (plain ops names) (outcome_of nodes voice.old.log.entries.list))
        voice.old voice.new result }
{
    match outcome_of(nodes, &voice.log().entries) {
        Some(entry) => voice.say(entry),
        None => Ok(()),
    }
}

/// Puts the tree of so many nodes in the place of whoever is asked before the user.
fn ask_tree(alloc: Global, nodes: u32, start: &mut Start) -> Result<(), AllocError>
    requires { IsNodeCount nodes }
    ensures { OnOk result (start.new ≡ with_tree nodes start.old) }
{
    let tree = TreeReplier::new(alloc, nodes, &start.state.program)?;
    drop(replace(&mut start.state.referee, Referee::Tree(tree)));
    Ok(())
}

/// The lines of a demonstration, as a source.
fn demo_lines(alloc: Global) -> Result<KnownLines, AllocError>
    ensures { IfOk result (λ l. l.bytes ≡ Some demo_lines) }
{
    Ok(KnownLines::new(Text::copy_of(alloc, LINES)?))
}

/// Puts the tree in the place of whoever is asked before the user, and gives the lines of its demonstration.
fn prepare_demo(alloc: Global, nodes: u32, start: &mut Start) -> Result<KnownLines, AllocError>
    requires { IsNodeCount nodes }
    ensures tree { OnOk result (start.new ≡ with_tree nodes start.old) }
    ensures lines { IfOk result (λ l. l.bytes ≡ Some demo_lines) }
{
    ask_tree(alloc, nodes, start)?;
    let lines = demo_lines(alloc)?;
    Ok(lines)
}

/// Whether a session came to its end.
fn is_done(status: Status) -> bool
    ensures { result ≡ is_done status }
{
    match status {
        Status::Done => true,
        _ => false,
    }
}

/// Hears the lines of a demonstration, and says what it came to where they were heard.
fn show<K: Sink>(
    nodes: u32,
    start: &mut Start,
    lines: &mut KnownLines,
    voice: &mut Voice<K>,
) -> Status
    requires empty { voice.old.log.entries.list ≡ [] }
    requires ready { IsStart (length voice.old.log.names) start.old }
    requires few { length voice.old.log.names ≤ most_before }
    requires lines { lines.old.bytes ≡ Some demo_lines }
    ensures said { Lasting voice.new.log.names (λ names. (reader : Reader names) →
        IsSaid result (shows reader voice.old.log.ops nodes start.old)
        voice.new.log voice.old.held voice.new.held) }
    ensures names { GrowsBy MAX_INPUT voice.old.log.names voice.new.log.names }
    ensures write { result ≡ Status.WriteFault →
        Rose voice.old.write_faults voice.new.write_faults }
    ensures writes { result ≢ Status.WriteFault →
        voice.new.write_faults ≡ voice.old.write_faults }
    ensures over { voice.new.over ≡ voice.old.over }
{
    let heard = hear(start, lines, voice);
    if is_done(heard) {
        return status_shown(say_outcome(nodes, voice));
    }
    heard
}

/// The status of a demonstration that said what it came to, or didn't.
fn status_shown(shown: Result<(), Trouble>) -> Status
    ensures { result ≡ status_shown shown }
{
    match shown {
        Ok(()) => Status::Done,
        Err(trouble) => status_of(trouble),
    }
}

/// Demonstrates a diagnosis of the program of a tree, by the operators of the log.
pub(crate) fn play<K: Sink>(nodes: u32, start: &mut Start, voice: &mut Voice<K>) -> Status
    requires nodes { IsNodeCount nodes }
    requires empty { voice.old.log.entries.list ≡ [] }
    requires ready { IsStart (length voice.old.log.names) start.old }
    requires few { length voice.old.log.names ≤ most_before }
    ensures said { Lasting voice.new.log.names (λ names. (reader : Reader names) →
        IsSaid result (demonstrates reader voice.old.log.ops nodes start.old)
        voice.new.log voice.old.held voice.new.held) }
    ensures names { GrowsBy MAX_INPUT voice.old.log.names voice.new.log.names }
    ensures write { result ≡ Status.WriteFault →
        Rose voice.old.write_faults voice.new.write_faults }
    ensures writes { result ≢ Status.WriteFault →
        voice.new.write_faults ≡ voice.old.write_faults }
    ensures over { voice.new.over ≡ voice.old.over }
{
    match prepare_demo(voice.alloc(), nodes, start) {
        Ok(mut lines) => show(nodes, start, &mut lines, voice),
        Err(AllocError) => Status::Memory,
    }
}
