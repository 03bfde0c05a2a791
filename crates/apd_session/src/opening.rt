//! What a session begins with, as a value: why it ends before it hears anything, or what it goes on with.

ghost use Rattle.std.specs.Prelude.{◌≡◌, ◌+◌, ◌++◌, ◌<◌, ◌≤◌, ℕ, length, None, Some, IfErr, IfOk};
ghost use Rattle.apd_base.specs.declared.limits.TheConstants.{MAX_FILE, MOST_NAMES};
ghost use Rattle.apd_io.specs.Outside.{LoadsInTurn, Rose};
ghost use Rattle.apd_debug.specs.NamedStates.{AreReplies};
ghost use Rattle.apd_load.specs.Warnings.{warnings_of};
ghost use Rattle.apd_session.specs.Loads.{LoadsFront, files_named, further_files, named};
ghost use Rattle.apd_session.specs.Opening.{beginning_of, first_state, stops_with};
ghost use Rattle.apd_session.specs.Preparing.{HasSubject, IsLoaded, IsReadyOpening, IsStop, IsSubject, Opens, OpensAfter, OpensKnowing, OpensWith, CountsLoads, stops_of};
ghost use Rattle.apd_session.specs.Roles.{file_of_subject, log_of_subject};
ghost use Rattle.apd_session.specs.Session.{names_of_files};
ghost use Rattle.apd_session.specs.declared.preparing.Prepared.TheVariants.{Knows};
ghost use Rattle.apd_term.specs.Growth.{GrowsBy};
ghost use Rattle.apd_term.specs.StandardNames.{standard_names};
ghost use Rattle.apd_words.specs.Words.{AreLimits, StandsAlone, asked_options, asked_subject, bytes_of, options_of};

use crate::files::load_file;
use crate::preparing::{Prepared, prepare};
use crate::pursuing::follow;
use crate::referring::{Referring, refer};
use crate::status::Status;
use apd_answers::Answers;
use apd_base::Text;
use apd_clauses::Program;
use apd_gen::tree_program;
use apd_io::Files;
use apd_load::{LoadText, Loaded, Notes, load};
use apd_ops::Ops;
use apd_query::State;
use apd_reference::Referee;
use apd_term::Names;
use apd_text::Entry;
use apd_words::{Subject, Wanted, read_words};
use std::alloc::{AllocError, Global};

/// A session ends.
#[derive(Drop)]
pub(crate) struct Stop {
    /// What is said last.
    pub said: Entry,
    /// The status: none of those with which a session ends that heard something.
    pub status: Status,
}

/// What there is to say of a reference program that was loaded.
#[derive(Drop)]
pub(crate) struct Reviewed {
    /// How many clauses it has.
    pub clauses: u32,
    /// Its directives that were passed over.
    pub passed: Notes,
    /// The predicates that its clauses call and that have no clauses.
    pub called: Notes,
}

/// What there is to say of a program that was loaded.
#[derive(Drop)]
pub(crate) struct Beginning {
    /// How many clauses it has.
    pub clauses: u32,
    /// Its directives that were passed over.
    pub passed: Notes,
    /// The predicates that its clauses call and that have no clauses.
    pub called: Notes,
    /// How many statements the oracle file has, where there is one.
    pub statements: Option<u32>,
    /// What there is to say of the reference program, where there is one.
    pub reference: Option<Reviewed>,
}

/// A program that was loaded, before the first line.
#[derive(Drop)]
pub(crate) struct Start {
    /// What there is to say of it.
    pub beginning: Beginning,
    /// The session's first state.
    pub state: State,
}

/// How a session goes on.
#[derive(Drop)]
pub(crate) enum Course {
    /// The lines of the input are heard.
    Hears,
    /// A tree of so many nodes, from 1 to 10,000, is demonstrated, and no line is heard.
    Plays { nodes: u32 },
    /// The log with this text is checked, and no line is heard.
    Checks { log: Text },
}

/// What a session begins with.
#[derive(Drop)]
pub(crate) enum Opening {
    /// There is no program, and the session ends.
    Unloaded(Stop),
    /// There is a program, which has left these operators, and the session ends all the same.
    Closed {
        ops: Ops,
        beginning: Beginning,
        stop: Stop,
    },
    /// There is a program, which has left these operators, and the session goes on.
    Open {
        ops: Ops,
        start: Start,
        course: Course,
    },
}

/// The first state of a session.
fn first_state(asked: Wanted<'_>, program: Program, replies: Answers, referee: Referee) -> State
    ensures { result ≡ first_state program (asked_options asked.entry) replies referee }
{
    State {
        program,
        budget: asked.budget,
        answers: asked.answers,
        filter: asked.filter,
        strategy: asked.strategy,
        last: None,
        replies,
        referee,
        asked: 0,
    }
}

/// The text of what is debugged: of its file, or of its tree, for which nothing is loaded; or why there is none. The only error is
/// want of memory.
fn subject_text<F: Files>(
    alloc: Global,
    subject: Subject<'_>,
    files: &mut F,
) -> Result<Result<Text, Stop>, AllocError>
    requires subject { IsSubject (asked_subject subject) }
    ensures has { IfOk result (HasSubject (F.content files.old)
        (Rose (F.faults files.old) (F.faults files.new)) (asked_subject subject.entry)) }
    ensures size { IfOk result (λ r. IfOk r (λ text. length text ≤ MAX_FILE)) }
    ensures stop { IfOk result (λ r. IfErr r (λ why. (n : ℕ) → IsStop n why)) }
    ensures faults { CountsLoads stops_of (F.faults files.old) (F.faults files.new) result }
    ensures same { F.content files.new ≡ F.content files.old }
    ensures loads { LoadsInTurn F.step files.old
        (named (file_of_subject (asked_subject subject.entry))) files.new }
{
    match subject {
        Subject::File(name) => load_file(alloc, name, files),
        Subject::Tree(nodes) => Ok(Ok(tree_program(alloc, nodes)?)),
        Subject::Log { program, log: _ } => load_file(alloc, program, files),
    }
}

/// A session with a program ends before it hears anything.
fn close(loaded: Loaded, statements: Option<u32>, stop: Stop) -> Opening
    requires { loaded.warnings ≡ warnings_of loaded.program }
    ensures { result ≡ Opening.Closed loaded.ops
        (beginning_of loaded.program loaded.passed statements None) stop }
{
    let Loaded {
        program,
        ops,
        passed,
        warnings,
    } = loaded;
    let clauses = program.count();
    // Dropped by calls, here and below: else each part is a step to check.
    drop(program);
    let beginning = Beginning {
        clauses,
        passed,
        called: warnings,
        statements,
        reference: None,
    };
    Opening::Closed {
        ops,
        beginning,
        stop,
    }
}

/// What a session with a program begins with, where this is known before the first line: its reference program is asked before the
/// user, and a log is checked, where the words name them. The only error is want of memory.
fn open_knowing<F: Files>(
    alloc: Global,
    asked: Wanted<'_>,
    loaded: Loaded,
    statements: Option<u32>,
    replies: Answers,
    files: &mut F,
    names: &mut Names,
) -> Result<Opening, AllocError>
    requires limits { AreLimits asked.budget asked.answers }
    requires subject { IsSubject (asked_subject asked.subject) }
    requires loaded { IsLoaded (length names.old) loaded }
    requires replies { AreReplies (length names.old) replies }
    requires standard { length standard_names ≤ length names.old }
    requires room { length names.old + MAX_FILE < MOST_NAMES }
    ensures grows { GrowsBy MAX_FILE names.old names.new }
    ensures opens { IfOk result (OpensKnowing (F.content files.old)
        (Rose (F.faults files.old) (F.faults files.new))
        (asked_options asked.entry) loaded names.new (Knows statements replies)) }
    ensures ready { IfOk result (IsReadyOpening (length names.new)) }
    ensures faults { CountsLoads stops_with (F.faults files.old) (F.faults files.new) result }
    ensures loads { let o = asked_options asked.entry in LoadsFront F.step
        (named o.reference ++ named (log_of_subject o.subject)) files.old files.new }
{
    match refer(alloc, asked.reference, asked.budget, files, names) {
        Ok(Referring::Asks { referee, reference }) => {
            let Loaded {
                program,
                ops,
                passed,
                warnings,
            } = loaded;
            let beginning = Beginning {
                clauses: program.count(),
                passed,
                called: warnings,
                statements,
                reference,
            };
            let subject = asked.subject;
            let state = first_state(asked, program, replies, referee);
            let start = Start { beginning, state };
            follow(alloc, subject, ops, start, files)
        }
        Ok(Referring::Stops(stop)) => {
            drop(asked);
            drop(replies);
            Ok(close(loaded, statements, stop))
        }
        Err(AllocError) => {
            drop(asked);
            drop(loaded);
            drop(replies);
            Err(AllocError)
        }
    }
}

/// What a session with a program begins with: the replies of its oracle file are known, and its reference program is asked before the
/// user, where the words name them. The only error is want of memory.
fn open_program<F: Files>(
    alloc: Global,
    asked: Wanted<'_>,
    loaded: Loaded,
    files: &mut F,
    names: &mut Names,
) -> Result<Opening, AllocError>
    requires limits { AreLimits asked.budget asked.answers }
    requires subject { IsSubject (asked_subject asked.subject) }
    requires loaded { IsLoaded (length names.old) loaded }
    requires standard { length standard_names ≤ length names.old }
    requires room { length names.old + (MAX_FILE + MAX_FILE) < MOST_NAMES }
    ensures grows { GrowsBy (MAX_FILE + MAX_FILE) names.old names.new }
    ensures opens { IfOk result (OpensWith (F.content files.old)
        (Rose (F.faults files.old) (F.faults files.new))
        (asked_options asked.entry) loaded names.new) }
    ensures ready { IfOk result (IsReadyOpening (length names.new)) }
    ensures faults { CountsLoads stops_with (F.faults files.old) (F.faults files.new) result }
    ensures loads { LoadsFront F.step
        (further_files (asked_options asked.entry)) files.old files.new }
{
    match prepare(alloc, asked.oracle, files, &loaded.ops, names) {
        Ok(
            Prepared::Knows {
                statements,
                replies,
            },
        ) => open_knowing(alloc, asked, loaded, statements, replies, files, names),
        Ok(Prepared::Refuses(stop)) => {
            drop(asked);
            Ok(close(loaded, None, stop))
        }
        Err(AllocError) => {
            drop(asked);
            drop(loaded);
            Err(AllocError)
        }
    }
}

/// What a session begins with, by the text of what is debugged. The only error is want of memory.
fn open_text<F: Files>(
    alloc: Global,
    asked: Wanted<'_>,
    text: &Text,
    files: &mut F,
    names: &mut Names,
) -> Result<Opening, AllocError>
    requires limits { AreLimits asked.budget asked.answers }
    requires subject { IsSubject (asked_subject asked.subject) }
    requires size { length text.now ≤ MAX_FILE }
    requires names { names.old ≡ standard_names }
    ensures grows { GrowsBy names_of_files names.old names.new }
    ensures opens { IfOk result (OpensAfter (F.content files.old)
        (Rose (F.faults files.old) (F.faults files.new))
        (asked_options asked.entry) text.now names.new) }
    ensures ready { IfOk result (IsReadyOpening (length names.new)) }
    ensures faults { CountsLoads stops_with (F.faults files.old) (F.faults files.new) result }
    ensures loads { LoadsFront F.step
        (further_files (asked_options asked.entry)) files.old files.new }
{
    match load(alloc, text.bytes(), names) {
        Ok(loaded) => open_program(alloc, asked, loaded, files, names),
        Err(LoadText::Refused { line, cause }) => {
            drop(asked);
            Ok(Opening::Unloaded(Stop {
                said: Entry::ProgramRefused { line, cause },
                status: Status::Program,
            }))
        }
        Err(LoadText::Memory) => {
            drop(asked);
            Err(AllocError)
        }
    }
}

/// What a session begins with, by what the words ask for. The only error is want of memory.
fn open_asked<F: Files>(
    alloc: Global,
    asked: Wanted<'_>,
    files: &mut F,
    names: &mut Names,
) -> Result<Opening, AllocError>
    requires limits { AreLimits asked.budget asked.answers }
    requires alone { let options = asked_options asked in
        StandsAlone options.subject options.oracle options.reference }
    requires names { names.old ≡ standard_names }
    ensures grows { GrowsBy names_of_files names.old names.new }
    ensures opens { IfOk result (Opens (F.content files.old)
        (Rose (F.faults files.old) (F.faults files.new))
        (Some (asked_options asked.entry)) names.new) }
    ensures ready { IfOk result (IsReadyOpening (length names.new)) }
    ensures faults { CountsLoads stops_with (F.faults files.old) (F.faults files.new) result }
    ensures loads { LoadsFront F.step
        (files_named (Some (asked_options asked.entry))) files.old files.new }
{
    match subject_text(alloc, asked.subject, files) {
        Ok(Ok(text)) => open_text(alloc, asked, &text, files, names),
        Ok(Err(stop)) => {
            drop(asked);
            Ok(Opening::Unloaded(stop))
        }
        Err(AllocError) => {
            drop(asked);
            Err(AllocError)
        }
    }
}

/// What a session begins with: the words are read, the program is loaded, or that of a tree, the replies of an oracle file are known, a
/// reference program is loaded, and the text of a log that is checked, where the words name them. Nothing is said, and no byte of the
/// input is taken. The only error is want of memory.
pub(crate) fn open_session<F: Files>(
    alloc: Global,
    words: &[String],
    files: &mut F,
    names: &mut Names,
) -> Result<Opening, AllocError>
    requires names { names.old ≡ standard_names }
    ensures grows { GrowsBy names_of_files names.old names.new }
    ensures opens { IfOk result (Opens (F.content files.old)
        (Rose (F.faults files.old) (F.faults files.new))
        (options_of (bytes_of words.now)) names.new) }
    ensures ready { IfOk result (IsReadyOpening (length names.new)) }
    ensures faults { CountsLoads stops_with (F.faults files.old) (F.faults files.new) result }
    ensures loads { LoadsFront F.step
        (files_named (options_of (bytes_of words.now))) files.old files.new }
{
    match read_words(alloc, words)? {
        Some(asked) => open_asked(alloc, asked, files, names),
        None => Ok(Opening::Unloaded(Stop {
            said: Entry::UsageRefused,
            status: Status::Usage,
        })),
    }
}
