//! How a session goes on with what is debugged.

ghost use Rattle.std.specs.Prelude.{◌≡◌, ℕ, List, [], ◌∷◌, IfOk};
ghost use Rattle.apd_io.specs.Outside.{LoadsInTurn, Rose};
ghost use Rattle.apd_session.specs.Loads.{named};
ghost use Rattle.apd_session.specs.Opening.{goes_on, stops_with};
ghost use Rattle.apd_session.specs.Preparing.{Follows, IsPursued, IsReadyOpening, IsStart, IsSubject, Pursues, CountsLoads, stops_of};
ghost use Rattle.apd_session.specs.Roles.{log_of_subject};
ghost use Rattle.apd_words.specs.Words.{OfLog, asked_subject};

use crate::files::load_file;
use crate::opening::{Course, Opening, Start, Stop};
use crate::status::Status;
use apd_io::Files;
use apd_ops::Ops;
use apd_words::Subject;
use std::alloc::{AllocError, Global};

/// How a session goes on where a log is checked, by its text; or why it ends. The only error is want of memory.
fn checks_log<F: Files>(
    alloc: Global,
    name: &str,
    files: &mut F,
) -> Result<Result<Course, Stop>, AllocError>
    ensures pursues { (program : List ℕ) → IfOk result (Pursues (F.content files.old)
        (Rose (F.faults files.old) (F.faults files.new)) (OfLog program name.now)) }
    ensures ready { IfOk result IsPursued }
    ensures faults { CountsLoads stops_of (F.faults files.old) (F.faults files.new) result }
    ensures loads { LoadsInTurn F.step files.old (name.now ∷ []) files.new }
{
    match load_file(alloc, name, files)? {
        Ok(log) => Ok(Ok(Course::Checks { log })),
        Err(stop) => Ok(Err(stop)),
    }
}

/// How a session goes on with what is debugged, or why it ends. The only error is want of memory.
fn pursue<F: Files>(
    alloc: Global,
    subject: Subject<'_>,
    files: &mut F,
) -> Result<Result<Course, Stop>, AllocError>
    requires { IsSubject (asked_subject subject) }
    ensures pursues { IfOk result (Pursues (F.content files.old)
        (Rose (F.faults files.old) (F.faults files.new)) (asked_subject subject.entry)) }
    ensures ready { IfOk result IsPursued }
    ensures faults { CountsLoads stops_of (F.faults files.old) (F.faults files.new) result }
    ensures loads { LoadsInTurn F.step files.old
        (named (log_of_subject (asked_subject subject.entry))) files.new }
{
    match subject {
        Subject::File(_) => Ok(Ok(Course::Hears)),
        Subject::Tree(nodes) => Ok(Ok(Course::Plays { nodes })),
        Subject::Log { program: _, log } => checks_log(alloc, log, files),
    }
}

/// What a session begins with that goes on so, or ends.
fn goes_on(ops: Ops, start: Start, course: Result<Course, Stop>) -> Opening
    ensures { result ≡ goes_on ops start course }
{
    match course {
        Ok(course) => Opening::Open { ops, start, course },
        Err(stop) => {
            let Start { beginning, state } = start;
            drop(state);
            Opening::Closed {
                ops,
                beginning,
                stop,
            }
        }
    }
}

/// What a session begins with that goes on from here with what is debugged, or ends. The only error is want of memory.
pub(crate) fn follow<F: Files>(
    alloc: Global,
    subject: Subject<'_>,
    ops: Ops,
    start: Start,
    files: &mut F,
) -> Result<Opening, AllocError>
    requires { IsSubject (asked_subject subject) }
    ensures follows { IfOk result (Follows (F.content files.old)
        (Rose (F.faults files.old) (F.faults files.new)) (asked_subject subject.entry) ops start) }
    ensures ready { (n : ℕ) → IsStart n start → IfOk result (IsReadyOpening n) }
    ensures faults { CountsLoads stops_with (F.faults files.old) (F.faults files.new) result }
    ensures loads { LoadsInTurn F.step files.old
        (named (log_of_subject (asked_subject subject.entry))) files.new }
{
    match pursue(alloc, subject, files) {
        Ok(course) => Ok(goes_on(ops, start, course)),
        Err(AllocError) => {
            // Dropped by calls: an end of the scope would drop them field by field, in as many
            // steps to check.
            drop(ops);
            drop(start);
            Err(AllocError)
        }
    }
}
