//! The check of a written log.

ghost use Rattle.std.specs.Prelude.{◌≡◌, ◌≢◌, ◌≤◌, ℕ, [], length};
ghost use Rattle.apd_base.specs.declared.limits.TheConstants.{MAX_FILE};
ghost use Rattle.apd_claims.specs.declared.reading.TheConstants.{MOST_READ_NAMES};
ghost use Rattle.apd_io.specs.Outside.{Rose};
ghost use Rattle.apd_session.specs.Checking.{IsLogChecked};
ghost use Rattle.apd_session.specs.Preparing.{IsStart, IsStop};
ghost use Rattle.apd_session.specs.Session.{verdict_stop};

use crate::ending::end_before;
use crate::opening::{Start, Stop};
use crate::status::Status;
use apd_answers::Answers;
use apd_base::Text;
use apd_check::{Checked, check_for};
use apd_io::Sink;
use apd_talk::Voice;
use apd_text::Entry;
use std::alloc::AllocError;
use std::mem::replace;

/// What is said of a log that was checked, and the status.
fn verdict_stop(verdict: Checked) -> Stop
    ensures said { result ≡ verdict_stop verdict }
    ensures stop { (n : ℕ) → IsStop n result }
{
    match verdict {
        Checked::Holds(findings) => Stop {
            said: Entry::CheckHolds { findings },
            status: Status::Done,
        },
        Checked::Fails { line, why } => Stop {
            said: Entry::CheckFails { line, why },
            status: Status::CheckFailed,
        },
    }
}

/// Checks the log with this text, and then says what there is to say: of the program and of the log. The check takes what is known.
pub(crate) fn check_log<K: Sink>(start: &mut Start, text: &Text, voice: &mut Voice<K>) -> Status
    requires empty { voice.old.log.entries.list ≡ [] }
    requires ready { IsStart (length voice.old.log.names) start.old }
    requires size { length text.now ≤ MAX_FILE }
    requires few { length voice.old.log.names ≤ MOST_READ_NAMES }
    ensures checked { IsLogChecked voice.old.log.ops start.old text.now voice.old.log.names
        voice.new.log voice.old.held voice.new.held result }
    ensures write { result ≡ Status.WriteFault →
        Rose voice.old.write_faults voice.new.write_faults }
    ensures writes { result ≢ Status.WriteFault →
        voice.new.write_faults ≡ voice.old.write_faults }
    ensures over { voice.new.over ≡ voice.old.over }
{
    let known = replace(&mut start.state.replies, Answers::new(voice.alloc()));
    match check_for(&start.state.program, known, text, voice) {
        Ok(checked) => end_before(&start.beginning, verdict_stop(checked), voice),
        Err(AllocError) => Status::Memory,
    }
}
