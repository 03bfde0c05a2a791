//! The files that a session loads.

ghost use Rattle.std.specs.Prelude.{◌≡◌, ◌≤◌, [], ◌∷◌, ℕ, length, IfErr, IfOk};
ghost use Rattle.apd_base.specs.declared.limits.TheConstants.{MAX_FILE};
ghost use Rattle.apd_io.specs.Outside.{LoadsInTurn, Rose};
ghost use Rattle.apd_session.specs.Preparing.{CountsLoads, HasText, IsStop, stops_of};

use crate::opening::Stop;
use crate::status::Status;
use apd_base::Text;
use apd_io::{Files, LoadFault};
use apd_text::Entry;
use std::alloc::{AllocError, Global};

/// The text of the file of this name, whatever it is to the session; or why the session ends where it can't be read or is too long. The
/// only error is want of memory.
pub(crate) fn load_file<F: Files>(
    alloc: Global,
    name: &str,
    files: &mut F,
) -> Result<Result<Text, Stop>, AllocError>
    ensures has { IfOk result (HasText (F.content files.old)
        (Rose (F.faults files.old) (F.faults files.new)) name.now) }
    ensures size { IfOk result (λ r. IfOk r (λ text. length text ≤ MAX_FILE)) }
    ensures stop { IfOk result (λ r. IfErr r (λ why. (n : ℕ) → IsStop n why)) }
    ensures faults { CountsLoads stops_of (F.faults files.old) (F.faults files.new) result }
    ensures same { F.content files.new ≡ F.content files.old }
    ensures loads { LoadsInTurn F.step files.old (name.now ∷ []) files.new }
{
    match files.load(alloc, name) {
        Ok(text) => Ok(Ok(text)),
        Err(LoadFault::Failed) => Ok(Err(Stop {
            said: Entry::InputFault,
            status: Status::ReadFault,
        })),
        Err(LoadFault::TooLong(length)) => Ok(Err(Stop {
            said: Entry::FileTooLong { length },
            status: Status::FileTooLong,
        })),
        Err(LoadFault::Memory) => Err(AllocError),
    }
}
