//! The lines of the input are heard, from the first state on.
ghost use Rattle.std.specs.Prelude.{◌≡◌, ◌≤◌, [], length};
ghost use Rattle.apd_console.specs.Console.{fresh};
ghost use Rattle.apd_session.specs.Known.{streams_by};
ghost use Rattle.apd_session.specs.Opening.{hears};
ghost use Rattle.apd_session.specs.Outcome.{GoesOn};
ghost use Rattle.apd_session.specs.Preparing.{IsStart};
ghost use Rattle.apd_session.specs.Turns.{most_before, opening};
ghost use Rattle.apd_talk.specs.Moment.{Converses, moment};

use crate::notes::say_beginning;
use crate::opening::Start;
use crate::status::{Status, status_after, status_of};
use crate::turns::converse;
use apd_console::Console;
use apd_io::{Sink, Source};
use apd_talk::{Desk, Ending, Trouble, Voice};

/// Says what there is to say before the first line, and hears the lines of the input.
fn converse_from_start<S: Source, K: Sink>(
    start: &mut Start,
    desk: &mut Desk<S, K>,
) -> Result<Ending, Trouble>
    requires ready { IsStart (length desk.old.voice.now.log.names) start.old }
    requires few { length desk.old.voice.now.log.names ≤ most_before }
    requires start { desk.old.console.now ≡ fresh }
    ensures { Converses (opening start.old)
        (moment S.Source desk.old) (moment S.Source desk.new) result }
{
    say_beginning(&start.beginning, desk.voice)?;
    converse(&mut start.state, desk)
}

/// Goes on with the lines of the input, by the operators of the log.
pub(crate) fn hear<S: Source, K: Sink>(
    start: &mut Start,
    input: &mut S,
    voice: &mut Voice<K>,
) -> Status
    requires empty { voice.old.log.entries.list ≡ [] }
    requires ready { IsStart (length voice.old.log.names) start.old }
    requires few { length voice.old.log.names ≤ most_before }
    ensures goes_on { GoesOn (hears voice.old.log.ops start.old) voice.old.log.names
        (streams_by S.Source input.old voice.old)
        (streams_by S.Source input.new voice.new) voice.new.log result }
    ensures over { voice.new.over ≡ voice.old.over }
{
    let Ok(mut console) = Console::new(voice.alloc()) else {
        return Status::Memory;
    };
    let mut desk = Desk {
        console: &mut console,
        input,
        voice,
    };
    match converse_from_start(start, &mut desk) {
        Ok(ending) => status_after(ending),
        Err(trouble) => status_of(trouble),
    }
}
