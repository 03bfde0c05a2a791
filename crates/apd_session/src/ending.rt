//! Sessions that end before they hear anything.

ghost use Rattle.std.specs.Prelude.{◌≡◌, ◌≢◌, [], length};
ghost use Rattle.apd_io.specs.Outside.{Rose};
ghost use Rattle.apd_ops.specs.Standard.{standard_table};
ghost use Rattle.apd_session.specs.Causes.{Comes};
ghost use Rattle.apd_session.specs.Outcome.{IsSaid};
ghost use Rattle.apd_session.specs.Preparing.{IsBeginning, IsStop};
ghost use Rattle.apd_session.specs.Session.{ends_before, says_one};
ghost use Rattle.apd_talk.specs.Speech.{Lasting};

use crate::notes::say_closing;
use crate::opening::{Beginning, Stop};
use crate::status::{Status, status_of};
use apd_io::Sink;
use apd_talk::Voice;

/// Says one thing and ends.
pub(crate) fn end_with<K: Sink>(stop: Stop, voice: &mut Voice<K>) -> Status
    requires empty { voice.old.log.entries.list ≡ [] }
    requires ops { voice.old.log.ops ≡ standard_table }
    requires stop { IsStop (length voice.old.log.names) stop }
    ensures said { Lasting voice.old.log.names (λ names.
        IsSaid result (says_one names stop) voice.new.log voice.old.held voice.new.held) }
    ensures names { voice.new.log.names ≡ voice.old.log.names }
    ensures write { result ≡ Status.WriteFault →
        Rose voice.old.write_faults voice.new.write_faults }
    ensures writes { result ≢ Status.WriteFault →
        voice.new.write_faults ≡ voice.old.write_faults }
    ensures over { voice.new.over ≡ voice.old.over }
    ensures is { Comes result stop.status }
{
    let Stop { said, status } = stop;
    match voice.say(said) {
        Ok(()) => status,
        Err(trouble) => status_of(trouble),
    }
}

/// Says what there is to say of the program and why the session ends there, and ends so.
pub(crate) fn end_before<K: Sink>(beginning: &Beginning, stop: Stop, voice: &mut Voice<K>) -> Status
    requires empty { voice.old.log.entries.list ≡ [] }
    requires beginning { IsBeginning (length voice.old.log.names) beginning.now }
    requires stop { IsStop (length voice.old.log.names) stop }
    ensures said { Lasting voice.old.log.names (λ names. IsSaid result
        (ends_before names voice.old.log.ops beginning.now stop)
        voice.new.log voice.old.held voice.new.held) }
    ensures names { voice.new.log.names ≡ voice.old.log.names }
    ensures write { result ≡ Status.WriteFault →
        Rose voice.old.write_faults voice.new.write_faults }
    ensures writes { result ≢ Status.WriteFault →
        voice.new.write_faults ≡ voice.old.write_faults }
    ensures over { voice.new.over ≡ voice.old.over }
    ensures is { Comes result stop.status }
{
    let Stop { said, status } = stop;
    match say_closing(beginning, said, voice) {
        Ok(()) => status,
        Err(trouble) => status_of(trouble),
    }
}
