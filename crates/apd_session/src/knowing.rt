//! What is known, as it is printed.

ghost use Rattle.std.specs.Prelude.{◌≡◌, length, IfOk, OnOk};
ghost use Rattle.apd_debug.specs.NamedStates.{AreReplies};
ghost use Rattle.apd_kept.specs.Law.{HasShallowStatements, ReadsBackAs};
ghost use Rattle.apd_known.specs.declared.file.Stated.{Stated};
ghost use Rattle.apd_session.specs.Steps.{store_said};
ghost use Rattle.apd_talk.specs.Speech.{Says};
ghost use Rattle.apd_text.specs.Named.{HasStandardNames};

use apd_answers::Answers;
use apd_base::Text;
use apd_io::Sink;
use apd_kept::known_text;
use apd_talk::{Next, Trouble, Voice};
use apd_text::Entry;

/// Says what is known, as an oracle file.
///
/// That file, read by the operators of the session, states the same trust, and the same replies up to the canonical form of their
/// questions, where no statement's text has a term at level 1,000.
///
/// # Errors
///
/// [`Trouble::Memory`] where there was no memory, [`Trouble::WriteFault`] where a write failed.
pub(crate) fn tell<K: Sink>(replies: &Answers, voice: &mut Voice<K>) -> Result<Next, Trouble>
    requires standard { HasStandardNames (length voice.old.log.names) }
    requires named { AreReplies (length voice.old.log.names) replies.now }
    ensures goes { IfOk result (λ next. next ≡ Next.Goes) }
    ensures back { OnOk result (HasShallowStatements voice.old.log.ops replies.now →
        (s : Stated) × ReadsBackAs voice.old.log.ops voice.old.log.names replies.now s) }
    ensures says { Says (λ ops names. store_said ops names replies.now)
        voice.old voice.new result }
{
    let alloc = voice.alloc();
    let log = voice.log();
    let mut text = Text::new(alloc);
    known_text(alloc, replies, &log.ops, &log.names, &mut text)?;
    voice.say(Entry::Known { text })?;
    Ok(Next::Goes)
}
