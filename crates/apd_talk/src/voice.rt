//! A voice: what is said is an entry of the log, and its text on the sink.

ghost use Rattle.std.specs.Prelude.{◌≡◌, ◌<◌, ◌≤◌, ◌+◌, ◌++◌, [], ◌∷◌, length, true, IfOk, OnOk, OnErr};
ghost use Rattle.apd_console.specs.Print.{AddsFront};
ghost use Rattle.apd_io.specs.Outside.{Adds, Counts};
ghost use Rattle.apd_text.specs.Entries.{Finishes, text_of};
ghost use Rattle.apd_text.specs.Named.{EntryIsNamed};
ghost use Rattle.apd_talk.specs.Speech.{HasWriteCause, Says, Stays, one, with_entries, with_ops};

use crate::talk::Trouble;
use apd_base::Text;
use apd_causes::Ran;
use apd_console::Console;
use apd_io::{Failed, Sink};
use apd_ops::Ops;
use apd_text::{Entry, Log, text_of};
use std::alloc::{AllocError, Global};
use std::marker::Model;
use std::mem::replace;

/// What says things: each is an entry of a log, whose text goes to a sink.
///
/// In contracts it is what was said by a moment: the log, what is known of the sink, and how many writes have failed; and over which
/// references.
#[derive(Drop)]
pub struct Voice<'l, 'k, K: Sink> {
    /// Where what is made takes its memory.
    pub alloc: Global,
    /// What was said, with the names and the operators that it is written with.
    pub log: &'l mut Log,
    /// Where the texts go.
    pub out: &'k mut K,
}

impl<'l, 'k, K: Sink> Model for Voice<'l, 'k, K> {
    ghost use Rattle.std.specs.Prelude.{refl};
    ghost use Rattle.std.specs.Coded.{code_by, coded×, coded_list, coded_option, coded_ℕ};
    ghost use Rattle.apd_text.specs.contracts.log.Log as l;
    ghost use Rattle.apd_talk.specs.Speech.{Spoken};

    ghost Value = { Spoken };

    ghost coded = { code_by _ (coded× l.the_row.coded (coded× (coded_option (coded_list coded_ℕ)) (coded× coded_ℕ (coded× coded_ℕ coded_ℕ)))) (λ s. (s.log, (s.held, (s.write_faults, s.over)))) (λ p. record { log = p.0; held = p.1.0; write_faults = p.1.1.0; over = p.1.1.1 }) (λ _. refl) };

    ghost view = { λ v. record { log = v.log.now; held = K.held v.out.now; write_faults = K.faults v.out.now; over = (v.log.ghost_name, v.out.ghost_name) } };
}

fn text(alloc: Global, entry: &Entry, log: &Log) -> Result<Text, AllocError>
    ensures { IfOk result (λ t. t ≡ text_of log.now.ops log.now.names entry.now) }
{
    let mut text = Text::new(alloc);
    text_of(alloc, entry, &log.names, &log.ops, &mut text)?;
    Ok(text)
}

impl<K: Sink> Voice<'_, '_, K> {
    /// Where what is said takes its memory.
    pub fn alloc(&self) -> Global {
        self.alloc
    }

    /// What was said, with the names and the operators that it is written with.
    pub fn log(&self) -> &Log
        ensures { result.now ≡ self.now.log }
    {
        self.log
    }

    /// From here on terms are read and written with these operators.
    pub fn set_ops(&mut self, ops: Ops)
        ensures { self.new ≡ with_ops self.old ops }
    {
        // Dropped by a call: an assignment would drop the old table field by field, in as many
        // steps to check.
        drop(replace(&mut self.log.ops, ops));
    }

    /// Keeps so many places in the log, into which entries are put without taking memory.
    ///
    /// # Errors
    ///
    /// Where there is no memory for them.
    pub fn reserve(&mut self, places: u32) -> Result<(), AllocError>
        ensures stays { self.new ≡ with_entries self.old self.new.log.entries }
        ensures same { self.new.log.entries.list ≡ self.old.log.entries.list }
        ensures room { OnOk result (places ≤ self.new.log.entries.spare) }
        ensures spare { self.old.log.entries.spare ≤ self.new.log.entries.spare }
    {
        self.log.entries.reserve(places)
    }

    /// Puts an entry into the log, and prints nothing.
    ///
    /// # Errors
    ///
    /// Where there is no memory for it: the entries are as before.
    pub fn push(&mut self, entry: Entry) -> Result<(), AllocError>
        ensures stays { self.new ≡ with_entries self.old self.new.log.entries }
        ensures pushed { OnOk result
            (self.new.log.entries.list ≡ self.old.log.entries.list ++ entry ∷ []) }
        ensures same { OnErr result (self.new.log.entries.list ≡ self.old.log.entries.list) }
    {
        self.log.entries.push(entry)
    }

    /// Sets the end of the run that is the last entry, and prints nothing.
    pub fn finish(&mut self, ran: Ran)
        ensures stays { self.new ≡ with_entries self.old self.new.log.entries }
        ensures finished { Finishes self.old.log.entries.list ran self.new.log.entries.list }
    {
        self.log.entries.finish(ran);
    }

    /// Prints bytes that belong to the last entry.
    ///
    /// # Errors
    ///
    /// [`Failed`] where a write failed: the front of them was printed.
    pub fn print(&mut self, bytes: &[u8]) -> Result<(), Failed>
        ensures log { self.new.log ≡ self.old.log }
        ensures over { self.new.over ≡ self.old.over }
        ensures ok { OnOk result (Adds self.old.held self.new.held bytes.now) }
        ensures err { OnErr result (AddsFront self.old.held self.new.held bytes.now) }
        ensures cause { Counts (λ _. true) self.old.write_faults self.new.write_faults result }
    {
        Console::print(self.out, bytes)
    }

    // Puts an entry into the log and prints its text, whatever its names are.
    fn say_entry(&mut self, entry: Entry) -> Result<(), Trouble>
        ensures says { EntryIsNamed (length self.old.log.names) entry →
            Says (one entry) self.old self.new result }
        ensures stays { Stays self.old self.new }
        ensures spare { self.old.log.entries.spare ≤ self.new.log.entries.spare + 1 }
        ensures cause { HasWriteCause self.old.write_faults self.new.write_faults result }
    {
        let text = text(self.alloc, &entry, self.log)?;
        self.log.entries.push(entry)?;
        Console::print(self.out, text.bytes())?;
        Ok(())
    }

    /// Puts an entry into the log and prints its text.
    ///
    /// # Errors
    ///
    /// [`Trouble::Memory`] where there was no memory for the text or the entry: nothing was said. [`Trouble::WriteFault`] where
    /// a write failed: the entry is in the log, and the front of its text was printed.
    pub fn say(&mut self, entry: Entry) -> Result<(), Trouble>
        requires { EntryIsNamed (length self.old.log.names) entry }
        ensures { Says (one entry) self.old self.new result }
    {
        self.say_entry(entry)
    }

    /// Puts an entry into the log and prints its text, so that a place that was kept free stays free. What is said is known where
    /// the entry's names are.
    ///
    /// # Errors
    ///
    /// As of [`say`](Voice::say).
    pub fn say_kept(&mut self, entry: Entry) -> Result<(), Trouble>
        ensures says { EntryIsNamed (length self.old.log.names) entry →
            Says (one entry) self.old self.new result }
        ensures stays { Stays self.old self.new }
        ensures place { 0 < self.old.log.entries.spare → 0 < self.new.log.entries.spare }
        ensures cause { HasWriteCause self.old.write_faults self.new.write_faults result }
    {
        self.reserve(2)?;
        self.say_entry(entry)
    }

    /// Puts an entry into a place that was kept free, and prints its text. The entry is in the log whatever the answer is.
    ///
    /// # Errors
    ///
    /// [`Trouble::Memory`] where there was no memory for the text: nothing was printed. [`Trouble::WriteFault`] where a write
    /// failed: the front of the text was printed.
    pub fn say_last(&mut self, entry: Entry) -> Result<(), Trouble>
        requires place { 0 < self.old.log.entries.spare }
        requires named { EntryIsNamed (length self.old.log.names) entry }
        ensures says { Says (one entry) self.old self.new result }
        ensures pushed { self.new.log.entries.list ≡ self.old.log.entries.list ++ entry ∷ [] }
    {
        let made = text(self.alloc, &entry, self.log);
        self.log.entries.push(entry)?;
        Console::print(self.out, made?.bytes())?;
        Ok(())
    }
}
