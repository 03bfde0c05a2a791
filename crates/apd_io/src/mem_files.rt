//! Files in memory.

ghost use Rattle.std.specs.Prelude.{◌≡◌, ◌↔◌, ◌⊎◌, [], ◌<◌, ◌≤◌, ◌||◌, length, IfOk, IfErr, IsErrOf, OnErr, OnOk, IsTrue, MatchOption, None, Some, is_none, ◌≢◌, List, ℕ};
ghost use Rattle.apd_io.specs.Memory.{Shelf, is_due, called, uncalled, content_of, is_failed, loaded_from, IsPlaceOf};
ghost use Rattle.apd_io.specs.Outside.{Counts, is_load_fault, Tells, TellsLong};
ghost use Rattle.apd_io.specs.declared.fault.LoadFault.TheVariants.{Failed, TooLong, Memory};
ghost use Rattle.apd_base.specs.declared.limits.TheConstants.{MAX_FILE, OVER_MAX_FILE};

use crate::calls::Calls;
use crate::{Files, LoadFault, MAX_FILE};
use apd_base::{Ids, OVER_MAX_FILE, Text};
use std::alloc::{AllocError, Global};
use std::marker::Model;

/// A file in memory.
#[derive(Drop)]
pub struct MemFile {
    pub name: Text,
    pub content: Text,
}

/// Files that are kept in memory, whose loads of given numbers fail.
///
/// In contracts it is the list of its files, with its calls.
#[derive(Drop)]
pub struct MemFiles {
    alloc: Global,
    files: Vec<MemFile>,
    calls: Calls,
}

impl Model for MemFiles {
    ghost Value = { Shelf };

    ghost view = { λ m. record { files = m.files.items; calls = m.calls } };
}

impl MemFiles {
    /// No file. `failing` lists the numbers of the loads that fail, from 1.
    pub fn new(alloc: Global, failing: Ids) -> MemFiles
        ensures { result ≡ record { files = []; calls = uncalled failing } }
    {
        MemFiles {
            alloc,
            files: Vec::new(alloc),
            calls: Calls::new(failing),
        }
    }

    /// Puts a file under a name, in place of one that has it.
    ///
    /// # Errors
    ///
    /// Where memory ran out; the files are then as they were.
    pub fn add(&mut self, name: &str, content: Text) -> Result<(), AllocError>
        ensures here { OnOk result (content_of self.new.files name.now ≡ Some content) }
        ensures others { OnOk result ((other : List ℕ) → other ≢ name.now →
            content_of self.new.files other ≡ content_of self.old.files other) }
        ensures calls { self.new.calls ≡ self.old.calls }
        ensures err { OnErr result (self.new ≡ self.old) }
    {
        match place_of(&self.files, name.as_bytes()) {
            Some(i) => self.files[i].content = content,
            None => {
                let name = Text::copy_of(self.alloc, name.as_bytes())?;
                self.files.push(MemFile { name, content })?;
            }
        }
        Ok(())
    }
}

impl Files for MemFiles {
    ghost content = { λ m. content_of m.files };

    ghost faults = { λ m. m.calls.faults };

    ghost step = { λ before name after. after ≡ loaded_from before name };

    fn load(&mut self, alloc: Global, name: &str) -> Result<Text, LoadFault>
        ensures whole { IfOk result (λ text. Tells (content_of self.old.files name.now) text) }
        ensures bound { IfOk result (λ text. length text ≤ MAX_FILE) }
        ensures number { IfErr result (λ e. (n : _) → e ≡ TooLong n → n ≡ OVER_MAX_FILE) }
        ensures long { IfErr result (λ e. (n : _) → e ≡ TooLong n →
            TellsLong (content_of self.old.files name.now)) }
        ensures same { content_of self.new.files ≡ content_of self.old.files }
        ensures step { self.new ≡ loaded_from self.old name.now }
        ensures cause { Counts is_load_fault self.old.calls.faults self.new.calls.faults result }
        ensures fails { IsErrOf result Failed ↔
            IsTrue (is_due self.old.calls || is_none (content_of self.old.files name.now)) }
        ensures counted { self.new.calls ≡ called self.old.calls (is_failed result) }
    {
        if self.calls.begin() {
            self.calls.fail();
            return Err(LoadFault::Failed);
        }
        let Some(content) = find_content(&self.files, name.as_bytes()) else {
            self.calls.fail();
            return Err(LoadFault::Failed);
        };
        copy_content(alloc, content)
    }
}

// The place of the first file of this name.
fn place_of(files: &[MemFile], name: &[u8]) -> Option<usize>
    ensures { MatchOption result (content_of files.now name.now ≡ None)
        (IsPlaceOf files.now name.now) }
{
    for (i, file) in files.iter().enumerate() {
        if file.name.bytes() == name {
            return Some(i);
        }
    }
    None
}

// The content of the file of this name.
fn find_content<'a>(files: &'a [MemFile], name: &[u8]) -> Option<&'a Text>
    ensures { MatchOption result (content_of files.now name.now ≡ None)
        (λ text. content_of files.now name.now ≡ Some text.now) }
{
    for file in files {
        if file.name.bytes() == name {
            return Some(&file.content);
        }
    }
    None
}

// A copy of a content that isn't too long.
fn copy_content(alloc: Global, content: &Text) -> Result<Text, LoadFault>
    ensures ok { IfOk result (λ text. (text ≡ content.now) × (length text ≤ MAX_FILE)) }
    ensures err { IfErr result (λ e. (e ≡ Memory) ⊎
        ((e ≡ TooLong OVER_MAX_FILE) × (MAX_FILE < length content.now))) }
{
    if content.len() > MAX_FILE {
        return Err(LoadFault::TooLong(OVER_MAX_FILE));
    }
    match Text::copy_of(alloc, content.bytes()) {
        Ok(text) => Ok(text),
        Err(_) => Err(LoadFault::Memory),
    }
}
