//! The files of a runtime.

ghost use Rattle.std.specs.Prelude.{◌≡◌, ◌<◌, ◌≤◌, ℕ, take, length, IfOk, IfErr, OnOk, IfSome, None, if◌then◌else◌};
ghost use Rattle.std.specs.Io.KnownBytes.{Consumes, IsAtEnd};
ghost use Rattle.apd_io.specs.Memory.{is_failed};
ghost use Rattle.apd_io.specs.Outside.{Counts, is_load_fault, Tells, TellsLong, risen};
ghost use Rattle.apd_io.specs.Wrapped.{ConsumesCount, CountsLoad};
ghost use Rattle.apd_io.specs.declared.fault.LoadFault.TheVariants.{TooLong};
ghost use Rattle.apd_base.specs.declared.limits.TheConstants.{MAX_FILE, OVER_MAX_FILE};

use crate::{Files, LoadFault, MAX_FILE};
use apd_base::{OVER_MAX_FILE, Text};
use std::alloc::Global;
use std::fs;
use std::io::Read;
use std::marker::Model;

/// How many bytes are read at once.
const CHUNK: usize = 4_096;

/// The files of a runtime, which tell no content.
///
/// In contracts it is the number of its loads that failed.
#[derive(Drop)]
pub struct DiskFiles<'a, R: std::rt::Files> {
    rt: &'a R,
    faults: u64,
}

impl<'a, R: std::rt::Files> Model for DiskFiles<'a, R> {
    ghost use Rattle.apd_io.specs.Wrapped.{Loads};

    ghost Value = { Loads };

    ghost view = { λ d. record { faults = d.faults } };
}

impl<'a, R: std::rt::Files> DiskFiles<'a, R> {
    /// The files of this runtime, without a fault so far.
    pub fn new(rt: &'a R) -> DiskFiles<'a, R>
        ensures { result ≡ record { faults = 0 } }
    {
        DiskFiles { rt, faults: 0 }
    }
}

impl<R: std::rt::Files> Files for DiskFiles<'_, R> {
    ghost content = { λ _ _. None };

    ghost faults = { λ d. d.faults };

    ghost step = { λ before _ after. CountsLoad before after };

    fn load(&mut self, alloc: Global, name: &str) -> Result<Text, LoadFault>
        ensures whole { IfOk result (λ text. Tells None text) }
        ensures bound { IfOk result (λ text. length text ≤ MAX_FILE) }
        ensures number { IfErr result (λ e. (n : ℕ) → e ≡ TooLong n → n ≡ OVER_MAX_FILE) }
        ensures long { IfErr result (λ e. (n : ℕ) → e ≡ TooLong n → TellsLong None) }
        ensures step { CountsLoad self.old self.new }
        ensures cause { Counts is_load_fault self.old.faults self.new.faults result }
        ensures counted { self.new.faults ≡
            (if is_failed result then risen self.old.faults else self.old.faults) }
    {
        match read_file(self.rt, alloc, name) {
            Ok(text) => Ok(text),
            Err(LoadFault::Failed) => {
                self.faults = self.faults.saturating_add(1);
                Err(LoadFault::Failed)
            }
            Err(fault) => Err(fault),
        }
    }
}

// The content of a file, of which no more is read than shows that it is too long.
fn read_file<R: std::rt::Files>(rt: &R, alloc: Global, name: &str) -> Result<Text, LoadFault>
    ensures bound { IfOk result (λ text. length text ≤ MAX_FILE) }
    ensures number { IfErr result (λ e. (n : ℕ) → e ≡ TooLong n → n ≡ OVER_MAX_FILE) }
{
    let Ok(mut file) = fs::open(rt, name) else {
        return Err(LoadFault::Failed);
    };
    read_all(alloc, &mut file)
}

// All that a reader has left, of which no more is read than shows that it is too long.
fn read_all<F: Read>(alloc: Global, file: &mut F) -> Result<Text, LoadFault>
    ensures whole { IfOk result (λ text. Consumes (F.remaining file.old)
        (F.remaining file.new) text) }
    ensures end { OnOk result (IsAtEnd (F.remaining file.new)) }
    ensures bound { IfOk result (λ text. length text ≤ MAX_FILE) }
    ensures number { IfErr result (λ e. (n : ℕ) → e ≡ TooLong n → n ≡ OVER_MAX_FILE) }
    ensures long { IfErr result (λ e. (n : ℕ) → e ≡ TooLong n →
        ConsumesCount (F.remaining file.old) (F.remaining file.new) n) }
{
    let mut text = Text::new(alloc);
    let mut buf = [0u8; CHUNK];
    'chunks: while text.len() <= MAX_FILE {
        let want = (MAX_FILE + 1 - text.len()).min(buf.len());
        let Some(count) = read_part(file, &mut buf, want) else {
            return Err(LoadFault::Failed);
        };
        if count == 0 {
            return Ok(text);
        }
        if text.extend(&buf[..count]).is_err() {
            return Err(LoadFault::Memory);
        }
    }
    Err(LoadFault::TooLong(OVER_MAX_FILE))
}

// Reads at most so many bytes to the front of a buffer, and answers how many.
fn read_part<F: Read>(file: &mut F, buf: &mut [u8], want: usize) -> Option<usize>
    requires some { 0 < want }
    requires room { want ≤ length buf.old }
    ensures len { length buf.new ≡ length buf.old }
    ensures bound { IfSome result (λ n. n ≤ want) }
    ensures consumed { IfSome result (λ n. Consumes (F.remaining file.old) (F.remaining file.new)
        (take n buf.new)) }
    ensures over { IfSome result (λ n. n ≡ 0 → IsAtEnd (F.remaining file.new)) }
{
    match file.read(&mut buf[..want]) {
        Ok(count) => Some(count),
        Err(_) => None,
    }
}
