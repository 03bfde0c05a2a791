//! The line of a call that isn't below its caller, parted at a place.

ghost use Rattle.std.specs.Prelude.{◌≡◌, ◌≤◌, ◌↔◌, None, Some, IfOk, IfSome, IsTrue, MatchOption, length};
ghost use Rattle.std.specs.List.{AllByRecursion};
ghost use Rattle.apd_read.specs.Reader.{Reader};
ghost use Rattle.apd_term.specs.Growth.{Grown};
ghost use Rattle.apd_talk.specs.Speech.{Lasting};
ghost use Rattle.apd_text.specs.Dialogues.{atom_text};
ghost use Rattle.apd_claims.specs.Parting.{IsOld, called_in, caller_at, claim_parted, claim_with, is_callers, is_callers_found, is_callers_said};
ghost use Rattle.apd_claims.specs.Sayable.{IsSayable};
ghost use Rattle.apd_claims.specs.Texts.{KeepsFew};

use crate::calls::called;
use crate::claim::Claim;
use crate::claims::{with_newline, written};
use crate::form::{Calling, LineForm};
use crate::forms::form_in;
use crate::means::Means;
use apd_answers::Finding;
use apd_base::Text;
use apd_ops::{ARGUMENT_PRIORITY, Ops};
use apd_parts::{Led, box_first};
use apd_term::canonical::canonical;
use apd_term::names::Names;
use apd_term::{Flat, Sym};
use apd_text::Entry;
use apd_write::write_term;
use std::alloc::{AllocError, Global};

/// The line of a call that isn't below its caller, of which the text has both atoms.
#[derive(Drop)]
pub struct CallLine {
    /// The goal and its caller, by the numbers.
    pub calling: Calling,
    /// The two atoms, and the number of the call's box between them.
    pub text: Text,
    /// The line and its newline.
    pub whole: Text,
}

/// The text of an atom in canonical form, as an argument.
fn atom_text(alloc: Global, ops: &Ops, names: &Names, atom: &Flat) -> Result<Text, AllocError>
    ensures { IfOk result (λ t. t ≡ atom_text ops.now names.now atom.now) }
{
    let form = canonical(alloc, atom)?;
    let mut text = Text::new(alloc);
    write_term(alloc, ops, names, &form, ARGUMENT_PRIORITY, &mut text)?;
    Ok(text)
}

/// Whether the symbol's name, if it has one, is among the first so many.
fn is_old(symbol: Sym, count: usize) -> bool
    ensures { IsTrue result ↔ IsOld count symbol }
{
    match symbol {
        Sym::Fun(name, _) => (name.0 as usize) < count,
        Sym::Var(_) | Sym::Int(_) => true,
    }
}

/// Whether that is so of each.
fn are_old(symbols: &[Sym], count: usize) -> bool
    ensures { IsTrue result → AllByRecursion (IsOld count) symbols.now }
{
    'symbols: for i in 0..symbols.len() {
        if !is_old(symbols[i], count) {
            return false;
        }
    }
    true
}

/// The text of an atom in canonical form, if all its names are there: then it stays so, whatever names come later.
pub fn lasting_text(
    alloc: Global,
    ops: &Ops,
    names: &Names,
    atom: &Flat,
) -> Result<Option<Text>, AllocError>
    ensures { IfOk result (λ o. IfSome o (λ t. Lasting names.now (λ n.
        t ≡ atom_text ops.now n atom.now))) }
{
    if !are_old(atom.symbols(), names.count()) {
        return Ok(None);
    }
    Ok(Some(atom_text(alloc, ops, names, atom)?))
}

/// Whether the text is that of the caller's atom of a finding.
fn is_callers_found(
    means: &Means<'_>,
    names: &Names,
    text: &[u8],
    finding: &Finding,
) -> Result<bool, AllocError>
    ensures { IfOk result (λ b.
        b ≡ is_callers_found means.now.ops.now names.now text.now finding.now) }
{
    match finding {
        Finding::Violation { caller_atom, .. } => {
            let callers = atom_text(means.alloc, means.ops, names, caller_atom)?;
            Ok(callers.bytes() == text)
        }
        _ => Ok(false),
    }
}

/// That of an entry.
fn is_callers_said(
    means: &Means<'_>,
    names: &Names,
    text: &[u8],
    entry: &Entry,
) -> Result<bool, AllocError>
    ensures { IfOk result (λ b.
        b ≡ is_callers_said means.now.ops.now names.now text.now entry.now) }
{
    match entry {
        Entry::Found { finding, .. } => is_callers_found(means, names, text, finding),
        _ => Ok(false),
    }
}

/// That of an entry, if there is one.
fn is_callers(
    means: &Means<'_>,
    names: &Names,
    text: &[u8],
    entry: &Option<Entry>,
) -> Result<bool, AllocError>
    ensures { IfOk result (λ b. b ≡ is_callers means.now.ops.now names.now text.now entry.now) }
{
    match entry {
        Some(entry) => is_callers_said(means, names, text, entry),
        None => Ok(false),
    }
}

impl CallLine {
    /// The line of a call, if it is one.
    pub fn of(alloc: Global, line: &[u8]) -> Result<Option<CallLine>, AllocError>
        ensures { IfOk result (λ o. o ≡ called_in line.now) }
    {
        match form_in(alloc, line)? {
            LineForm::Call(calling, text) => Ok(Some(CallLine {
                calling,
                text,
                whole: with_newline(alloc, line)?,
            })),
            _ => Ok(None),
        }
    }

    /// How many places there are.
    pub fn places(&self) -> usize
        ensures { result ≡ length self.now.text }
    {
        self.text.bytes().len()
    }

    /// The caller's text, where the words between the two calls stand at this place.
    pub fn caller_at(&self, place: usize) -> Option<&[u8]>
        requires { place ≤ length self.now.text }
        ensures { MatchOption result (caller_at self.now place ≡ None)
            (λ t. caller_at self.now place ≡ Some t.now) }
    {
        match box_first(&self.text.bytes()[place..]) {
            Some(led) => Some(led.rest),
            None => None,
        }
    }

    /// What the line says, if these are its two calls.
    fn claim_with(
        &self,
        means: &Means<'_>,
        names: &mut Names,
        call: &[u8],
        led: &Led<'_>,
    ) -> Result<Option<Claim>, AllocError>
        ensures names { Grown names.old names.new }
        ensures few { KeepsFew names.old names.new }
        ensures claim { IfOk result (λ o. Lasting names.new (λ n. (reader : Reader n) →
            o ≡ claim_with reader means.now.ops.now self.now call.now
            (record { number = led.now.number; rest = led.now.rest.now }))) }
        ensures sayable { IfOk result (λ o. IfSome o IsSayable) }
    {
        let entry = called(means, names, self.calling, call, led)?;
        match is_callers(means, names, led.rest, &entry) {
            Ok(true) => written(means, names, self.whole.bytes(), entry),
            Ok(false) => {
                // Dropped by a call, here and below: else each part of each kind of entry is a step to check.
                drop(entry);
                Ok(None)
            }
            Err(AllocError) => {
                drop(entry);
                Err(AllocError)
            }
        }
    }

    /// What the line says if it is parted at this place.
    pub fn claim_at(
        &self,
        alloc: Global,
        ops: &Ops,
        names: &mut Names,
        place: usize,
    ) -> Result<Option<Claim>, AllocError>
        requires { place ≤ length self.now.text }
        ensures names { Grown names.old names.new }
        ensures few { KeepsFew names.old names.new }
        ensures claim { IfOk result (λ o. Lasting names.new (λ n. (reader : Reader n) →
            o ≡ claim_parted reader ops.now self.now place)) }
        ensures sayable { IfOk result (λ o. IfSome o IsSayable) }
    {
        let text = self.text.bytes();
        let Some(led) = box_first(&text[place..]) else {
            return Ok(None);
        };
        let means = Means { alloc, ops };
        self.claim_with(&means, names, &text[..place], &led)
    }
}
