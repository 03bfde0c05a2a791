//! A store, with what its pairs say of atoms and of calls, to be looked up.
//!
//! A store looks up the first pair that decides a question; what counts for a finding is whether some pair gives one reply. So the
//! atoms that replies affirm and those that they deny are kept in indexes, and what was said of calls by the calls' numbers.

ghost use Rattle.std.specs.Prelude.{◌≡◌, ◌↔◌, ◌∷◌, [], List, IfOk, IsTrue, MatchOption, OnOk};
ghost use Rattle.apd_term.specs.Canonical.{canonical};
ghost use Rattle.apd_answers.specs.Findings.{Apart};
ghost use Rattle.apd_answers.specs.Questions.{Fits};
ghost use Rattle.apd_answers.specs.Store.{with_pair, with_pair_in};
ghost use Rattle.apd_answers.specs.declared.question.Question.TheVariants.{Below};
ghost use Rattle.apd_findings.specs.Deciding.{says_below, says_no, says_uncovered, says_yes};
ghost use Rattle.apd_answers.specs.declared.store.Pair.{Pair};
ghost use Rattle.apd_findings.specs.Ordering.{AreOrders, HasLists};
ghost use Rattle.apd_findings.specs.Parted.{AreAffirmed, AreDenied, affirmed_by, denied_by};

use crate::orders::Orders;
use apd_answers::{Answers, Question, Reply, with_values};
use apd_index::{Generals, Specials};
use apd_term::{Atoms, Flat, Tuple};
use std::alloc::{AllocError, Global};
use std::marker::Model;

/// What pairs say of atoms and of calls.
#[derive(Drop)]
struct Parts {
    alloc: Global,
    /// The atoms that are true, with their instances.
    affirmed: Generals,
    /// The atoms that aren't.
    denied: Specials,
    orders: Orders,
}

/// No pairs.
fn no_parts(alloc: Global) -> Parts
    ensures affirmed { AreAffirmed [] result.affirmed }
    ensures denied { AreDenied [] result.denied }
    ensures orders { AreOrders [] result.orders }
{
    Parts {
        alloc,
        affirmed: Generals::new(alloc),
        denied: Specials::new(alloc),
        orders: Orders::new(alloc),
    }
}

/// The atoms of which a reply to a question says that they are true.
fn affirmed_by(alloc: Global, question: &Question, reply: &Reply) -> Result<Atoms, AllocError>
    ensures { IfOk result (λ atoms. atoms ≡ affirmed_by question.now reply.now) }
{
    match (question, reply) {
        (Question::True(atom), Reply::Yes) => {
            let mut atoms = Atoms::new(alloc);
            atoms.push(atom.copy(alloc)?)?;
            Ok(atoms)
        }
        (Question::Covers(body), Reply::Values(values)) => with_values(alloc, body, values),
        _ => Ok(Atoms::new(alloc)),
    }
}

/// Puts the atoms that a pair affirms.
fn affirm(
    alloc: Global,
    affirmed: &mut Generals,
    question: &Question,
    reply: &Reply,
) -> Result<(), AllocError>
    ensures { OnOk result ((pairs : List Pair) → AreAffirmed pairs affirmed.old
        → AreAffirmed (with_pair_in pairs question.now reply.now) affirmed.new) }
{
    let atoms = affirmed_by(alloc, question, reply)?;
    affirmed.put_all(alloc, atoms.as_slice())
}

/// The atom of which a reply to a question says that it isn't true.
fn denied_by<'a>(question: &'a Question, reply: &Reply) -> Option<&'a Flat>
    ensures { MatchOption result (denied_by question.now reply.now ≡ [])
        (λ atom. denied_by question.now reply.now ≡ atom.now ∷ []) }
{
    match (question, reply) {
        (Question::True(atom), Reply::No) => Some(atom),
        _ => None,
    }
}

/// Puts the atom that a pair denies.
fn deny(
    alloc: Global,
    denied: &mut Specials,
    question: &Question,
    reply: &Reply,
) -> Result<(), AllocError>
    ensures { OnOk result ((pairs : List Pair) → AreDenied pairs denied.old
        → AreDenied (with_pair_in pairs question.now reply.now) denied.new) }
{
    match denied_by(question, reply) {
        Some(atom) => denied.put(alloc, atom),
        None => Ok(()),
    }
}

/// Puts what a pair says.
fn put(parts: &mut Parts, question: &Question, reply: &Reply) -> Result<(), AllocError>
    requires lists { HasLists parts.old.orders }
    ensures affirmed { OnOk result ((pairs : List Pair) → AreAffirmed pairs parts.old.affirmed
        → AreAffirmed (with_pair_in pairs question.now reply.now) parts.new.affirmed) }
    ensures denied { OnOk result ((pairs : List Pair) → AreDenied pairs parts.old.denied
        → AreDenied (with_pair_in pairs question.now reply.now) parts.new.denied) }
    ensures orders { OnOk result ((pairs : List Pair) → AreOrders pairs parts.old.orders
        → AreOrders (with_pair_in pairs question.now reply.now) parts.new.orders) }
{
    affirm(parts.alloc, &mut parts.affirmed, question, reply)?;
    deny(parts.alloc, &mut parts.denied, question, reply)?;
    parts.orders.put(question, reply)
}

/// Puts what the pairs of a store say, where nothing was put before.
fn put_pairs(parts: &mut Parts, all: &Answers) -> Result<(), AllocError>
    requires affirmed { AreAffirmed [] parts.old.affirmed }
    requires denied { AreDenied [] parts.old.denied }
    requires orders { AreOrders [] parts.old.orders }
    ensures affirmed { OnOk result (AreAffirmed all.now.pairs parts.new.affirmed) }
    ensures denied { OnOk result (AreDenied all.now.pairs parts.new.denied) }
    ensures orders { OnOk result (AreOrders all.now.pairs parts.new.orders) }
{
    all.are_once();
    'pairs: for i in 0..all.len() {
        put(parts, all.question(i), all.reply(i))?;
    }
    Ok(())
}

/// What the pairs of a store say.
fn parts_of(alloc: Global, all: &Answers) -> Result<Parts, AllocError>
    ensures { IfOk result (λ p. AreAffirmed all.now.pairs p.affirmed
        × (AreDenied all.now.pairs p.denied × AreOrders all.now.pairs p.orders)) }
{
    let mut parts = no_parts(alloc);
    match put_pairs(&mut parts, all) {
        Ok(()) => Ok(parts),
        Err(AllocError) => {
            // Dropped by a call, here and below: else each part of each value is a step to check.
            drop(parts);
            Err(AllocError)
        }
    }
}

/// The question whether the one call is below the other.
fn whether_below(alloc: Global, callee: &Flat, caller: &Flat) -> Result<Question, AllocError>
    ensures { IfOk result (λ q. q ≡ Below callee.now caller.now) }
{
    Ok(Question::Below(callee.copy(alloc)?, caller.copy(alloc)?))
}

/// A store, with what its pairs say. Contracts see the store.
#[derive(Drop)]
pub struct Parted {
    all: Answers,
    parts: Parts,
    /// Whether the parts have what all pairs say, which they may lack after want of memory.
    whole: bool,
}

impl Model for Parted {
    ghost use Rattle.std.specs.Prelude.{◌≡◌, true};
    ghost use Rattle.apd_answers.specs.Codes.{store_code};
    ghost use Rattle.apd_answers.specs.Store.{Store};
    ghost use Rattle.apd_findings.specs.Ordering.{AreOrders};
    ghost use Rattle.apd_findings.specs.Parted.{AreAffirmed, AreDenied};

    ghost Value = { Store };

    ghost coded = { store_code };

    ghost view = { λ a. a.all };

    ghost invariant = { λ a. a.whole ≡ true → AreAffirmed a.all.pairs a.parts.affirmed
        × (AreDenied a.all.pairs a.parts.denied × AreOrders a.all.pairs a.parts.orders) };
}

impl Parted {
    /// The store, with what its pairs say.
    pub fn of(alloc: Global, all: Answers) -> Result<Parted, AllocError>
        ensures { IfOk result (λ p. p ≡ all) }
    {
        let parts = match parts_of(alloc, &all) {
            Ok(parts) => parts,
            Err(AllocError) => {
                drop(all);
                return Err(AllocError);
            }
        };
        Ok(Parted {
            all,
            parts,
            whole: true,
        })
    }

    /// The store.
    pub fn all(&self) -> &Answers
        ensures { result.now ≡ self.now }
    {
        &self.all
    }

    /// Puts a pair at the end, unless it is kept.
    pub fn add(&mut self, question: &Question, reply: &Reply) -> Result<(), AllocError>
        requires { Fits question.now reply.now }
        ensures { OnOk result (self.new ≡ with_pair self.old question.now reply.now) }
    {
        if !self.whole {
            return Err(AllocError);
        }
        self.whole = false;
        self.all.add(question, reply)?;
        put(&mut self.parts, question, reply)?;
        self.whole = true;
        Ok(())
    }

    /// Whether the store says that the atom is true.
    pub fn says_yes(&self, alloc: Global, atom: &Flat) -> Result<bool, AllocError>
        ensures { IfOk result (λ b. b ≡ says_yes self.now atom.now) }
    {
        if !self.whole {
            return Err(AllocError);
        }
        self.parts.affirmed.has_general(alloc, atom)
    }

    /// Whether the store says that the atom isn't true.
    pub fn says_no(&self, alloc: Global, atom: &Flat) -> Result<bool, AllocError>
        ensures { IfOk result (λ b. b ≡ says_no self.now atom.now) }
    {
        if !self.whole {
            return Err(AllocError);
        }
        self.parts.denied.has_special(alloc, atom)
    }

    /// Whether the store says that the body has no solution.
    pub fn says_uncovered(&self, tuple: Tuple) -> Result<bool, AllocError>
        ensures { IfOk result (λ b. b ≡ says_uncovered self.now tuple) }
    {
        let question = Question::Covers(tuple);
        let said = self.all.has(&question, &Reply::No);
        drop(question);
        said
    }

    /// Whether the store says that the one call is below the other.
    pub fn says_below(
        &self,
        alloc: Global,
        callee: &Flat,
        caller: &Flat,
    ) -> Result<bool, AllocError>
        ensures { IfOk result (λ b. b ≡ says_below self.now callee.now caller.now) }
    {
        let question = whether_below(alloc, callee, caller)?;
        let said = self.all.has(&question, &Reply::Yes);
        drop(question);
        said
    }

    /// Computes ahead what tells whether the store says that the atom isn't true, and keeps it. The store stays as it is.
    pub fn prepare_atom(&mut self, atom: &Flat) -> Result<(), AllocError>
        ensures { self.new ≡ self.old }
    {
        self.parts.denied.prepare(self.parts.alloc, atom)
    }

    /// Computes ahead what tells of each call whether it isn't below this one, and keeps it. The store stays as it is.
    pub fn prepare(&mut self, caller: &Flat) -> Result<(), AllocError>
        ensures { self.new ≡ self.old }
    {
        if !self.whole {
            return Ok(());
        }
        self.parts.orders.prepare(caller)
    }

    /// Whether it follows from the store that the one call isn't below the other.
    pub fn is_apart(&self, callee: &Flat, caller: &Flat) -> Result<bool, AllocError>
        requires callee { canonical callee.now ≡ callee.now }
        requires caller { canonical caller.now ≡ caller.now }
        ensures { IfOk result (λ b. IsTrue b ↔ Apart self.now callee.now caller.now) }
    {
        if !self.whole {
            return Err(AllocError);
        }
        self.parts.orders.is_apart(callee, caller)
    }
}
