//! The store of replies.

ghost use Rattle.std.specs.Prelude.{◌≡◌, ◌<◌, ◌++◌, ◌∷◌, [], false, length, IfOk, IfSome, OnOk, OnErr, slice_get, Some};
ghost use Rattle.apd_answers.specs.declared.store.Pair.{Pair};
ghost use Rattle.std.specs.List.{enumerate_from, list_any};
ghost use Rattle.indexmap.specs.IndexMap.{keys};
ghost use Rattle.apd_term.specs.Matching.{is_instance};
ghost use Rattle.apd_answers.specs.Questions.{with_values, canonical_question, Fits};
ghost use Rattle.apd_answers.specs.declared.question.Question.TheVariants.{True};
ghost use Rattle.apd_answers.specs.Fitting.{AllFit};
ghost use Rattle.apd_answers.specs.Once.{AreListedOnce, AreOnce};
ghost use Rattle.apd_marks.specs.Places.{places_of};
ghost use Rattle.apd_answers.specs.Marks.{mark_of, replied_mark};
ghost use Rattle.apd_answers.specs.Store.{told_of_truth, decided_in, decided, empty_store, with_pair, same_question, is_kept, is_kept_as};
ghost use Rattle.apd_answers.specs.Tellers.{IsFirstTold, IsNarrow, tellers};
ghost use Rattle.apd_term.specs.Term.{predicate_of};
ghost use Rattle.apd_cells.specs.First.{key_of};
ghost use Rattle.apd_ports.specs.Filter.{is_predicate};
ghost use Rattle.apd_answers.specs.Trust.{with_trust};

use crate::kept::{copied, is_kept, marks_of, put_pair, reply_to};
use crate::marks::{mark_of_form, with_reply};
use crate::question::{Question, Reply, is_own_form};
use crate::same::same_question;
use crate::tellers::{
    ANY_ATOM, Teller, VARIABLE, earlier, first_told, is_narrow, mark_of_atoms, reply_in,
};
use apd_cells::first::key_of;
use apd_marks::{Places, with_mark};
use apd_term::{Atoms, Flat, Pred, Preds, Subst, Tuple, apply_tuple, canonical_tuple};
use indexmap::IndexMap;
use std::alloc::{AllocError, Global};
use std::marker::Model;

/// A question and a reply to it.
#[derive(Drop)]
pub struct Pair {
    pub question: Question,
    pub reply: Reply,
}

/// The values with their numbers, from 1.
fn numbered(alloc: Global, values: &Atoms) -> Result<Subst, AllocError>
    ensures { IfOk result (λ s. s ≡ enumerate_from 1 values.now) }
{
    let values = values.as_slice();
    let mut pairs = Subst::new(alloc);
    'values: for i in 0..values.len() {
        pairs.bind(i as u64 + 1, values[i].copy(alloc)?)?;
    }
    Ok(pairs)
}

/// The body in canonical form with these values in place of its variables.
pub fn with_values(alloc: Global, tuple: &Tuple, values: &Atoms) -> Result<Atoms, AllocError>
    ensures { IfOk result (λ body. body ≡ with_values tuple.now values.now) }
{
    let form = canonical_tuple(alloc, tuple)?;
    let pairs = numbered(alloc, values)?;
    Ok(apply_tuple(alloc, &form, &pairs)?.body)
}

/// Whether some substitution makes the general term into the special one.
pub fn is_instance(alloc: Global, special: &Flat, general: &Flat) -> Result<bool, AllocError>
    ensures { IfOk result (λ b. b ≡ is_instance special.now general.now) }
{
    apd_term::is_instance(alloc, special, general)
}

/// Whether the atom is an instance of one of these.
fn is_instance_of_some(alloc: Global, atom: &Flat, terms: &Atoms) -> Result<bool, AllocError>
    ensures { IfOk result (λ b. b ≡ list_any (is_instance atom.now) terms.now) }
{
    'terms: for term in terms.as_slice() {
        if is_instance(alloc, atom, term)? {
            return Ok(true);
        }
    }
    Ok(false)
}

/// What a pair tells of whether an atom is true.
pub(crate) fn told_of_truth(
    alloc: Global,
    pair: &Pair,
    atom: &Flat,
) -> Result<Option<Reply>, AllocError>
    ensures { IfOk result (λ r. r ≡ told_of_truth pair.now.question pair.now.reply atom.now) }
{
    match (&pair.question, &pair.reply) {
        (Question::True(known), Reply::Yes) => {
            let holds = is_instance(alloc, atom, known)?;
            Ok(if holds { Some(Reply::Yes) } else { None })
        }
        (Question::True(known), Reply::No) => {
            let fails = is_instance(alloc, known, atom)?;
            Ok(if fails { Some(Reply::No) } else { None })
        }
        (Question::Covers(tuple), Reply::Values(values)) => {
            let body = with_values(alloc, tuple, values)?;
            let holds = is_instance_of_some(alloc, atom, &body)?;
            Ok(if holds { Some(Reply::Yes) } else { None })
        }
        _ => Ok(None),
    }
}

/// Whether two questions have one canonical form.
pub fn is_same_form(alloc: Global, a: &Question, b: &Question) -> Result<bool, AllocError>
    ensures { IfOk result (λ r. r ≡ same_question (canonical_question a.now)
        (canonical_question b.now)) }
{
    let x = a.canonical(alloc)?;
    let y = b.canonical(alloc)?;
    Ok(same_question(&x, &y))
}

/// The reply of the first of the pairs that tells whether the atom is true.
fn truth_decided(alloc: Global, pairs: &[Pair], atom: &Flat) -> Result<Option<Reply>, AllocError>
    ensures { IfOk result (λ r. r ≡ decided_in pairs.now (Question.True atom.now)) }
{
    'pairs: for pair in pairs {
        if let Some(reply) = told_of_truth(alloc, pair, atom)? {
            return Ok(Some(reply));
        }
    }
    Ok(None)
}

/// Puts a predicate at the end of a list, and of the set that has the same; after want of memory both are as before.
fn put_both(
    trusted: &mut Preds,
    listed: &mut IndexMap<Pred, ()>,
    pred: Pred,
) -> Result<(), AllocError>
    requires same { keys listed.old ≡ trusted.old }
    requires unlisted { list_any (is_predicate (Some pred)) trusted.old ≡ false }
    ensures same { keys listed.new ≡ trusted.new }
    ensures ok { OnOk result (trusted.new ≡ trusted.old ++ pred ∷ []) }
    ensures err { OnErr result (trusted.new ≡ trusted.old) }
{
    listed.reserve(1)?;
    trusted.push(pred)?;
    let _listed = listed.insert(pred, ());
    Ok(())
}

/// The replies that were given, each with its question, in the order in which they came, and the predicates that are trusted.
/// Contracts see the store.
#[derive(Drop)]
pub struct Answers {
    alloc: Global,
    pairs: Vec<Pair>,
    /// The places of the pairs by their marks, which those with one question share.
    places: Places,
    /// The places of the pairs by marks that those with one question and one reply share.
    replied: Places,
    /// The places of the pairs by the marks of the atoms that they may tell of.
    tellers: Places,
    trusted: Preds,
    /// The predicates that are trusted, to look them up: the keys of a map of no values, as the names are.
    listed: IndexMap<Pred, ()>,
}

impl Model for Answers {
    ghost use Rattle.std.specs.Prelude.{◌≡◌};
    ghost use Rattle.indexmap.specs.IndexMap.{keys};
    ghost use Rattle.apd_answers.specs.Codes.{store_code};
    ghost use Rattle.apd_answers.specs.Fitting.{AllFitIn};
    ghost use Rattle.apd_marks.specs.Places.{IsIndexOf};
    ghost use Rattle.apd_answers.specs.Marks.{mark_of, replied_mark};
    ghost use Rattle.apd_answers.specs.Once.{AreListedOnce, AreOnce};
    ghost use Rattle.apd_answers.specs.Store.{Store};
    ghost use Rattle.apd_answers.specs.Tellers.{telling_of};

    ghost Value = { Store };

    ghost coded = { store_code };

    ghost view = { λ a. record { pairs = a.pairs.items; trusted = a.trusted } };

    ghost invariant = { λ a. AllFitIn a.pairs.items × IsIndexOf mark_of a.pairs.items a.places
        × AreOnce a.pairs.items × IsIndexOf telling_of a.pairs.items a.tellers × AreListedOnce a.trusted
        × IsIndexOf replied_mark a.pairs.items a.replied × (keys a.listed ≡ a.trusted) };
}

impl Answers {
    /// The store without pairs and without trust.
    pub fn new(alloc: Global) -> Answers
        ensures { result ≡ empty_store }
    {
        Answers {
            alloc,
            pairs: Vec::new(alloc),
            places: IndexMap::new(alloc),
            replied: IndexMap::new(alloc),
            tellers: IndexMap::new(alloc),
            trusted: Preds::new(alloc),
            listed: IndexMap::new(alloc),
        }
    }

    /// The places of the pairs with this mark, in order.
    fn places_of(&self, mark: u64) -> &[usize]
        ensures { result.now ≡ places_of mark_of mark self.now.pairs }
    {
        with_mark(&self.places, mark)
    }

    /// The places of the pairs with this mark of a question and a reply, in order.
    fn replied_of(&self, mark: u64) -> &[usize]
        ensures { result.now ≡ places_of replied_mark mark self.now.pairs }
    {
        with_mark(&self.replied, mark)
    }

    /// The first of the pairs with this mark that tells whether the atom is true.
    fn first_with(&self, mark: u64, atom: &Flat) -> Result<Option<Teller>, AllocError>
        ensures { IfOk result (IsFirstTold self.now.pairs atom.now (tellers mark self.now.pairs)) }
    {
        let places = with_mark(&self.tellers, mark);
        first_told(self.alloc, self.pairs.as_slice(), places, atom)
    }

    /// What the first pair tells that tells whether the atom is true; only few are looked at.
    fn told_of(&self, pred: Pred, atom: &Flat) -> Result<Option<Reply>, AllocError>
        requires pred { predicate_of atom.now ≡ Some pred }
        requires narrow { IsNarrow pred (key_of atom.now) }
        ensures { IfOk result (λ r. r ≡ decided self.now (Question.True atom.now)) }
    {
        let alike = self.first_with(mark_of_atoms(pred, key_of(atom)), atom)?;
        let free = self.first_with(mark_of_atoms(pred, VARIABLE), atom)?;
        let any = self.first_with(ANY_ATOM, atom)?;
        Ok(reply_in(earlier(earlier(alike, free), any)))
    }

    /// What the first pair tells that tells whether the atom is true.
    fn truth_of(&self, atom: &Flat) -> Result<Option<Reply>, AllocError>
        ensures { IfOk result (λ r. r ≡ decided self.now (Question.True atom.now)) }
    {
        match atom.pred() {
            Some(pred) if is_narrow(pred, key_of(atom)) => self.told_of(pred, atom),
            _ => truth_decided(self.alloc, self.pairs.as_slice(), atom),
        }
    }

    /// Each reply fits its question.
    pub fn are_fitting(&self)
        ensures { AllFit self.now }
    {
        let _pairs = &self.pairs;
    }

    /// Each pair is kept once.
    pub fn are_once(&self)
        ensures { AreOnce self.now.pairs }
    {
        let _pairs = &self.pairs;
    }

    /// Each predicate that is trusted is listed once.
    pub fn are_trusted_once(&self)
        ensures { AreListedOnce self.now.trusted }
    {
        let _trusted = &self.trusted;
    }

    /// How many pairs there are.
    pub fn len(&self) -> usize
        ensures { result ≡ length self.now.pairs }
    {
        self.pairs.len()
    }

    /// The question of the pair at a place, counted from 0.
    pub fn question(&self, i: usize) -> &Question
        requires { i < length self.now.pairs }
        ensures { IfSome (slice_get self.now.pairs i) (λ (p : Pair). result.now ≡ p.question) }
    {
        &self.pairs[i].question
    }

    /// The reply of the pair at a place, counted from 0.
    pub fn reply(&self, i: usize) -> &Reply
        requires { i < length self.now.pairs }
        ensures { IfSome (slice_get self.now.pairs i) (λ (p : Pair). result.now ≡ p.reply) }
    {
        &self.pairs[i].reply
    }

    /// The reply of the first pair that decides the question; none exactly where no pair does.
    pub fn find(&self, question: &Question) -> Result<Option<Reply>, AllocError>
        ensures { IfOk result (λ r. r ≡ decided self.now question.now) }
    {
        if let Question::True(atom) = question {
            return self.truth_of(atom);
        }
        let pairs = self.pairs.as_slice();
        let form = question.canonical(self.alloc)?;
        reply_to(
            self.alloc,
            pairs,
            self.places_of(mark_of_form(&form)),
            &form,
        )
    }

    /// Puts a pair at the end, unless it is kept; after want of memory the store is as before.
    pub fn add(&mut self, question: &Question, reply: &Reply) -> Result<(), AllocError>
        requires { Fits question.now reply.now }
        ensures ok { OnOk result (self.new ≡ with_pair self.old question.now reply.now) }
        ensures err { OnErr result (self.new ≡ self.old) }
    {
        if is_own_form(question) {
            return self.add_as(question, question, reply);
        }
        let form = question.canonical(self.alloc)?;
        let added = self.add_as(&form, question, reply);
        // Dropped by a call: else each part of it is a step to check, at each end of the function.
        drop(form);
        added
    }

    /// Adds a pair as [`Answers::add`] does, of a question that has this canonical form.
    fn add_as(
        &mut self,
        form: &Question,
        question: &Question,
        reply: &Reply,
    ) -> Result<(), AllocError>
        requires form { form.now ≡ canonical_question question.now }
        requires fits { Fits question.now reply.now }
        ensures ok { OnOk result (self.new ≡ with_pair self.old question.now reply.now) }
        ensures err { OnErr result (self.new ≡ self.old) }
    {
        let marks = marks_of(form, question, reply);
        let pairs = self.pairs.as_slice();
        let places = self.replied_of(marks.replied);
        let kept = is_kept(self.alloc, pairs, places, form, reply);
        if kept? {
            return Ok(());
        }
        let pair = copied(self.alloc, question, reply)?;
        put_pair(
            self.alloc,
            &mut self.pairs,
            &mut self.places,
            &mut self.replied,
            &mut self.tellers,
            marks,
            pair,
        )?;
        Ok(())
    }

    /// Whether a pair with this reply, and with a question that has the same canonical form, is kept.
    pub fn has(&self, question: &Question, reply: &Reply) -> Result<bool, AllocError>
        ensures { IfOk result (λ b. b ≡ is_kept self.now question.now reply.now) }
    {
        if is_own_form(question) {
            return self.has_form(question, reply);
        }
        let form = question.canonical(self.alloc)?;
        self.has_form(&form, reply)
    }

    /// Whether a pair with this reply and this question, which is in canonical form, is kept.
    fn has_form(&self, form: &Question, reply: &Reply) -> Result<bool, AllocError>
        ensures { IfOk result (λ b. b ≡ is_kept_as self.now.pairs form.now reply.now) }
    {
        let places = self.replied_of(with_reply(mark_of_form(form), reply));
        is_kept(self.alloc, self.pairs.as_slice(), places, form, reply)
    }

    /// The predicates that are trusted, in the order in which they came.
    pub fn trusted(&self) -> &Preds
        ensures { result.now ≡ self.now.trusted }
    {
        &self.trusted
    }

    /// Whether the predicate is trusted.
    pub fn trusts(&self, pred: Pred) -> bool
        ensures { result ≡ list_any (is_predicate (Some pred)) self.now.trusted }
    {
        self.listed.contains_key(&pred)
    }

    /// Puts a predicate at the end of those that are trusted, unless it is kept; after want of memory the store is as before.
    pub fn trust(&mut self, pred: Pred) -> Result<(), AllocError>
        ensures ok { OnOk result (self.new ≡ with_trust self.old pred) }
        ensures err { OnErr result (self.new ≡ self.old) }
    {
        if self.trusts(pred) {
            return Ok(());
        }
        put_both(&mut self.trusted, &mut self.listed, pred)
    }
}
