//! Pairs that are looked up at the places of a mark.

ghost use Rattle.std.specs.Prelude.{◌≡◌, ◌&&◌, ◌++◌, ◌∷◌, [], length, IfOk, OnErr, OnOk};
ghost use Rattle.apd_answers.specs.Questions.{canonical_question};
ghost use Rattle.apd_marks.specs.Places.{HaveSamePlaces, Notes, places_of};
ghost use Rattle.apd_answers.specs.Marks.{mark_of, mark_of_form, replied_mark, with_reply};
ghost use Rattle.apd_answers.specs.Store.{is_kept_as, reply_to, same_question, same_reply};
ghost use Rattle.apd_answers.specs.Tellers.{telling_mark};

use crate::marks::{PairMarks, mark_of_form, note_all, with_reply};
use crate::question::{Question, Reply};
use crate::same::{same_question, same_reply};
use crate::store::Pair;
use crate::tellers::telling_mark;
use apd_marks::Places;
use std::alloc::{AllocError, Global};

/// Whether the pair's question has this canonical form.
fn has_form(alloc: Global, pair: &Pair, form: &Question) -> Result<bool, AllocError>
    ensures { IfOk result (λ b. b ≡ same_question (canonical_question pair.now.question) form.now) }
{
    let own = pair.question.canonical(alloc)?;
    Ok(same_question(&own, form))
}

/// The reply of the first of the pairs, at the places of their mark, whose question has this canonical form.
pub(crate) fn reply_to(
    alloc: Global,
    pairs: &[Pair],
    places: &[usize],
    form: &Question,
) -> Result<Option<Reply>, AllocError>
    requires { places.now ≡ places_of mark_of (mark_of_form form.now) pairs.now }
    ensures { IfOk result (λ r. r ≡ reply_to pairs.now form.now) }
{
    'places: for place in places {
        let pair = &pairs[*place];
        if has_form(alloc, pair, form)? {
            return Ok(Some(pair.reply.copy(alloc)?));
        }
    }
    Ok(None)
}

/// The marks of a question, which has this canonical form, with a reply.
pub(crate) fn marks_of(form: &Question, question: &Question, reply: &Reply) -> PairMarks
    ensures form { result.form ≡ mark_of_form form.now }
    ensures replied { result.replied ≡ with_reply (mark_of_form form.now) reply.now }
    ensures telling { result.telling ≡ telling_mark question.now }
{
    let mark = mark_of_form(form);
    PairMarks {
        form: mark,
        replied: with_reply(mark, reply),
        telling: telling_mark(question),
    }
}

/// Whether a pair is one with this question, in canonical form, and this reply.
fn is_such(alloc: Global, pair: &Pair, form: &Question, reply: &Reply) -> Result<bool, AllocError>
    ensures { IfOk result (λ b. b ≡ (same_question
        (canonical_question pair.now.question) form.now && same_reply pair.now.reply reply.now)) }
{
    if !same_reply(&pair.reply, reply) {
        return Ok(false);
    }
    has_form(alloc, pair, form)
}

/// Whether a pair with this question, in canonical form, and this reply is kept, at one of the places of their mark.
pub(crate) fn is_kept(
    alloc: Global,
    pairs: &[Pair],
    places: &[usize],
    form: &Question,
    reply: &Reply,
) -> Result<bool, AllocError>
    requires { places.now ≡ places_of replied_mark
        (with_reply (mark_of_form form.now) reply.now) pairs.now }
    ensures { IfOk result (λ b. b ≡ is_kept_as pairs.now form.now reply.now) }
{
    'places: for place in places {
        if is_such(alloc, &pairs[*place], form, reply)? {
            return Ok(true);
        }
    }
    Ok(false)
}

/// A pair of copies.
pub(crate) fn copied(alloc: Global, question: &Question, reply: &Reply) -> Result<Pair, AllocError>
    ensures question { IfOk result (λ p. p.question ≡ question.now) }
    ensures reply { IfOk result (λ p. p.reply ≡ reply.now) }
{
    let question = question.copy(alloc)?;
    match reply.copy(alloc) {
        Ok(reply) => Ok(Pair { question, reply }),
        Err(AllocError) => {
            drop(question);
            Err(AllocError)
        }
    }
}

/// Puts a pair at the end, and its place at each of its marks; after want of memory all is as before.
pub(crate) fn put_pair(
    alloc: Global,
    pairs: &mut Vec<Pair>,
    places: &mut Places,
    replied: &mut Places,
    tellers: &mut Places,
    marks: PairMarks,
    pair: Pair,
) -> Result<(), AllocError>
    ensures ok { OnOk result (pairs.new.items ≡ pairs.old.items ++ pair ∷ []) }
    ensures err { OnErr result (pairs.new.items ≡ pairs.old.items) }
    ensures marked { OnOk result
        (Notes places.old marks.form (length pairs.old.items) places.new) }
    ensures replied { OnOk result
        (Notes replied.old marks.replied (length pairs.old.items) replied.new) }
    ensures telling { OnOk result
        (Notes tellers.old marks.telling (length pairs.old.items) tellers.new) }
    ensures same_places { OnErr result (HaveSamePlaces places.old places.new) }
    ensures same_replied { OnErr result (HaveSamePlaces replied.old replied.new) }
    ensures same_tellers { OnErr result (HaveSamePlaces tellers.old tellers.new) }
{
    let place = pairs.len();
    pairs.push(pair)?;
    if note_all(alloc, places, replied, tellers, marks, place).is_err() {
        drop(pairs.pop());
        return Err(AllocError);
    }
    Ok(())
}
