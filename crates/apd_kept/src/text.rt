//! The text of what is known.

ghost use Rattle.std.specs.Prelude.{◌≡◌, ◌<◌, ◌≤◌, ◌++◌, flat_map, length, slice_get, IfOk, IfSome, OnErr, OnOk};
ghost use Rattle.std.specs.List.{AllByRecursion};
ghost use Rattle.apd_term.specs.declared.term.Pred.{Pred};
ghost use Rattle.apd_known.specs.declared.file.Stated.{Stated};
ghost use Rattle.apd_kept.specs.Law.{CanReadBack, ReadsBackAs};
ghost use Rattle.apd_answers.specs.declared.store.Pair.{Pair};
ghost use Rattle.apd_kept.specs.Kept.{known_text, line_of, pair_line, pair_term, trust_line};
ghost use Rattle.apd_reading_back.specs.Law.{IsInRange};

use crate::ranges::is_in_range;
use crate::statements::{pair_term, trust_term};
use apd_answers::Answers;
use apd_base::Text;
use apd_ops::{MOST_PRIORITY, Ops};
use apd_term::names::Names;
use apd_term::{Flat, Pred};
use apd_write::write_term;
use std::alloc::{AllocError, Global};

/// A statement in a line of its own.
fn line_of(alloc: Global, ops: &Ops, names: &Names, statement: &Flat) -> Result<Text, AllocError>
    ensures { IfOk result (λ t. t ≡ line_of ops.now names.now statement.now) }
{
    let mut text = Text::new(alloc);
    write_term(alloc, ops, names, statement, MOST_PRIORITY, &mut text)?;
    text.extend(b" .\n")?;
    Ok(text)
}

/// The line of a predicate that is trusted.
fn trust_line(alloc: Global, ops: &Ops, names: &Names, pred: Pred) -> Result<Text, AllocError>
    ensures { IfOk result (λ t. t ≡ trust_line ops.now names.now pred) }
{
    let statement = trust_term(alloc, pred)?;
    line_of(alloc, ops, names, &statement)
}

/// The line of the reply at a place, counted from 0; the numbers of its statement are those of symbols.
fn pair_line(
    alloc: Global,
    ops: &Ops,
    names: &Names,
    answers: &Answers,
    i: usize,
) -> Result<Text, AllocError>
    requires { i < length answers.now.pairs }
    ensures line { IfOk result (λ t. IfSome (slice_get answers.now.pairs i)
        (λ (p : Pair). t ≡ pair_line ops.now names.now p)) }
    ensures range { OnOk result (IfSome (slice_get answers.now.pairs i)
        (λ (p : Pair). IsInRange (pair_term p))) }
{
    let statement = pair_term(alloc, answers.question(i), answers.reply(i))?;
    is_in_range(&statement);
    line_of(alloc, ops, names, &statement)
}

/// Adds the lines of predicates that are trusted.
fn add_trust(
    alloc: Global,
    ops: &Ops,
    names: &Names,
    preds: &[Pred],
    out: &mut Text,
) -> Result<(), AllocError>
    ensures { OnOk result
        (out.new ≡ out.old ++ flat_map (trust_line ops.now names.now) preds.now) }
{
    'preds: for pred in preds {
        let line = trust_line(alloc, ops, names, *pred)?;
        out.extend(line.bytes())?;
    }
    Ok(())
}

/// Adds the lines of replies; the numbers of their statements are those of symbols.
fn add_pairs(
    alloc: Global,
    ops: &Ops,
    names: &Names,
    answers: &Answers,
    out: &mut Text,
) -> Result<(), AllocError>
    ensures lines { OnOk result
        (out.new ≡ out.old ++ flat_map (pair_line ops.now names.now) answers.now.pairs) }
    ensures range { OnOk result
        (AllByRecursion (λ (p : Pair). IsInRange (pair_term p)) answers.now.pairs) }
{
    'pairs: for i in 0..answers.len() {
        let line = pair_line(alloc, ops, names, answers, i)?;
        out.extend(line.bytes())?;
    }
    Ok(())
}

/// The text by itself; the numbers of the replies' statements are those of symbols.
#[tactic(auto, unfolding(crate::specs::Kept::known_text))]
fn whole_text(
    alloc: Global,
    answers: &Answers,
    ops: &Ops,
    names: &Names,
) -> Result<Text, AllocError>
    ensures text { IfOk result (λ t. t ≡ known_text ops.now names.now answers.now) }
    ensures range { OnOk result
        (AllByRecursion (λ (p : Pair). IsInRange (pair_term p)) answers.now.pairs) }
{
    let mut text = Text::copy_of(alloc, b"form(2) .\n")?;
    add_trust(alloc, ops, names, answers.trusted().as_slice(), &mut text)?;
    add_pairs(alloc, ops, names, answers, &mut text)?;
    Ok(text)
}

/// The number of arguments is at most 255.
fn has_arity(pred: Pred)
    ensures { pred.arity ≤ 255 }
{
    let _arity = pred.arity;
}

/// So is each.
fn have_arities(preds: &[Pred])
    ensures { AllByRecursion (λ (p : Pred). p.arity ≤ 255) preds.now }
{
    'preds: for i in 0..preds.len() {
        has_arity(preds[i]);
    }
}

/// The text reads back, where the numbers of the replies' statements are those of symbols.
fn reads_back(answers: &Answers, ops: &Ops, names: &Names)
    ensures { AllByRecursion (λ (p : Pair). IsInRange (pair_term p)) answers.now.pairs →
        CanReadBack ops.now names.now answers.now →
        (s : Stated) × ReadsBackAs ops.now names.now answers.now s }
{
    answers.are_once();
    answers.are_trusted_once();
    have_arities(answers.trusted().as_slice());
    ops.has_no_clash();
    let _count = names.count();
}

/// Adds what is known as an oracle file of the second form: a line for each predicate that is trusted, and one for each reply,
/// in the order in which they came. The terms are written by the operators. After want of memory the text is as before.
///
/// What was added, read as an oracle file by the same operators, states the same trust, and the same replies up to the
/// canonical form of their questions, where a file may state each, the names are kept, and no statement's text has a term at
/// level 1,000.
pub fn known_text(
    alloc: Global,
    answers: &Answers,
    ops: &Ops,
    names: &Names,
    out: &mut Text,
) -> Result<(), AllocError>
    ensures text { OnOk result (out.new ≡ out.old ++ known_text ops.now names.now answers.now) }
    ensures same { OnErr result (out.new ≡ out.old) }
    ensures back { OnOk result (CanReadBack ops.now names.now answers.now →
        (s : Stated) × ReadsBackAs ops.now names.now answers.now s) }
{
    let text = whole_text(alloc, answers, ops, names)?;
    reads_back(answers, ops, names);
    out.extend(text.bytes())
}
