//! What lines say that list candidates: the one that tells how many they are, and one for each.

ghost use Rattle.std.specs.Prelude.{◌≡◌, ◌<◌, ◌∷◌, [], true, codes, None, Some, IfOk, IfSome, MatchOption, length};
ghost use Rattle.std.specs.List.{AllByRecursion};
ghost use Rattle.std.specs.Option.{option_and_then, option_map};
ghost use Rattle.apd_console.specs.Lines.{lines_of};
ghost use Rattle.apd_read.specs.Reader.{Reader};
ghost use Rattle.apd_term.specs.Growth.{Grown};
ghost use Rattle.apd_term.specs.Named.{TupleIsNamed};
ghost use Rattle.apd_term.specs.declared.instance.Instance.{Instance};
ghost use Rattle.apd_talk.specs.Speech.{Lasting};
ghost use Rattle.apd_parts.specs.Parts.{after, led_by};
ghost use Rattle.apd_claims.specs.Saying.{group_claim, group_entry, group_text, instance_in, instance_with, instances_in, is_candidate};
ghost use Rattle.apd_claims.specs.Sayable.{IsSayable, BeginsWithNone};
ghost use Rattle.apd_claims.specs.Texts.{KeepsFew};

use crate::claim::Claim;
use crate::claims::{claim_as, with_newline};
use crate::entries::tuple_in;
use crate::means::Means;
use crate::reading::read_term;
use apd_answers::Finding;
use apd_base::Text;
use apd_parts::{FirstLine, Led, after, first_line, led_by};
use apd_term::names::Names;
use apd_term::{Flat, Instance, Instances};
use apd_text::Entry;
use std::alloc::{AllocError, Global};

/// The first line of a text, where it is that of a candidate.
fn first_candidate(text: &[u8]) -> Option<FirstLine<'_>>
    ensures line { MatchOption result (BeginsWithNone (lines_of text.now))
        (λ f. (lines_of text.now ≡ f.line.now ∷ lines_of f.rest.now)
        × (is_candidate f.line.now ≡ true)) }
    ensures shorter { IfSome result (λ f. length f.rest.now < length text.now) }
{
    let first = first_line(text)?;
    after(b"candidate: ", first.line)?;
    Some(first)
}

/// The text of a line, with those of the candidates that stand first behind it.
fn group_text(alloc: Global, line: &[u8], rest: &[u8]) -> Result<Text, AllocError>
    ensures { IfOk result (λ t. t ≡ group_text line.now (lines_of rest.now)) }
{
    let mut text = with_newline(alloc, line)?;
    let mut left = rest;
    'lines: loop {
        match first_candidate(left) {
            None => return Ok(text),
            Some(first) => {
                text.extend(first.line)?;
                text.extend(b"\n")?;
                left = first.rest;
            }
        }
    }
}

/// The number of a candidate's clause, and the text behind it.
fn instance_at(line: &[u8]) -> Option<Led<'_>>
    ensures { MatchOption result
        (option_and_then (led_by (codes ": ")) (after (codes "candidate: clause ") line.now) ≡ None)
        (λ a. option_and_then (led_by (codes ": ")) (after (codes "candidate: clause ") line.now)
        ≡ Some (record { number = a.number; rest = a.rest.now })) }
{
    let text = after(b"candidate: clause ", line)?;
    led_by(b": ", text)
}

/// The instance of a clause that was read.
fn instance_of(
    alloc: Global,
    clause: u32,
    term: Option<Flat>,
) -> Result<Option<Instance>, AllocError>
    ensures { IfOk result (λ o. o ≡ option_map (instance_with clause) term) }
{
    let Some(term) = term else {
        return Ok(None);
    };
    let tuple = tuple_in(alloc, &term)?;
    Ok(Some(Instance { clause, tuple }))
}

/// The instance that a candidate's line tells.
fn instance_in(
    means: &Means<'_>,
    names: &mut Names,
    line: &[u8],
) -> Result<Option<Instance>, AllocError>
    ensures names { Grown names.old names.new }
    ensures few { KeepsFew names.old names.new }
    ensures instance { IfOk result (λ o. Lasting names.new (λ n. (reader : Reader n) →
        o ≡ instance_in reader means.now.ops.now line.now)) }
    ensures named { IfOk result (λ o. IfSome o (λ c. TupleIsNamed (length names.new) c.tuple)) }
{
    let Some(led) = instance_at(line) else {
        return Ok(None);
    };
    let term = read_term(means, names, led.rest)?;
    instance_of(means.alloc, led.number, term)
}

/// The instances that the candidates' lines tell which stand first.
fn instances_in(
    means: &Means<'_>,
    names: &mut Names,
    rest: &[u8],
) -> Result<Option<Instances>, AllocError>
    ensures names { Grown names.old names.new }
    ensures few { KeepsFew names.old names.new }
    ensures instances { IfOk result (λ o. Lasting names.new (λ n. (reader : Reader n) →
        o ≡ instances_in reader means.now.ops.now [] (lines_of rest.now))) }
    ensures named { IfOk result (λ o. IfSome o
        (AllByRecursion (λ (c : Instance). TupleIsNamed (length names.new) c.tuple))) }
{
    let mut instances = Instances::new(means.alloc);
    let mut left = rest;
    'lines: loop {
        match first_candidate(left) {
            None => return Ok(Some(instances)),
            Some(first) => {
                let Some(instance) = instance_in(means, names, first.line)? else {
                    return Ok(None);
                };
                instances.push(instance)?;
                left = first.rest;
            }
        }
    }
}

/// The entry of candidates.
fn group_entry(instances: Option<Instances>) -> Option<Entry>
    ensures { result ≡ option_map group_entry instances }
{
    match instances {
        Some(instances) => Some(Entry::Found {
            finding: Finding::Candidates(instances),
            line: 0,
        }),
        None => None,
    }
}

/// What a line says that tells how many candidates follow.
pub(crate) fn group_claim(
    means: &Means<'_>,
    names: &mut Names,
    line: &[u8],
    rest: &[u8],
) -> Result<Claim, AllocError>
    ensures names { Grown names.old names.new }
    ensures few { KeepsFew names.old names.new }
    ensures claim { IfOk result (λ c. Lasting names.new (λ n. (reader : Reader n) →
        c ≡ group_claim reader means.now.ops.now line.now (lines_of rest.now))) }
    ensures sayable { IfOk result IsSayable }
{
    let instances = instances_in(means, names, rest)?;
    let _count = names.count();
    let text = group_text(means.alloc, line, rest)?;
    let entry = group_entry(instances);
    claim_as(means, names, text.bytes(), entry)
}
