//! What a line says whose terms are read.

ghost use Rattle.std.specs.Prelude.{◌≡◌, ◌*◌, ◌≤◌, ◌++◌, codes, IfOk, IfSome, length};
ghost use Rattle.std.specs.Bool.{then_some};
ghost use Rattle.std.specs.Option.{option_and_then};
ghost use Rattle.apd_base.specs.declared.limits.TheConstants.{MOST_CLAUSE_SYMBOLS};
ghost use Rattle.apd_term.specs.Term.{size};
ghost use Rattle.apd_read.specs.Reader.{Reader};
ghost use Rattle.apd_term.specs.Growth.{Grown};
ghost use Rattle.apd_talk.specs.Speech.{Lasting};
ghost use Rattle.apd_text.specs.Named.{EntryIsNamed};
ghost use Rattle.apd_claims.specs.Claims.{claim_as, claim_of, entry_for, framed_claim, is_text, or_garbled, query_claim, run_claim, symptom_claim, told, written};
ghost use Rattle.apd_claims.specs.Forms.{with_newline};
ghost use Rattle.apd_parts.specs.Parts.{if_some};
ghost use Rattle.apd_claims.specs.Reading.{as_clause};
ghost use Rattle.apd_claims.specs.Sayable.{IsSayable};
ghost use Rattle.apd_claims.specs.Texts.{KeepsFew};
ghost use Rattle.apd_claims.specs.declared.claim.Claim.TheVariants.{Garbled};

use crate::claim::Claim;
use crate::entries::entry_for;
use crate::form::LineFrame;
use crate::means::Means;
use crate::reading::{as_clause, read_term, read_whole};
use apd_answers::{Question, Reply};
use apd_base::Text;
use apd_causes::BodyFault;
use apd_clauses::{is_query, query_of};
use apd_read::Read;
use apd_term::Flat;
use apd_term::names::Names;
use apd_text::{Entry, text_of};
use std::alloc::{AllocError, Global};

/// The line and its newline.
pub(crate) fn with_newline(alloc: Global, line: &[u8]) -> Result<Text, AllocError>
    ensures { IfOk result (λ t. t ≡ with_newline line.now) }
{
    let mut text = Text::copy_of(alloc, line)?;
    text.extend(b"\n")?;
    Ok(text)
}

/// Whether the text is the entry's.
fn is_text(means: &Means<'_>, names: &Names, text: &[u8], entry: &Entry) -> Result<bool, AllocError>
    ensures { IfOk result (λ b. b ≡ is_text means.now.ops.now names.now text.now entry.now) }
{
    let mut written = Text::new(means.alloc);
    text_of(means.alloc, entry, names, means.ops, &mut written)?;
    Ok(written.bytes() == text)
}

/// What an entry says.
fn claim_of(entry: Entry) -> Claim
    ensures claim { result ≡ claim_of entry }
    ensures sayable { IsSayable result }
{
    match entry {
        Entry::Question { asked, .. } => Claim::Asks(asked),
        Entry::Replied { reply, .. } => Claim::Replies(reply),
        Entry::Found { finding, line } => Claim::Finds(finding, line),
        Entry::AllDescend { calls } => Claim::Descends(calls),
        other => {
            // Dropped by a call, here and below: else each part of each kind of entry is a step to check.
            drop(other);
            Claim::Nothing
        }
    }
}

/// What the entry says, if that is so.
fn said_if(is_text: bool, entry: Entry) -> Option<Claim>
    ensures claim { result ≡ then_some is_text (claim_of entry) }
    ensures sayable { IfSome result IsSayable }
{
    if !is_text {
        drop(entry);
        return None;
    }
    Some(claim_of(entry))
}

/// What the entry that was read says, if the text is its text.
pub(crate) fn written(
    means: &Means<'_>,
    names: &Names,
    text: &[u8],
    entry: Option<Entry>,
) -> Result<Option<Claim>, AllocError>
    requires { IfSome entry (EntryIsNamed (length names.now)) }
    ensures claim { IfOk result (λ o. Lasting names.now (λ n.
        o ≡ option_and_then (written means.now.ops.now n text.now) entry)) }
    ensures sayable { IfOk result (λ o. IfSome o IsSayable) }
{
    let Some(entry) = entry else {
        return Ok(None);
    };
    match is_text(means, names, text, &entry) {
        Ok(same) => Ok(said_if(same, entry)),
        Err(AllocError) => {
            drop(entry);
            Err(AllocError)
        }
    }
}

/// What is said, where it is the text of an entry.
pub(crate) fn or_garbled(claim: Option<Claim>) -> Claim
    ensures claim { result ≡ or_garbled claim }
    ensures sayable { IfSome claim IsSayable → IsSayable result }
{
    match claim {
        Some(claim) => claim,
        None => Claim::Garbled,
    }
}

/// What the text says where it is the entry's; else it is garbled.
pub(crate) fn claim_as(
    means: &Means<'_>,
    names: &Names,
    text: &[u8],
    entry: Option<Entry>,
) -> Result<Claim, AllocError>
    requires { IfSome entry (EntryIsNamed (length names.now)) }
    ensures claim { IfOk result (λ c. Lasting names.now (λ n.
        c ≡ claim_as means.now.ops.now n text.now entry)) }
    ensures sayable { IfOk result IsSayable }
{
    let claim = written(means, names, text, entry)?;
    Ok(or_garbled(claim))
}

/// The entry of a term that was read.
fn entry_of(
    alloc: Global,
    frame: LineFrame,
    term: Option<Flat>,
) -> Result<Option<Entry>, AllocError>
    ensures { IfOk result (λ e. e ≡ option_and_then (entry_for frame) term) }
{
    match term {
        Some(term) => entry_for(alloc, frame, term),
        None => Ok(None),
    }
}

/// What a line says whose text has a term in it.
pub(crate) fn framed_claim(
    means: &Means<'_>,
    names: &mut Names,
    line: &[u8],
    frame: LineFrame,
    text: &[u8],
) -> Result<Claim, AllocError>
    ensures names { Grown names.old names.new }
    ensures few { KeepsFew names.old names.new }
    ensures claim { IfOk result (λ c. Lasting names.new (λ n. (reader : Reader n) →
        c ≡ framed_claim reader means.now.ops.now line.now frame text.now)) }
    ensures sayable { IfOk result IsSayable }
{
    let term = read_term(means, names, text)?;
    let _count = names.count();
    let whole = with_newline(means.alloc, line)?;
    let entry = entry_of(means.alloc, frame, term)?;
    claim_as(means, names, whole.bytes(), entry)
}

/// That an atom is true, or that it isn't.
fn told(is_true: bool, atom: Flat) -> Claim
    ensures claim { result ≡ told is_true atom }
    ensures sayable { IsSayable result }
{
    let reply = if is_true { Reply::Yes } else { Reply::No };
    Claim::Tells(Question::True(atom), reply)
}

/// What is told of an atom that was read.
fn told_of(is_true: bool, atom: Option<Flat>) -> Claim
    ensures claim { result ≡ if_some atom (told is_true) Garbled }
    ensures sayable { IsSayable result }
{
    match atom {
        Some(atom) => told(is_true, atom),
        None => Claim::Garbled,
    }
}

/// What a symptom says.
pub(crate) fn symptom_claim(
    means: &Means<'_>,
    names: &mut Names,
    is_true: bool,
    text: &[u8],
) -> Result<Claim, AllocError>
    ensures names { Grown names.old names.new }
    ensures few { KeepsFew names.old names.new }
    ensures claim { IfOk result (λ c. Lasting names.new (λ n. (reader : Reader n) →
        c ≡ symptom_claim reader means.now.ops.now is_true text.now)) }
    ensures sayable { IfOk result IsSayable }
{
    let atom = read_term(means, names, text)?;
    Ok(told_of(is_true, atom))
}

/// That a query is run, where a session runs it.
fn query_claim(alloc: Global, read: &Read) -> Result<Claim, AllocError>
    requires { 3 * size read.now.term ≤ MOST_CLAUSE_SYMBOLS }
    ensures claim { IfOk result (λ c. c ≡ query_claim read.now) }
    ensures sayable { IfOk result IsSayable }
{
    if !is_query(&read.term) {
        return Ok(Claim::Garbled);
    }
    match query_of(alloc, read) {
        Ok(query) => Ok(Claim::Runs(query)),
        Err(BodyFault::Memory) => Err(AllocError),
        Err(_) => Ok(Claim::Garbled),
    }
}

/// What is run of what was read.
fn run_of(alloc: Global, read: Option<Read>) -> Result<Claim, AllocError>
    requires { IfSome read (λ r. 3 * size r.term ≤ MOST_CLAUSE_SYMBOLS) }
    ensures claim { IfOk result (λ c. c ≡ if_some read query_claim Garbled) }
    ensures sayable { IfOk result IsSayable }
{
    match read {
        Some(read) => query_claim(alloc, &read),
        None => Ok(Claim::Garbled),
    }
}

/// Goals as a query.
fn as_query(alloc: Global, goals: &[u8]) -> Result<Text, AllocError>
    ensures { IfOk result (λ t. t ≡ codes "?- " ++ as_clause goals.now) }
{
    let clause = as_clause(alloc, goals)?;
    let mut text = Text::copy_of(alloc, b"?- ")?;
    text.extend(clause.bytes())?;
    Ok(text)
}

/// What a line says that tells which goals are run.
pub(crate) fn run_claim(
    means: &Means<'_>,
    names: &mut Names,
    goals: &[u8],
) -> Result<Claim, AllocError>
    ensures names { Grown names.old names.new }
    ensures few { KeepsFew names.old names.new }
    ensures claim { IfOk result (λ c. Lasting names.new (λ n. (reader : Reader n) →
        c ≡ run_claim reader means.now.ops.now goals.now)) }
    ensures sayable { IfOk result IsSayable }
{
    let text = as_query(means.alloc, goals)?;
    let read = read_whole(means, names, text.bytes())?;
    run_of(means.alloc, read)
}
