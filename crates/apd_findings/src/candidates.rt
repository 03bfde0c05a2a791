//! Whether instances of clauses are candidates by the replies: of which one at least is wrong, if the replies are true.

ghost use Rattle.std.specs.Prelude.{◌≡◌, ◌⊎◌, ◌↔◌, [], IsTrue, IfOk, map};
ghost use Rattle.std.specs.List.{AllByRecursion};
ghost use Rattle.apd_clauses.specs.Clauses.{tuples_of};
ghost use Rattle.apd_answers.specs.Findings.{AreCandidates, AreCandidatesByReplies, IsCandidate, IsHeadAmong, IsTrueWhere};
ghost use Rattle.apd_answers.specs.Trust.{IsGranted};
ghost use Rattle.apd_findings.specs.Deciding.{says_no};
ghost use Rattle.apd_findings.specs.Keys.{AreHeads};

use crate::always::stands;
use crate::granting::is_granted;
use crate::keys::{Keys, key_of_form};
use crate::parted::Parted;
use crate::wrong::is_instance_of;
use apd_arith::Builtin;
use apd_clauses::Program;
use apd_record::Record;
use apd_term::{Flat, Instance};
use indexmap::IndexSet;
use std::alloc::{AllocError, Global};

/// What the body of a candidate may rest on: what the record and the replies grant, and the heads of the instances
/// behind it.
#[derive(Drop)]
struct Support<'a> {
    record: &'a Record,
    answers: &'a Parted,
    /// The instances behind the candidate.
    later: &'a [Instance],
    /// The keys of their heads.
    heads: Keys,
}

/// Whether the atom is a variant of the head of one of the later instances.
fn is_head_among(alloc: Global, support: &Support<'_>, atom: &Flat) -> Result<bool, AllocError>
    requires { AreHeads (map (λ v. v.items) support.now.heads.keys) support.now.later.now }
    ensures { IfOk result (λ b. IsTrue b ↔ IsHeadAmong support.now.later.now atom.now) }
{
    Ok(support.heads.contains(&key_of_form(alloc, atom)?))
}

/// Whether the atom is granted, or a variant of the head of one of the later instances.
fn is_granted_or_later(
    alloc: Global,
    support: &Support<'_>,
    atom: &Flat,
) -> Result<bool, AllocError>
    requires { AreHeads (map (λ v. v.items) support.now.heads.keys) support.now.later.now }
    ensures { IfOk result (λ b. IsTrue b ↔
        (IsGranted support.now.record.now support.now.answers.now atom.now
        ⊎ IsHeadAmong support.now.later.now atom.now)) }
{
    if is_granted(alloc, support.record, support.answers, atom)? {
        return Ok(true);
    }
    is_head_among(alloc, support, atom)
}

/// Whether that is so of the atom, or it is one of a built-in goal and always true.
fn is_supported(alloc: Global, support: &Support<'_>, atom: &Flat) -> Result<bool, AllocError>
    requires { AreHeads (map (λ v. v.items) support.now.heads.keys) support.now.later.now }
    ensures { IfOk result (λ b. IsTrue b ↔
        IsTrueWhere (λ a. IsGranted support.now.record.now support.now.answers.now a
        ⊎ IsHeadAmong support.now.later.now a) atom.now) }
{
    match Builtin::of_atom(atom) {
        Some(_) => stands(alloc, atom),
        None => is_granted_or_later(alloc, support, atom),
    }
}

/// Whether that is so of each of these.
fn are_supported(alloc: Global, support: &Support<'_>, atoms: &[Flat]) -> Result<bool, AllocError>
    requires { AreHeads (map (λ v. v.items) support.now.heads.keys) support.now.later.now }
    ensures { IfOk result (λ b. IsTrue b ↔ AllByRecursion
        (IsTrueWhere (λ a. IsGranted support.now.record.now support.now.answers.now a
        ⊎ IsHeadAmong support.now.later.now a)) atoms.now) }
{
    'atoms: for atom in atoms {
        if !is_supported(alloc, support, atom)? {
            return Ok(false);
        }
    }
    Ok(true)
}

/// Whether an instance is a candidate in front of the later ones.
fn is_candidate(
    alloc: Global,
    program: &Program,
    support: &Support<'_>,
    instance: &Instance,
) -> Result<bool, AllocError>
    requires { AreHeads (map (λ v. v.items) support.now.heads.keys) support.now.later.now }
    ensures { IfOk result (λ b. IsTrue b ↔
        IsCandidate (tuples_of program.now) support.now.record.now support.now.answers.now
        support.now.later.now instance.now) }
{
    if !is_instance_of(alloc, program, instance.clause, &instance.tuple)? {
        return Ok(false);
    }
    are_supported(alloc, support, instance.tuple.body.as_slice())
}

/// Whether each of them is one in front of those behind it. They are looked at from the last one on, and the keys of
/// their heads kept.
fn are_candidates_with<'a>(
    alloc: Global,
    program: &Program,
    support: &mut Support<'a>,
    instances: &'a [Instance],
) -> Result<bool, AllocError>
    requires { support.old.heads.keys ≡ [] }
    ensures { IfOk result (λ b. IsTrue b ↔
        AreCandidates (tuples_of program.now) support.old.record.now support.old.answers.now
        instances.now) }
{
    let mut left = instances.len();
    'instances: while left > 0 {
        let instance = &instances[left - 1];
        support.later = &instances[left..];
        if !is_candidate(alloc, program, support, instance)? {
            return Ok(false);
        }
        let key = key_of_form(alloc, &instance.tuple.head)?;
        support.heads.insert_full(key)?;
        left -= 1;
    }
    Ok(true)
}

/// Whether each of them is one in front of those behind it.
fn are_candidates(
    alloc: Global,
    program: &Program,
    record: &Record,
    answers: &Parted,
    instances: &[Instance],
) -> Result<bool, AllocError>
    ensures { IfOk result (λ b. IsTrue b ↔
        AreCandidates (tuples_of program.now) record.now answers.now instances.now) }
{
    let mut support = Support {
        record,
        answers,
        later: &[],
        heads: IndexSet::new(alloc),
    };
    let found = are_candidates_with(alloc, program, &mut support, instances);
    // Dropped by a call: else each part of it is a step to check, at each end of the loop.
    drop(support);
    found
}

/// Whether the store says no to the head of an instance.
fn is_denied(alloc: Global, answers: &Parted, instance: &Instance) -> Result<bool, AllocError>
    ensures { IfOk result (λ b. b ≡ says_no answers.now instance.now.tuple.head) }
{
    answers.says_no(alloc, &instance.tuple.head)
}

/// Whether the instances are candidates by the replies, for a program and the record of a run.
pub fn are_candidates_by_replies(
    alloc: Global,
    program: &Program,
    record: &Record,
    answers: &Parted,
    instances: &[Instance],
) -> Result<bool, AllocError>
    ensures { IfOk result (λ b. IsTrue b ↔
        AreCandidatesByReplies (tuples_of program.now) record.now answers.now instances.now) }
{
    if instances.len() < 2 {
        return Ok(false);
    }
    if !are_candidates(alloc, program, record, answers, instances)? {
        return Ok(false);
    }
    is_denied(alloc, answers, &instances[0])
}
