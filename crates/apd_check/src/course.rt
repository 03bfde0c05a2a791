//! The course of a log: what its lines tell so far, and whether the calls of the last run's chain were found to descend.
//!
//! What descends by the replies so far does so by later ones too. So it is decided once for a run, however many lines say it.

ghost use Rattle.std.specs.Prelude.{◌≡◌, if◌then◌else◌, None, Some, IfOk, IfSome, MatchOption};
ghost use Rattle.apd_claims.specs.Sayable.{IsSayable};
ghost use Rattle.apd_claims.specs.declared.claim.Claim.TheVariants as claims;
ghost use Rattle.apd_check.specs.Checked.{first_state};
ghost use Rattle.apd_check.specs.Steps.{GoesOn, IsKept, KnowsDescent, is_of_run};

use crate::checked::Why;
use crate::judging::judge_descent;
use crate::state::LogState;
use apd_answers::Answers;
use apd_claims::Claim;
use apd_clauses::Program;
use std::alloc::{AllocError, Global};

/// What the lines so far tell, and of how many calls the last run's chain is, if they are known to descend.
#[derive(Drop)]
pub(crate) struct LogCourse {
    pub state: LogState,
    pub descent: Option<u32>,
}

/// Whether a line tells of a run, or of its end.
fn is_of_run(claim: &Claim) -> bool
    ensures { result ≡ is_of_run claim.now }
{
    match claim {
        Claim::Runs(_) | Claim::Ends(_) => true,
        _ => false,
    }
}

/// How many calls are said to descend, if that is said.
fn descent_said(claim: &Claim) -> Option<u32>
    ensures { IfSome result (λ calls. claim.now ≡ claims.Descends calls) }
{
    match claim {
        Claim::Descends(calls) => Some(*calls),
        _ => None,
    }
}

/// What is known of the chain behind a line that says this: nothing more where it tells of a run.
fn known_after(claim: &Claim, known: Option<u32>) -> Option<u32>
    ensures { result ≡ (if is_of_run claim.now then None else known) }
{
    if is_of_run(claim) {
        return None;
    }
    known
}

/// So many calls are known to descend, where that was judged to be good.
fn known_by(judged: Option<Why>, calls: u32) -> Option<u32>
    ensures { MatchOption judged (result ≡ Some calls) (λ w. result ≡ None) }
{
    match judged {
        None => Some(calls),
        Some(_) => None,
    }
}

impl LogCourse {
    /// Nothing was run or asked yet, and this is known.
    pub(crate) fn first(alloc: Global, known: Answers) -> Result<LogCourse, AllocError>
        ensures { IfOk result (λ c. (c.state ≡ first_state known) × (c.descent ≡ None)) }
    {
        Ok(LogCourse {
            state: LogState::first(alloc, known)?,
            descent: None,
        })
    }

    /// So many calls are said to descend.
    fn descend(
        &mut self,
        alloc: Global,
        program: &Program,
        calls: u32,
    ) -> Result<Option<Why>, AllocError>
        requires { KnowsDescent program.now self.old.state self.old.descent }
        ensures { IfOk result (GoesOn program.now self.old (claims.Descends calls) self.new) }
    {
        if let Some(known) = self.descent {
            if known == calls {
                return Ok(None);
            }
            return Ok(Some(Why::Finding));
        }
        let judged = judge_descent(alloc, program, &self.state, calls)?;
        self.descent = known_by(judged, calls);
        Ok(judged)
    }

    /// A line says this: what is told with it, or why it isn't good.
    pub(crate) fn take(
        &mut self,
        alloc: Global,
        program: &Program,
        claim: Claim,
    ) -> Result<Option<Why>, AllocError>
        requires kept { IsKept self.old.state }
        requires known { KnowsDescent program.now self.old.state self.old.descent }
        requires sayable { IsSayable claim }
        ensures { IfOk result (GoesOn program.now self.old claim self.new) }
    {
        if let Some(calls) = descent_said(&claim) {
            // Dropped by a call: else each part of each kind of claim is a step to check.
            drop(claim);
            return self.descend(alloc, program, calls);
        }
        self.descent = known_after(&claim, self.descent);
        self.state.take(alloc, program, claim)
    }
}
