//! The calls that a run was within.

ghost use Rattle.std.specs.Prelude.{◌≡◌, ℕ, IfOk, IfErr};
ghost use Rattle.apd_symptoms.specs.Chains.{stopped_chain};
ghost use Rattle.apd_text.specs.Named.{RefusalIsNamed};

use apd_base::Ids;
use apd_causes::RunEnd;
use apd_record::Record;
use apd_text::Refusal;
use std::alloc::AllocError;

/// The calls that a run was within when its limit on ports ended it, or why no run without end is diagnosed.
///
/// The refusals, looked for in this order: [`Refusal::NotStopped`] where the run ended otherwise, and [`Refusal::NoChain`]
/// where it was within fewer than two calls.
///
/// # Errors
///
/// Where there was no memory.
pub fn stopped_chain(history: &Record, end: RunEnd) -> Result<Result<Ids, Refusal>, AllocError>
    ensures chain { IfOk result (λ r. r ≡ stopped_chain history.now end) }
    ensures named { (n : ℕ) → IfOk result (λ r. IfErr r (RefusalIsNamed n)) }
{
    if end != RunEnd::Budget {
        return Ok(Err(Refusal::NotStopped));
    }
    let calls = history.chain()?;
    if calls.len() < 2 {
        return Ok(Err(Refusal::NoChain));
    }
    Ok(Ok(calls))
}
