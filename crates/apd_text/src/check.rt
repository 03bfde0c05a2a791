//! What the check of a written log comes to.

ghost use Rattle.std.specs.Prelude.{◌≡◌, ◌++◌, IfOk, codes};
ghost use Rattle.std.specs.Fmt.{decimal};
ghost use Rattle.apd_text.specs.Entries.{why_name};

use apd_base::Text;
use apd_faults::numbered;
use std::alloc::{AllocError, Global};

/// Why a line of a log isn't good; the first reason that applies is told.
#[derive(Clone, Copy, PartialEq, Eq, Debug)]
pub enum Why {
    /// It begins as one of the lines that are checked, and isn't the text of one.
    Text,
    /// The run doesn't end so, or there is none.
    End,
    /// A reply to no question.
    NoQuestion,
    /// A reply that isn't one to the question.
    Unfit,
    /// A finding that doesn't follow from the replies.
    Finding,
}

/// The word for a reason.
fn why_name(why: Why) -> &'static [u8]
    ensures { result.now ≡ why_name why }
{
    match why {
        Why::Text => b"Text",
        Why::End => b"End",
        Why::NoQuestion => b"NoQuestion",
        Why::Unfit => b"Unfit",
        Why::Finding => b"Finding",
    }
}

/// The line that tells that every line of a log is good.
pub(crate) fn check_holds(alloc: Global, findings: u32) -> Result<Text, AllocError>
    ensures { IfOk result (λ t. t ≡ codes "check: " ++ decimal findings
        ++ codes " findings hold\n") }
{
    numbered(alloc, b"check: ", findings as u64, b" findings hold\n")
}

/// The line that tells of the first line of a log that isn't good.
pub(crate) fn check_fails(alloc: Global, line: u32, why: Why) -> Result<Text, AllocError>
    ensures { IfOk result (λ t. t ≡ codes "check fails: line " ++ decimal line ++ codes ": "
        ++ why_name why ++ codes "\n") }
{
    let mut text = numbered(alloc, b"check fails: line ", line as u64, b": ")?;
    text.extend(why_name(why))?;
    text.extend(b"\n")?;
    Ok(text)
}
