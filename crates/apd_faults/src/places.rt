//! Where faults and causes are in a text.

ghost use Rattle.std.specs.Prelude.{◌≡◌};
ghost use Rattle.apd_faults.specs.Places.{cause_place, read_place, token_place};

use apd_causes::{LoadCause, ReadFault, TokenFault};

/// The byte that the fault is at.
pub fn token_place(fault: TokenFault) -> Option<u32>
    ensures { result ≡ token_place fault }
{
    match fault {
        TokenFault::NotUtf8(at)
        | TokenFault::BadChar(at)
        | TokenFault::OpenQuote(at)
        | TokenFault::OpenComment(at)
        | TokenFault::BadEscape(at)
        | TokenFault::NumberTooWide(at)
        | TokenFault::FloatLiteral(at) => Some(at),
        TokenFault::Memory => None,
    }
}

/// The byte that the fault is at.
pub fn read_place(fault: ReadFault) -> Option<u32>
    ensures { result ≡ read_place fault }
{
    match fault {
        ReadFault::NoTerm(at)
        | ReadFault::Priority(at)
        | ReadFault::Unclosed(at)
        | ReadFault::Stray(at)
        | ReadFault::NoEnd(at)
        | ReadFault::ArityOver(at)
        | ReadFault::Wide(at)
        | ReadFault::TooDeep(at) => Some(at),
        ReadFault::Memory => None,
    }
}

/// The byte that the cause is at, where it has a place.
pub fn cause_place(cause: LoadCause) -> Option<u32>
    ensures { result ≡ cause_place cause }
{
    match cause {
        LoadCause::Token(fault) => token_place(fault),
        LoadCause::Read(fault) => read_place(fault),
        LoadCause::Op(_) | LoadCause::Body(_) | LoadCause::ClausesOver => None,
    }
}
