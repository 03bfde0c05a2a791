//! Why loading stops before the end of a text.

use apd_causes::{BodyFault, LoadCause, OpCause, ReadFault, TokenFault};
use apd_ops::OpFault;
use std::alloc::AllocError;

/// Why loading stops; the line is told elsewhere.
#[derive(Clone, Copy)]
pub(crate) enum Stop {
    /// The text is refused for this cause.
    Cause(LoadCause),
    /// There was no memory.
    Memory,
}

impl From<AllocError> for Stop {
    fn from(_: AllocError) -> Self {
        Stop::Memory
    }
}

impl From<TokenFault> for Stop {
    fn from(fault: TokenFault) -> Self {
        match fault {
            TokenFault::Memory => Stop::Memory,
            _ => Stop::Cause(LoadCause::Token(fault)),
        }
    }
}

impl From<ReadFault> for Stop {
    fn from(fault: ReadFault) -> Self {
        match fault {
            ReadFault::Memory => Stop::Memory,
            _ => Stop::Cause(LoadCause::Read(fault)),
        }
    }
}

impl From<OpCause> for Stop {
    fn from(cause: OpCause) -> Self {
        Stop::Cause(LoadCause::Op(cause))
    }
}

impl From<OpFault> for Stop {
    fn from(fault: OpFault) -> Self {
        match fault {
            OpFault::BadPriority => Stop::from(OpCause::BadPriority),
            OpFault::Fixed => Stop::from(OpCause::Fixed),
            OpFault::Clash => Stop::from(OpCause::Clash),
            OpFault::Memory => Stop::Memory,
        }
    }
}

impl From<BodyFault> for Stop {
    fn from(fault: BodyFault) -> Self {
        match fault {
            BodyFault::Memory => Stop::Memory,
            _ => Stop::Cause(LoadCause::Body(fault)),
        }
    }
}
