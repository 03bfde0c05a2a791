//! How a conversation over a console goes on.

use apd_io::Failed;
use std::alloc::AllocError;

/// How a conversation ends.
#[derive(Clone, Copy)]
pub enum Ending {
    /// The input was heard to its end, or to a line that ends the conversation.
    Done,
    /// A read failed.
    ReadFault,
    /// Another byte is needed, and as many as may be were taken.
    InputLimit,
}

/// Why a conversation breaks off: nothing further is printed.
#[derive(Clone, Copy)]
pub enum Trouble {
    /// A write failed.
    WriteFault,
    /// Memory ran out.
    Memory,
}

impl From<AllocError> for Trouble {
    ghost use Rattle.std.specs.Prelude.{◌≡◌};
    ghost use Rattle.apd_talk.specs.declared.talk.Trouble.TheVariants.{Memory};

    ghost from_gives = { λ _ t. t ≡ Memory };

    fn from(_: AllocError) -> Self {
        Trouble::Memory
    }
}

/// What failed is a write: a failed read ends the lines, with a [`apd_console::LineEnd`].
impl From<Failed> for Trouble {
    ghost use Rattle.std.specs.Prelude.{◌≡◌};
    ghost use Rattle.apd_talk.specs.declared.talk.Trouble.TheVariants.{WriteFault};

    ghost from_gives = { λ _ t. t ≡ WriteFault };

    fn from(_: Failed) -> Self {
        Trouble::WriteFault
    }
}

/// What comes after a part of a conversation.
#[derive(Clone, Copy)]
pub enum Next {
    /// It goes on.
    Goes,
    /// It has ended so.
    Ends(Ending),
}
