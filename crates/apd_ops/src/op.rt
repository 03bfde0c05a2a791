//! Operators, and why one isn't defined.

ghost use Rattle.std.specs.Prelude.{◌≡◌, IsTrue, ◌↔◌};
ghost use Rattle.apd_ops.specs.Operators.{left_of, right_of, is_prefix_kind, groups_right, groups_left, IsPrefix};

use apd_term::NameId;
use std::alloc::AllocError;

/// Where an operator stands, `f`, and how great the priorities of its operands may be: below the
/// operator's at `x`, at most the operator's at `y`.
#[derive(Clone, Copy, PartialEq, Eq, Debug)]
pub enum OpKind {
    Xfx,
    Xfy,
    Yfx,
    Fx,
    Fy,
}

/// The greatest priority of an operator (ISO/IEC 13211-1 section 6.3.4).
pub const MOST_PRIORITY: u16 = 1200;

/// The greatest priority of an argument, and of a list's element (sections 6.3.3.1 and 6.3.5).
pub const ARGUMENT_PRIORITY: u16 = 999;

/// One meaning of a name as an operator.
#[derive(Clone, Copy)]
pub struct Op {
    pub name: NameId,
    /// From 1 to [`MOST_PRIORITY`].
    pub priority: u16,
    pub kind: OpKind,
}

/// Why an operator isn't defined; the first that holds.
#[derive(Clone, Copy, PartialEq, Eq, Debug)]
pub enum OpFault {
    /// The priority isn't from 0 to [`MOST_PRIORITY`].
    BadPriority,
    /// The name is `,`, the bar, `[]` or `{}`.
    Fixed,
    /// An xfy or fy operator and a yfx operator would have the same priority.
    Clash,
    /// There was no memory left.
    Memory,
}

impl From<AllocError> for OpFault {
    ghost use Rattle.std.specs.Prelude.{◌≡◌};
    ghost use Rattle.apd_ops.specs.declared.op.OpFault.TheVariants.{Memory};

    ghost from_gives = { λ _ e. e ≡ Memory };

    fn from(_: AllocError) -> Self {
        OpFault::Memory
    }
}

impl OpKind {
    /// Whether the operator stands before its operand.
    pub fn is_prefix(self) -> bool
        ensures { result ≡ is_prefix_kind self }
    {
        match self {
            OpKind::Fx | OpKind::Fy => true,
            OpKind::Xfx | OpKind::Xfy | OpKind::Yfx => false,
        }
    }

    /// Whether the operand on the right may have the operator's own priority.
    pub(crate) fn groups_right(self) -> bool
        ensures { result ≡ groups_right self }
    {
        match self {
            OpKind::Xfy | OpKind::Fy => true,
            OpKind::Xfx | OpKind::Yfx | OpKind::Fx => false,
        }
    }

    /// Whether the operand on the left may have the operator's own priority.
    pub(crate) fn groups_left(self) -> bool
        ensures { result ≡ groups_left self }
    {
        match self {
            OpKind::Yfx => true,
            OpKind::Xfx | OpKind::Xfy | OpKind::Fx | OpKind::Fy => false,
        }
    }
}

impl Op {
    /// The greatest priority of its operand on the left.
    pub fn left(self) -> u16
        ensures { result ≡ left_of self }
    {
        match self.kind {
            OpKind::Yfx => self.priority,
            OpKind::Xfx | OpKind::Xfy | OpKind::Fx | OpKind::Fy => self.priority.saturating_sub(1),
        }
    }

    /// The greatest priority of its operand on the right.
    pub fn right(self) -> u16
        ensures { result ≡ right_of self }
    {
        match self.kind {
            OpKind::Xfy | OpKind::Fy => self.priority,
            OpKind::Xfx | OpKind::Yfx | OpKind::Fx => self.priority.saturating_sub(1),
        }
    }

    /// Whether it stands before its operand.
    pub fn is_prefix(self) -> bool
        ensures { IsTrue result ↔ IsPrefix self }
    {
        match self.kind {
            OpKind::Fx | OpKind::Fy => true,
            OpKind::Xfx | OpKind::Xfy | OpKind::Yfx => false,
        }
    }
}
