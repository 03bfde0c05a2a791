//! What is still to be written.

use apd_term::NameId;

/// Where the next term stands, with the greatest priority that it may have there.
#[derive(Clone, Copy)]
pub(crate) enum TermPlace {
    /// An argument of a function, with so many further ones behind it. Only where the argument has
    /// arguments itself does that become a frame.
    Argument(u8),
    /// A list's element or tail, or all of a text or of a bracket.
    Whole(u16),
    /// The left operand of an infix operator, or the operand of a prefix operator.
    Left(u16),
    /// The right operand of an infix operator.
    Right(u16),
    /// The rest of a list, behind an element.
    Rest,
}

/// What stands behind the term that is written.
#[derive(Clone, Copy)]
pub(crate) enum PendingFrame {
    /// So many further arguments, and the closing parenthesis.
    Arguments(u8),
    /// The rest of a list.
    Rest,
    /// The bracket that closes a list.
    ListEnd,
    /// The closing brace.
    CurlyEnd,
    /// The closing parenthesis.
    ParenthesisEnd,
    /// An infix operator, and its right operand for this priority.
    Right { name: NameId, max: u16 },
}
