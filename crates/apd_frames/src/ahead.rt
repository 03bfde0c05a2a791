//! What frames do next, without its terms.

/// What frames do next.
#[derive(Clone, Copy)]
pub enum Ahead {
    /// There is no frame.
    Nothing,
    /// The innermost frame calls a goal.
    Call,
    /// This box exits, at this point.
    Exit(u32, u32),
    /// The query is answered.
    Answer,
}
