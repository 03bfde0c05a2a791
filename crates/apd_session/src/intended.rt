//! What the user intends.

use apd_answers::Intended;

/// What whoever runs the program intends. It isn't told, and nothing of it runs: a session is proved for every
/// interpretation, and so for theirs.
#[derive(Clone, Copy)]
pub struct Untold;

impl Intended for Untold {
    ghost use Rattle.apd_session.specs.Headline.{nothing_intended};

    ghost interpretation = { nothing_intended };
}
