//! The way back to the newest branch.

ghost use Rattle.std.specs.Prelude.{◌≡◌, ◌∷◌, [], drop, MatchOption};
ghost use Rattle.apd_frames.specs.Linked.{links_then, notes_then};

use crate::links::Links;
use apd_notes::notes::{Branch, Note, Notes};

/// The exits that were handed behind the newest branch are taken back. Tells this branch, if there is one.
#[inline(always)]
pub fn take_back(links: &mut Links, notes: &mut Notes) -> Option<Branch>
    ensures links { links.new ≡ links_then links.old notes.old }
    ensures notes { notes.new ≡ notes_then notes.old }
    ensures branch { MatchOption result
        (notes.new ≡ [])
        (λ b. notes.new ≡ Note.Saved b ∷ drop 1 notes.new) }
{
    'hands: loop {
        match notes.newest() {
            Some(Note::Handed(number, point)) => {
                links.take(number, point);
                notes.pop();
            }
            Some(Note::Saved(branch)) => return Some(branch),
            None => return None,
        }
    }
}
