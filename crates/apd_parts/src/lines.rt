//! The lines of a text.

ghost use Rattle.std.specs.Prelude.{◌≡◌, ◌<◌, ◌∷◌, [], IfSome, MatchOption, length};
ghost use Rattle.apd_console.specs.Lines.{lines_of};

use crate::parts::cut;

/// The first line of a text, and the text behind it.
#[derive(Clone, Copy)]
pub struct FirstLine<'a> {
    pub line: &'a [u8],
    pub rest: &'a [u8],
}

/// The first line of a text, where it has one.
pub fn first_line(text: &[u8]) -> Option<FirstLine<'_>>
    ensures line { MatchOption result (lines_of text.now ≡ [])
        (λ f. lines_of text.now ≡ f.line.now ∷ lines_of f.rest.now) }
    ensures shorter { IfSome result (λ f. length f.rest.now < length text.now) }
{
    if text.is_empty() {
        return None;
    }
    match cut(b"\n", text) {
        Some(parts) => Some(FirstLine {
            line: parts.front,
            rest: parts.rest,
        }),
        None => Some(FirstLine {
            line: text,
            rest: &[],
        }),
    }
}
