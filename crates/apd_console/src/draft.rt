//! A line while its bytes come in.

ghost use Rattle.std.specs.Prelude.{◌≡◌, ◌≤◌, ◌<◌, ◌++◌, List, ℕ, [], length, IfOk, OnOk, true, false};
ghost use Rattle.apd_base.specs.declared.limits.TheConstants.{MAX_LINE};

use crate::Line;
use apd_base::{MAX_LINE, Text};
use std::alloc::{AllocError, Global};

/// The bytes of a line so far, as long as they aren't too many.
#[derive(Drop)]
pub struct Draft {
    pub text: Text,
    pub long: bool,
    ghost short: { length text ≤ MAX_LINE },
}

impl Draft {
    ghost use Rattle.apd_console.specs.Lines.{seen};
    ghost use Rattle.apd_console.specs.Draft.{Drafts};

    /// No byte.
    pub fn new(alloc: Global) -> Draft
        ensures { Drafts result.text result.long [] }
    {
        Draft {
            text: Text::new(alloc),
            long: false,
        }
    }

    /// Adds bytes.
    pub fn extend(&mut self, piece: &[u8]) -> Result<(), AllocError>
        ensures { OnOk result ((raw : List ℕ) → Drafts self.old.text self.old.long raw →
            Drafts self.new.text self.new.long (raw ++ piece.now)) }
    {
        if self.long {
            return Ok(());
        }
        if piece.len() > MAX_LINE - self.text.len() {
            self.long = true;
            return Ok(());
        }
        self.text.extend(piece)
    }

    /// Has the line a byte?
    pub fn is_begun(&self) -> bool
        ensures begun { result ≡ true → (raw : List ℕ) → Drafts self.now.text self.now.long raw →
            0 < length raw }
        ensures none { result ≡ false → (raw : List ℕ) → Drafts self.now.text self.now.long raw →
            raw ≡ [] }
    {
        self.long || self.text.len() > 0
    }

    /// The line.
    pub fn into_line(self) -> Line
        ensures { (raw : List ℕ) → Drafts self.text self.long raw → result ≡ seen raw }
    {
        if self.long {
            Line::TooLong
        } else {
            Line::Text(self.text)
        }
    }
}
