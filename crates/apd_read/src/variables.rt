//! The variables of a clause.

ghost use Rattle.std.specs.Prelude.{◌≡◌, ◌+◌, ◌<◌, [], length, IfOk, OnOk};
ghost use Rattle.apd_read.specs.Lexemes.{is_anonymous, variable_place, with_variable};
ghost use Rattle.apd_read.specs.Variables.{IsIndexed};
ghost use Rattle.apd_base.specs.declared.limits.TheConstants.{MOST_NAMES};

use apd_base::{Text, VarNames};
use apd_term::TextIndex;
use std::alloc::{AllocError, Global};

/// The variables of a clause in order, with where those that have a name stand.
#[derive(Drop)]
pub(crate) struct Variables {
    /// The text of each, where each `_` is one of its own.
    pub texts: VarNames,
    /// The texts of those with a name, each once.
    named: TextIndex,
    /// The place among all of each that has a name.
    places: Vec<usize>,
}

fn is_anonymous(text: &[u8]) -> bool
    ensures { result ≡ is_anonymous text.now }
{
    match text {
        [b] => *b == b'_',
        _ => false,
    }
}

impl Variables {
    /// No variable.
    pub fn new(alloc: Global) -> Variables
        ensures none { result.texts ≡ [] }
        ensures indexed { IsIndexed result.named result.places.items result.texts }
    {
        Variables {
            texts: VarNames::new(alloc),
            named: TextIndex::new(alloc),
            places: Vec::new(alloc),
        }
    }

    /// The number of a variable, from 1; it is put behind the others where it is new.
    pub fn number(&mut self, text: Text) -> Result<u64, AllocError>
        requires few { length self.old.texts < MOST_NAMES }
        requires indexed { IsIndexed self.old.named self.old.places.items self.old.texts }
        ensures number { IfOk result (λ n. n ≡ variable_place self.old.texts text + 1) }
        ensures all { OnOk result (self.new.texts ≡ with_variable self.old.texts text) }
        ensures indexed { OnOk result
            (IsIndexed self.new.named self.new.places.items self.new.texts) }
    {
        let count = self.texts.len();
        if is_anonymous(text.bytes()) {
            self.texts.push(text)?;
            return Ok(count as u64 + 1);
        }
        let place = self.named.intern(text.bytes())?;
        let order = place as usize;
        if order < self.places.len() {
            return Ok(self.places[order] as u64 + 1);
        }
        self.places.push(count)?;
        self.texts.push(text)?;
        Ok(count as u64 + 1)
    }
}
