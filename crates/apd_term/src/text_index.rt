//! Texts by their places.

ghost use Rattle.std.specs.Prelude.{◌≡◌, ◌<◌, [], length, slice_index_or, OnOk, OnErr, IfOk};
ghost use Rattle.apd_term.specs.Names.{number_of, with_name, HasDistinctTexts};
ghost use Rattle.apd_base.specs.declared.limits.TheConstants.{MOST_NAMES};

use indexmap::IndexMap;
use std::alloc::{AllocError, Global};
use std::marker::Model;

/// Texts, each once, by their places from 0. Contracts see the list of the texts.
///
/// They are the keys of a map of no values: each library whose public items have names is written with all that the table
/// states, which is half as much again of a set.
#[derive(Drop)]
pub struct TextIndex {
    texts: IndexMap<Vec<u8>, ()>,
    alloc: Global,
}

impl Model for TextIndex {
    ghost use Rattle.std.specs.Prelude.{List, ℕ, map};
    ghost use Rattle.indexmap.specs.IndexMap.{keys};

    ghost Value = { List (List ℕ) };

    ghost view = { λ n. map (λ t. t.items) (keys n.texts) };
}

impl TextIndex {
    /// No text.
    pub fn new(alloc: Global) -> TextIndex
        ensures { result ≡ [] }
    {
        TextIndex {
            texts: IndexMap::new(alloc),
            alloc,
        }
    }

    /// How many texts there are; they are distinct.
    pub fn count(&self) -> usize
        ensures count { result ≡ length self.now }
        ensures distinct { HasDistinctTexts self.now }
    {
        self.texts.len()
    }

    /// The place of the text, which is put at the end where it isn't there yet, while fewer than
    /// 4,000,000,000 texts are there. After want of memory the texts are as before.
    pub fn intern(&mut self, text: &[u8]) -> Result<u32, AllocError>
        requires { length self.old < MOST_NAMES }
        ensures names { OnOk result (self.new ≡ with_name self.old text.now) }
        ensures place { IfOk result (λ n. n ≡ number_of self.new text.now) }
        ensures err { OnErr result (self.new ≡ self.old) }
    {
        if let Some(place) = self.texts.get_index_of(text) {
            return Ok(place as u32);
        }
        let place = self.texts.len();
        let copy = Vec::from_slice(self.alloc, text)?;
        self.texts.insert(copy, ())?;
        Ok(place as u32)
    }

    /// The text at a place, and no byte where there is none.
    pub fn text(&self, place: u32) -> &[u8]
        ensures { result.now ≡ slice_index_or self.now place [] }
    {
        match self.texts.get_index(place as usize) {
            Some((text, _)) => text.as_slice(),
            None => &[],
        }
    }
}
