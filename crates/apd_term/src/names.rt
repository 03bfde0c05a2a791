//! Names: the texts that names stand for.

ghost use Rattle.std.specs.Prelude.{◌≡◌, ◌<◌, length, OnOk, OnErr, IfOk, IsUtf8};
ghost use Rattle.apd_term.specs.Growth.{Grown};
ghost use Rattle.apd_term.specs.Names.{number_of, text_of_name, with_name, HasDistinctTexts, HasUtf8Texts};
ghost use Rattle.apd_term.specs.StandardNames.{standard_names};
ghost use Rattle.apd_base.specs.declared.limits.TheConstants.{MOST_NAMES};

use crate::standard_texts::texts;
use crate::term::NameId;
use crate::text_index::TextIndex;
use std::alloc::{AllocError, Global};
use std::marker::Model;

/// The texts of names, each once, of which the standard ones are the first; a name's id is its place
/// among them, from 0. Each text is UTF-8. Contracts see the list of the texts.
#[derive(Drop)]
pub struct Names {
    texts: TextIndex,
}

impl Model for Names {
    ghost use Rattle.std.specs.Prelude.{List, ℕ};
    ghost use Rattle.apd_term.specs.Growth.{Grown};
    ghost use Rattle.apd_term.specs.Names.{HasUtf8Texts};
    ghost use Rattle.apd_term.specs.StandardNames.{standard_names};

    ghost Value = { List (List ℕ) };

    ghost view = { λ n. n.texts };

    ghost invariant = { λ n. Grown standard_names n.texts × HasUtf8Texts n.texts };
}

/// An index of the standard names alone. The only error is want of memory.
fn standard_index(alloc: Global) -> Result<TextIndex, AllocError>
    ensures { IfOk result (λ index. index ≡ standard_names) }
{
    let mut index = TextIndex::new(alloc);
    for text in texts() {
        index.intern(text.as_bytes())?;
    }
    Ok(index)
}

impl Names {
    /// The standard names alone. The only error is want of memory.
    pub fn standard(alloc: Global) -> Result<Names, AllocError>
        ensures { IfOk result (λ names. names ≡ standard_names) }
    {
        let texts = standard_index(alloc)?;
        Ok(Names { texts })
    }

    /// How many names there are; their texts are distinct and UTF-8, and the standard ones stand first.
    pub fn count(&self) -> usize
        ensures count { result ≡ length self.now }
        ensures distinct { HasDistinctTexts self.now }
        ensures standard { Grown standard_names self.now }
        ensures utf8 { HasUtf8Texts self.now }
    {
        self.texts.count()
    }

    /// The id of the text, which is UTF-8 and is put at the end where it isn't there yet, while fewer than
    /// 4,000,000,000 names are there. After want of memory the names are as before.
    pub fn intern(&mut self, text: &[u8]) -> Result<NameId, AllocError>
        requires few { length self.old < MOST_NAMES }
        requires utf8 { IsUtf8 text.now }
        ensures names { OnOk result (self.new ≡ with_name self.old text.now) }
        ensures id { IfOk result (λ id. id.0 ≡ number_of self.new text.now) }
        ensures err { OnErr result (self.new ≡ self.old) }
    {
        let place = self.texts.intern(text)?;
        Ok(NameId(place))
    }

    /// The text of the name, and no byte where the id isn't one of these names'.
    pub fn text(&self, id: NameId) -> &[u8]
        ensures { result.now ≡ text_of_name self.now id }
    {
        self.texts.text(id.0)
    }
}
