//! Characters that are gathered, which contracts see as their list.

ghost use Rattle.std.specs.Prelude.{◌≡◌, ◌∷◌, ◌++◌, [], IfOk, OnOk, length, encode_utf8_all};
ghost use Rattle.std.specs.Str.{chars};

use crate::reader::Reader;
use ej_term::Text;
use sqlite_items::Items;
use std::alloc::{AllocError, Global};
use std::marker::Model;

/// The characters so far.
#[derive(Drop)]
pub(crate) struct Spelling {
    text: String,
}

impl Model for Spelling {
    ghost use Rattle.std.specs.Prelude.{ℕ, List, string_bytes};
    ghost use Rattle.std.specs.Str.{chars};

    ghost Value = { List ℕ };

    ghost view = { λ s. chars (string_bytes s.text) };
}

impl Spelling {
    /// No characters.
    pub(crate) fn new(alloc: Global) -> Spelling
        ensures { result ≡ [] }
    {
        Spelling {
            text: String::new(alloc),
        }
    }

    /// No characters any more.
    pub(crate) fn clear(&mut self)
        ensures { self.new ≡ [] }
    {
        self.text.clear();
    }

    /// One more character.
    pub(crate) fn push(&mut self, c: char) -> Result<(), AllocError>
        ensures { OnOk result (self.new ≡ self.old ++ c ∷ []) }
    {
        self.text.push(c)?;
        Ok(())
    }

    /// The count of characters.
    pub(crate) fn len(&self) -> usize
        ensures { result ≡ length self.now }
    {
        self.text.as_str().chars().count()
    }

    /// The characters, as UTF-8.
    pub(crate) fn as_str(&self) -> &str
        ensures characters { chars result.now ≡ self.now }
        ensures bytes { result.now ≡ encode_utf8_all self.now }
    {
        self.text.as_str()
    }

    /// The characters as a text.
    pub(crate) fn to_text(&self, alloc: Global) -> Result<Text, AllocError>
        ensures { IfOk result (λ text. text ≡ self.now) }
    {
        Text::make(alloc, self.as_str())
    }

    /// The characters as numbers.
    pub(crate) fn to_items(&self, alloc: Global) -> Result<Items<u32>, AllocError>
        ensures { IfOk result (λ items. items ≡ self.now) }
    {
        let mut items = Items::new(alloc);
        let mut reader = Reader::new(self.as_str());
        while let Some(c) = reader.next() {
            items.push(u32::from(c))?;
        }
        Ok(items)
    }
}
