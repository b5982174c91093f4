//! A list of names, each of which is found by its text.
//! This project's own.
ghost use Rattle.std.specs.Prelude.{◌≡◌, ◌<◌, [], ◌∷◌, ◌++◌, length, if◌then◌else◌, IfOk, IfSome, OnErr};
ghost use Rattle.rcp_base.specs.Answers.{has_text, place_in};
ghost use Rattle.task_file.specs.inner.NameLists.{is_new_name};

use indexmap::IndexMap;
use rcp_base::{Memory, Name};
use std::alloc::Global;
use std::marker::Model;

/// Names in the order in which they come, which gives each its number. None stands twice.
#[derive(Drop)]
pub struct NameList<'a> {
    names: IndexMap<&'a str, Name>,
}

impl<'a> Model for NameList<'a> {
    ghost use Rattle.std.specs.Prelude.{ℕ, List};
    ghost use Rattle.task_file.specs.inner.NameEntries.{entry_texts, AreTheirTexts};

    ghost Value = { List (List ℕ) };

    ghost view = { λ list. entry_texts list.names.entries };

    ghost invariant = { λ list. AreTheirTexts list.names.entries };
}

impl<'a> NameList<'a> {
    pub fn new(alloc: Global) -> NameList<'a>
        ensures { result ≡ [] }
    {
        NameList {
            names: IndexMap::new(alloc),
        }
    }

    /// Adds the name that a text is, where it is a new one, and tells whether it was.
    pub fn add(&mut self, text: &'a str) -> Result<bool, Memory>
        ensures new { IfOk result (λ new. new ≡ is_new_name self.old text.now) }
        ensures names { IfOk result
            (λ new. self.new ≡ (if new then self.old ++ text.now ∷ [] else self.old)) }
        ensures err { OnErr result (self.new ≡ self.old) }
    {
        let Some(name) = Name::read(text) else {
            return Ok(false);
        };
        match self.names.insert(text, name) {
            Ok(known) => Ok(known.is_none()),
            Err(_) => Err(Memory),
        }
    }

    /// Whether a text is one of the names.
    pub fn has(&self, text: &str) -> bool
        ensures { result ≡ has_text self.now text.now }
    {
        self.names.contains_key(text)
    }

    /// The number of the name that a text is.
    pub fn number_of(&self, text: &str) -> Option<usize>
        ensures number { result ≡ place_in self.now text.now }
        ensures within { IfSome result (λ number. number < length self.now) }
    {
        self.names.get_index_of(text)
    }

    pub fn as_slice(&self) -> &[Name]
        ensures { result.now ≡ self.now }
    {
        self.names.values().as_slice()
    }
}
