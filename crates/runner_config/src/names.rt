//! Names, each of which stands once, and their places.
ghost use Rattle.std.specs.Prelude.{◌≡◌, ◌<◌, ℕ, [], List, Some, None, IfOk, IfSome, OnOk, length, not, string_bytes, slice_index_or, if◌then◌else◌};
ghost use Rattle.runner_config.specs.Names.{stands, place_of, with_name, are_different};

use hel_lists::{Items, OutOfMemory, Text};
use indexmap::IndexSet;
use std::alloc::Global;
use std::marker::Model;

/// Names in the order in which they came, each once: contracts see the list of them.
#[derive(Drop)]
pub struct Names {
    names: IndexSet<String>,
}

impl Model for Names {
    ghost use Rattle.std.specs.Prelude.{List, ℕ, map, string_bytes};

    ghost Value = { List (List ℕ) };

    ghost view = { λ n. map string_bytes n.names.keys };
}

impl Names {
    /// No names.
    pub fn new(alloc: Global) -> Names
        ensures { result ≡ [] }
    {
        Names {
            names: IndexSet::new(alloc),
        }
    }

    /// Puts a name behind the others, and answers whether it is a new one; one that stands already
    /// isn't put in again.
    pub fn add(&mut self, name: String) -> Result<bool, OutOfMemory>
        ensures new { IfOk result (λ is_new. is_new ≡ not (stands self.old (string_bytes name))) }
        ensures names { OnOk result (self.new ≡ with_name self.old (string_bytes name)) }
    {
        let (_, is_new) = self.names.insert_full(name)?;
        Ok(is_new)
    }

    /// The place of a name, counted from 0.
    pub fn place(&self, name: &str) -> Option<usize>
        ensures place { result ≡ place_of self.now name.now }
        ensures within { IfSome result (λ place. place < length self.now) }
    {
        self.names.get_index_of(name)
    }

    /// The number of names.
    pub fn len(&self) -> usize
        ensures { result ≡ length self.now }
    {
        self.names.len()
    }

    /// The name at a place.
    pub fn at(&self, place: usize) -> &str
        requires { place < length self.now }
        ensures { (other : List ℕ) → slice_index_or self.now place other ≡ result.now }
    {
        match self.names.get_index(place) {
            Some(name) => name.as_str(),
            None => unreachable!(),
        }
    }

    /// These names, and none where one stands twice.
    pub fn of(alloc: Global, texts: &[Text]) -> Result<Option<Names>, OutOfMemory>
        ensures { IfOk result (λ names. names ≡ (if are_different texts.now then Some texts.now else None)) }
    {
        let mut names = Names::new(alloc);
        for text in texts {
            if !names.add(String::from_str(alloc, text.as_str())?)? {
                return Ok(None);
            }
        }
        Ok(Some(names))
    }
}
