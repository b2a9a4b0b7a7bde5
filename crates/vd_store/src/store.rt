//! The current texts.

ghost use Rattle.std.specs.Prelude.{◌≡◌, ℕ, ◌+◌, ◌^◌, ◌<◌, if◌then◌else◌, map, Some, None, option_map, is_some, IfOk, OnOk, OnErr};
ghost use Rattle.std.specs.List.Sorted.{IsStrictlySortedBy};
ghost use Rattle.vd_store.specs.Texts.{Bytes, Put, Remove, no_texts, edited, is_same, listed, name_order, text_at};

use std::alloc::{AllocError, Global};
use std::collections::BTreeMap;
use std::marker::Model;
use vd_base::{List, Name, Text};

/// The current texts in order of their names, each with its version.
#[derive(Drop)]
pub struct Snapshot {
    pub texts: List<(Name, u32, Text)>,
}

/// The current texts, each with its version. Contracts see them as a list in order of their names, beside the number of puts so far.
#[derive(Drop)]
pub struct Store {
    texts: BTreeMap<Name, (u32, Text)>,
    puts: u32,
    alloc: Global,
}

impl Model for Store {
    ghost use Rattle.vd_store.specs.Texts.{Texts};

    ghost Value = { Texts };

    ghost view = { λ s. record { held = s.texts.entries; puts = s.puts } };
}

impl Store {
    /// No texts.
    pub fn new(alloc: Global) -> Store
        ensures { result ≡ no_texts }
    {
        Store {
            texts: BTreeMap::new(alloc),
            puts: 0,
            alloc,
        }
    }

    /// Makes a text the current one of a name, and tells its version: one more than the number of puts so far.
    pub fn put(&mut self, name: Name, text: Text) -> Result<u32, AllocError>
        requires { self.old.puts < 2 ^ 31 }
        ensures version { IfOk result (λ version. version ≡ self.old.puts + 1) }
        ensures put { OnOk result (self.new ≡ edited self.old (Put name text)) }
        ensures latest { OnOk result ((other : Bytes) → text_at self.new other ≡ (if is_same name other then Some (self.old.puts + 1, text) else text_at self.old other)) }
        ensures err { OnErr result (self.new ≡ self.old) }
    {
        let version = self.puts + 1;
        self.texts.insert(name, (version, text))?;
        self.puts = version;
        Ok(version)
    }

    /// Takes the text of a name away, and tells whether there was one.
    pub fn remove(&mut self, name: &Name) -> bool
        ensures value { result ≡ is_some (text_at self.old name.now) }
        ensures removed { self.new ≡ edited self.old (Remove name.now) }
        ensures latest { (other : Bytes) → text_at self.new other ≡ (if is_same name.now other then None else text_at self.old other) }
    {
        self.texts.remove(name).is_some()
    }

    /// The current text of a name with its version, where there is one.
    pub fn get(&self, name: &Name) -> Option<(u32, &Text)>
        ensures { option_map (λ found. (found.0, found.1.now)) result ≡ text_at self.now name.now }
    {
        match self.texts.get(name) {
            Some((version, text)) => Some((*version, text)),
            None => None,
        }
    }

    /// All current texts.
    pub fn snapshot(&self) -> Result<Snapshot, AllocError>
        ensures texts { IfOk result (λ s. s.texts ≡ listed self.now.held) }
        ensures ordered { IfOk result (λ s. IsStrictlySortedBy name_order (map (λ t. t.0) s.texts)) }
    {
        let mut texts = List::new(self.alloc);
        for (name, held) in &self.texts {
            let (version, text) = held;
            texts.push((name.copy(self.alloc)?, *version, text.copy(self.alloc)?))?;
        }
        Ok(Snapshot { texts })
    }
}
