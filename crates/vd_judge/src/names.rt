//! The numbers of names.

ghost use Rattle.std.specs.Prelude.{◌≡◌, List, ℕ, None, Some, is_none, if◌then◌else◌, IfOk, OnOk};
ghost use Rattle.std.specs.Str.{bytes_eq};

use std::alloc::{AllocError, Global};
use std::collections::BTreeMap;

/// Numbers by names.
#[derive(Drop)]
pub struct NameTable<'a> {
    numbers: BTreeMap<&'a [u8], u32>,
}

impl<'a> NameTable<'a> {
    ghost use Rattle.vd_judge.specs.NameTable.{number, AddsNew};

    /// Without names.
    pub fn new(alloc: Global) -> NameTable<'a>
        ensures { (name : List ℕ) → number result name ≡ None }
    {
        NameTable {
            numbers: BTreeMap::new(alloc),
        }
    }

    /// The number of a name.
    pub fn number(&self, name: &[u8]) -> Option<u32>
        ensures { result ≡ number self.now name.now }
    {
        self.numbers.get(name).copied()
    }

    /// Gives the name this number, and says whether it had none.
    pub fn add(&mut self, name: &'a [u8], to: u32) -> Result<bool, AllocError>
        ensures is_new { IfOk result (λ is_new. is_new ≡ is_none (number self.old name.now)) }
        ensures numbers { OnOk result ((other : List ℕ) → number self.new other ≡ (if bytes_eq name.now other then Some to else number self.old other)) }
    {
        let old = self.numbers.insert(name, to)?;
        Ok(old.is_none())
    }

    /// Gives the name this number, unless it has one.
    #[tactic(auto, using(crate::proofs::NameLaws::stays_new, crate::proofs::NameLaws::fresh_new))]
    pub fn add_new(&mut self, name: &'a [u8], to: u32) -> Result<(), AllocError>
        ensures { OnOk result (AddsNew self.old self.new name.now to) }
    {
        if self.number(name).is_some() {
            return Ok(());
        }
        self.add(name, to)?;
        Ok(())
    }
}
