//! Names of things of which each should stand once.

ghost use Rattle.std.specs.Prelude.{◌≡◌, ◌++◌, ◌∷◌, [], List, ℕ, OnOk};
ghost use Rattle.vd_singles.specs.Table.{Bytes, IsTable, kept, single, told_more};

use std::alloc::{AllocError, Global};
use std::collections::BTreeMap;

/// Names, each with its number where it stands once.
#[derive(Drop)]
pub struct Table<'p> {
    numbers: BTreeMap<&'p [u8], Option<u32>>,
}

impl<'p> Table<'p> {
    /// No names.
    pub fn new(alloc: Global) -> Table<'p>
        ensures { IsTable result [] }
    {
        Table {
            numbers: BTreeMap::new(alloc),
        }
    }

    /// What there is to keep of a name that stands once more, with this number.
    fn told_more(&self, name: &[u8], number: u32) -> Option<u32>
        ensures { result ≡ told_more (kept self.now name.now) number }
    {
        match self.numbers.get(name) {
            Some(_) => None,
            None => Some(number),
        }
    }

    /// Adds a name with its number.
    pub fn add(&mut self, name: &'p [u8], number: u32) -> Result<(), AllocError>
        ensures { OnOk result ((pairs : List (Bytes × ℕ)) → IsTable self.old pairs → IsTable self.new (pairs ++ (name.now, number) ∷ [])) }
    {
        let told = self.told_more(name, number);
        self.numbers.insert(name, told)?;
        Ok(())
    }

    /// The number of a name that stands once.
    pub fn single(&self, name: &[u8]) -> Option<u32>
        ensures { (pairs : List (Bytes × ℕ)) → IsTable self.now pairs → result ≡ single name.now pairs }
    {
        match self.numbers.get(name) {
            Some(number) => *number,
            None => None,
        }
    }
}
