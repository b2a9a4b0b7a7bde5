//! Variables by names.

ghost use Rattle.std.specs.Prelude.{◌≡◌, ◌+◌, ◌++◌, ◌||◌, ℕ, false, List, None, Some, if◌then◌else◌, is_some, IfOk, OnOk};
ghost use Rattle.std.specs.Str.{bytes_eq};
ghost use Rattle.vd_logic_grammar.specs.Variables.{variable_from, hides};

use std::alloc::{AllocError, Global};
use std::collections::BTreeMap;
use vd_base::Name;
use vd_logic::Sort;

/// What names stand for, how many were declared, and whether one hides an earlier one.
#[derive(Drop)]
pub struct Variables<'a> {
    pub(crate) numbers: BTreeMap<&'a [u8], (u32, Sort)>,
    pub(crate) count: u32,
    pub(crate) hides: bool,
}

impl<'a> Variables<'a> {
    ghost use Rattle.vd_assertion_text.specs.Lookup.{variable_in, Stands};

    /// No variable, which takes no memory.
    fn new(alloc: Global) -> Variables<'a>
        ensures none { (name : List ℕ) → variable_in result name ≡ None }
        ensures count { result.count ≡ 0 }
        ensures hides { result.hides ≡ false }
    {
        Variables {
            numbers: BTreeMap::new(alloc),
            count: 0,
            hides: false,
        }
    }

    /// What a name stands for.
    pub(crate) fn variable(&self, name: &[u8]) -> Option<(u32, Sort)>
        ensures { result ≡ variable_in self.now name.now }
    {
        self.numbers.get(name).copied()
    }

    /// One variable more, after 4294967295 of which there is no memory.
    fn add(&mut self, name: &'a [u8], sort: Sort) -> Result<(), AllocError>
        ensures names { OnOk result ((other : List ℕ) → variable_in self.new other ≡ (if bytes_eq name.now other then Some (self.old.count, sort) else variable_in self.old other)) }
        ensures count { OnOk result (self.new.count ≡ self.old.count + 1) }
        ensures hides { OnOk result (self.new.hides ≡ (self.old.hides || is_some (variable_in self.old name.now))) }
    {
        if self.count == 4294967295 {
            return Err(AllocError);
        }
        let stood = self.numbers.insert(name, (self.count, sort))?;
        self.hides |= stood.is_some();
        self.count += 1;
        Ok(())
    }

    /// Names behind others, in their order.
    fn add_all(&mut self, names: &'a [(Name, Sort)]) -> Result<(), AllocError>
        ensures { (before : List (List ℕ × Sort)) → Stands self.old before → OnOk result (Stands self.new (before ++ names.now)) }
    {
        'names: for name in names {
            self.add(name.0.as_bytes(), name.1)?;
        }
        Ok(())
    }

    /// The names of two lists, in their order.
    pub(crate) fn of(
        alloc: Global,
        before: &'a [(Name, Sort)],
        opened: &'a [(Name, Sort)],
    ) -> Result<Variables<'a>, AllocError>
        ensures numbers { IfOk result (λ it. (name : List ℕ) → variable_in it name ≡ variable_from 0 (before.now ++ opened.now) name) }
        ensures hides { IfOk result (λ it. it.hides ≡ hides (before.now ++ opened.now)) }
    {
        let mut variables = Variables::new(alloc);
        variables.add_all(before)?;
        variables.add_all(opened)?;
        Ok(variables)
    }
}
