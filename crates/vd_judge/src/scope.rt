//! What the names of a function stand for.

ghost use Rattle.std.specs.Prelude.{◌≡◌, ◌≤◌, ◌+◌, ◌^◌, ◌<◌, option_map, option_copied, length, List, ℕ};
ghost use Rattle.vd_judge.specs.Environment.{local_in, local_of, global_of, function_of, names_of};
ghost use Rattle.vd_judge.specs.NameTable.{Numbers};

use crate::names::NameTable;
use std::marker::Model;
use vd_base::{CType, Field, Name, Structs};
use vd_clight::{CScope, Signature};

/// What a function's statements see. Contracts see the lists; the tables keep the numbers of names.
#[derive(Drop)]
pub struct Scope<'a, 'n> {
    pub params: &'a [Field],
    pub temps: &'a [Field],
    pub returned: &'a CType,
    /// What stands outside the function.
    pub outer: &'a CScope,
    pub param_numbers: NameTable<'a>,
    pub temp_numbers: NameTable<'a>,
    pub global_numbers: &'a NameTable<'n>,
    pub function_numbers: &'a NameTable<'n>,
}

impl<'a, 'n> Model for Scope<'a, 'n> {
    ghost use Rattle.std.specs.Coded.{codes};
    ghost use Rattle.std.specs.Prelude.{◌<◌, ◌+◌, ◌^◌, length};
    ghost use Rattle.vd_base.specs.contracts.ctype.CType as ctype;
    ghost use Rattle.vd_judge.specs.Environment.{Environment, names_of, global_names, function_names};
    ghost use Rattle.vd_judge.specs.NameTable.{Numbers};

    ghost Value = { Environment };

    ghost coded = { Prim.hlevel (codes, ctype.the_row.coded) };

    ghost view = { λ s. record { params = s.params.now; temps = s.temps.now; returned = s.returned.now; globals = s.outer.now.globals; functions = s.outer.now.fns; structs = s.outer.now.structs } };

    ghost invariant = { λ s. (length s.params.now + length s.temps.now < 2 ^ 32) × (Numbers s.param_numbers (names_of s.params.now) × (Numbers s.temp_numbers (names_of s.temps.now) × (Numbers s.global_numbers.now (global_names s.outer.now.globals) × Numbers s.function_numbers.now (function_names s.outer.now.fns)))) };
}

/// A variable among some that are numbered from a base.
fn local_in<'a>(
    base: u32,
    table: &NameTable<'_>,
    fields: &'a [Field],
    name: &Name,
) -> Option<(u32, &'a CType)>
    requires few { base + length fields.now < 2 ^ 32 }
    requires numbered { Numbers table.now (names_of fields.now) }
    ensures { option_map (λ r. (r.0, r.1.now)) result ≡ local_in base fields.now name.now }
{
    let number = table.number(name.as_bytes())?;
    let field = fields.get(number as usize)?;
    Some((base + number, &field.typ))
}

impl<'a, 'n> Scope<'a, 'n> {
    /// The structs that are there.
    pub(crate) fn structs(&self) -> &Structs
        ensures { result.now ≡ self.now.structs }
    {
        &self.outer.structs
    }

    /// The type of what the function returns.
    pub(crate) fn returned(&self) -> &CType
        ensures { result.now ≡ self.now.returned }
    {
        self.returned
    }

    /// The number and the type of a parameter or temporary.
    pub(crate) fn local(&self, name: &Name) -> Option<(u32, &CType)>
        ensures { option_map (λ r. (r.0, r.1.now)) result ≡ local_of self.now name.now }
    {
        match local_in(0, &self.param_numbers, self.params, name) {
            Some(found) => Some(found),
            None => {
                let base = self.params.len() as u32;
                local_in(base, &self.temp_numbers, self.temps, name)
            }
        }
    }

    /// The type of a global.
    pub(crate) fn global(&self, name: &Name) -> Option<&CType>
        ensures { option_copied result ≡ global_of self.now name.now }
    {
        let number = self.global_numbers.number(name.as_bytes())?;
        let global = self.outer.globals.get(number as usize)?;
        Some(&global.1)
    }

    /// A function of this section or of another.
    pub(crate) fn function(&self, name: &Name) -> Option<&Signature>
        ensures { option_copied result ≡ function_of self.now name.now }
    {
        let number = self.function_numbers.number(name.as_bytes())?;
        self.outer.fns.get(number as usize)
    }
}
