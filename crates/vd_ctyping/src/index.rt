//! A scope with the numbers of its names.

ghost use Rattle.std.specs.Prelude.{◌≡◌, ◌<◌, ◌^◌, nat_lt, length, IfOk};
ghost use Rattle.vd_judge.specs.Environment.{global_names, function_names};
ghost use Rattle.vd_judge.specs.NameTable.{Numbers};
ghost use Rattle.vd_ctyping.specs.Index.{IsIndex};

use std::alloc::{AllocError, Global};
use vd_base::{CType, Name};
use vd_clight::{CScope, Signature};
use vd_judge::NameTable;

/// A scope with the numbers of its names, for all functions that are typed under it.
#[derive(Drop)]
pub struct ScopeIndex<'n> {
    pub scope: &'n CScope,
    pub(crate) globals: NameTable<'n>,
    pub(crate) functions: NameTable<'n>,
}

fn number_globals<'a>(
    alloc: Global,
    globals: &'a [(Name, CType)],
) -> Result<NameTable<'a>, AllocError>
    requires { length globals.now < 2 ^ 32 }
    ensures { IfOk result (λ table. Numbers table (global_names globals.now)) }
{
    let mut table = NameTable::new(alloc);
    for (number, global) in globals.iter().enumerate() {
        let name = global.0.as_bytes();
        table.add_new(name, number as u32)?;
    }
    Ok(table)
}

fn number_functions<'a>(
    alloc: Global,
    functions: &'a [Signature],
) -> Result<NameTable<'a>, AllocError>
    requires { length functions.now < 2 ^ 32 }
    ensures { IfOk result (λ table. Numbers table (function_names functions.now)) }
{
    let mut table = NameTable::new(alloc);
    for (number, function) in functions.iter().enumerate() {
        let name = function.name.as_bytes();
        table.add_new(name, number as u32)?;
    }
    Ok(table)
}

/// Whether so many items can be numbered.
pub(crate) fn can_number(count: usize) -> bool
    ensures { result ≡ nat_lt count (2 ^ 32) }
{
    count < 4294967296
}

impl<'n> ScopeIndex<'n> {
    /// Numbers the names of a scope. Time and memory grow with the scope.
    pub fn new(alloc: Global, scope: &'n CScope) -> Result<ScopeIndex<'n>, AllocError>
        ensures scope { IfOk result (λ index. index.scope.now ≡ scope.now) }
        ensures index { IfOk result IsIndex }
    {
        if !can_number(scope.globals.len()) || !can_number(scope.fns.len()) {
            return Err(AllocError);
        }
        let globals = number_globals(alloc, scope.globals.as_slice())?;
        let functions = number_functions(alloc, scope.fns.as_slice())?;
        Ok(ScopeIndex {
            scope,
            globals,
            functions,
        })
    }
}
