//! Typed functions.

ghost use Rattle.std.specs.Prelude.{◌≡◌, ◌++◌, ◌∷◌, ◌<◌, ◌+◌, ◌^◌, length, IfOk, OnOk};
ghost use Rattle.vd_judge.specs.Environment.{names_of, global_names, function_names};
ghost use Rattle.vd_ctyping.specs.Function.{are_scalars, is_result, are_declared, are_distinct, variables};
ghost use Rattle.vd_ctyping.specs.CheckedFunction.{body_of, finished, typed_function};
ghost use Rattle.vd_judge.specs.NameTable.{Numbers};
ghost use Rattle.vd_ctyping.specs.Index.{IsIndex};
ghost use Rattle.vd_ctyping.specs.Typing.{Answers};

use crate::index::{ScopeIndex, can_number};
use std::alloc::{AllocError, Global};
use vd_base::{CType, Field, List, Name};
use vd_clight::{CScope, FnText, TStmt, TypedFn};
use vd_judge::{Checked, NameTable, Scope, TypeFault, is_scalar, is_void, type_block};

// ---- declarations

fn are_scalars(fields: &[Field]) -> bool
    ensures { result ≡ are_scalars fields.now }
{
    fields.iter().all(|field| is_scalar(&field.typ))
}

fn is_result(t: &CType) -> bool
    ensures { result ≡ is_result t.now }
{
    is_void(t) || is_scalar(t)
}

fn add_names(alloc: Global, names: &mut List<Name>, fields: &[Field]) -> Result<(), AllocError>
    ensures { OnOk result (names.new ≡ names.old ++ names_of fields.now) }
{
    for field in fields {
        names.push(field.name.copy(alloc)?)?;
    }
    Ok(())
}

/// The names of all variables, the parameters first.
fn variables(alloc: Global, f: &FnText) -> Result<List<Name>, AllocError>
    ensures { IfOk result (λ names. names ≡ variables f.now) }
{
    let mut names = List::new(alloc);
    add_names(alloc, &mut names, f.params.as_slice())?;
    add_names(alloc, &mut names, f.temps.as_slice())?;
    Ok(names)
}

/// Whether names stand once, and none is the function's.
fn are_distinct(alloc: Global, function: &[u8], names: &[Name]) -> Result<bool, AllocError>
    requires { length names.now < 2 ^ 32 }
    ensures { IfOk result (λ d. d ≡ are_distinct (function.now ∷ names.now)) }
{
    let mut table = NameTable::new(alloc);
    for (number, name) in names.iter().enumerate() {
        let name = name.as_bytes();
        if name == function {
            return Ok(false);
        }
        if !table.add(name, number as u32)? {
            return Ok(false);
        }
    }
    Ok(true)
}

/// Whether the function and its variables, which have these names, are declared as they may be.
fn are_declared(alloc: Global, f: &FnText, names: &List<Name>) -> Result<bool, AllocError>
    requires few { length names.now < 2 ^ 32 }
    requires names { names.now ≡ variables f.now }
    ensures { IfOk result (λ d. d ≡ are_declared f.now) }
{
    if !is_result(&f.ret) {
        return Ok(false);
    }
    if !are_scalars(f.params.as_slice()) || !are_scalars(f.temps.as_slice()) {
        return Ok(false);
    }
    are_distinct(alloc, f.name.as_bytes(), names.as_slice())
}

// ---- tables

fn number_fields<'a>(alloc: Global, fields: &'a [Field]) -> Result<NameTable<'a>, AllocError>
    requires { length fields.now < 2 ^ 32 }
    ensures { IfOk result (λ table. Numbers table (names_of fields.now)) }
{
    let mut table = NameTable::new(alloc);
    for (number, field) in fields.iter().enumerate() {
        let name = field.name.as_bytes();
        table.add_new(name, number as u32)?;
    }
    Ok(table)
}

// ---- functions

/// The body, or the first fault of its statements.
fn type_body<'a, 'n>(
    alloc: Global,
    scope: &'a CScope,
    globals: &'a NameTable<'n>,
    functions: &'a NameTable<'n>,
    f: &'a FnText,
) -> Result<Checked<List<TStmt>>, AllocError>
    requires few { length f.now.params + length f.now.temps < 2 ^ 32 }
    requires globals { Numbers globals.now (global_names scope.now.globals) }
    requires functions { Numbers functions.now (function_names scope.now.fns) }
    ensures { IfOk result (λ b. b ≡ body_of scope.now f.now) }
{
    let params = f.params.as_slice();
    let temps = f.temps.as_slice();
    let seen = Scope {
        params,
        temps,
        returned: &f.ret,
        outer: scope,
        param_numbers: number_fields(alloc, params)?,
        temp_numbers: number_fields(alloc, temps)?,
        global_numbers: globals,
        function_numbers: functions,
    };
    type_block(alloc, &seen, f.body.as_slice())
}

fn finished(
    alloc: Global,
    f: &FnText,
    names: List<Name>,
    body: Checked<List<TStmt>>,
) -> Result<Result<TypedFn, TypeFault>, AllocError>
    requires few { length f.now.params < 2 ^ 32 }
    requires names { names ≡ variables f.now }
    ensures { IfOk result (λ t. t ≡ finished f.now body) }
{
    match body {
        Checked::Untyped(fault) => Ok(Err(fault.out())),
        Checked::Typed(body, fault) => match fault {
            Some(fault) => Ok(Err(fault.out())),
            None => {
                let name = f.name.copy(alloc)?;
                let ret = f.ret.copy(alloc)?;
                Ok(Ok(TypedFn {
                    name,
                    ret,
                    params: f.params.len() as u32,
                    temps: names,
                    body: body.out(),
                }))
            }
        },
    }
}

#[tactic(auto, using(crate::proofs::DistinctNames::variables_count))]
fn typed(
    alloc: Global,
    index: &ScopeIndex<'_>,
    f: &FnText,
) -> Result<Result<TypedFn, TypeFault>, AllocError>
    requires { IsIndex index.now }
    ensures { IfOk result (λ t. t ≡ typed_function index.now.scope.now f.now) }
{
    let names = variables(alloc, f)?;
    if !can_number(names.len()) {
        return Err(AllocError);
    }
    if !are_declared(alloc, f, &names)? {
        return Ok(Err(TypeFault::Mismatch(0, CType::Void, CType::Void)));
    }
    let body = type_body(alloc, index.scope, &index.globals, &index.functions, f)?;
    finished(alloc, f, names, body)
}

/// The typed function, in normal form: names are numbers, each operation has its kind, fields are offsets in cells, and
/// conversions have left nothing. Else the first of its faults, the one at the smallest place; at one place a fault of the
/// types comes before one of the normal form, and of two alike the one that is read first. Time grows with the function alone.
/// The types are CompCert Clight's, the normal form is Verifiable C's.
pub fn type_in(alloc: Global, index: &ScopeIndex<'_>, f: &FnText) -> Result<TypedFn, TypeFault>
    requires { IsIndex index.now }
    ensures { Answers index.now.scope.now f.now result }
{
    match typed(alloc, index, f) {
        Ok(answer) => answer,
        Err(_) => Err(TypeFault::Memory),
    }
}

/// The typed function under a scope that no other function is typed under: time and memory grow with both.
pub fn type_fn(alloc: Global, scope: &CScope, f: &FnText) -> Result<TypedFn, TypeFault>
    ensures { Answers scope.now f.now result }
{
    match ScopeIndex::new(alloc, scope) {
        Ok(index) => type_in(alloc, &index, f),
        Err(_) => Err(TypeFault::Memory),
    }
}
