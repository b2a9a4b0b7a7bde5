//! The functions and globals of a unit.

ghost use Rattle.std.specs.Prelude.{◌≡◌, ◌≢◌, ◌∷◌, [], IfOk, MatchOption, OnOk};
ghost use Rattle.vd_clight.specs.declared.program.CScope.{CScope as CScope_of_parts};
ghost use Rattle.vd_judge.specs.declared.fault.TypeFault.TheVariants.{Memory as OutOfMemory};
ghost use Rattle.vd_ctyping.specs.Index.{IsIndex};
ghost use Rattle.vd_heads.specs.HeadPart as part;
ghost use Rattle.vd_code.specs.Alike.{IsScopeOf};
ghost use Rattle.vd_code.specs.Code.{Adds, IsAlone};
ghost use Rattle.vd_linkage.specs.Only.{IsOnly};
ghost use Rattle.vd_linkage.specs.Program.{HasCode, HasScope, IsFunction, IsGlobal};

use std::alloc::{AllocError, Global};
use vd_base::List;
use vd_clight::{CScope, GlobalDef, TypedFn};
use vd_cparse::Decl;
use vd_ctyping::{ScopeIndex, TypeFault, type_in, typing_laws};
use vd_heads::head_part;
use vd_linkage::{declaration_in, function_in};
use vd_outline::{Outline, Section, SectionKind};
use vd_scopes::{HeadFault, Scopes, scopes};

/// Functions and globals, in the order of their sections.
#[derive(Drop)]
pub struct Code {
    pub fns: List<TypedFn>,
    pub globals: List<GlobalDef>,
}

impl Code {
    /// Neither functions nor globals.
    pub fn new(alloc: Global) -> Code
        ensures { (result.fns ≡ []) × (result.globals ≡ []) }
    {
        Code {
            fns: List::new(alloc),
            globals: List::new(alloc),
        }
    }
}

/// That a function is not typed, unless memory is wanting.
fn faulty(fault: TypeFault) -> Result<(), AllocError>
    ensures { OnOk result (fault ≢ OutOfMemory) }
{
    match fault {
        TypeFault::Unknown(_, _) => Ok(()),
        TypeFault::Mismatch(_, _, _) => Ok(()),
        TypeFault::NotNormal(_) => Ok(()),
        TypeFault::Memory => Err(AllocError),
    }
}

/// The typed function of a section; none where it is not read or not typed.
fn typed(
    alloc: Global,
    index: &ScopeIndex<'_>,
    section: &Section,
) -> Result<Option<TypedFn>, AllocError>
    requires { IsIndex index.now }
    ensures { IfOk result (IsOnly (IsFunction index.now.scope.now section.now)) }
{
    let Some(function) = function_in(alloc, &section.text)? else {
        return Ok(None);
    };
    typing_laws();
    match type_in(alloc, index, &function) {
        Ok(typed) => Ok(Some(typed)),
        Err(fault) => {
            faulty(fault)?;
            Ok(None)
        }
    }
}

/// The global of a section; none where it is not read, or its type has no size.
fn defined(
    alloc: Global,
    scope: &CScope,
    section: &Section,
) -> Result<Option<GlobalDef>, AllocError>
    ensures { IfOk result (IsOnly (IsGlobal scope.now section.now)) }
{
    match declaration_in(alloc, &section.text)? {
        Some(Decl::Global(field, init)) => match scope.structs.size(&field.typ) {
            Some(cells) => Ok(Some(GlobalDef {
                name: field.name,
                cells,
                init,
            })),
            None => Ok(None),
        },
        Some(Decl::Struct(_, _)) => Ok(None),
        None => Ok(None),
    }
}

/// Adds what a section defines; false where it should define something and doesn't.
fn add(
    alloc: Global,
    index: &ScopeIndex<'_>,
    section: &Section,
    code: &mut Code,
) -> Result<bool, AllocError>
    requires { IsIndex index.now }
    ensures { IfOk result (Adds (HasCode index.now.scope.now (section.now ∷ [])) code.old code.new) }
{
    match section.kind {
        SectionKind::Fn => match typed(alloc, index, section)? {
            Some(function) => {
                code.fns.push(function)?;
                Ok(true)
            }
            None => Ok(false),
        },
        SectionKind::Global => match defined(alloc, index.scope, section)? {
            Some(global) => {
                code.globals.push(global)?;
                Ok(true)
            }
            None => Ok(false),
        },
        SectionKind::Uses
        | SectionKind::Exports
        | SectionKind::Units
        | SectionKind::Struct
        | SectionKind::Abstract
        | SectionKind::Pred
        | SectionKind::Spec
        | SectionKind::Script
        | SectionKind::Sub
        | SectionKind::Init => Ok(true),
    }
}

/// Adds what the sections of a unit define, in their order; false where one should define something and doesn't.
fn add_sections(
    alloc: Global,
    index: &ScopeIndex<'_>,
    sections: &[Section],
    code: &mut Code,
) -> Result<bool, AllocError>
    requires { IsIndex index.now }
    ensures { IfOk result (Adds (HasCode index.now.scope.now sections.now) code.old code.new) }
{
    for section in sections {
        if !add(alloc, index, section, code)? {
            return Ok(false);
        }
    }
    Ok(true)
}

/// Adds what sections define under a scope, whose names are numbered once for all their functions.
fn add_scoped(
    alloc: Global,
    scope: &CScope,
    sections: &[Section],
    code: &mut Code,
) -> Result<bool, AllocError>
    ensures { IfOk result (Adds (HasCode scope.now sections.now) code.old code.new) }
{
    let index = ScopeIndex::new(alloc, scope)?;
    add_sections(alloc, &index, sections, code)
}

/// The scope of the functions of a text that reaches no interface; none where its head part fails a condition.
fn scope_of(alloc: Global, outline: &Outline) -> Result<Option<CScope>, AllocError>
    ensures { IfOk result (λ found. MatchOption found ((scope : CScope_of_parts) → HasScope (part.head_part outline.now ∷ []) scope → ⊥) (IsScopeOf (part.head_part outline.now ∷ []))) }
{
    let mut parts = List::new(alloc);
    parts.push(head_part(alloc, outline)?)?;
    match scopes(alloc, &parts) {
        Ok(scopes) => {
            let Scopes { c, logic: _ } = scopes;
            Ok(Some(c))
        }
        Err(HeadFault::Refused(_, _)) => Ok(None),
        Err(HeadFault::Memory(fault)) => Err(fault),
    }
}

/// Adds the functions and globals of a unit that reaches no interface; false where its head part fails a condition, a function is not read
/// or not typed, or a global has no size.
pub fn add_unit(alloc: Global, unit: &Outline, code: &mut Code) -> Result<bool, AllocError>
    ensures { IfOk result (Adds (IsAlone unit.now) code.old code.new) }
{
    match scope_of(alloc, unit)? {
        Some(scope) => add_scoped(alloc, &scope, unit.sections.as_slice(), code),
        None => Ok(false),
    }
}
