//! The scopes that head parts give.

ghost use Rattle.std.specs.Prelude.{◌≡◌, ◌++◌, [], true, false, cond, IfOk, OnOk};
ghost use Rattle.vd_heads.specs.Closure.{IsUnambiguous};
ghost use Rattle.vd_heads.specs.Views.{IsView, is_marked};
ghost use Rattle.vd_scopes.specs.Scope.{Adds, AddsOne, AreScopes, globals_in, preds_in, signatures_in, specs_in};

use crate::structs::structs_of;
use std::alloc::{AllocError, Global};
use vd_base::{CType, Field, List, Name, copy_fields};
use vd_clight::{CScope, Signature};
use vd_heads::{Content, HeadSection, Part, View};
use vd_logic::{Assertion, LScope, PredDef, Sort, Spec};

/// What the sections of a text see: of C, and of the logic. Declarations stand in the order of the parts, the own part
/// first; of two of one name the first counts.
#[derive(Drop)]
pub struct Scopes {
    pub c: CScope,
    pub logic: LScope,
}

fn signature_of(alloc: Global, spec: &Spec) -> Result<Signature, AllocError>
    ensures { IfOk result (λ s. s ≡ record { ret = spec.now.ret; name = spec.now.name; params = spec.now.params }) }
{
    let name = spec.name.copy(alloc)?;
    let params = copy_fields(alloc, &spec.params)?;
    let ret = spec.ret.copy(alloc)?;
    Ok(Signature { ret, name, params })
}

fn copy_global(alloc: Global, field: &Field) -> Result<(Name, CType), AllocError>
    ensures { IfOk result (λ g. g ≡ (field.now.name, field.now.typ)) }
{
    let name = field.name.copy(alloc)?;
    Ok((name, field.typ.copy(alloc)?))
}

fn copy_cases(alloc: Global, cases: &[Assertion]) -> Result<List<Assertion>, AllocError>
    ensures { IfOk result (λ copies. copies ≡ cases.now) }
{
    let mut copies = List::new(alloc);
    for case in cases {
        copies.push(case.copy(alloc)?)?;
    }
    Ok(copies)
}

fn copy_pred(alloc: Global, pred: &PredDef) -> Result<PredDef, AllocError>
    ensures { IfOk result (λ copy. copy ≡ pred.now) }
{
    let name = pred.name.copy(alloc)?;
    let args = List::from_slice(alloc, pred.args.as_slice())?;
    let cases = copy_cases(alloc, pred.cases.as_slice())?;
    Ok(PredDef { name, args, cases })
}

/// A predicate without a definition.
fn abstract_pred(alloc: Global, name: &Name, sorts: &[Sort]) -> Result<PredDef, AllocError>
    ensures { IfOk result (λ p. p ≡ record { name = name.now; args = sorts.now; cases = [] }) }
{
    let name = name.copy(alloc)?;
    let args = List::from_slice(alloc, sorts)?;
    Ok(PredDef {
        name,
        args,
        cases: List::new(alloc),
    })
}

fn put_globals(
    alloc: Global,
    globals: &mut List<(Name, CType)>,
    content: &Content,
) -> Result<(), AllocError>
    ensures { OnOk result (globals.new ≡ globals.old ++ globals_in content.now) }
{
    match content {
        Content::Global(field, _) => globals.push(copy_global(alloc, field)?),
        Content::Uses(_)
        | Content::Exports(_)
        | Content::Struct(_, _)
        | Content::Abstract(_, _, _)
        | Content::Pred(_, _)
        | Content::Spec(_, _)
        | Content::Unread(_) => Ok(()),
    }
}

fn put_signatures(
    alloc: Global,
    fns: &mut List<Signature>,
    content: &Content,
) -> Result<(), AllocError>
    ensures { OnOk result (fns.new ≡ fns.old ++ signatures_in content.now) }
{
    match content {
        Content::Spec(spec, _) => fns.push(signature_of(alloc, spec)?),
        Content::Uses(_)
        | Content::Exports(_)
        | Content::Struct(_, _)
        | Content::Global(_, _)
        | Content::Abstract(_, _, _)
        | Content::Pred(_, _)
        | Content::Unread(_) => Ok(()),
    }
}

fn put_preds(alloc: Global, preds: &mut List<PredDef>, content: &Content) -> Result<(), AllocError>
    ensures { OnOk result (preds.new ≡ preds.old ++ preds_in content.now) }
{
    match content {
        Content::Abstract(name, sorts, _) => {
            preds.push(abstract_pred(alloc, name, sorts.as_slice())?)
        }
        Content::Pred(pred, _) => preds.push(copy_pred(alloc, pred)?),
        Content::Uses(_)
        | Content::Exports(_)
        | Content::Struct(_, _)
        | Content::Global(_, _)
        | Content::Spec(_, _)
        | Content::Unread(_) => Ok(()),
    }
}

fn put_specs(alloc: Global, specs: &mut List<Spec>, content: &Content) -> Result<(), AllocError>
    ensures { OnOk result (specs.new ≡ specs.old ++ specs_in content.now) }
{
    match content {
        Content::Spec(spec, _) => specs.push(spec.copy(alloc)?),
        Content::Uses(_)
        | Content::Exports(_)
        | Content::Struct(_, _)
        | Content::Global(_, _)
        | Content::Abstract(_, _, _)
        | Content::Pred(_, _)
        | Content::Unread(_) => Ok(()),
    }
}

/// Adds what a section declares, but for structs.
fn put_section(alloc: Global, scopes: &mut Scopes, content: &Content) -> Result<(), AllocError>
    ensures { OnOk result (AddsOne content.now scopes.old scopes.new) }
{
    put_globals(alloc, &mut scopes.c.globals, content)?;
    put_signatures(alloc, &mut scopes.c.fns, content)?;
    put_preds(alloc, &mut scopes.logic.preds, content)?;
    put_specs(alloc, &mut scopes.logic.specs, content)
}

fn put_sections(
    alloc: Global,
    scopes: &mut Scopes,
    sections: &[HeadSection],
) -> Result<(), AllocError>
    ensures { OnOk result (Adds sections.now scopes.old scopes.new) }
{
    for section in sections {
        put_section(alloc, scopes, &section.content)?;
    }
    Ok(())
}

/// Adds what a part declares, where it is seen.
fn put_part(
    alloc: Global,
    scopes: &mut Scopes,
    view: &View<'_, '_>,
    number: usize,
    part: &Part,
) -> Result<(), AllocError>
    ensures { OnOk result (Adds (cond (is_marked view.now.closure.items number) part.now.sections []) scopes.old scopes.new) }
{
    if view.sees(number) {
        put_sections(alloc, scopes, part.sections.as_slice())
    } else {
        Ok(())
    }
}

/// The scopes of what a part sees.
pub(crate) fn scopes_of(alloc: Global, view: &View<'_, '_>) -> Result<Scopes, AllocError>
    requires view { IsView view.now }
    requires own { view.now.own ≡ 0 }
    requires one { IsUnambiguous view.now.parts.now 0 }
    ensures { IfOk result (AreScopes view.now.parts.now) }
{
    let structs = structs_of(alloc, view)?;
    let mut scopes = Scopes {
        c: CScope {
            structs,
            globals: List::new(alloc),
            fns: List::new(alloc),
        },
        logic: LScope {
            preds: List::new(alloc),
            specs: List::new(alloc),
        },
    };
    for (number, part) in view.parts.iter().enumerate() {
        put_part(alloc, &mut scopes, view, number, part)?;
    }
    Ok(scopes)
}
