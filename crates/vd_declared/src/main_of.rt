//! The function main of units.

ghost use Rattle.std.specs.Prelude.{◌≡◌, ◌↔◌, [], IfOk, IsTrue};
ghost use Rattle.vd_base.specs.declared.ctype.CType.{Int};
ghost use Rattle.vd_linkage.specs.Conditions.{HasOneMain, IsMainIn};
ghost use Rattle.vd_linkage.specs.Only.{IsOnly};

use std::alloc::{AllocError, Global};
use vd_base::{CType, List};
use vd_clight::FnText;
use vd_linkage::function_in;
use vd_outline::{Outline, SectionKind, find};

/// The function main of a unit, where it has one that is read.
fn main_in(alloc: Global, unit: &Outline) -> Result<Option<FnText>, AllocError>
    ensures { IfOk result (IsOnly (IsMainIn unit.now)) }
{
    match find(unit.sections.as_slice(), SectionKind::Fn, Some(b"main")) {
        Some(section) => function_in(alloc, &section.text),
        None => Ok(None),
    }
}

/// Whether a function is `int main ( void )` but for its name.
fn is_main(function: &FnText) -> bool
    ensures { IsTrue result ↔ ((function.now.ret ≡ Int) × (function.now.params ≡ [])) }
{
    matches!(function.ret, CType::Int) && function.params.is_empty()
}

/// Whether just one of the units has a function main, and it is `int main ( void )`.
pub fn has_one_main(alloc: Global, units: &List<Outline>) -> Result<bool, AllocError>
    ensures { IfOk result (λ one. IsTrue one ↔ HasOneMain units.now) }
{
    let mut found = None;
    for unit in units.as_slice() {
        if let Some(function) = main_in(alloc, unit)? {
            if found.is_some() {
                return Ok(false);
            }
            found = Some(is_main(&function));
        }
    }
    Ok(found == Some(true))
}
