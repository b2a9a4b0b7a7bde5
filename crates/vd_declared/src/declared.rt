//! What units declare, and what is declared twice. No unit exports an interface, so no declaration is a definition of another.

ghost use Rattle.std.specs.Prelude.{◌≡◌, [], ℕ, List as Items, IfOk, OnOk, All, MatchOption, option_copied, true};
ghost use Rattle.vd_heads.specs.declared.table.Space.{Space as Space_of_name};
ghost use Rattle.vd_linkage.specs.Declaration as declaration;
ghost use Rattle.vd_linkage.specs.Form.{Entry, is_plain};
ghost use Rattle.vd_declared.specs.Listed.{AddsDeclarations, IsFirstShared, NoneShared, UnitsDeclare};

use crate::owners::Owners;
use std::alloc::{AllocError, Global};
use vd_base::{List, Name};
use vd_heads::Space;
use vd_linkage::is_read;
use vd_outline::{Outline, Section, SectionKind};

/// A name that a unit declares, with the numbers of the unit and of its section.
#[derive(Clone, Copy)]
pub(crate) struct Declaration<'u> {
    pub(crate) space: Space,
    pub(crate) name: &'u Name,
    pub(crate) unit: usize,
    pub(crate) section: usize,
}

/// The name space of what a section declares.
fn space_of(kind: SectionKind) -> Option<Space>
    ensures { result ≡ declaration.space_of kind }
{
    match kind {
        SectionKind::Struct => Some(Space::Struct),
        SectionKind::Global => Some(Space::Global),
        SectionKind::Spec | SectionKind::Fn => Some(Space::Function),
        SectionKind::Abstract | SectionKind::Pred => Some(Space::Predicate),
        SectionKind::Uses
        | SectionKind::Exports
        | SectionKind::Units
        | SectionKind::Script
        | SectionKind::Sub
        | SectionKind::Init => None,
    }
}

/// What a section declares, where it is read.
fn declared_in(alloc: Global, section: &Section) -> Result<Option<(Space, &Name)>, AllocError>
    ensures { IfOk result (λ found. MatchOption found
        ((space : Space_of_name) (name : Items ℕ) → declaration.Declares section.now space name → ⊥)
        (λ d. declaration.Declares section.now d.0 d.1.now)) }
{
    let (Some(space), Some(name)) = (space_of(section.kind), &section.name) else {
        return Ok(None);
    };
    if is_read(alloc, section)? {
        Ok(Some((space, name)))
    } else {
        Ok(None)
    }
}

/// Adds what the sections of the unit of a number declare, in their order.
fn add_sections<'u>(
    alloc: Global,
    unit: usize,
    sections: &'u [Section],
    found: &mut Vec<Declaration<'u>>,
) -> Result<(), AllocError>
    ensures { OnOk result (AddsDeclarations unit sections.now found.old.items found.new.items) }
{
    for (at, section) in sections.iter().enumerate() {
        if let Some((space, name)) = declared_in(alloc, section)? {
            found.push(Declaration {
                space,
                name,
                unit,
                section: at,
            })?;
        }
    }
    Ok(())
}

/// What units declare, in their order and that of their sections.
fn declarations_of<'u>(
    alloc: Global,
    units: &'u [Outline],
) -> Result<Vec<Declaration<'u>>, AllocError>
    ensures { IfOk result (λ found. UnitsDeclare 0 units.now found.items) }
{
    let mut found = Vec::new(alloc);
    for (unit, outline) in units.iter().enumerate() {
        add_sections(alloc, unit, outline.sections.as_slice(), &mut found)?;
    }
    Ok(found)
}

/// The name of the first declaration whose name another unit declares too.
fn first_shared<'u>(
    alloc: Global,
    declarations: &[Declaration<'u>],
) -> Result<Option<&'u Name>, AllocError>
    ensures { IfOk result (λ found. MatchOption found (NoneShared declarations.now) (λ name. IsFirstShared declarations.now name.now)) }
{
    let owners = Owners::of(alloc, declarations)?;
    for d in declarations {
        if owners.are_more(d.space, d.name.as_bytes()) {
            return Ok(Some(d.name));
        }
    }
    Ok(None)
}

/// An equal name, where there is one.
fn copy_of(alloc: Global, name: Option<&Name>) -> Result<Option<Name>, AllocError>
    ensures { IfOk result (λ copy. copy ≡ option_copied name.entry) }
{
    match name {
        Some(name) => Ok(Some(name.copy(alloc)?)),
        None => Ok(None),
    }
}

/// The first name, by the place of its first declaration, that two units declare in one name space.
pub fn declared_twice(alloc: Global, units: &List<Outline>) -> Result<Option<Name>, AllocError>
    ensures { IfOk result (λ found. (texts : Items Entry) → All (λ o. is_plain o ≡ true) units.now
        → MatchOption found ((name : Items ℕ) → declaration.IsFirstTwice texts [] units.now name → ⊥) (λ name. declaration.IsFirstTwice texts [] units.now name)) }
{
    let declarations = declarations_of(alloc, units.as_slice())?;
    let name = first_shared(alloc, declarations.as_slice())?;
    copy_of(alloc, name)
}
