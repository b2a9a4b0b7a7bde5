//! The form of texts that linking takes.

ghost use Rattle.std.specs.Prelude.{◌≡◌, ◌↔◌, IfOk, IsTrue};
ghost use Rattle.std.specs.List.{list_all};
ghost use Rattle.vd_linkage.specs.Form.{IsPlainText, is_plain, is_plain_kind, is_plain_section};

use std::alloc::{AllocError, Global};
use vd_base::Text;
use vd_outline::{Outline, OutlineFault, Section, SectionKind, TextKind, outline_of};

fn is_plain_kind(kind: TextKind) -> bool
    ensures { result ≡ is_plain_kind kind }
{
    match kind {
        TextKind::Interface => false,
        TextKind::Unit => true,
        TextKind::Link => true,
    }
}

fn is_plain_section(kind: SectionKind) -> bool
    ensures { result ≡ is_plain_section kind }
{
    match kind {
        SectionKind::Uses => false,
        SectionKind::Exports => false,
        SectionKind::Sub => false,
        SectionKind::Init => false,
        SectionKind::Units => true,
        SectionKind::Struct => true,
        SectionKind::Global => true,
        SectionKind::Abstract => true,
        SectionKind::Pred => true,
        SectionKind::Spec => true,
        SectionKind::Fn => true,
        SectionKind::Script => true,
    }
}

fn are_plain_sections(sections: &[Section]) -> bool
    ensures { result ≡ list_all (λ s. is_plain_section s.kind) sections.now }
{
    for section in sections {
        if !is_plain_section(section.kind) {
            return false;
        }
    }
    true
}

fn is_plain_outline(outline: &Outline) -> bool
    ensures { result ≡ is_plain outline.now }
{
    is_plain_kind(outline.kind) && are_plain_sections(outline.sections.as_slice())
}

/// Whether a text, where it has an outline, is a unit or a link without a section that speaks of interfaces.
pub fn is_plain(alloc: Global, text: &Text) -> Result<bool, AllocError>
    ensures { IfOk result (λ plain. IsTrue plain ↔ IsPlainText text.now) }
{
    match outline_of(alloc, text) {
        Ok(outline) => Ok(is_plain_outline(&outline)),
        Err(OutlineFault::NoHead) => Ok(true),
        Err(OutlineFault::Bad(_)) => Ok(true),
        Err(OutlineFault::Memory(fault)) => Err(fault),
    }
}
