//! The part of a text that other texts see.

ghost use Rattle.std.specs.Prelude.{◌≡◌, ◌++◌, ◌∷◌, not, List as Items, [], flat_map, map, IfOk, OnOk};
ghost use Rattle.std.specs.List.{filter};
ghost use Rattle.vd_heads.specs.HeadPart as part;
ghost use Rattle.vd_outline.specs.Lines.{joined};
ghost use Rattle.vd_outline.specs.Outline.{head_line, header_line, kind_word, section_word};

use std::alloc::{AllocError, Global};
use vd_base::{Name, Text};
use vd_outline::{Outline, Section, SectionKind, TextKind};

/// Whether a section of this kind declares: all but functions and proofs do.
pub fn is_head(kind: SectionKind) -> bool
    ensures { result ≡ part.is_head kind }
{
    match kind {
        SectionKind::Uses
        | SectionKind::Exports
        | SectionKind::Units
        | SectionKind::Struct
        | SectionKind::Global
        | SectionKind::Abstract
        | SectionKind::Pred
        | SectionKind::Spec => true,
        SectionKind::Fn | SectionKind::Script | SectionKind::Sub | SectionKind::Init => false,
    }
}

fn kind_word(kind: TextKind) -> &'static [u8]
    ensures { result.now ≡ kind_word kind }
{
    match kind {
        TextKind::Interface => b"interface",
        TextKind::Unit => b"unit",
        TextKind::Link => b"link",
    }
}

/// The word that a header line of such a section begins with.
pub fn section_word(kind: SectionKind) -> &'static [u8]
    ensures { result.now ≡ section_word kind }
{
    match kind {
        SectionKind::Uses => b"uses",
        SectionKind::Exports => b"exports",
        SectionKind::Units => b"units",
        SectionKind::Struct => b"struct",
        SectionKind::Global => b"global",
        SectionKind::Abstract => b"abstract",
        SectionKind::Pred => b"pred",
        SectionKind::Spec => b"spec",
        SectionKind::Fn => b"fn",
        SectionKind::Script => b"script",
        SectionKind::Sub => b"sub",
        SectionKind::Init => b"init",
    }
}

/// The head line of a text of this kind and name, with its line feed.
pub fn head_line(alloc: Global, kind: TextKind, name: &Name) -> Result<Text, AllocError>
    ensures { IfOk result (λ line. line ≡ head_line kind name.now ++ 10 ∷ []) }
{
    let mut line = Text::new(alloc, kind_word(kind))?;
    line.append(b" ")?;
    line.append(name.as_bytes())?;
    line.append(b"\n")?;
    Ok(line)
}

/// The head part of a text: its head line and its head sections, in their order.
pub fn head_part(alloc: Global, outline: &Outline) -> Result<Text, AllocError>
    ensures { IfOk result (λ text. text ≡ part.head_part outline.now) }
{
    let mut text = head_line(alloc, outline.kind, &outline.name)?;
    for section in outline.sections.as_slice() {
        if is_head(section.kind) {
            text.append(section.text.as_bytes())?;
        }
    }
    Ok(text)
}

/// Adds a section's header line, with its line feed.
fn put_header(lines: &mut Text, section: &Section) -> Result<(), AllocError>
    ensures { OnOk result (lines.new ≡ lines.old ++ header_line section.now.kind section.now.name ++ 10 ∷ []) }
{
    lines.append(section_word(section.kind))?;
    if let Some(name) = &section.name {
        lines.append(b" ")?;
        lines.append(name.as_bytes())?;
    }
    lines.append(b"\n")?;
    Ok(())
}

/// The header lines of the sections that are no head sections, in their order.
pub fn header_lines(alloc: Global, outline: &Outline) -> Result<Text, AllocError>
    ensures { IfOk result (λ text. text ≡ part.header_lines outline.now) }
{
    let mut lines = Text::new(alloc, b"")?;
    for section in outline.sections.as_slice() {
        if !is_head(section.kind) {
            put_header(&mut lines, section)?;
        }
    }
    Ok(lines)
}
