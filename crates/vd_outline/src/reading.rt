//! Reading the sections of a text, one after another.

ghost use Rattle.std.specs.Prelude.{◌≡◌, ℕ, false, ◌++◌, ◌||◌, IfOk, IsErrOf};
ghost use Rattle.std.specs.Str.{bytes_eq};
ghost use Rattle.vd_outline.specs.Outline.{Bytes, IsSection, header_line};
ghost use Rattle.vd_outline.specs.Reading.{AreSections, SectionStops, SectionsStop};
ghost use Rattle.vd_outline.specs.Seen.{has};

use crate::body::body_end;
use crate::header::header_of;
use crate::line::cut_at;
use crate::outline::TextKind;
use crate::section::Section;
use crate::seen::Seen;
use std::alloc::{AllocError, Global};
use vd_base::{List, Text, hold};

/// Why sections are not read.
#[derive(Drop)]
pub(crate) enum SectionFault {
    /// Where so many bytes are left, no line follows that may stand there.
    Bad(usize),
    Memory(AllocError),
}

/// The section that the bytes begin with, and what follows it.
fn read_section<'a>(
    alloc: Global,
    kind: TextKind,
    seen: &mut Seen<'a>,
    bytes: &'a [u8],
) -> Result<(Section, &'a [u8]), SectionFault>
    ensures section { IfOk result (λ read. IsSection kind read.0) }
    ensures bytes { IfOk result (λ read. bytes.now ≡ read.0.text ++ read.1.now) }
    ensures is_new { IfOk result (λ read. has seen.old (header_line read.0.kind read.0.name) ≡ false) }
    ensures seen { IfOk result (λ read. (line : Bytes) → has seen.new line ≡ (bytes_eq (header_line read.0.kind read.0.name) line || has seen.old line)) }
    ensures bad { (left : ℕ) → IsErrOf result (SectionFault.Bad left) → SectionStops kind (has seen.old) bytes.now left }
{
    let Some((line, lines)) = cut_at(bytes, b'\n') else {
        return Err(SectionFault::Bad(bytes.len()));
    };
    let Some((section_kind, name)) = header_of(alloc, kind, line).map_err(SectionFault::Memory)?
    else {
        return Err(SectionFault::Bad(bytes.len()));
    };
    let name = hold(name);
    let is_new = seen.add(line).map_err(SectionFault::Memory)?;
    if !is_new {
        return Err(SectionFault::Bad(bytes.len()));
    }
    match body_end(lines) {
        Ok(body) => {
            let (text, rest) = bytes.split_at(bytes.len() - lines.len() + body);
            let text = Text::new(alloc, text).map_err(SectionFault::Memory)?;
            let section = Section {
                kind: section_kind,
                name: name.out(),
                text,
            };
            Ok((section, rest))
        }
        Err(left) => Err(SectionFault::Bad(left)),
    }
}

/// The sections that the bytes are.
pub(crate) fn read_sections(
    alloc: Global,
    kind: TextKind,
    bytes: &[u8],
) -> Result<List<Section>, SectionFault>
    ensures sections { IfOk result (λ sections. AreSections kind bytes.now sections) }
    ensures bad { (left : ℕ) → IsErrOf result (SectionFault.Bad left) → SectionsStop kind bytes.now left }
{
    let mut sections = List::new(alloc);
    let mut seen = Seen::new(alloc);
    let mut rest = bytes;
    while !rest.is_empty() {
        let (section, after) = read_section(alloc, kind, &mut seen, rest)?;
        sections.push(section).map_err(SectionFault::Memory)?;
        rest = after;
    }
    if kind == TextKind::Link && sections.is_empty() {
        return Err(SectionFault::Bad(0));
    }
    Ok(sections)
}
