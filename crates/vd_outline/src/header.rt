//! Header lines of sections.

ghost use Rattle.std.specs.Prelude.{◌≡◌, true, ◌++◌, ◌∷◌, IfOk, MatchOption, Option, option_copied};
ghost use Rattle.vd_outline.specs.declared.section.SectionKind.{SectionKind as Kind_of_section};
ghost use Rattle.vd_outline.specs.Outline.{Bytes, takes_name, stands_in};
ghost use Rattle.vd_outline.specs.Reading.{IsHeader, IsSplit};
ghost use Rattle.vd_outline.specs.Words.{section_kind_from};

use crate::head::name_of;
use crate::line::{cut_at, is};
use crate::outline::TextKind;
use crate::section::SectionKind;
use std::alloc::{AllocError, Global};
use vd_base::Name;

/// The word that a line begins with, and what stands behind the space that follows it.
fn split_word(line: &[u8]) -> (&[u8], Option<&[u8]>)
    ensures { IsSplit line.now result.0.now (option_copied result.1) }
{
    match cut_at(line, b' ') {
        Some((word, name)) => (word, Some(name)),
        None => (line, None),
    }
}

fn section_kind_of(word: &[u8]) -> Option<SectionKind>
    ensures { result ≡ section_kind_from word.now }
{
    if is(word, b"uses") {
        Some(SectionKind::Uses)
    } else if is(word, b"exports") {
        Some(SectionKind::Exports)
    } else if is(word, b"units") {
        Some(SectionKind::Units)
    } else if is(word, b"struct") {
        Some(SectionKind::Struct)
    } else if is(word, b"global") {
        Some(SectionKind::Global)
    } else if is(word, b"abstract") {
        Some(SectionKind::Abstract)
    } else if is(word, b"pred") {
        Some(SectionKind::Pred)
    } else if is(word, b"spec") {
        Some(SectionKind::Spec)
    } else if is(word, b"fn") {
        Some(SectionKind::Fn)
    } else if is(word, b"script") {
        Some(SectionKind::Script)
    } else if is(word, b"sub") {
        Some(SectionKind::Sub)
    } else if is(word, b"init") {
        Some(SectionKind::Init)
    } else {
        None
    }
}

fn takes_name(kind: SectionKind) -> bool
    ensures { result ≡ takes_name kind }
{
    match kind {
        SectionKind::Uses | SectionKind::Exports | SectionKind::Units | SectionKind::Init => false,
        SectionKind::Struct
        | SectionKind::Global
        | SectionKind::Abstract
        | SectionKind::Pred
        | SectionKind::Spec
        | SectionKind::Fn
        | SectionKind::Script
        | SectionKind::Sub => true,
    }
}

fn stands_in(kind: SectionKind, text: TextKind) -> bool
    ensures { result ≡ stands_in kind text }
{
    match kind {
        SectionKind::Uses | SectionKind::Struct | SectionKind::Pred | SectionKind::Spec => {
            text != TextKind::Link
        }
        SectionKind::Units => text == TextKind::Link,
        SectionKind::Abstract => text == TextKind::Interface,
        SectionKind::Exports
        | SectionKind::Global
        | SectionKind::Fn
        | SectionKind::Script
        | SectionKind::Sub
        | SectionKind::Init => text == TextKind::Unit,
    }
}

/// The kind and the name of a header line that may stand in a text of this kind.
pub(crate) fn header_of(
    alloc: Global,
    text: TextKind,
    line: &[u8],
) -> Result<Option<(SectionKind, Option<Name>)>, AllocError>
    ensures { IfOk result (λ found. MatchOption found ((kind : Kind_of_section) (name : Option Bytes) → IsHeader text line.now kind name → ⊥) (λ header. IsHeader text line.now header.0 header.1)) }
{
    let (word, name) = split_word(line);
    let Some(kind) = section_kind_of(word) else {
        return Ok(None);
    };
    if !stands_in(kind, text) || takes_name(kind) != name.is_some() {
        return Ok(None);
    }
    match name {
        None => Ok(Some((kind, None))),
        Some(bytes) => match name_of(alloc, bytes)? {
            Some(name) => Ok(Some((kind, Some(name)))),
            None => Ok(None),
        },
    }
}
