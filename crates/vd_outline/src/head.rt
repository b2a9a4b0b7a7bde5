//! Head lines.

ghost use Rattle.std.specs.Prelude.{◌≡◌, true, false, ◌++◌, ◌∷◌, IfOk, MatchOption};
ghost use Rattle.vd_base.specs.Name.{is_name};
ghost use Rattle.vd_outline.specs.declared.outline.TextKind.{TextKind as Kind_of_text};
ghost use Rattle.vd_outline.specs.Outline.{Bytes, HasHead, head_line};
ghost use Rattle.vd_outline.specs.Words.{text_kind_from};

use crate::line::{cut_at, is};
use crate::outline::TextKind;
use std::alloc::{AllocError, Global};
use vd_base::{Name, NameFault};

/// The name that the bytes are.
pub(crate) fn name_of(alloc: Global, bytes: &[u8]) -> Result<Option<Name>, AllocError>
    ensures { IfOk result (λ found. MatchOption found (is_name bytes.now ≡ false) (λ name. (name ≡ bytes.now) × (is_name name ≡ true))) }
{
    match Name::new(alloc, bytes) {
        Ok(name) => Ok(Some(name)),
        Err(NameFault::NotName) => Ok(None),
        Err(NameFault::Memory(fault)) => Err(fault),
    }
}

fn text_kind_of(word: &[u8]) -> Option<TextKind>
    ensures { result ≡ text_kind_from word.now }
{
    if is(word, b"interface") {
        Some(TextKind::Interface)
    } else if is(word, b"unit") {
        Some(TextKind::Unit)
    } else if is(word, b"link") {
        Some(TextKind::Link)
    } else {
        None
    }
}

/// The kind and the name that a head line tells, and what follows the line.
pub(crate) fn cut_head(
    alloc: Global,
    bytes: &[u8],
) -> Result<Option<(TextKind, Name, &[u8])>, AllocError>
    ensures { IfOk result (λ found. MatchOption found ((kind : Kind_of_text) (name : Bytes) → HasHead bytes.now kind name → ⊥)
        (λ head. (bytes.now ≡ head_line head.0 head.1 ++ 10 ∷ head.2.now) × (is_name head.1 ≡ true))) }
{
    let Some((line, rest)) = cut_at(bytes, b'\n') else {
        return Ok(None);
    };
    let Some((word, name)) = cut_at(line, b' ') else {
        return Ok(None);
    };
    let Some(kind) = text_kind_of(word) else {
        return Ok(None);
    };
    match name_of(alloc, name)? {
        Some(name) => Ok(Some((kind, name, rest))),
        None => Ok(None),
    }
}
