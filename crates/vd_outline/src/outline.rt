//! The outline of a whole text.

ghost use Rattle.std.specs.Prelude.{◌≡◌, ◌≤◌, ℕ, ◌-◌, ◌^◌, min, IfOk, IsErrOf, MatchOption, MatchResult};
ghost use Rattle.vd_outline.specs.declared.outline.Outline.{Outline as Outlined};
ghost use Rattle.vd_outline.specs.declared.outline.TextKind.{TextKind as Kind_of_text};
ghost use Rattle.vd_outline.specs.Fault.{IsBad, IsMemory};
ghost use Rattle.vd_outline.specs.Outline.{Bytes, HasHead, Outlines};

use crate::head::cut_head;
use crate::reading::{SectionFault, read_sections};
use crate::section::Section;
use std::alloc::{AllocError, Global};
use thiserror::Error;
use vd_base::{List, Name, Text};

/// What a text is.
#[derive(Clone, Copy, Debug, PartialEq, Eq)]
pub enum TextKind {
    Interface,
    Unit,
    Link,
}

/// A text's kind and name, and its sections in their order.
#[derive(Drop)]
pub struct Outline {
    pub kind: TextKind,
    pub name: Name,
    pub sections: List<Section>,
}

/// Why a text has no outline.
#[derive(Debug, Drop, Error)]
pub enum OutlineFault {
    /// The first line is no head line.
    #[error("no head line")]
    NoHead,
    /// The byte, from 0, at which the first line begins that cannot stand where it stands, or the text's length where lines are missing.
    /// A place above 4294967295 is given as that.
    #[error("a line that cannot stand where it stands, at {0}")]
    Bad(u32),
    #[error("out of memory")]
    Memory(AllocError),
}

/// The kind and the name that the head line tells.
pub fn head_of(alloc: Global, text: &Text) -> Result<Option<(TextKind, Name)>, AllocError>
    ensures { IfOk result (λ found. MatchOption found ((kind : Kind_of_text) (name : Bytes) → HasHead text.now kind name → ⊥) (λ head. HasHead text.now head.0 head.1)) }
{
    match cut_head(alloc, text.as_bytes())? {
        Some((kind, name, _)) => Ok(Some((kind, name))),
        None => Ok(None),
    }
}

/// The fault of a text of so many bytes whose sections are not read.
fn fault_of(length: usize, fault: SectionFault) -> OutlineFault
    requires { (left : ℕ) → fault ≡ SectionFault.Bad left → left ≤ length }
    ensures head { result ≡ OutlineFault.NoHead → ⊥ }
    ensures bad { (place : ℕ) → result ≡ OutlineFault.Bad place → (left : ℕ) × (fault ≡ SectionFault.Bad left) × (place ≡ min (length - left) (2 ^ 32 - 1)) }
{
    match fault {
        SectionFault::Bad(left) => {
            OutlineFault::Bad(u32::try_from(length - left).unwrap_or(u32::MAX))
        }
        SectionFault::Memory(fault) => OutlineFault::Memory(fault),
    }
}

/// The outline of a text.
pub fn outline_of(alloc: Global, text: &Text) -> Result<Outline, OutlineFault>
    ensures ok { IfOk result (λ o. Outlines text.now o) }
    ensures only { (o : Outlined) → Outlines text.now o → MatchResult result (λ found. found ≡ o) IsMemory }
    ensures no_head { IsErrOf result OutlineFault.NoHead → (kind : Kind_of_text) (name : Bytes) → HasHead text.now kind name → ⊥ }
    ensures bad { (place : ℕ) → IsErrOf result (OutlineFault.Bad place) → IsBad text.now place }
{
    let bytes = text.as_bytes();
    let (kind, name, rest) = match cut_head(alloc, bytes) {
        Ok(Some(head)) => head,
        Ok(None) => return Err(OutlineFault::NoHead),
        Err(fault) => return Err(OutlineFault::Memory(fault)),
    };
    match read_sections(alloc, kind, rest) {
        Ok(sections) => Ok(Outline {
            kind,
            name,
            sections,
        }),
        Err(fault) => Err(fault_of(bytes.len(), fault)),
    }
}
