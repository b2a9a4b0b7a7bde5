//! Reading head parts.

ghost use Rattle.std.specs.Prelude.{◌≡◌, ◌≢◌, ◌+◌, IfOk, OnOk, option_copied, IsTrue, ◌↔◌, All, Some, ℕ, List as Items};
ghost use Rattle.vd_grammar.specs.declared.fault.ParseFault.TheVariants.{Memory};
ghost use Rattle.vd_outline.specs.declared.outline.TextKind.{TextKind as Kind_of_text};
ghost use Rattle.vd_outline.specs.declared.outline.TextKind.TheVariants as text_kind;
ghost use Rattle.vd_outline.specs.Fault.{IsBad};
ghost use Rattle.vd_heads.specs.HeadPart as head_part;
ghost use Rattle.vd_outline.specs.Outline.{Bytes, HasHead, IsSection, Outlines};
ghost use Rattle.vd_heads.specs.declared.content.Content.TheVariants as content_kind;
ghost use Rattle.vd_listing.specs.Listing.{IsCut};
ghost use Rattle.vd_scopes.specs.Head as head;

use std::alloc::{AllocError, Global};
use vd_base::{List, Name, Text};
use vd_cparse::{Decl, parse_decl};
use vd_grammar::ParseFault;
use vd_heads::{Content, HeadSection, Mention, Part, head_line, is_head};
use vd_listing::names_in;
use vd_outline::{Outline, OutlineFault, Section, SectionKind, outline_of};
use vd_sparse::{LogicText, parse_logic};

/// The place of a byte.
fn place_of(at: usize) -> u32
    ensures { result ≡ head.told at }
{
    u32::try_from(at).unwrap_or(u32::MAX)
}

/// The place of a byte of a section that begins there.
fn place_in(at: usize, place: u32) -> u32
    ensures { result ≡ head.told (at + place) }
{
    place_of(at.saturating_add(place as usize))
}

/// A section that begins there and is not read.
fn unread(at: usize, fault: ParseFault) -> Result<Content, AllocError>
    ensures content { IfOk result (λ c. c ≡ head.fault_content at fault) }
    ensures certain { OnOk result (fault ≢ Memory) }
{
    match fault {
        ParseFault::Bad(place) | ParseFault::Deep(place) => {
            Ok(Content::Unread(place_in(at, place)))
        }
        ParseFault::Memory => Err(AllocError),
    }
}

/// The names with their places in the head part.
fn placed(alloc: Global, at: usize, names: List<Mention>) -> Result<List<Mention>, AllocError>
    ensures { IfOk result (λ found. found ≡ head.placed at names) }
{
    let mut found = List::new(alloc);
    for mention in names.into_vec() {
        let Mention { name, place } = mention;
        let place = place_in(at, place);
        found.push(Mention { name, place })?;
    }
    Ok(found)
}

fn uses(alloc: Global, at: usize, text: &Text) -> Result<Content, AllocError>
    ensures { (header content : Bytes) → IsCut text.now header content → IfOk result (head.Lists (λ names. content_kind.Uses names) text.now at) }
{
    match names_in(alloc, text) {
        Ok(names) => Ok(Content::Uses(placed(alloc, at, names)?)),
        Err(fault) => unread(at, fault),
    }
}

fn exports(alloc: Global, at: usize, text: &Text) -> Result<Content, AllocError>
    ensures { (header content : Bytes) → IsCut text.now header content → IfOk result (head.Lists (λ names. content_kind.Exports names) text.now at) }
{
    match names_in(alloc, text) {
        Ok(names) => Ok(Content::Exports(placed(alloc, at, names)?)),
        Err(fault) => unread(at, fault),
    }
}

fn declaration(alloc: Global, at: usize, text: &Text) -> Result<Content, AllocError>
    ensures { IfOk result (head.DeclaresC text.now at) }
{
    match parse_decl(alloc, text) {
        Ok(Decl::Struct(name, fields)) => Ok(Content::Struct(name, fields)),
        Ok(Decl::Global(field, init)) => Ok(Content::Global(field, init)),
        Err(fault) => unread(at, fault),
    }
}

fn logic(alloc: Global, at: usize, text: &Text) -> Result<Content, AllocError>
    ensures { IfOk result (head.DeclaresLogic text.now at) }
{
    match parse_logic(alloc, text) {
        Ok(LogicText::Abstract(name, sorts, twice)) => Ok(Content::Abstract(name, sorts, twice)),
        Ok(LogicText::Pred(pred, twice)) => Ok(Content::Pred(pred, twice)),
        Ok(LogicText::Spec(spec, twice)) => Ok(Content::Spec(spec, twice)),
        Ok(LogicText::Script(_, _)) | Ok(LogicText::Sub(_, _)) | Ok(LogicText::Init(_, _)) => {
            Ok(Content::Unread(place_of(at)))
        }
        Err(fault) => unread(at, fault),
    }
}

/// What a head section says that begins there.
fn content_of(alloc: Global, at: usize, section: &Section) -> Result<Content, AllocError>
    ensures { (kind : Kind_of_text) → IsSection kind section.now → IfOk result (head.Says section.now.kind section.now.text at) }
{
    match section.kind {
        SectionKind::Exports => exports(alloc, at, &section.text),
        SectionKind::Struct | SectionKind::Global => declaration(alloc, at, &section.text),
        SectionKind::Abstract | SectionKind::Pred | SectionKind::Spec => {
            logic(alloc, at, &section.text)
        }
        SectionKind::Uses
        | SectionKind::Units
        | SectionKind::Fn
        | SectionKind::Script
        | SectionKind::Sub
        | SectionKind::Init => uses(alloc, at, &section.text),
    }
}

/// The head sections, the first of which begins there.
fn head_sections(
    alloc: Global,
    begin: usize,
    sections: &[Section],
) -> Result<List<HeadSection>, AllocError>
    ensures { (kind : Kind_of_text) → All (IsSection kind) sections.now → IfOk result (head.AllSay begin (head_part.head_sections sections.now)) }
{
    let mut found = List::new(alloc);
    let mut at = begin;
    for section in sections {
        if is_head(section.kind) {
            let content = content_of(alloc, at, section)?;
            let place = place_of(at);
            found.push(HeadSection { place, content })?;
            at = at.saturating_add(section.text.len());
        }
    }
    Ok(found)
}

/// The head part of an outlined text.
fn outlined_part(alloc: Global, outline: Outline) -> Result<Part, AllocError>
    ensures { (text : Bytes) → Outlines text outline → IfOk result (head.IsPart text) }
{
    let Outline {
        kind,
        name,
        sections,
    } = outline;
    let line = head_line(alloc, kind, &name)?;
    let sections = head_sections(alloc, line.len(), sections.as_slice())?;
    Ok(Part {
        head: Some((kind, name)),
        sections,
    })
}

/// A text that is no outline at this place.
fn broken_part(alloc: Global, place: u32) -> Result<Part, AllocError>
    ensures { IfOk result (λ part. part ≡ head.broken place) }
{
    let mut sections = List::new(alloc);
    let content = Content::Unread(place);
    sections.push(HeadSection { place, content })?;
    Ok(Part {
        head: None,
        sections,
    })
}

/// What the head part of a text says.
pub(crate) fn part_of(alloc: Global, text: &Text) -> Result<Part, AllocError>
    ensures { IfOk result (head.IsPart text.now) }
{
    match outline_of(alloc, text) {
        Ok(outline) => outlined_part(alloc, outline),
        Err(OutlineFault::NoHead) => broken_part(alloc, 0),
        Err(OutlineFault::Bad(place)) => broken_part(alloc, place),
        Err(OutlineFault::Memory(fault)) => Err(fault),
    }
}
