//! What a link lists.

ghost use Rattle.std.specs.Prelude.{◌≡◌, ◌⊎◌, ◌+◌, ◌++◌, ℕ, length, map, false, true, List as Items, [], Err, IfOk, MatchBool, MatchOption, MatchResult};
ghost use Rattle.vd_listing.specs.Listing.{IsCut, IsListing};
ghost use Rattle.vd_outline.specs.declared.outline.TextKind.TheVariants as kind_of_text;
ghost use Rattle.vd_outline.specs.Outline.{Bytes, HasHead};
ghost use Rattle.vd_linkage.specs.Conditions.{IsFirstOther, IsLinkFault, is_repeated};
ghost use Rattle.vd_linkage.specs.Form.{Entry};
ghost use Rattle.vd_units.specs.Index.{IsIndexOf};
ghost use Rattle.vd_linkage.specs.Reading.{IsListOf, has_name};
ghost use Rattle.vd_units.specs.Listed.{IsToldIn, Lists, tells_link, told};
ghost use Rattle.vd_linkage.specs.Shape.{IsLink, IsLinkText, Units};
ghost use Rattle.vd_singles.specs.Table.{CountsNames};
ghost use Rattle.vd_linkage.specs.Texts.{IsMissing, IsOutlined};

use crate::texts::Index;
use std::alloc::{AllocError, Global};
use vd_base::{List, Name, Text};
use vd_grammar::ParseFault;
use vd_heads::Mention;
use vd_listing::names_in;
use vd_outline::{Outline, OutlineFault, TextKind, head_of, outline_of};
use vd_singles::Table;
use vd_store::Snapshot;

/// The place that is told where there is no such link.
const NO_LINK: u32 = 0;

/// What a link lists.
#[derive(Drop)]
pub enum Listed {
    /// The outlines of its units, in order.
    Units(List<Outline>),
    /// The place at which its text is outside its grammar, in bytes; 0 where there is no such link.
    Outside(u32),
    /// The first name that is no unit or stands again.
    Other(Name),
}

fn names_of(alloc: Global, mentions: List<Mention>) -> Result<List<Name>, AllocError>
    ensures { IfOk result (λ names. names ≡ map (λ m. m.name) mentions) }
{
    let mut names = List::new(alloc);
    for mention in mentions.into_vec() {
        let Mention { name, place: _ } = mention;
        names.push(name)?;
    }
    Ok(names)
}

/// The names that a section lists, or the place in it at which it is outside its grammar.
fn units_in(alloc: Global, section: &Text) -> Result<Result<List<Name>, u32>, AllocError>
    ensures { (header content : Bytes) → IsCut section.now header content
        → IfOk result (λ answer. MatchResult answer (IsListOf section.now) (λ place. IsListing section.now (Err place))) }
{
    match names_in(alloc, section) {
        Ok(mentions) => Ok(Ok(names_of(alloc, mentions)?)),
        Err(ParseFault::Bad(place)) => Ok(Err(place)),
        Err(ParseFault::Deep(place)) => Ok(Err(place)),
        Err(ParseFault::Memory) => Err(AllocError),
    }
}

/// The place in a link's text of a place in its one section, the last part of that text.
fn place_behind(text: &Text, section: &Text, place: u32) -> u32
    ensures { (front : Bytes) → text.now ≡ front ++ section.now → result ≡ told (length front + place) }
{
    let front = text.len().saturating_sub(section.len());
    u32::try_from(front.saturating_add(place as usize)).unwrap_or(u32::MAX)
}

/// The names that a link's text lists, or where it is outside its grammar.
fn listed_in(alloc: Global, text: &Text) -> Result<Result<List<Name>, u32>, AllocError>
    requires { (name : Bytes) × HasHead text.now kind_of_text.Link name }
    ensures { IfOk result (λ answer. MatchResult answer (IsLinkText text.now) (IsToldIn text.now)) }
{
    match outline_of(alloc, text) {
        Ok(outline) => match outline.sections.get(0) {
            Some(section) => match units_in(alloc, &section.text)? {
                Ok(names) => Ok(Ok(names)),
                Err(place) => Ok(Err(place_behind(text, &section.text, place))),
            },
            None => Ok(Err(0)),
        },
        Err(OutlineFault::NoHead) => Ok(Err(0)),
        Err(OutlineFault::Bad(place)) => Ok(Err(place)),
        Err(OutlineFault::Memory(fault)) => Err(fault),
    }
}

fn tells_link(head: &Option<(TextKind, Name)>) -> bool
    ensures { result ≡ tells_link head.now }
{
    match head {
        Some((TextKind::Interface, _)) => false,
        Some((TextKind::Unit, _)) => false,
        Some((TextKind::Link, _)) => true,
        None => false,
    }
}

fn is_link(alloc: Global, text: &Text) -> Result<bool, AllocError>
    ensures { IfOk result (λ it. MatchBool it ((name : Bytes) × HasHead text.now kind_of_text.Link name) ((name : Bytes) → HasHead text.now kind_of_text.Link name → ⊥)) }
{
    let head = head_of(alloc, text)?;
    Ok(tells_link(&head))
}

/// The names that a link lists, or the place at which its text is outside the grammar of links, which is 0 where there is none.
fn link_names(
    alloc: Global,
    index: &Index<'_>,
    link: &Name,
) -> Result<Result<List<Name>, u32>, AllocError>
    ensures { IfOk result (λ answer. (entries : Items Entry) → IsIndexOf entries index.now
        → MatchResult answer (IsLink entries link.now) (λ place. (at : ℕ) × IsLinkFault entries link.now at × (place ≡ told at))) }
{
    let Some(text) = index.text(link.as_bytes()) else {
        return Ok(Err(NO_LINK));
    };
    if !is_link(alloc, text)? {
        return Ok(Err(NO_LINK));
    }
    listed_in(alloc, text)
}

/// How often names stand.
fn counts_of<'n>(alloc: Global, names: &'n [Name]) -> Result<Table<'n>, AllocError>
    ensures { IfOk result (CountsNames names.now) }
{
    let mut counts = Table::new(alloc);
    for name in names {
        counts.add(name.as_bytes(), 0)?;
    }
    Ok(counts)
}

/// The outline of a unit's name that stands once.
fn unit_named(
    alloc: Global,
    index: &Index<'_>,
    counts: &Table<'_>,
    name: &Name,
) -> Result<Option<Outline>, AllocError>
    ensures { IfOk result (λ found. (entries : Items Entry) (names : Items Bytes) → IsIndexOf entries index.now → CountsNames names counts.now → has_name names name.now ≡ true
        → MatchOption found (IsMissing entries kind_of_text.Unit name.now ⊎ (is_repeated names name.now ≡ true)) (λ o. IsOutlined entries kind_of_text.Unit name.now o × (is_repeated names name.now ≡ false))) }
{
    let name = name.as_bytes();
    match counts.single(name) {
        Some(_) => index.outlined(alloc, TextKind::Unit, name),
        None => Ok(None),
    }
}

/// The outlines of units of these names, each of which stands once; or the first name that is no unit or stands more than once.
fn units_named(
    alloc: Global,
    index: &Index<'_>,
    names: &List<Name>,
) -> Result<Result<List<Outline>, Name>, AllocError>
    ensures { IfOk result (λ found. (entries : Items Entry) → IsIndexOf entries index.now
        → MatchResult found (λ units. Units entries [] names.now units × ((name : Bytes) → IsFirstOther entries names.now name → ⊥))
        (IsFirstOther entries names.now)) }
{
    let counts = counts_of(alloc, names.as_slice())?;
    let mut units = List::new(alloc);
    for name in names.as_slice() {
        match unit_named(alloc, index, &counts, name)? {
            Some(outline) => units.push(outline)?,
            None => return Ok(Err(name.copy(alloc)?)),
        }
    }
    Ok(Ok(units))
}

/// What a link lists: after Verified Software Units, each unit once.
pub fn units_of(alloc: Global, texts: &Snapshot, link: &Name) -> Result<Listed, AllocError>
    ensures { IfOk result (Lists texts.now.texts link.now) }
{
    let index = Index::new(alloc, texts)?;
    match link_names(alloc, &index, link)? {
        Ok(names) => match units_named(alloc, &index, &names)? {
            Ok(units) => Ok(Listed::Units(units)),
            Err(name) => Ok(Listed::Other(name)),
        },
        Err(place) => Ok(Listed::Outside(place)),
    }
}
