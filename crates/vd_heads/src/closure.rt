//! The closure of a part: itself, and the interfaces that what is in it exports or uses.

ghost use Rattle.std.specs.Prelude.{◌≡◌, ◌<◌, ◌↔◌, ℕ, true, Some, length, slice_get, IfOk, OnOk};
ghost use Rattle.vd_heads.specs.Closure.{Reaches, Exports, Mentions, exported, mentioned};
ghost use Rattle.vd_heads.specs.PartSet.{Adds, IsMentioned, IsMentionedBelow, IsPartSet};
ghost use Rattle.vd_heads.specs.Views.{IsTable, interface_in, is_marked};

use crate::content::{Content, HeadSection, Mention, Part};
use crate::part_set::PartSet;
use crate::table::Table;
use std::alloc::{AllocError, Global};
use vd_base::Name;

/// The names that a section exports.
fn exported(content: &Content) -> &[Mention]
    ensures { result.now ≡ exported content.now }
{
    match content {
        Content::Exports(names) => names.as_slice(),
        Content::Uses(_)
        | Content::Struct(_, _)
        | Content::Global(_, _)
        | Content::Abstract(_, _, _)
        | Content::Pred(_, _)
        | Content::Spec(_, _)
        | Content::Unread(_) => &[],
    }
}

/// The names that a section exports or uses.
fn mentioned(content: &Content) -> &[Mention]
    ensures { result.now ≡ mentioned content.now }
{
    match content {
        Content::Uses(names) => names.as_slice(),
        Content::Exports(_)
        | Content::Struct(_, _)
        | Content::Global(_, _)
        | Content::Abstract(_, _, _)
        | Content::Pred(_, _)
        | Content::Spec(_, _)
        | Content::Unread(_) => exported(content),
    }
}

fn add_interface(table: &Table<'_>, name: &Name, set: &mut PartSet) -> Result<(), AllocError>
    requires { IsPartSet set.old }
    ensures { OnOk result (Adds (λ k. interface_in table.now name.now ≡ Some k) set.old set.new) }
{
    match table.interface(name) {
        Some(number) => set.add(number),
        None => Ok(()),
    }
}

fn add_mentions(
    table: &Table<'_>,
    mentions: &[Mention],
    set: &mut PartSet,
) -> Result<(), AllocError>
    requires { IsPartSet set.old }
    ensures { OnOk result (Adds (IsMentioned table.now mentions.now) set.old set.new) }
{
    for mention in mentions {
        add_interface(table, &mention.name, set)?;
    }
    Ok(())
}

fn add_exported(
    table: &Table<'_>,
    sections: &[HeadSection],
    set: &mut PartSet,
) -> Result<(), AllocError>
    requires { IsPartSet set.old }
    ensures { OnOk result (Adds (IsMentionedBelow table.now exported sections.now (length sections.now)) set.old set.new) }
{
    for section in sections {
        add_mentions(table, exported(&section.content), set)?;
    }
    Ok(())
}

fn add_mentioned(
    table: &Table<'_>,
    sections: &[HeadSection],
    set: &mut PartSet,
) -> Result<(), AllocError>
    requires { IsPartSet set.old }
    ensures { OnOk result (Adds (IsMentionedBelow table.now mentioned sections.now (length sections.now)) set.old set.new) }
{
    for section in sections {
        add_mentions(table, mentioned(&section.content), set)?;
    }
    Ok(())
}

/// Adds what the part of a number exports or uses.
fn add_next(
    parts: &[Part],
    table: &Table<'_>,
    number: usize,
    set: &mut PartSet,
) -> Result<(), AllocError>
    requires table { IsTable parts.now table.now }
    requires set { IsPartSet set.old }
    ensures { OnOk result (Adds (Mentions parts.now number) set.old set.new) }
{
    match parts.get(number) {
        Some(part) => add_mentioned(table, part.sections.as_slice(), set),
        None => Ok(()),
    }
}

/// Adds what the member at a place exports or uses.
fn follow(parts: &[Part], table: &Table<'_>, at: usize, set: &mut PartSet) -> Result<(), AllocError>
    requires table { IsTable parts.now table.now }
    requires set { IsPartSet set.old }
    ensures { OnOk result (Adds (λ n. (k : ℕ) × (slice_get set.old.members.items at ≡ Some k) × Mentions parts.now k n) set.old set.new) }
{
    match set.members.get(at) {
        Some(member) => {
            let number = *member;
            add_next(parts, table, number, set)
        }
        None => Ok(()),
    }
}

/// The parts in the closure of a part.
pub fn closure_of(
    alloc: Global,
    parts: &[Part],
    table: &Table<'_>,
    from: usize,
) -> Result<Vec<bool>, AllocError>
    requires { IsTable parts.now table.now }
    ensures { IfOk result (λ marks. (k : ℕ) → (is_marked marks.items k ≡ true) ↔ ((k < length parts.now) × Reaches parts.now from k)) }
{
    let mut set = PartSet::new(alloc, parts.len())?;
    set.add(from)?;
    for at in 0..parts.len() {
        follow(parts, table, at, &mut set)?;
    }
    let PartSet { marks, members: _ } = set;
    Ok(marks)
}

/// Adds what a part exports, where it is a unit.
fn add_exports(
    parts: &[Part],
    table: &Table<'_>,
    of: usize,
    set: &mut PartSet,
) -> Result<(), AllocError>
    requires table { IsTable parts.now table.now }
    requires set { IsPartSet set.old }
    ensures { OnOk result (Adds (Exports parts.now of) set.old set.new) }
{
    match parts.get(of) {
        Some(part) => {
            if part.is_unit() {
                add_exported(table, part.sections.as_slice(), set)
            } else {
                Ok(())
            }
        }
        None => Ok(()),
    }
}

/// The interfaces that a unit exports.
pub fn exports_of(
    alloc: Global,
    parts: &[Part],
    table: &Table<'_>,
    of: usize,
) -> Result<Vec<bool>, AllocError>
    requires { IsTable parts.now table.now }
    ensures { IfOk result (λ marks. (n : ℕ) → (is_marked marks.items n ≡ true) ↔ Exports parts.now of n) }
{
    let mut set = PartSet::new(alloc, parts.len())?;
    add_exports(parts, table, of, &mut set)?;
    let PartSet { marks, members: _ } = set;
    Ok(marks)
}
