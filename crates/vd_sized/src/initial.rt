//! Initial values of globals.

ghost use Rattle.std.specs.Prelude.{◌≡◌, ◌≤◌, ◌↔◌, length, map, IsTrue, IfOk};
ghost use Rattle.vd_base.specs.declared.ctype.CType.TheVariants as typ;
ghost use Rattle.vd_heads.specs.Closure.{IsUnambiguous};
ghost use Rattle.vd_heads.specs.Views.{IsView};
ghost use Rattle.vd_sized.specs.Initial as initial;
ghost use Rattle.vd_sized.specs.Sizes.{AreSizes};

use crate::size::Sizes;
use crate::types::same;
use std::alloc::{AllocError, Global};
use vd_base::{CType, Field, List, Name};
use vd_clight::Init;
use vd_heads::{Content, Space, View};

/// What the address of a global of a type points to: an array's is the address of its first element.
fn pointed(t: &CType) -> &CType
    ensures { result.now ≡ initial.pointed t.now }
{
    match t {
        CType::Array(of, _) => of.get(),
        _ => t,
    }
}

/// Whether the address of a global of one type may stand in a pointer to another.
fn converts(from: &CType, to: &CType) -> bool
    ensures { IsTrue result ↔ initial.Converts from.now to.now }
{
    match (from, to) {
        (_, CType::Void) => true,
        (CType::Void, _) => true,
        _ => same(from, to),
    }
}

/// Whether a section is that of a global whose address does not convert to such a pointer.
fn is_other(content: &Content, to: &CType) -> bool
    ensures { IsTrue result ↔ initial.IsOther content.now to.now }
{
    match content {
        Content::Global(field, _) => !converts(pointed(&field.typ), to),
        Content::Uses(_) => false,
        Content::Exports(_) => false,
        Content::Struct(_, _) => false,
        Content::Abstract(_, _, _) => false,
        Content::Pred(_, _) => false,
        Content::Spec(_, _) => false,
        Content::Unread(_) => false,
    }
}

/// Whether the address of a global does not convert to such a pointer.
fn is_other_pointer(view: &View<'_, '_>, name: &Name, to: &CType) -> bool
    requires view { IsView view.now }
    requires one { IsUnambiguous view.now.parts.now view.now.own }
    ensures { IsTrue result ↔ initial.IsOtherPointer view.now.parts.now view.now.own name.now (typ.Pointer to.now) }
{
    match view.meaning(Space::Global, name) {
        Some(content) => is_other(content, to),
        None => false,
    }
}

/// Whether a value may not stand in a cell.
fn is_unfit(view: &View<'_, '_>, value: &Init, cell: &CType) -> bool
    requires view { IsView view.now }
    requires one { IsUnambiguous view.now.parts.now view.now.own }
    ensures { IsTrue result ↔ initial.IsUnfit view.now.parts.now view.now.own value.now cell.now }
{
    match (value, cell) {
        (Init::Int(n), CType::Lock) => *n != 0,
        (Init::Int(n), CType::Pointer(_)) => *n != 0,
        (Init::Addr(name), CType::Pointer(to)) => is_other_pointer(view, name, to.get()),
        (Init::Addr(_), CType::Int) => true,
        (Init::Addr(_), CType::Unsigned) => true,
        (Init::Addr(_), CType::Lock) => true,
        _ => false,
    }
}

/// Whether some value may not stand in the cell at its place.
fn are_unfit(view: &View<'_, '_>, values: &[Init], cells: &List<&CType>) -> bool
    requires view { IsView view.now }
    requires one { IsUnambiguous view.now.parts.now view.now.own }
    ensures { IsTrue result ↔ initial.AreUnfit view.now.parts.now view.now.own values.now (map (λ t. t.now) cells.now) }
{
    for (at, value) in values.iter().enumerate() {
        match cells.get(at) {
            Some(cell) => {
                if is_unfit(view, value, cell) {
                    return true;
                }
            }
            None => return false,
        }
    }
    false
}

/// Whether a global has more initial values than cells, or one that does not fit its cell.
pub fn has_misfits<'a>(
    alloc: Global,
    view: &View<'_, '_>,
    sizes: &Sizes<'a>,
    global: &'a Field,
    values: &[Init],
) -> Result<bool, AllocError>
    requires view { IsView view.now }
    requires one { IsUnambiguous view.now.parts.now view.now.own }
    requires sizes { AreSizes view.now sizes.now }
    requires few { length values.now ≤ sizes.now.most }
    ensures { IfOk result (λ has. IsTrue has ↔ initial.HasMisfits view.now.parts.now view.now.own global.now values.now) }
{
    match sizes.cells(alloc, view, &global.typ)? {
        Some(cells) => {
            if cells.first.len() < values.len() {
                return Ok(true);
            }
            Ok(are_unfit(view, values, &cells.first))
        }
        None => Ok(false),
    }
}
