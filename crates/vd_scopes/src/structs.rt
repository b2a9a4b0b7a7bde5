//! The table of the structs that a part sees.

ghost use Rattle.std.specs.Prelude.{◌≡◌, ◌≢◌, Option, None, false, IfOk, OnOk};
ghost use Rattle.vd_base.specs.declared.layout.LayoutFault.{LayoutFault as Fault};
ghost use Rattle.vd_base.specs.Layout.{IsFaultOf};
ghost use Rattle.vd_heads.specs.Closure.{IsUnambiguous};
ghost use Rattle.vd_heads.specs.Views.{IsView};
ghost use Rattle.vd_scopes.specs.Scope.{HasStructs};
ghost use Rattle.vd_scopes.specs.Structs.{IsTried, IsVisited, Passes, Settles};

use std::alloc::{AllocError, Global};
use vd_base::{Field, LayoutFault, List, Structs, are_fields};
use vd_heads::View;
use vd_sized::{StructSeen, struct_order, structs_seen};

fn copied(alloc: Global, fields: &[Field]) -> Result<List<Field>, AllocError>
    ensures { IfOk result (λ copies. copies ≡ fields.now) }
{
    let mut copies = List::new(alloc);
    for field in fields {
        copies.push(field.copy(alloc)?)?;
    }
    Ok(copies)
}

/// That a table does not take a struct, unless memory is wanting.
fn not_taken(fault: LayoutFault) -> Result<bool, AllocError>
    ensures { (why : Option Fault) → IsFaultOf why fault → IfOk result (λ taken. (taken ≡ false) × (why ≢ None)) }
{
    match fault {
        LayoutFault::Twice(_) => Ok(false),
        LayoutFault::Unknown(_) => Ok(false),
        LayoutFault::Large(_) => Ok(false),
        LayoutFault::Memory(fault) => Err(fault),
    }
}

/// Adds a struct to a table that takes it, and says whether it does.
fn put_struct(
    alloc: Global,
    structs: &mut Structs,
    known: StructSeen<'_>,
) -> Result<bool, AllocError>
    ensures { IfOk result (IsTried structs.old known.entry structs.new) }
{
    if !are_fields(known.fields) {
        return Ok(false);
    }
    let name = known.name.copy(alloc)?;
    let fields = copied(alloc, known.fields)?;
    match structs.add(name, fields) {
        Ok(()) => Ok(true),
        Err(fault) => not_taken(fault),
    }
}

/// Tries to add a struct, and keeps it with those that are left where it is not added.
fn visit<'a>(
    alloc: Global,
    structs: &mut Structs,
    known: StructSeen<'a>,
    left: &mut List<StructSeen<'a>>,
) -> Result<(), AllocError>
    ensures { OnOk result (IsVisited known.entry structs.old structs.new left.old left.new) }
{
    if put_struct(alloc, structs, known)? {
        return Ok(());
    }
    left.push(known)
}

/// Tries each of some structs once, and gives those that are left.
fn pass<'a>(
    alloc: Global,
    structs: &mut Structs,
    waiting: &[StructSeen<'a>],
) -> Result<List<StructSeen<'a>>, AllocError>
    ensures { IfOk result (Passes structs.old structs.new waiting.now) }
{
    let mut left = List::new(alloc);
    for known in waiting {
        visit(alloc, structs, *known, &mut left)?;
    }
    Ok(left)
}

/// Tries structs until the table takes none that is left.
fn settle<'a>(
    alloc: Global,
    structs: &mut Structs,
    seen: List<StructSeen<'a>>,
) -> Result<(), AllocError>
    ensures { OnOk result (Settles structs.old structs.new seen.entry) }
{
    let mut waiting = seen;
    loop {
        let left = pass(alloc, structs, waiting.as_slice())?;
        if left.len() == waiting.len() {
            return Ok(());
        }
        waiting = left;
    }
}

/// The structs that a part sees and that have a layout.
pub(crate) fn structs_of(alloc: Global, view: &View<'_, '_>) -> Result<Structs, AllocError>
    requires view { IsView view.now }
    requires own { view.now.own ≡ 0 }
    requires one { IsUnambiguous view.now.parts.now 0 }
    ensures { IfOk result (HasStructs view.now.parts.now) }
{
    let order = struct_order(alloc, view)?;
    let seen = structs_seen(alloc, view)?;
    let mut structs = Structs::new(alloc);
    pass(alloc, &mut structs, order.as_slice())?;
    settle(alloc, &mut structs, seen)?;
    Ok(structs)
}
