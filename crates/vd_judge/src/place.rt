//! Numbers, variables, sizes and places in memory.

ghost use Rattle.std.specs.Prelude.{◌≡◌, ◌≤◌, option_map, IfOk, IfSome, [], ◌*◌, ◌^◌, ◌<◌};
ghost use Rattle.vd_base.specs.Layout.{most_cells, size_of};
ghost use Rattle.vd_judge.specs.Checked.{follows, pair};
ghost use Rattle.vd_judge.specs.CheckedExpression.{integer_of, pointer_of, elements_of};
ghost use Rattle.vd_judge.specs.Place.{number, cells, IsSmall, sized, aligned, variable, global_found, in_memory, lval, address_in, stepped, as_pointer, pointed, is_one_cell, as_elements, element, selected, field_in, unknown_name, dot, arrow, address};

use crate::checked::{Checked, also, fine, pair, untyped, unwanted};
use crate::fault::TypeFault;
use crate::found::{Form, Found, Operand, operand_of, pointer_to};
use crate::operation::{computed, integer_of};
use crate::scope::Scope;
use crate::shape::{is_void, kind_of, struct_of, target_of};
use std::alloc::{AllocError, Global};
use vd_base::{CType, Held, List, Name, Structs, hold};
use vd_clight::{Lval, Part, Root, TExpr};

// ---- numbers and sizes

pub(crate) fn number(place: u32, n: u32, unsigned: bool) -> Found
    ensures { result ≡ number place n unsigned }
{
    let typ = if unsigned {
        CType::Unsigned
    } else {
        CType::Int
    };
    let form = if n == 0 {
        Form::Zero
    } else {
        Form::Value(hold(TExpr::Const(n)))
    };
    Found {
        place,
        typ: hold(typ),
        form,
    }
}

/// The cells of a type, which are few.
#[tactic(auto, using(crate::proofs::Sizes::size_small))]
fn size(structs: &Structs, t: &CType) -> Option<u32>
    ensures value { result ≡ size_of structs.now t.now }
    ensures small { IfSome result (λ n. n ≤ most_cells) }
{
    structs.size(t)
}

/// The cells of a type.
pub(crate) fn cells(
    alloc: Global,
    structs: &Structs,
    place: u32,
    t: &CType,
) -> Result<Checked<u32>, AllocError>
    ensures value { IfOk result (λ n. n ≡ cells structs.now place t.now) }
    ensures small { IfOk result IsSmall }
{
    match size(structs, t) {
        Some(n) => Ok(fine(n)),
        None => match struct_of(t) {
            None => {
                let found = t.copy(alloc)?;
                Ok(unwanted(place, hold(found)))
            }
            Some(s) => {
                let s = s.copy(alloc)?;
                Ok(untyped(TypeFault::Unknown(place, s)))
            }
        },
    }
}

/// `sizeof ( t )`, in bytes of four to the cell.
pub(crate) fn sized(
    alloc: Global,
    structs: &Structs,
    place: u32,
    t: &CType,
) -> Result<Checked<Found>, AllocError>
    ensures { IfOk result (λ f. f ≡ sized structs.now place t.now) }
{
    match cells(alloc, structs, place, t)? {
        Checked::Untyped(fault) => Ok(Checked::Untyped(fault)),
        Checked::Typed(n, fault) => {
            let value = TExpr::Const(4 * n.out());
            Ok(also(fault, fine(computed(place, hold(CType::Unsigned), value))))
        }
    }
}

/// `alignof ( t )`.
pub(crate) fn aligned(
    alloc: Global,
    structs: &Structs,
    place: u32,
    t: &CType,
) -> Result<Checked<Found>, AllocError>
    ensures { IfOk result (λ f. f ≡ aligned structs.now place t.now) }
{
    match cells(alloc, structs, place, t)? {
        Checked::Untyped(fault) => Ok(Checked::Untyped(fault)),
        Checked::Typed(_, fault) => {
            let value = TExpr::Const(4);
            Ok(also(fault, fine(computed(place, hold(CType::Unsigned), value))))
        }
    }
}

// ---- variables

fn in_memory(place: u32, typ: Held<CType>, l: Held<Lval>) -> Found
    ensures { result ≡ in_memory place typ l }
{
    let form = Form::Memory(l);
    Found { place, typ, form }
}

fn root_alone(alloc: Global, root: Root) -> Lval
    ensures { result ≡ lval root [] }
{
    let path = List::new(alloc);
    Lval { root, path }
}

fn global(
    alloc: Global,
    structs: &Structs,
    place: u32,
    name: &Name,
    t: &CType,
) -> Result<Checked<Found>, AllocError>
    ensures { IfOk result (λ f. f ≡ global_found structs.now place name.now t.now) }
{
    match cells(alloc, structs, place, t)? {
        Checked::Untyped(fault) => Ok(Checked::Untyped(fault)),
        Checked::Typed(n, fault) => {
            let l = hold(root_alone(alloc, Root::Global(name.copy(alloc)?, n.out())));
            let typ = hold(t.copy(alloc)?);
            Ok(also(fault, fine(in_memory(place, typ, l))))
        }
    }
}

/// A name: a parameter or temporary, else a global.
pub(crate) fn variable(
    alloc: Global,
    scope: &Scope<'_, '_>,
    place: u32,
    name: &Name,
) -> Result<Checked<Found>, AllocError>
    ensures { IfOk result (λ f. f ≡ variable scope.now place name.now) }
{
    match scope.local(name) {
        Some(local) => {
            let typ = hold(local.1.copy(alloc)?);
            let form = Form::Temporary(local.0);
            Ok(fine(Found { place, typ, form }))
        }
        None => match scope.global(name) {
            Some(t) => global(alloc, scope.structs(), place, name, t),
            None => Ok(untyped(TypeFault::Unknown(place, name.copy(alloc)?))),
        },
    }
}

// ---- addresses

/// The place that a pointer's value points to. An address has a root.
fn address_in(alloc: Global, value: Held<TExpr>) -> Option<Held<Lval>>
    ensures { result ≡ address_in value }
{
    match value.out() {
        TExpr::Const(_) => None,
        TExpr::Temp(x) => Some(hold(root_alone(alloc, Root::Temp(x)))),
        TExpr::Addr(l) => Some(hold(l)),
        TExpr::Unary(_, _, _) => None,
        TExpr::Binary(_, _, _, _) => None,
    }
}

/// A place further on.
fn stepped(part: Part, l: Held<Lval>) -> Result<Held<Lval>, AllocError>
    ensures { IfOk result (λ l'. l' ≡ stepped part l) }
{
    let Lval { root, mut path } = l.out();
    path.push(part)?;
    Ok(hold(Lval { root, path }))
}

// ---- pointers

/// A pointer, what it points to, and where that is.
#[derive(Drop)]
pub(crate) struct Pointer {
    pub(crate) place: u32,
    pub(crate) typ: Held<CType>,
    pub(crate) target: Held<CType>,
    pub(crate) to: Held<Lval>,
}

fn as_pointer(alloc: Global, o: Operand) -> Result<Checked<Pointer>, AllocError>
    ensures { IfOk result (λ p. p ≡ as_pointer o) }
{
    let Operand {
        place,
        typ,
        zero: _,
        value,
    } = o;
    match target_of(typ.get()) {
        None => Ok(unwanted(place, typ)),
        Some(t) => match address_in(alloc, value) {
            None => Ok(unwanted(place, typ)),
            Some(to) => {
                let target = hold(t.copy(alloc)?);
                Ok(fine(Pointer {
                    place,
                    typ,
                    target,
                    to,
                }))
            }
        },
    }
}

/// A part that is a pointer whose address has a root.
fn pointer_of(alloc: Global, part: Checked<Found>) -> Result<Checked<Pointer>, AllocError>
    ensures { IfOk result (λ p. p ≡ pointer_of part) }
{
    match operand_of(alloc, part)? {
        Checked::Untyped(fault) => Ok(Checked::Untyped(fault)),
        Checked::Typed(o, fault) => Ok(also(fault, as_pointer(alloc, o.out())?)),
    }
}

// ---- `* e`

fn pointed(place: u32, p: Pointer) -> Checked<Found>
    ensures { result ≡ pointed place p }
{
    if is_void(p.target.get()) {
        return unwanted(p.place, p.typ);
    }
    fine(in_memory(place, p.target, p.to))
}

/// What a pointer points to.
pub(crate) fn judge_deref(
    alloc: Global,
    place: u32,
    part: Checked<Found>,
) -> Result<Checked<Found>, AllocError>
    ensures { IfOk result (λ f. f ≡ follows (pointer_of part) (pointed place)) }
{
    match pointer_of(alloc, part)? {
        Checked::Untyped(fault) => Ok(Checked::Untyped(fault)),
        Checked::Typed(p, fault) => Ok(also(fault, pointed(place, p.out()))),
    }
}

// ---- `e [ i ]`

fn is_one_cell(structs: &Structs, t: &CType) -> bool
    ensures { result ≡ is_one_cell structs.now t.now }
{
    match structs.size(t) {
        None => false,
        Some(n) => n == 1,
    }
}

fn as_elements(structs: &Structs, p: Pointer) -> Checked<Pointer>
    ensures { result ≡ as_elements structs.now p }
{
    if is_one_cell(structs, p.target.get()) {
        return fine(p);
    }
    unwanted(p.place, p.typ)
}

/// A part that points to elements, which have one cell.
fn elements_of(
    alloc: Global,
    structs: &Structs,
    part: Checked<Found>,
) -> Result<Checked<Pointer>, AllocError>
    ensures { IfOk result (λ p. p ≡ elements_of structs.now part) }
{
    match pointer_of(alloc, part)? {
        Checked::Untyped(fault) => Ok(Checked::Untyped(fault)),
        Checked::Typed(p, fault) => Ok(also(fault, as_elements(structs, p.out()))),
    }
}

fn element(place: u32, p: Pointer, i: Operand) -> Result<Checked<Found>, AllocError>
    ensures { IfOk result (λ f. f ≡ element place (p, i)) }
{
    let part = Part::Index(kind_of(i.typ.get()), i.value.out());
    let l = stepped(part, p.to)?;
    Ok(fine(in_memory(place, p.target, l)))
}

/// An element of what a pointer points to.
pub(crate) fn judge_index(
    alloc: Global,
    structs: &Structs,
    place: u32,
    part: Checked<Found>,
    index: Checked<Found>,
) -> Result<Checked<Found>, AllocError>
    ensures { IfOk result (λ f. f ≡ follows (pair (elements_of structs.now part) (integer_of index)) (element place)) }
{
    let part = elements_of(alloc, structs, part)?;
    let index = integer_of(alloc, index)?;
    match pair(part, index) {
        Checked::Untyped(fault) => Ok(Checked::Untyped(fault)),
        Checked::Typed(both, fault) => {
            let (p, i) = both.out();
            Ok(also(fault, element(place, p, i)?))
        }
    }
}

// ---- `e . f` and `e -> f`

/// The offset and the type of a struct's field.
fn field_in<'a>(structs: &'a Structs, s: &Name, f: &Name) -> Option<(u32, &'a CType)>
    ensures { option_map (λ r. (r.0, r.1.now)) result ≡ field_in structs.now s.now f.now }
{
    let slot = structs.field(s, f)?;
    let typ = structs.typ(s, slot.index)?;
    Some((slot.offset, typ))
}

fn unknown_name(
    alloc: Global,
    structs: &Structs,
    t: &CType,
    s: &Name,
    f: &Name,
) -> Result<Name, AllocError>
    ensures { IfOk result (λ n. n ≡ unknown_name structs.now t.now s.now f.now) }
{
    if structs.size(t).is_some() {
        f.copy(alloc)
    } else {
        s.copy(alloc)
    }
}

fn selected(
    alloc: Global,
    structs: &Structs,
    place: u32,
    f: &Name,
    t: &CType,
    s: &Name,
    l: Held<Lval>,
) -> Result<Checked<Found>, AllocError>
    ensures { IfOk result (λ r. r ≡ selected structs.now place f.now t.now s.now l) }
{
    match field_in(structs, s, f) {
        None => {
            let name = unknown_name(alloc, structs, t, s, f)?;
            Ok(untyped(TypeFault::Unknown(place, name)))
        }
        Some(field) => {
            let typ = hold(field.1.copy(alloc)?);
            let l = stepped(Part::Offset(field.0), l)?;
            Ok(fine(in_memory(place, typ, l)))
        }
    }
}

fn dot(
    alloc: Global,
    structs: &Structs,
    place: u32,
    f: &Name,
    e: Found,
) -> Result<Checked<Found>, AllocError>
    ensures { IfOk result (λ r. r ≡ dot structs.now place f.now e) }
{
    let Found {
        place: at,
        typ,
        form,
    } = e;
    match form {
        Form::Zero => Ok(unwanted(at, typ)),
        Form::Value(_) => Ok(unwanted(at, typ)),
        Form::Temporary(_) => Ok(unwanted(at, typ)),
        Form::Memory(l) => match struct_of(typ.get()) {
            None => Ok(unwanted(at, typ)),
            Some(s) => selected(alloc, structs, place, f, typ.get(), s, l),
        },
        Form::Test(_, _, _, _) => Ok(unwanted(at, typ)),
    }
}

/// A field of a struct in memory.
pub(crate) fn judge_field(
    alloc: Global,
    structs: &Structs,
    place: u32,
    part: Checked<Found>,
    f: &Name,
) -> Result<Checked<Found>, AllocError>
    ensures { IfOk result (λ r. r ≡ follows part (dot structs.now place f.now)) }
{
    match part {
        Checked::Untyped(fault) => Ok(Checked::Untyped(fault)),
        Checked::Typed(e, fault) => Ok(also(fault, dot(alloc, structs, place, f, e.out())?)),
    }
}

fn arrow(
    alloc: Global,
    structs: &Structs,
    place: u32,
    f: &Name,
    p: Pointer,
) -> Result<Checked<Found>, AllocError>
    ensures { IfOk result (λ r. r ≡ arrow structs.now place f.now p) }
{
    let Pointer {
        place: at,
        typ,
        target,
        to,
    } = p;
    match struct_of(target.get()) {
        None => Ok(unwanted(at, typ)),
        Some(s) => selected(alloc, structs, place, f, target.get(), s, to),
    }
}

/// A field of the struct that a pointer points to.
pub(crate) fn judge_arrow(
    alloc: Global,
    structs: &Structs,
    place: u32,
    part: Checked<Found>,
    f: &Name,
) -> Result<Checked<Found>, AllocError>
    ensures { IfOk result (λ r. r ≡ follows (pointer_of part) (arrow structs.now place f.now)) }
{
    match pointer_of(alloc, part)? {
        Checked::Untyped(fault) => Ok(Checked::Untyped(fault)),
        Checked::Typed(p, fault) => Ok(also(fault, arrow(alloc, structs, place, f, p.out())?)),
    }
}

// ---- `& e`

fn address(alloc: Global, place: u32, e: Found) -> Result<Checked<Found>, AllocError>
    ensures { IfOk result (λ r. r ≡ address place e) }
{
    let Found {
        place: at,
        typ,
        form,
    } = e;
    match form {
        Form::Zero => Ok(unwanted(at, typ)),
        Form::Value(_) => Ok(unwanted(at, typ)),
        Form::Temporary(_) => Ok(unwanted(at, typ)),
        Form::Memory(l) => {
            let typ = hold(pointer_to(alloc, typ.get())?);
            Ok(fine(computed(place, typ, TExpr::Addr(l.out()))))
        }
        Form::Test(_, _, _, _) => Ok(unwanted(at, typ)),
    }
}

/// The address of a place in memory.
pub(crate) fn judge_address(
    alloc: Global,
    place: u32,
    part: Checked<Found>,
) -> Result<Checked<Found>, AllocError>
    ensures { IfOk result (λ r. r ≡ follows part (address place)) }
{
    match part {
        Checked::Untyped(fault) => Ok(Checked::Untyped(fault)),
        Checked::Typed(e, fault) => Ok(also(fault, address(alloc, place, e.out())?)),
    }
}
