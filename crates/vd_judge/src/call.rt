//! Calls of functions, of what is built in, and of `malloc`.

ghost use Rattle.std.specs.Prelude.{◌≡◌, option_map, option_copied, [], IfOk};
ghost use Rattle.vd_judge.specs.Checked.{fine};
ghost use Rattle.vd_judge.specs.Call.{one_of, two_of, passed_by, wanted_at, disagrees, wants_type, delivered_to, delivered, known, params_of, size_named, malloc_cells, malloc_statement};
ghost use Rattle.vd_judge.specs.CheckedCall.{passed, arguments, destination, result_of, call_function, argument, call_builtin, malloc_result, call_malloc};

use crate::builtin::{Builtin, builtin_of, builtin_statement, parameter_of};
use crate::checked::{Checked, added, also, fine, pair, unless, untyped};
use crate::expression::judge;
use crate::fault::TypeFault;
use crate::found::{Destination, Found, Operand, Target, left_side, operand_of, pointer_to};
use crate::operation::wants;
use crate::place::cells;
use crate::scope::Scope;
use crate::shape::converts;
use std::alloc::{AllocError, Global};
use vd_base::{CType, Field, Held, List, Name, hold};
use vd_clight::{Expr, ExprNode, Signature, TExpr, TStmt};

pub(crate) fn one<T>(items: &[T]) -> Option<&T>
    ensures { option_copied result ≡ one_of items.now }
{
    match items {
        [a] => Some(a),
        _ => None,
    }
}

pub(crate) fn two<T>(items: &[T]) -> Option<(&T, &T)>
    ensures { option_map (λ p. (p.0.now, p.1.now)) result ≡ two_of items.now }
{
    match items {
        [a, b] => Some((a, b)),
        _ => None,
    }
}

// ---- arguments

pub(crate) fn passed_by(
    alloc: Global,
    t: Option<&CType>,
    o: Operand,
) -> Result<Checked<TExpr>, AllocError>
    ensures { IfOk result (λ v. v ≡ passed_by (option_copied t.entry) o) }
{
    match t {
        None => Ok(fine(o.value.out())),
        Some(t) => {
            let fault = wants(alloc, t, &o)?;
            Ok(unless(fault, o.value.out()))
        }
    }
}

/// A value that has to have a type, if any.
pub(crate) fn passed(
    alloc: Global,
    t: Option<&CType>,
    part: Checked<Found>,
) -> Result<Checked<TExpr>, AllocError>
    ensures { IfOk result (λ v. v ≡ passed (option_copied t.entry) part) }
{
    match operand_of(alloc, part)? {
        Checked::Untyped(fault) => Ok(Checked::Untyped(fault)),
        Checked::Typed(o, fault) => Ok(also(fault, passed_by(alloc, t, o.out())?)),
    }
}

fn wanted_at(params: &[Field], k: usize) -> Option<&CType>
    ensures { option_copied result ≡ wanted_at params.now k }
{
    let field = params.get(k)?;
    Some(&field.typ)
}

fn arguments(
    alloc: Global,
    scope: &Scope<'_, '_>,
    params: &[Field],
    args: &[Expr],
) -> Result<Checked<List<TExpr>>, AllocError>
    ensures { IfOk result (λ all. all ≡ arguments scope.now params.now 0 (fine []) args.now) }
{
    let mut all = fine(List::new(alloc));
    for (k, e) in args.iter().enumerate() {
        let part = judge(alloc, scope, e)?;
        let value = passed(alloc, wanted_at(params, k), part)?;
        all = added(all, value)?;
    }
    Ok(all)
}

// ---- results

pub(crate) fn disagrees(place: u32) -> TypeFault
    ensures { result ≡ disagrees place }
{
    TypeFault::Mismatch(place, CType::Void, CType::Void)
}

/// A value of one type that goes to a variable of another.
pub(crate) fn wants_type(
    alloc: Global,
    place: u32,
    wanted: &CType,
    typ: &CType,
) -> Result<Option<Held<TypeFault>>, AllocError>
    ensures { IfOk result (λ f. f ≡ wants_type place wanted.now typ.now) }
{
    if converts(false, typ, wanted) {
        return Ok(None);
    }
    let wanted = hold(wanted.copy(alloc)?);
    let found = typ.copy(alloc)?;
    let fault = TypeFault::Mismatch(place, wanted.out(), found);
    Ok(Some(hold(fault)))
}

fn delivered_to(at: u32, to: Destination) -> Checked<Option<u32>>
    ensures { result ≡ delivered_to at to }
{
    match to {
        Destination::Temporary(x) => fine(Some(x)),
        Destination::Memory(_) => Checked::Typed(hold(None), Some(hold(TypeFault::NotNormal(at)))),
    }
}

fn delivered(
    alloc: Global,
    place: u32,
    typ: &CType,
    target: Option<Target>,
) -> Result<Checked<Option<u32>>, AllocError>
    ensures { IfOk result (λ x. x ≡ delivered place typ.now target) }
{
    match target {
        None => Ok(fine(None)),
        Some(target) => match wants_type(alloc, place, target.typ.get(), typ)? {
            Some(fault) => Ok(Checked::Untyped(fault)),
            None => Ok(delivered_to(target.place, target.to)),
        },
    }
}

fn destination(
    alloc: Global,
    scope: &Scope<'_, '_>,
    target: Option<&Expr>,
) -> Result<Checked<Option<Target>>, AllocError>
    ensures { IfOk result (λ d. d ≡ destination scope.now (option_copied target.entry)) }
{
    match target {
        None => Ok(fine(None)),
        Some(e) => match left_side(judge(alloc, scope, e)?) {
            Checked::Untyped(fault) => Ok(Checked::Untyped(fault)),
            Checked::Typed(target, fault) => Ok(also(fault, fine(Some(target.out())))),
        },
    }
}

/// The temporary that a call's result goes to.
pub(crate) fn result_of(
    alloc: Global,
    scope: &Scope<'_, '_>,
    place: u32,
    target: Option<&Expr>,
    typ: Checked<CType>,
) -> Result<Checked<Option<u32>>, AllocError>
    ensures { IfOk result (λ x. x ≡ result_of scope.now place (option_copied target.entry) typ) }
{
    match pair(destination(alloc, scope, target)?, typ) {
        Checked::Untyped(fault) => Ok(Checked::Untyped(fault)),
        Checked::Typed(both, fault) => {
            let (target, typ) = both.out();
            let typ = hold(typ);
            Ok(also(fault, delivered(alloc, place, typ.get(), target)?))
        }
    }
}

// ---- functions

/// What a function gives that is called with so many arguments.
fn known(
    alloc: Global,
    place: u32,
    name: &Name,
    count: usize,
    signature: Option<&Signature>,
) -> Result<Checked<CType>, AllocError>
    ensures { IfOk result (λ t. t ≡ known place name.now count (option_copied signature.entry)) }
{
    match signature {
        None => {
            let name = name.copy(alloc)?;
            Ok(untyped(TypeFault::Unknown(place, name)))
        }
        Some(signature) => {
            if signature.params.len() == count {
                return Ok(fine(signature.ret.copy(alloc)?));
            }
            Ok(untyped(disagrees(place)))
        }
    }
}

fn params_of(signature: Option<&Signature>) -> &[Field]
    ensures { result.now ≡ params_of (option_copied signature.entry) }
{
    match signature {
        None => &[],
        Some(signature) => signature.params.as_slice(),
    }
}

pub(crate) fn call_function(
    alloc: Global,
    scope: &Scope<'_, '_>,
    place: u32,
    target: Option<&Expr>,
    name: &Name,
    args: &[Expr],
) -> Result<Checked<TStmt>, AllocError>
    ensures { IfOk result (λ s. s ≡ call_function scope.now place (option_copied target.entry) name.now args.now) }
{
    let signature = scope.function(name);
    let typ = known(alloc, place, name, args.len(), signature)?;
    let to = result_of(alloc, scope, place, target, typ)?;
    let values = arguments(alloc, scope, params_of(signature), args)?;
    match pair(to, values) {
        Checked::Untyped(fault) => Ok(Checked::Untyped(fault)),
        Checked::Typed(both, fault) => {
            let name = name.copy(alloc)?;
            let (to, values) = both.out();
            Ok(also(fault, fine(TStmt::Call(to, name, values))))
        }
    }
}

// ---- what is built in

fn argument(
    alloc: Global,
    scope: &Scope<'_, '_>,
    place: u32,
    t: &CType,
    e: Option<&Expr>,
) -> Result<Checked<TExpr>, AllocError>
    ensures { IfOk result (λ v. v ≡ argument scope.now place t.now (option_copied e.entry)) }
{
    match e {
        None => Ok(untyped(disagrees(place))),
        Some(e) => {
            let part = judge(alloc, scope, e)?;
            passed(alloc, Some(t), part)
        }
    }
}

pub(crate) fn call_builtin(
    alloc: Global,
    scope: &Scope<'_, '_>,
    place: u32,
    target: Option<&Expr>,
    b: Builtin,
    args: &[Expr],
) -> Result<Checked<TStmt>, AllocError>
    ensures { IfOk result (λ s. s ≡ call_builtin scope.now place (option_copied target.entry) b args.now) }
{
    let to = result_of(alloc, scope, place, target, fine(CType::Void))?;
    let t = hold(parameter_of(alloc, b)?);
    let value = argument(alloc, scope, place, t.get(), one(args))?;
    match pair(to, value) {
        Checked::Untyped(fault) => Ok(Checked::Untyped(fault)),
        Checked::Typed(both, fault) => {
            let (_, value) = both.out();
            Ok(also(fault, fine(builtin_statement(b, value))))
        }
    }
}

// ---- `malloc`

/// The type that an expression is the size of.
fn size_named(e: &Expr) -> Option<&CType>
    ensures { option_copied result ≡ size_named e.now }
{
    match &e.node {
        ExprNode::SizeOf(t) => Some(t),
        _ => None,
    }
}

fn malloc_cells(
    alloc: Global,
    scope: &Scope<'_, '_>,
    place: u32,
    e: Option<&Expr>,
) -> Result<Checked<u32>, AllocError>
    ensures { IfOk result (λ n. n ≡ malloc_cells scope.now place (option_copied e.entry)) }
{
    match e {
        None => Ok(untyped(disagrees(place))),
        Some(e) => match size_named(e) {
            None => Ok(untyped(disagrees(place))),
            Some(t) => cells(alloc, scope.structs(), e.place, t),
        },
    }
}

fn malloc_result(
    alloc: Global,
    scope: &Scope<'_, '_>,
    place: u32,
    target: Option<&Expr>,
) -> Result<Checked<Option<u32>>, AllocError>
    ensures { IfOk result (λ x. x ≡ malloc_result scope.now place (option_copied target.entry)) }
{
    match target {
        None => Ok(untyped(disagrees(place))),
        Some(e) => {
            let typ = pointer_to(alloc, &CType::Void)?;
            result_of(alloc, scope, place, Some(e), fine(typ))
        }
    }
}

fn malloc_statement(to: Option<u32>, n: u32) -> TStmt
    ensures { result ≡ malloc_statement to n }
{
    match to {
        None => TStmt::Skip,
        Some(x) => TStmt::Malloc(x, n),
    }
}

pub(crate) fn call_malloc(
    alloc: Global,
    scope: &Scope<'_, '_>,
    place: u32,
    target: Option<&Expr>,
    args: &[Expr],
) -> Result<Checked<TStmt>, AllocError>
    ensures { IfOk result (λ s. s ≡ call_malloc scope.now place (option_copied target.entry) args.now) }
{
    let to = malloc_result(alloc, scope, place, target)?;
    let n = malloc_cells(alloc, scope, place, one(args))?;
    match pair(to, n) {
        Checked::Untyped(fault) => Ok(Checked::Untyped(fault)),
        Checked::Typed(both, fault) => {
            let (to, n) = both.out();
            Ok(also(fault, fine(malloc_statement(to, n))))
        }
    }
}
