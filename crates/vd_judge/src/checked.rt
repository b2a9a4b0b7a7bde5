//! What typing finds of a part: the part typed, or its first fault.

ghost use Rattle.std.specs.Prelude.{◌≡◌, IfOk};
ghost use Rattle.vd_base.specs.declared.ctype.CType.{Void};
ghost use Rattle.vd_judge.specs.declared.checked.Checked.TheVariants.{Untyped};
ghost use Rattle.vd_judge.specs.declared.fault.TypeFault.TheVariants.{Mismatch};
ghost use Rattle.vd_judge.specs.Checked.{fine, unless, also, pair, added};

use crate::fault::{TypeFault, earlier, first};
use std::alloc::AllocError;
use vd_base::{CType, Held, List, hold};

/// A part that is typed, with the first of the faults within it that leave it typed; or the first fault of a part that is
/// not typed. Part and faults are held, since such a value is alive at most exits of the functions that judge.
#[derive(Drop)]
pub enum Checked<T> {
    Typed(Held<T>, Option<Held<TypeFault>>),
    Untyped(Held<TypeFault>),
}

/// Typed and without a fault.
pub(crate) fn fine<T>(part: T) -> Checked<T>
    ensures { result ≡ fine part }
{
    Checked::Typed(hold(part), None)
}

/// Not typed, for this fault.
pub(crate) fn untyped<T>(fault: TypeFault) -> Checked<T>
    ensures { result ≡ Untyped fault }
{
    Checked::Untyped(hold(fault))
}

/// Not typed, since no part of this type is wanted at the place.
pub(crate) fn unwanted<T>(place: u32, typ: Held<CType>) -> Checked<T>
    ensures { result ≡ Untyped (Mismatch place Void typ) }
{
    untyped(TypeFault::Mismatch(place, CType::Void, typ.out()))
}

/// Typed, unless there is a fault.
pub(crate) fn unless<T: Drop>(fault: Option<Held<TypeFault>>, part: T) -> Checked<T>
    ensures { result ≡ unless fault part }
{
    match fault {
        None => fine(part),
        Some(fault) => Checked::Untyped(fault),
    }
}

/// With a fault found earlier.
pub(crate) fn also<T>(fault: Option<Held<TypeFault>>, part: Checked<T>) -> Checked<T>
    ensures { result ≡ also fault part }
{
    match part {
        Checked::Typed(part, more) => Checked::Typed(part, first(fault, more)),
        Checked::Untyped(more) => match fault {
            None => Checked::Untyped(more),
            Some(fault) => Checked::Untyped(earlier(fault, more)),
        },
    }
}

/// Two parts that do not depend on one another.
pub(crate) fn pair<A: Drop, B: Drop>(left: Checked<A>, right: Checked<B>) -> Checked<(A, B)>
    ensures { result ≡ pair left right }
{
    match left {
        Checked::Typed(a, fault) => match right {
            Checked::Typed(b, more) => {
                let both = hold((a.out(), b.out()));
                Checked::Typed(both, first(fault, more))
            }
            Checked::Untyped(more) => also(fault, Checked::Untyped(more)),
        },
        Checked::Untyped(fault) => match right {
            Checked::Typed(_, more) => match more {
                None => Checked::Untyped(fault),
                Some(more) => Checked::Untyped(earlier(fault, more)),
            },
            Checked::Untyped(more) => Checked::Untyped(earlier(fault, more)),
        },
    }
}

/// A list of parts with one more at its end.
pub(crate) fn added<T: Drop>(
    parts: Checked<List<T>>,
    more: Checked<T>,
) -> Result<Checked<List<T>>, AllocError>
    ensures { IfOk result (λ all. all ≡ added parts more) }
{
    match pair(parts, more) {
        Checked::Typed(both, fault) => {
            let (mut parts, part) = both.out();
            parts.push(part)?;
            Ok(Checked::Typed(hold(parts), fault))
        }
        Checked::Untyped(fault) => Ok(Checked::Untyped(fault)),
    }
}
