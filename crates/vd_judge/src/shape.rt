//! What kind of type a type is, and which types convert.

ghost use Rattle.std.specs.Prelude.{◌≡◌, option_copied};
ghost use Rattle.vd_judge.specs.Types.{is_void, is_int, is_lock, is_unsigned, is_integer, is_pointer, is_scalar, target_of, element_of, length_of, struct_of, same_type, alike, converts, castable, kind_of};

use vd_base::{CType, Name};
use vd_clight::Kind;

/// Void.
pub fn is_void(t: &CType) -> bool
    ensures { result ≡ is_void t.now }
{
    match t {
        CType::Void => true,
        CType::Int => false,
        CType::Unsigned => false,
        CType::Lock => false,
        CType::Struct(_) => false,
        CType::Pointer(_) => false,
        CType::Array(_, _) => false,
    }
}

fn is_int(t: &CType) -> bool
    ensures { result ≡ is_int t.now }
{
    match t {
        CType::Void => false,
        CType::Int => true,
        CType::Unsigned => false,
        CType::Lock => false,
        CType::Struct(_) => false,
        CType::Pointer(_) => false,
        CType::Array(_, _) => false,
    }
}

pub(crate) fn is_unsigned(t: &CType) -> bool
    ensures { result ≡ is_unsigned t.now }
{
    match t {
        CType::Void => false,
        CType::Int => false,
        CType::Unsigned => true,
        CType::Lock => false,
        CType::Struct(_) => false,
        CType::Pointer(_) => false,
        CType::Array(_, _) => false,
    }
}

fn is_lock(t: &CType) -> bool
    ensures { result ≡ is_lock t.now }
{
    match t {
        CType::Void => false,
        CType::Int => false,
        CType::Unsigned => false,
        CType::Lock => true,
        CType::Struct(_) => false,
        CType::Pointer(_) => false,
        CType::Array(_, _) => false,
    }
}

/// Int or unsigned.
pub(crate) fn is_integer(t: &CType) -> bool
    ensures { result ≡ is_integer t.now }
{
    is_int(t) || is_unsigned(t)
}

/// What a pointer points to.
pub(crate) fn target_of(t: &CType) -> Option<&CType>
    ensures { option_copied result ≡ target_of t.now }
{
    match t {
        CType::Void => None,
        CType::Int => None,
        CType::Unsigned => None,
        CType::Lock => None,
        CType::Struct(_) => None,
        CType::Pointer(to) => Some(to.get()),
        CType::Array(_, _) => None,
    }
}

/// What an array holds.
pub(crate) fn element_of(t: &CType) -> Option<&CType>
    ensures { option_copied result ≡ element_of t.now }
{
    match t {
        CType::Void => None,
        CType::Int => None,
        CType::Unsigned => None,
        CType::Lock => None,
        CType::Struct(_) => None,
        CType::Pointer(_) => None,
        CType::Array(of, _) => Some(of.get()),
    }
}

/// How many elements an array has.
fn length_of(t: &CType) -> Option<u32>
    ensures { result ≡ length_of t.now }
{
    match t {
        CType::Void => None,
        CType::Int => None,
        CType::Unsigned => None,
        CType::Lock => None,
        CType::Struct(_) => None,
        CType::Pointer(_) => None,
        CType::Array(_, length) => Some(*length),
    }
}

/// The name of a struct.
pub(crate) fn struct_of(t: &CType) -> Option<&Name>
    ensures { option_copied result ≡ struct_of t.now }
{
    match t {
        CType::Void => None,
        CType::Int => None,
        CType::Unsigned => None,
        CType::Lock => None,
        CType::Struct(name) => Some(name),
        CType::Pointer(_) => None,
        CType::Array(_, _) => None,
    }
}

pub(crate) fn is_pointer(t: &CType) -> bool
    ensures { result ≡ is_pointer t.now }
{
    target_of(t).is_some()
}

/// An integer or a pointer: what a cell holds.
pub fn is_scalar(t: &CType) -> bool
    ensures { result ≡ is_scalar t.now }
{
    is_integer(t) || is_pointer(t)
}

/// Whether two types are one.
#[tactic(auto, unfolding(crate::specs::Types::same_type))]
pub(crate) fn is_same_type(a: &CType, b: &CType) -> bool
    ensures { result ≡ same_type a.now b.now }
{
    match a {
        CType::Void => is_void(b),
        CType::Int => is_int(b),
        CType::Unsigned => is_unsigned(b),
        CType::Lock => is_lock(b),
        CType::Struct(name) => match struct_of(b) {
            None => false,
            Some(other) => name == other,
        },
        CType::Pointer(to) => match target_of(b) {
            None => false,
            Some(other) => is_same_type(to.get(), other),
        },
        CType::Array(of, length) => match element_of(b) {
            None => false,
            Some(other) => is_same_type(of.get(), other) && length_of(b) == Some(*length),
        },
    }
}

/// Whether two pointers' types are one, or one of them points to void.
pub(crate) fn are_alike(a: &CType, b: &CType) -> bool
    ensures { result ≡ alike (target_of a.now) (target_of b.now) }
{
    match target_of(a) {
        None => false,
        Some(a) => match target_of(b) {
            None => false,
            Some(b) => is_void(a) || is_void(b) || is_same_type(a, b),
        },
    }
}

/// Whether a value of one type, which may be the constant 0, converts to another.
pub(crate) fn converts(zero: bool, from: &CType, to: &CType) -> bool
    ensures { result ≡ converts zero from.now to.now }
{
    (is_integer(from) && is_integer(to)) || (is_pointer(to) && (zero || are_alike(from, to)))
}

/// Whether a cast goes from one type, or from the constant 0, to another.
pub(crate) fn is_castable(zero: bool, from: &CType, to: &CType) -> bool
    ensures { result ≡ castable zero from.now to.now }
{
    (is_integer(from) && is_integer(to)) || (is_pointer(to) && (zero || is_pointer(from)))
}

/// How an operation of a type reads its operands.
pub(crate) fn kind_of(t: &CType) -> Kind
    ensures { result ≡ kind_of t.now }
{
    if is_unsigned(t) {
        Kind::Unsigned
    } else {
        Kind::Signed
    }
}
