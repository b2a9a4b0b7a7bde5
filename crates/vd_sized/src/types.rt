//! Types in declarations.

ghost use Rattle.std.specs.Prelude.{◌≡◌, ◌↔◌, IsTrue};
ghost use Rattle.vd_sized.specs.Agreement.{SameTypes};

use vd_base::{CType, Field};

/// Whether two types are the same.
pub fn same(a: &CType, b: &CType) -> bool
    ensures { IsTrue result ↔ (a.now ≡ b.now) }
{
    match a {
        CType::Void => match b {
            CType::Void => true,
            _ => false,
        },
        CType::Int => match b {
            CType::Int => true,
            _ => false,
        },
        CType::Unsigned => match b {
            CType::Unsigned => true,
            _ => false,
        },
        CType::Lock => match b {
            CType::Lock => true,
            _ => false,
        },
        CType::Struct(s) => match b {
            CType::Struct(t) => s.is_same(t),
            _ => false,
        },
        CType::Pointer(s) => match b {
            CType::Pointer(t) => same(s.get(), t.get()),
            _ => false,
        },
        CType::Array(s, n) => match b {
            CType::Array(t, m) => *n == *m && same(s.get(), t.get()),
            _ => false,
        },
    }
}

/// Whether fields have the same types, one by one.
pub fn same_types(a: &[Field], b: &[Field]) -> bool
    ensures { IsTrue result ↔ SameTypes a.now b.now }
{
    let mut rest = b;
    for f in a {
        match rest.split_first() {
            Some((g, others)) => {
                if !same(&f.typ, &g.typ) {
                    return false;
                }
                rest = others;
            }
            None => return false,
        }
    }
    rest.is_empty()
}
