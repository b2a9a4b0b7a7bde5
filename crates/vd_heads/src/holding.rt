//! Structs in types.

ghost use Rattle.std.specs.Prelude.{◌≡◌, option_copied};
ghost use Rattle.vd_heads.specs.Held as holding;

use vd_base::{CType, Name};

/// The struct that a type holds by value.
pub fn held(t: &CType) -> Option<&Name>
    ensures { option_copied result ≡ holding.held t.now }
{
    match t {
        CType::Struct(name) => Some(name),
        CType::Array(of, _) => held(of.get()),
        CType::Void | CType::Int | CType::Unsigned | CType::Lock | CType::Pointer(_) => None,
    }
}
