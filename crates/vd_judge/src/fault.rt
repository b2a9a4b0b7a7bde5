//! Faults of a function, and which of two comes first.

ghost use Rattle.std.specs.Prelude.{◌≡◌};
ghost use Rattle.vd_judge.specs.Fault.{place_of, is_typing, comes_before, earlier, first};

use vd_base::{CType, Held, Name};

/// Why a function is not typed. Each place is a byte offset in its section.
#[derive(Debug, Drop)]
pub enum TypeFault {
    /// The place uses a name that nothing declares: a variable, a function, a struct or a field.
    Unknown(u32, Name),
    /// Types disagree at the place: the one that is wanted, and the one that is found. `void` stands where no one type is
    /// wanted or found. In a declaration the place is 0, and both are `void`.
    Mismatch(u32, CType, CType),
    /// The place is typed, but has no normal form.
    NotNormal(u32),
    /// The typed function does not fit into memory, or its parameters and temporaries are too many to be numbered.
    Memory,
}

impl TypeFault {
    fn place(&self) -> u32
        ensures { result ≡ place_of self.now }
    {
        match self {
            TypeFault::Unknown(place, _) => *place,
            TypeFault::Mismatch(place, _, _) => *place,
            TypeFault::NotNormal(place) => *place,
            TypeFault::Memory => 0,
        }
    }

    fn is_typing(&self) -> bool
        ensures { result ≡ is_typing self.now }
    {
        match self {
            TypeFault::Unknown(_, _) => true,
            TypeFault::Mismatch(_, _, _) => true,
            TypeFault::NotNormal(_) => false,
            TypeFault::Memory => true,
        }
    }

    fn comes_before(&self, other: &TypeFault) -> bool
        ensures { result ≡ comes_before self.now other.now }
    {
        self.place() < other.place()
            || (self.place() == other.place() && self.is_typing() && !other.is_typing())
    }
}

/// The first of two faults.
pub(crate) fn earlier(a: Held<TypeFault>, b: Held<TypeFault>) -> Held<TypeFault>
    ensures { result ≡ earlier a b }
{
    if b.get().comes_before(a.get()) { b } else { a }
}

/// The first of faults that may be there.
pub(crate) fn first(
    a: Option<Held<TypeFault>>,
    b: Option<Held<TypeFault>>,
) -> Option<Held<TypeFault>>
    ensures { result ≡ first a b }
{
    match (a, b) {
        (None, b) => b,
        (Some(a), None) => Some(a),
        (Some(a), Some(b)) => Some(earlier(a, b)),
    }
}
