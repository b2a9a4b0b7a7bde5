//! The smallest of places.

ghost use Rattle.std.specs.Prelude.{◌≡◌, Option, None, Some, min, ℕ};
ghost use Rattle.vd_heads.specs.Least.{lesser};

/// The smaller of places.
pub fn least(place: Option<u32>, other: u32) -> Option<u32>
    ensures { result ≡ Some (lesser place other) }
{
    match place {
        Some(place) => Some(place.min(other)),
        None => Some(other),
    }
}
