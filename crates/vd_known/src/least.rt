//! The smaller of places.

ghost use Rattle.std.specs.Prelude.{◌≡◌};
ghost use Rattle.vd_known.specs.Clash.{least_joined};

use vd_heads::least;

/// The smaller of two places, of those that there are.
pub fn least_of(first: Option<u32>, other: Option<u32>) -> Option<u32>
    ensures { result ≡ least_joined first other }
{
    match other {
        Some(place) => least(first, place),
        None => first,
    }
}
