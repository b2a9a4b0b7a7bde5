//! Numbers of a line.

ghost use Rattle.std.specs.Prelude.{◌≡◌, ℕ, ◌^◌, ◌<◌, Bool, ◌∷◌, [], decimal, MatchOption};
ghost use Rattle.vd_schedule.specs.Entries.{pick_digit};

use std::str;

/// The number below 2^32 that the bytes write in decimal, without sign and leading zero.
pub(crate) fn number_of(bytes: &[u8]) -> Option<u32>
    ensures { MatchOption result ((n : ℕ) → n < 2 ^ 32 → bytes.now ≡ decimal n → ⊥) (λ n. bytes.now ≡ decimal n) }
{
    if bytes.len() > 1 && (bytes[0] == b'0' || bytes[0] == b'+') {
        return None;
    }
    match str::from_utf8(bytes) {
        Ok(text) => text.parse::<u32>().ok(),
        Err(_) => None,
    }
}

/// What `malloc` answers: a block by `1`, the null pointer by `0`.
pub(crate) fn pick_of(bytes: &[u8]) -> Option<bool>
    ensures { MatchOption result ((pick : Bool) → bytes.now ≡ pick_digit pick ∷ [] → ⊥) (λ pick. bytes.now ≡ pick_digit pick ∷ []) }
{
    if bytes == b"0".as_slice() {
        Some(false)
    } else if bytes == b"1".as_slice() {
        Some(true)
    } else {
        None
    }
}
