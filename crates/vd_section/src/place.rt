//! The place of a first token.

ghost use Rattle.std.specs.Prelude.{◌+◌, ◌<◌, ◌^◌, length, IfOk};
ghost use Rattle.vd_section.specs.Place.{IsFirstPlace};

use std::alloc::{AllocError, Global};
use vd_tokens::{Alphabet, End, tokenize};

/// The place of the first token of bytes, or of what ends them where there is none.
pub fn first_place(
    alloc: Global,
    alphabet: Alphabet,
    bytes: &[u8],
    place: u32,
) -> Result<u32, AllocError>
    requires { place + length bytes.now < 2 ^ 32 }
    ensures { IfOk result (λ at. IsFirstPlace alphabet place bytes.now at) }
{
    let found = tokenize(alloc, alphabet, bytes, place)?;
    match found.tokens.get(0) {
        Some(token) => Ok(token.place),
        None => match found.end {
            End::Text(at) => Ok(at),
            End::Unknown(at) => Ok(at),
        },
    }
}
