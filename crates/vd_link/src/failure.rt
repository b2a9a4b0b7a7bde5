//! A link condition that fails, as it is printed.

ghost use Rattle.std.specs.Prelude.{◌≡◌, ◌++◌, ◌∷◌, IfOk, decimal};

use std::alloc::{AllocError, Global};
use vd_base::Text;

/// The number of a condition alone.
pub(crate) fn bare(alloc: Global, condition: u8) -> Result<Text, AllocError>
    ensures { IfOk result (λ text. text ≡ decimal condition) }
{
    let text = format!(in alloc; "{condition}")?;
    Text::new(alloc, text.as_bytes())
}

/// A condition and a place.
pub(crate) fn at_place(alloc: Global, condition: u8, place: u32) -> Result<Text, AllocError>
    ensures { IfOk result (λ text. text ≡ decimal condition ++ 32 ∷ decimal place) }
{
    let text = format!(in alloc; "{condition} {place}")?;
    Text::new(alloc, text.as_bytes())
}

/// A condition and a name.
pub(crate) fn of_name(alloc: Global, condition: u8, name: &[u8]) -> Result<Text, AllocError>
    ensures { IfOk result (λ text. text ≡ decimal condition ++ 32 ∷ name.now) }
{
    let mut text = bare(alloc, condition)?;
    text.append(b" ")?;
    text.append(name)?;
    Ok(text)
}
