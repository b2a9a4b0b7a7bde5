//! What a number's token spells.

ghost use Rattle.std.specs.Prelude.{◌≡◌, ◌+◌, ◌-◌, ◌*◌};
ghost use Rattle.vd_tokens.specs.Number.{number_of, has_suffix, at_most};

use crate::run::is_digit;

/// One more digit behind a number.
fn with_digit(number: u128, digit: u8, most: u128) -> Option<u128>
    ensures { result ≡ at_most most (10 * number + (digit - 48)) }
{
    let digit = u128::from(digit.saturating_sub(48));
    let next = number.checked_mul(10)?.checked_add(digit)?;
    if next <= most { Some(next) } else { None }
}

/// The number that the digits in front spell, where it is at most so much.
pub fn number_of(spelling: &[u8], most: u128) -> Option<u128>
    ensures { result ≡ at_most most (number_of spelling.now) }
{
    let mut number: u128 = 0;
    let mut left = spelling;
    'digits: loop {
        match left {
            [first, rest @ ..] if is_digit(*first) => {
                number = with_digit(number, *first, most)?;
                left = rest;
            }
            _ => return Some(number),
        }
    }
}

/// Whether a number ends with `u`.
pub fn has_suffix(spelling: &[u8]) -> bool
    ensures { result ≡ has_suffix spelling.now }
{
    spelling.iter().any(|b| *b == 117)
}
