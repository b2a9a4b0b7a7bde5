//! Texts by the places of their tokens, and numbers with their limits.

use std::alloc::{AllocError, Global};
use vd_tokens::{Alphabet, End, has_suffix, number_of, tokenize};

/// An alphabet and a text; the places of its tokens, one behind another as digits of base 100, how many there are, and
/// where they end.
const TEXTS: &[(Alphabet, &[u8], (u64, usize, End))] = &[
    (Alphabet::C, b"", (0, 0, End::Text(10))),
    (Alphabet::C, b"a1 b", (1013, 2, End::Text(14))),
    (Alphabet::C, b"1a", (1011, 2, End::Text(12))),
    (Alphabet::C, b"007u", (101112, 3, End::Text(14))),
    (Alphabet::C, b"a->b", (101113, 3, End::Text(14))),
    (Alphabet::C, b"a&&b", (10111213, 4, End::Text(14))),
    (Alphabet::C, b"a<<=b", (10111314, 4, End::Text(15))),
    (
        Alphabet::C,
        b"a/* ** */b//c\n/d",
        (10192425, 4, End::Text(26)),
    ),
    (Alphabet::C, b"a /* b *", (10, 1, End::Unknown(12))),
    (Alphabet::C, b"a # b", (10, 1, End::Unknown(12))),
    (Alphabet::Logic, b"7u!=x", (10111214, 4, End::Text(15))),
    (
        Alphabet::Logic,
        b"a<=-b:c",
        (101113141516, 6, End::Text(17)),
    ),
    (Alphabet::Logic, b"a!b", (10, 1, End::Unknown(11))),
    (Alphabet::Logic, b"a //\n/b", (10, 1, End::Unknown(15))),
];

const NUMBERS: &[(&[u8], u128, Option<u128>)] = &[
    (b"4294967295u", 4294967295, Some(4294967295)),
    (b"4294967296", 4294967295, None),
    (
        b"340282366920938463463374607431768211455",
        u128::MAX,
        Some(u128::MAX),
    ),
    (b"340282366920938463463374607431768211456", u128::MAX, None),
];

fn places(alloc: Global, alphabet: Alphabet, text: &[u8]) -> Result<(u64, usize, End), AllocError> {
    let text = text.get(..100).unwrap_or(text);
    let found = tokenize(alloc, alphabet, text, 10)?;
    let mut sum: u64 = 0;
    for token in found.tokens.as_slice() {
        sum = sum.wrapping_mul(100).wrapping_add(u64::from(token.place));
    }
    Ok((sum, found.tokens.len(), found.end))
}

#[test]
fn texts_have_tokens(rt: HostRuntime) -> Result<(), AllocError> {
    for (number, (alphabet, text, want)) in TEXTS.iter().enumerate() {
        let found = places(rt.alloc(), *alphabet, text)?;
        assert_eq!(rt; found, *want, "text {number}");
    }
    for (number, (digits, limit, want)) in NUMBERS.iter().enumerate() {
        assert_eq!(rt; number_of(digits, *limit), *want, "number {number}");
    }
    assert!(rt; has_suffix(b"0u") && !has_suffix(b"0"));
    Ok(())
}
