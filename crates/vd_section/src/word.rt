//! The words of a header line.

ghost use Rattle.std.specs.Prelude.{◌≡◌, ◌≤◌, true, length, drop};
ghost use Rattle.std.specs.Str.{bytes_eq};
ghost use Rattle.vd_section.specs.HeaderLine as line;

use vd_base::is_word_byte;

/// Whether bytes are the word.
pub fn spells(spelling: &[u8], word: &[u8]) -> bool
    ensures { result ≡ bytes_eq spelling.now word.now }
{
    spelling == word
}

fn word_len(bytes: &[u8]) -> usize
    ensures len { result ≡ length (line.word_of bytes.now) }
    ensures within { result ≤ length bytes.now }
{
    let mut left = bytes;
    let mut n = 0;
    'word: while !left.is_empty() && is_word_byte(left[0]) {
        let (_, rest) = left.split_at(1);
        left = rest;
        n += 1;
    }
    n
}

/// The letters, digits and `_` in front, and what stands behind them.
pub fn split_word(bytes: &[u8]) -> (&[u8], &[u8])
    ensures word { result.0.now ≡ line.word_of bytes.now }
    ensures rest { result.1.now ≡ drop (length (line.word_of bytes.now)) bytes.now }
{
    bytes.split_at(word_len(bytes))
}

fn behind_first(bytes: &[u8]) -> &[u8]
    ensures { result.now ≡ drop 1 bytes.now }
{
    match bytes {
        [_, rest @ ..] => rest,
        [] => bytes,
    }
}

/// The word that stands where a header line has its name.
pub fn name_in(text: &[u8]) -> &[u8]
    ensures { result.now ≡ line.name_in text.now }
{
    let (_, rest) = split_word(text);
    let (name, _) = split_word(behind_first(rest));
    name
}

pub(crate) fn begins_with(byte: u8, bytes: &[u8]) -> bool
    ensures test { result ≡ line.begins_with byte bytes.now }
    ensures within { result ≡ true → 1 ≤ length bytes.now }
{
    match bytes {
        [first, ..] => *first == byte,
        [] => false,
    }
}
