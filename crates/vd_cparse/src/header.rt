//! Header lines, and the line `end`.

ghost use Rattle.std.specs.Prelude.{◌≡◌, ◌≤◌, ◌<◌, ◌+◌, ◌^◌, length, drop, true, IfSome};
ghost use Rattle.vd_base.specs.Name.{is_word_byte};
ghost use Rattle.vd_cparse.specs.HeaderLine as header;
ghost use Rattle.vd_cparse.specs.HeaderView.{header_view, FitsIn};

use vd_base::is_word_byte;
use vd_cgrammar::{is_header_name, spells};

/// What stands in front of a text.
#[derive(Clone, Copy)]
pub enum Header<'a> {
    /// A header line with a name, where it ends, and what stands behind it.
    Found(&'a [u8], u32, &'a [u8]),
    /// How many bytes may begin one, and what stands behind them.
    Missing(u32, &'a [u8]),
}

fn word_len(bytes: &[u8]) -> usize
    ensures len { result ≡ length (header.word_of bytes.now) }
    ensures within { result ≤ length bytes.now }
{
    let mut left = bytes;
    let mut n = 0;
    'word: while !left.is_empty() && is_word_byte(left[0]) {
        let (_, rest) = left.split_at(1);
        left = rest;
        n += 1;
    }
    n
}

/// The letters, digits and `_` in front, and what stands behind them.
pub(crate) fn split_word(bytes: &[u8]) -> (&[u8], &[u8])
    ensures word { result.0.now ≡ header.word_of bytes.now }
    ensures rest { result.1.now ≡ drop (length (header.word_of bytes.now)) bytes.now }
{
    bytes.split_at(word_len(bytes))
}

fn begins_with(byte: u8, bytes: &[u8]) -> bool
    ensures test { result ≡ header.begins_with byte bytes.now }
    ensures within { result ≡ true → 1 ≤ length bytes.now }
{
    match bytes {
        [first, ..] => *first == byte,
        [] => false,
    }
}

fn after_name<'a>(place: u32, name: &'a [u8], bytes: &'a [u8]) -> Header<'a>
    requires { place + length bytes.now < 2 ^ 32 }
    ensures cut { header_view result ≡ header.after_name place name.now bytes.now }
    ensures fits { FitsIn (place + length bytes.now) (header_view result) }
{
    if begins_with(10, bytes) {
        let (_, body) = bytes.split_at(1);
        Header::Found(name, place + 1, body)
    } else {
        Header::Missing(place, bytes)
    }
}

fn at_name<'a>(place: u32, bytes: &'a [u8]) -> Header<'a>
    requires { place + length bytes.now < 2 ^ 32 }
    ensures cut { header_view result ≡ header.at_name place bytes.now }
    ensures fits { FitsIn (place + length bytes.now) (header_view result) }
{
    let (name, rest) = split_word(bytes);
    if is_header_name(name) {
        after_name(place + name.len() as u32, name, rest)
    } else {
        Header::Missing(place, bytes)
    }
}

fn after_word<'a>(place: u32, bytes: &'a [u8]) -> Header<'a>
    requires { place + length bytes.now < 2 ^ 32 }
    ensures cut { header_view result ≡ header.after_word place bytes.now }
    ensures fits { FitsIn (place + length bytes.now) (header_view result) }
{
    if begins_with(32, bytes) {
        let (_, rest) = bytes.split_at(1);
        at_name(place + 1, rest)
    } else {
        Header::Missing(place, bytes)
    }
}

/// The header line of a kind in front of a text.
pub(crate) fn header_of<'a>(kind: &[u8], text: &'a [u8]) -> Header<'a>
    requires { length text.now < 2 ^ 32 }
    ensures cut { header_view result ≡ header.header_of kind.now text.now }
    ensures fits { FitsIn (length text.now) (header_view result) }
{
    let (word, rest) = split_word(text);
    if spells(word, kind) {
        after_word(word.len() as u32, rest)
    } else {
        Header::Missing(0, text)
    }
}

fn begins_end(bytes: &[u8]) -> bool
    ensures test { result ≡ header.begins_end bytes.now }
    ensures within { result ≡ true → 4 ≤ length bytes.now }
{
    if bytes.len() < 4 {
        return false;
    }
    let (line, _) = bytes.split_at(4);
    spells(line, b"end\n")
}

/// How many bytes stand before the first line `end`.
pub(crate) fn end_of(body: &[u8]) -> Option<usize>
    ensures value { result ≡ header.end_at true body.now }
    ensures within { IfSome result (λ n. n + 4 ≤ length body.now) }
{
    let mut left = body;
    let mut starts = true;
    let mut n = 0;
    'bytes: while !left.is_empty() {
        if starts && begins_end(left) {
            return Some(n);
        }
        starts = left[0] == 10;
        let (_, rest) = left.split_at(1);
        left = rest;
        n += 1;
    }
    None
}
