//! Header lines.

ghost use Rattle.std.specs.Prelude.{◌≡◌, ◌≤◌, ◌<◌, ◌+◌, ◌^◌, length};
ghost use Rattle.vd_section.specs.HeaderLine as line;
ghost use Rattle.vd_section.specs.HeaderView.{header_view, FitsIn};

use crate::word::{begins_with, spells, split_word};

/// What stands in front of a text.
#[derive(Clone, Copy)]
pub enum Header<'a> {
    /// A header line with its name, or with none, where it ends, and what stands behind it.
    Found(&'a [u8], u32, &'a [u8]),
    /// How many bytes may begin one, and what stands behind them.
    Missing(u32, &'a [u8]),
}

fn after_name<'a>(place: u32, name: &'a [u8], bytes: &'a [u8]) -> Header<'a>
    requires { place + length bytes.now < 2 ^ 32 }
    ensures cut { header_view result ≡ line.after_name place name.now bytes.now }
    ensures fits { FitsIn (place + length bytes.now) (header_view result) }
{
    if begins_with(10, bytes) {
        let (_, body) = bytes.split_at(1);
        Header::Found(name, place + 1, body)
    } else {
        Header::Missing(place, bytes)
    }
}

fn at_name<'a>(place: u32, bytes: &'a [u8], may_stand: bool) -> Header<'a>
    requires { place + length bytes.now < 2 ^ 32 }
    ensures cut { header_view result ≡ line.at_name may_stand place bytes.now }
    ensures fits { FitsIn (place + length bytes.now) (header_view result) }
{
    if may_stand {
        let (name, rest) = split_word(bytes);
        after_name(place + name.len() as u32, name, rest)
    } else {
        Header::Missing(place, bytes)
    }
}

fn after_word<'a>(place: u32, bytes: &'a [u8], may_stand: bool) -> Header<'a>
    requires { place + length bytes.now < 2 ^ 32 }
    ensures cut { header_view result ≡ line.after_word may_stand place bytes.now }
    ensures fits { FitsIn (place + length bytes.now) (header_view result) }
{
    if begins_with(32, bytes) {
        let (_, rest) = bytes.split_at(1);
        at_name(place + 1, rest, may_stand)
    } else {
        Header::Missing(place, bytes)
    }
}

/// The header line of a kind and a name in front of a text, where the word that stands in the place of the name may be
/// one, or not.
pub fn named_header<'a>(kind: &[u8], text: &'a [u8], may_stand: bool) -> Header<'a>
    requires { length text.now < 2 ^ 32 }
    ensures cut { header_view result ≡ line.header_by may_stand kind.now text.now }
    ensures fits { FitsIn (length text.now) (header_view result) }
{
    let (word, rest) = split_word(text);
    if spells(word, kind) {
        after_word(word.len() as u32, rest, may_stand)
    } else {
        Header::Missing(0, text)
    }
}

/// The header line of a kind alone in front of a text.
pub fn plain_header<'a>(kind: &[u8], text: &'a [u8]) -> Header<'a>
    requires { length text.now < 2 ^ 32 }
    ensures cut { header_view result ≡ line.plain_header kind.now text.now }
    ensures fits { FitsIn (length text.now) (header_view result) }
{
    let (word, rest) = split_word(text);
    if spells(word, kind) {
        after_name(word.len() as u32, b"", rest)
    } else {
        Header::Missing(0, text)
    }
}
