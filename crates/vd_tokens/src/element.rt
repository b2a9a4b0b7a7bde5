//! What stands in front of a text.

ghost use Rattle.std.specs.Prelude.{◌≡◌, ◌≤◌, true, length};
ghost use Rattle.vd_tokens.specs.Bytes.{is_digit, is_letter};
ghost use Rattle.vd_tokens.specs.declared.alphabet.Alphabet.{Alphabet};
ghost use Rattle.vd_tokens.specs.Head.{Digits, IsHead, IsOther, IsWithin, begins_pair, begins_suffix};

use crate::alphabet::Alphabet;
use crate::run::{Run, close, is_blank, is_digit, is_letter, run_len, starts_with};
use crate::token::TokenKind;

/// What comes next, with how many bytes it has behind the first.
#[derive(Clone, Copy)]
pub(crate) enum Element {
    Gap(usize),
    Token(TokenKind, usize),
    /// The byte begins no token.
    Unknown,
}

fn word(first: u8, rest: &[u8]) -> Element
    requires { is_letter first ≡ true }
    ensures head { (alphabet : Alphabet) → IsHead alphabet first rest.now result }
    ensures within { IsWithin result (length rest.now) }
{
    Element::Token(TokenKind::Word, run_len(Run::Word, rest))
}

/// How many digits stand behind the first.
fn digits_len(first: u8, rest: &[u8]) -> usize
    requires { is_digit first ≡ true }
    ensures digits { Digits first result rest.now }
    ensures within { result ≤ length rest.now }
{
    if first == 48 {
        0
    } else {
        run_len(Run::Digits, rest)
    }
}

fn begins_suffix(alphabet: Alphabet, rest: &[u8]) -> bool
    ensures test { result ≡ begins_suffix alphabet rest.now }
    ensures within { result ≡ true → 1 ≤ length rest.now }
{
    alphabet.has_suffix() && starts_with(117, rest)
}

fn number(alphabet: Alphabet, first: u8, rest: &[u8]) -> Element
    requires { is_digit first ≡ true }
    ensures head { IsHead alphabet first rest.now result }
    ensures within { IsWithin result (length rest.now) }
{
    let n = digits_len(first, rest);
    let (_, behind) = rest.split_at(n);
    if begins_suffix(alphabet, behind) {
        Element::Token(TokenKind::Number, n + 1)
    } else {
        Element::Token(TokenKind::Number, n)
    }
}

fn slash(alphabet: Alphabet, rest: &[u8]) -> Element
    ensures head { IsHead alphabet 47 rest.now result }
    ensures within { IsWithin result (length rest.now) }
{
    if starts_with(47, rest) {
        let (_, line) = rest.split_at(1);
        return Element::Gap(run_len(Run::Line, line) + 1);
    }
    if starts_with(42, rest) {
        let (_, stars) = rest.split_at(1);
        return match close(stars) {
            Some(n) => Element::Gap(n + 3),
            None => Element::Unknown,
        };
    }
    if alphabet.is_sign(47) {
        Element::Token(TokenKind::Sign, 0)
    } else {
        Element::Unknown
    }
}

fn begins_pair(alphabet: Alphabet, first: u8, rest: &[u8]) -> bool
    ensures test { result ≡ begins_pair alphabet first rest.now }
    ensures within { result ≡ true → 1 ≤ length rest.now }
{
    match rest {
        [second, ..] => alphabet.is_pair(first, *second),
        [] => false,
    }
}

fn sign(alphabet: Alphabet, first: u8, rest: &[u8]) -> Element
    requires { IsOther first }
    ensures head { IsHead alphabet first rest.now result }
    ensures within { IsWithin result (length rest.now) }
{
    if begins_pair(alphabet, first, rest) {
        Element::Token(TokenKind::Sign, 1)
    } else if alphabet.is_sign(first) {
        Element::Token(TokenKind::Sign, 0)
    } else {
        Element::Unknown
    }
}

/// What stands in front, given the first byte and the others.
pub(crate) fn head(alphabet: Alphabet, first: u8, rest: &[u8]) -> Element
    ensures head { IsHead alphabet first rest.now result }
    ensures within { IsWithin result (length rest.now) }
{
    if is_letter(first) {
        word(first, rest)
    } else if is_digit(first) {
        number(alphabet, first, rest)
    } else if is_blank(first) {
        Element::Gap(0)
    } else if first == 47 {
        slash(alphabet, rest)
    } else {
        sign(alphabet, first, rest)
    }
}
