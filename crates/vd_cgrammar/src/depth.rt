//! How deeply tokens are nested.

ghost use Rattle.std.specs.Prelude.{◌≡◌, ◌+◌, ◌<◌, ◌≤◌};
ghost use Rattle.vd_cgrammar.specs.Nesting as nesting;

use crate::kind::{Class, Kind};
use crate::token::has;

/// The brackets that are open, the operators since the last `;`, `{` or `}`, and whether the last token is `(`.
#[derive(Clone, Copy)]
pub struct Depth {
    pub brackets: u32,
    pub operators: u32,
    pub is_opened: bool,
}

fn opens(kind: Kind) -> bool
    ensures { result ≡ nesting.opens kind }
{
    has(Class::One(Kind::LeftParen), kind)
        || (has(Class::One(Kind::LeftBracket), kind) || has(Class::One(Kind::LeftBrace), kind))
}

fn closes(kind: Kind) -> bool
    ensures { result ≡ nesting.closes kind }
{
    has(Class::One(Kind::RightParen), kind)
        || (has(Class::One(Kind::RightBracket), kind) || has(Class::One(Kind::RightBrace), kind))
}

fn divides(kind: Kind) -> bool
    ensures { result ≡ nesting.divides kind }
{
    has(Class::One(Kind::Semicolon), kind)
        || (has(Class::One(Kind::LeftBrace), kind) || has(Class::One(Kind::RightBrace), kind))
}

fn is_operator(kind: Kind) -> bool
    ensures { result ≡ nesting.is_operator kind }
{
    has(Class::Binary, kind)
        || (has(Class::Prefix, kind)
            || (has(Class::Member, kind) || has(Class::One(Kind::LeftBracket), kind)))
}

fn brackets_after(kind: Kind, brackets: u32) -> u32
    requires { brackets < 256 }
    ensures value { result ≡ nesting.brackets_after kind brackets }
    ensures small { result ≤ 256 }
{
    if opens(kind) {
        brackets + 1
    } else if closes(kind) {
        brackets.saturating_sub(1)
    } else {
        brackets
    }
}

fn operators_after(kind: Kind, is_opened: bool, operators: u32) -> u32
    requires { operators < 256 }
    ensures value { result ≡ nesting.operators_after kind is_opened operators }
    ensures small { result ≤ 256 }
{
    if divides(kind) {
        0
    } else if is_operator(kind) || (is_opened && has(Class::TypeWord, kind)) {
        operators + 1
    } else {
        operators
    }
}

/// What is counted behind a token.
pub fn after(kind: Kind, depth: Depth) -> Depth
    requires { depth.brackets + depth.operators < 256 }
    ensures value { result ≡ nesting.after kind depth }
    ensures small { result.brackets + result.operators ≤ 512 }
{
    Depth {
        brackets: brackets_after(kind, depth.brackets),
        operators: operators_after(kind, depth.is_opened, depth.operators),
        is_opened: has(Class::One(Kind::LeftParen), kind),
    }
}
