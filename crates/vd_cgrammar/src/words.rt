//! What a token of a text is in a C section.

ghost use Rattle.std.specs.Prelude.{◌≡◌, ◌≤◌, option_map, IfSome, List, ℕ};
ghost use Rattle.std.specs.Str.{bytes_eq};
ghost use Rattle.vd_tokens.specs.Lexeme as text;
ghost use Rattle.vd_cgrammar.specs.Kinds as kinds;
ghost use Rattle.vd_cgrammar.specs.Lexeme.{lexeme_of};
ghost use Rattle.vd_cgrammar.specs.Words as words;

use crate::kind::Kind;
use crate::token::Token;
use vd_base::is_name;
use vd_tokens::{TokenKind, has_suffix, number_of};

/// Whether bytes are this word.
pub fn spells(spelling: &[u8], word: &[u8]) -> bool
    ensures { result ≡ bytes_eq spelling.now word.now }
{
    spelling == word
}

fn name_kind(own: &[u8], word: &[u8]) -> Kind
    ensures { result ≡ words.name_kind own.now word.now }
{
    if is_name(word) {
        if spells(word, own) {
            Kind::Own
        } else {
            Kind::Name
        }
    } else {
        Kind::Other
    }
}

fn reserved_word(other: Kind, word: &[u8]) -> Kind
    ensures { result ≡ words.kind_in words.reserved_words other word.now }
{
    if spells(word, b"malloc") {
        Kind::Malloc
    } else if spells(word, b"free") {
        Kind::Library
    } else if spells(word, b"makelock") {
        Kind::Library
    } else if spells(word, b"freelock") {
        Kind::Library
    } else if spells(word, b"acquire") {
        Kind::Library
    } else if spells(word, b"release") {
        Kind::Library
    } else if spells(word, b"spawn") {
        Kind::Spawn
    } else {
        other
    }
}

fn statement_word(other: Kind, word: &[u8]) -> Kind
    ensures { result ≡ words.kind_in words.statement_words other word.now }
{
    if spells(word, b"if") {
        Kind::If
    } else if spells(word, b"else") {
        Kind::Else
    } else if spells(word, b"while") {
        Kind::While
    } else if spells(word, b"return") {
        Kind::Return
    } else if spells(word, b"break") {
        Kind::Break
    } else if spells(word, b"continue") {
        Kind::Continue
    } else if spells(word, b"sizeof") {
        Kind::SizeOf
    } else if spells(word, b"alignof") {
        Kind::AlignOf
    } else {
        other
    }
}

fn type_word(other: Kind, word: &[u8]) -> Kind
    ensures { result ≡ words.kind_in words.type_words other word.now }
{
    if spells(word, b"int") {
        Kind::Int
    } else if spells(word, b"unsigned") {
        Kind::Unsigned
    } else if spells(word, b"lock") {
        Kind::Lock
    } else if spells(word, b"void") {
        Kind::Void
    } else if spells(word, b"struct") {
        Kind::Struct
    } else {
        other
    }
}

fn word_kind(own: &[u8], word: &[u8]) -> Kind
    ensures { result ≡ words.word_kind own.now word.now }
{
    let name = name_kind(own, word);
    type_word(statement_word(reserved_word(name, word), word), word)
}

/// Whether a name may stand in a header: it is no word of the grammar.
pub fn is_header_name(name: &[u8]) -> bool
    ensures { result ≡ words.is_header_name name.now }
{
    match word_kind(name, name) {
        Kind::Own => true,
        _ => false,
    }
}

fn separator(other: Kind, sign: &[u8]) -> Kind
    ensures { result ≡ words.kind_in words.separators other sign.now }
{
    if spells(sign, b"(") {
        Kind::LeftParen
    } else if spells(sign, b")") {
        Kind::RightParen
    } else if spells(sign, b"{") {
        Kind::LeftBrace
    } else if spells(sign, b"}") {
        Kind::RightBrace
    } else if spells(sign, b"[") {
        Kind::LeftBracket
    } else if spells(sign, b"]") {
        Kind::RightBracket
    } else if spells(sign, b";") {
        Kind::Semicolon
    } else if spells(sign, b",") {
        Kind::Comma
    } else if spells(sign, b"=") {
        Kind::Assign
    } else {
        other
    }
}

fn operator(other: Kind, sign: &[u8]) -> Kind
    ensures { result ≡ words.kind_in words.operators other sign.now }
{
    if spells(sign, b"|") {
        Kind::Or
    } else if spells(sign, b"^") {
        Kind::Xor
    } else if spells(sign, b"&") {
        Kind::And
    } else if spells(sign, b"<") {
        Kind::Less
    } else if spells(sign, b">") {
        Kind::Greater
    } else if spells(sign, b"+") {
        Kind::Plus
    } else if spells(sign, b"-") {
        Kind::Minus
    } else if spells(sign, b"*") {
        Kind::Star
    } else if spells(sign, b"/") {
        Kind::Slash
    } else if spells(sign, b"%") {
        Kind::Percent
    } else if spells(sign, b"!") {
        Kind::Not
    } else if spells(sign, b"~") {
        Kind::Tilde
    } else if spells(sign, b".") {
        Kind::Dot
    } else {
        other
    }
}

fn double_operator(other: Kind, sign: &[u8]) -> Kind
    ensures { result ≡ words.kind_in words.double_operators other sign.now }
{
    if spells(sign, b"==") {
        Kind::Equal
    } else if spells(sign, b"!=") {
        Kind::NotEqual
    } else if spells(sign, b"<=") {
        Kind::LessEqual
    } else if spells(sign, b">=") {
        Kind::GreaterEqual
    } else if spells(sign, b"<<") {
        Kind::ShiftLeft
    } else if spells(sign, b">>") {
        Kind::ShiftRight
    } else if spells(sign, b"->") {
        Kind::Arrow
    } else {
        other
    }
}

fn sign_kind(sign: &[u8]) -> Kind
    ensures { result ≡ words.sign_kind sign.now }
{
    separator(operator(double_operator(Kind::Other, sign), sign), sign)
}

fn number_in(digits: &[u8]) -> Option<u128>
    ensures value { result ≡ words.number_in digits.now }
    ensures within { IfSome result (λ n. n ≤ 4294967295) }
{
    if has_suffix(digits) {
        number_of(digits, 4294967295)
    } else {
        number_of(digits, 2147483647)
    }
}

fn number_kind(number: u32) -> Kind
    ensures { result ≡ words.number_kind (Some number) }
{
    if 1 <= number && number <= 65536 {
        Kind::Length
    } else {
        Kind::Number
    }
}

/// What a number's token is.
fn number<'a>(token: vd_tokens::Token<'a>) -> Token<'a>
    ensures { lexeme_of result ≡ words.number_lexeme (words.number_in token.entry.spelling.now) (text.lexeme_of token.entry) }
{
    let is_unsigned = has_suffix(token.spelling);
    match number_in(token.spelling) {
        Some(value) => Token {
            kind: number_kind(value as u32),
            place: token.place,
            spelling: token.spelling,
            value: value as u32,
            is_unsigned,
        },
        None => Token {
            kind: Kind::Other,
            place: token.place,
            spelling: token.spelling,
            value: 0,
            is_unsigned,
        },
    }
}

fn named<'a>(kind: Kind, token: vd_tokens::Token<'a>) -> Token<'a>
    ensures { lexeme_of result ≡ words.named_lexeme kind (text.lexeme_of token.entry) }
{
    Token {
        kind,
        place: token.place,
        spelling: token.spelling,
        value: 0,
        is_unsigned: false,
    }
}

/// What a token is in a section whose header has this name.
pub fn token_in<'a>(own: &[u8], token: vd_tokens::Token<'a>) -> Token<'a>
    ensures { lexeme_of result ≡ words.lexeme_in own.now (text.lexeme_of token.entry) }
{
    match token.kind {
        TokenKind::Word => named(word_kind(own, token.spelling), token),
        TokenKind::Number => number(token),
        TokenKind::Sign => named(sign_kind(token.spelling), token),
    }
}
