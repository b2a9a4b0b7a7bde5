//! What a token of a text is in a logic section.

ghost use Rattle.std.specs.Prelude.{◌≡◌, Some};
ghost use Rattle.vd_tokens.specs.Lexeme as text;
ghost use Rattle.vd_logic_grammar.specs.Lexeme.{lexeme_of};
ghost use Rattle.vd_logic_grammar.specs.Words as words;

use crate::keywords::{operation_of, step_word};
use crate::kind::Kind;
use crate::language::Language;
use crate::token::Token;
use vd_base::is_name;
use vd_logic::Op;
use vd_section::spells;
use vd_tokens::{TokenKind, number_of};

fn name_kind(own: &[u8], word: &[u8]) -> Kind
    ensures { result ≡ words.name_kind own.now word.now }
{
    if is_name(word) {
        if spells(word, own) {
            Kind::Own
        } else {
            Kind::Name
        }
    } else {
        Kind::Other
    }
}

fn sort_word(other: Kind, word: &[u8]) -> Kind
    ensures { result ≡ words.entry_of words.sort_words other word.now }
{
    if spells(word, b"int") {
        Kind::Int
    } else if spells(word, b"val") {
        Kind::Val
    } else if spells(word, b"list") {
        Kind::List
    } else {
        other
    }
}

fn assertion_entry(other: Kind, word: &[u8]) -> Kind
    ensures { result ≡ words.entry_of words.assertion_words other word.now }
{
    if spells(word, b"addr") {
        Kind::Addr
    } else if spells(word, b"isint") {
        Kind::IsInt
    } else if spells(word, b"isptr") {
        Kind::IsPtr
    } else if spells(word, b"each") {
        Kind::Each
    } else if spells(word, b"data") {
        Kind::Data
    } else if spells(word, b"lock") {
        Kind::Lock
    } else if spells(word, b"holds") {
        Kind::Holds
    } else if spells(word, b"token") {
        Kind::TokenWord
    } else if spells(word, b"ex") {
        Kind::Ex
    } else if spells(word, b"prop") {
        Kind::Prop
    } else if spells(word, b"local") {
        Kind::Local
    } else if spells(word, b"sep") {
        Kind::Sep
    } else {
        other
    }
}

fn case_word(other: Kind, word: &[u8]) -> Kind
    ensures { result ≡ words.entry_of words.case_words other word.now }
{
    if spells(word, b"case") {
        Kind::Case
    } else {
        other
    }
}

fn specification_word(other: Kind, word: &[u8]) -> Kind
    ensures { result ≡ words.entry_of words.specification_words other word.now }
{
    if spells(word, b"with") {
        Kind::With
    } else if spells(word, b"pre") {
        Kind::Pre
    } else if spells(word, b"post") {
        Kind::Post
    } else if spells(word, b"unsigned") {
        Kind::Unsigned
    } else if spells(word, b"void") {
        Kind::Void
    } else if spells(word, b"struct") {
        Kind::Struct
    } else {
        other
    }
}

fn reserved_word(other: Kind, word: &[u8]) -> Kind
    ensures { result ≡ words.entry_of words.reserved_words other word.now }
{
    if spells(word, b"malloc") {
        Kind::Reserved
    } else if spells(word, b"free") {
        Kind::Reserved
    } else if spells(word, b"makelock") {
        Kind::Reserved
    } else if spells(word, b"freelock") {
        Kind::Reserved
    } else if spells(word, b"acquire") {
        Kind::Reserved
    } else if spells(word, b"release") {
        Kind::Reserved
    } else if spells(word, b"spawn") {
        Kind::Reserved
    } else {
        other
    }
}

fn arity_of(op: Op) -> Kind
    ensures { result ≡ words.arity_of op }
{
    match op {
        Op::Undef | Op::Nil => Kind::Constant,
        Op::Len | Op::Sum | Op::Num | Op::Unum | Op::Vi | Op::Rev => Kind::OneArgument,
        Op::Upd | Op::Slice => Kind::ThreeArguments,
        _ => Kind::TwoArguments,
    }
}

/// A word of sorts, terms, facts, items and assertions, or another.
fn assertion_word(other: Kind, word: &[u8]) -> Kind
    ensures { result ≡ words.assertion_word other word.now }
{
    let other = match operation_of(word) {
        Some(op) => arity_of(op),
        None => other,
    };
    sort_word(assertion_entry(other, word), word)
}

fn word_kind(language: Language, own: &[u8], word: &[u8]) -> Kind
    ensures { result ≡ words.word_kind language own.now word.now }
{
    let name = name_kind(own, word);
    match language {
        Language::Abstract => sort_word(name, word),
        Language::Pred => assertion_word(case_word(name, word), word),
        Language::Spec => {
            let other = specification_word(reserved_word(name, word), word);
            assertion_word(other, word)
        }
        Language::Script => assertion_word(step_word(name, word), word),
    }
}

/// Whether a name may stand in a header: it is no word of the section's grammar.
pub(crate) fn is_header_name(language: Language, name: &[u8]) -> bool
    ensures { result ≡ words.is_header_name language name.now }
{
    match word_kind(language, name, name) {
        Kind::Own => true,
        _ => false,
    }
}

fn sign(other: Kind, spelling: &[u8]) -> Kind
    ensures { result ≡ words.entry_of words.signs other spelling.now }
{
    if spells(spelling, b"(") {
        Kind::LeftParen
    } else if spells(spelling, b")") {
        Kind::RightParen
    } else if spells(spelling, b"[") {
        Kind::LeftBracket
    } else if spells(spelling, b"]") {
        Kind::RightBracket
    } else if spells(spelling, b";") {
        Kind::Semicolon
    } else if spells(spelling, b":") {
        Kind::Colon
    } else if spells(spelling, b",") {
        Kind::Comma
    } else {
        other
    }
}

fn operator(other: Kind, spelling: &[u8]) -> Kind
    ensures { result ≡ words.entry_of words.operators other spelling.now }
{
    if spells(spelling, b"=") {
        Kind::Equal
    } else if spells(spelling, b"!=") {
        Kind::NotEqual
    } else if spells(spelling, b"<=") {
        Kind::LessEqual
    } else if spells(spelling, b"<") {
        Kind::Less
    } else if spells(spelling, b"+") {
        Kind::Plus
    } else if spells(spelling, b"-") {
        Kind::Minus
    } else if spells(spelling, b"*") {
        Kind::Star
    } else {
        other
    }
}

fn brace(other: Kind, spelling: &[u8]) -> Kind
    ensures { result ≡ words.entry_of words.braces other spelling.now }
{
    if spells(spelling, b"{") {
        Kind::LeftBrace
    } else if spells(spelling, b"}") {
        Kind::RightBrace
    } else {
        other
    }
}

fn brace_kind(language: Language, sign: &[u8]) -> Kind
    ensures { result ≡ words.brace_kind language sign.now }
{
    match language {
        Language::Script => brace(Kind::Other, sign),
        Language::Abstract | Language::Pred | Language::Spec => Kind::Other,
    }
}

fn sign_kind(language: Language, spelling: &[u8]) -> Kind
    ensures { result ≡ words.sign_kind language spelling.now }
{
    let other = operator(brace_kind(language, spelling), spelling);
    sign(other, spelling)
}

fn number_kind(value: u128) -> Kind
    ensures { result ≡ words.number_kind (Some value) }
{
    if value <= 4294967295 {
        Kind::Index
    } else {
        Kind::Number
    }
}

/// What a number's token is.
fn number<'a>(token: vd_tokens::Token<'a>) -> Token<'a>
    ensures { lexeme_of result ≡ words.number_lexeme (words.number_in token.entry.spelling.now) (text.lexeme_of token.entry) }
{
    match number_of(token.spelling, 170141183460469231731687303715884105727) {
        Some(value) => Token {
            kind: number_kind(value),
            place: token.place,
            spelling: token.spelling,
            value,
            op: Op::Add,
        },
        None => Token {
            kind: Kind::Other,
            place: token.place,
            spelling: token.spelling,
            value: 0,
            op: Op::Add,
        },
    }
}

fn named<'a>(kind: Kind, token: vd_tokens::Token<'a>) -> Token<'a>
    ensures { lexeme_of result ≡ words.named_lexeme kind (text.lexeme_of token.entry) }
{
    Token {
        kind,
        place: token.place,
        spelling: token.spelling,
        value: 0,
        op: operation_of(token.spelling).unwrap_or(Op::Add),
    }
}

/// What a token is in a section whose header has this name.
pub(crate) fn token_in<'a>(language: Language, own: &[u8], token: vd_tokens::Token<'a>) -> Token<'a>
    ensures { lexeme_of result ≡ words.lexeme_in language own.now (text.lexeme_of token.entry) }
{
    match token.kind {
        TokenKind::Word => named(word_kind(language, own, token.spelling), token),
        TokenKind::Number => number(token),
        TokenKind::Sign => named(sign_kind(language, token.spelling), token),
    }
}
