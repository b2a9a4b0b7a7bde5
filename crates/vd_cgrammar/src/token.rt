//! Tokens, and a cursor over them.

ghost use Rattle.std.specs.Prelude.{◌≡◌, ◌<◌, ◌≤◌, true, length, OnOk, IfOk};
ghost use Rattle.vd_base.specs.Name.{is_name};
ghost use Rattle.vd_grammar.specs.Reads.{ReadsBy};
ghost use Rattle.vd_cgrammar.specs.Kinds as kinds;
ghost use Rattle.vd_cgrammar.specs.Lexeme.{lexeme_of, lexemes_of, kind_of};
ghost use Rattle.vd_cgrammar.specs.Fits.{fits, all_fit};
ghost use Rattle.vd_cgrammar.specs.Read.{expect};
ghost use Rattle.vd_cgrammar.specs.Tokens.{is_whole, fault_at};

use crate::kind::{Class, Kind};
use std::alloc::{AllocError, Global};
use std::marker::Model;
use vd_base::{Name, NameFault};
use vd_grammar::{Cause, ParseFault, Stop};

/// A token of a section, with the place of its first byte. A number has its value, and whether `u` stands behind it.
#[derive(Clone, Copy)]
pub struct Token<'a> {
    pub kind: Kind,
    pub place: u32,
    pub spelling: &'a [u8],
    pub value: u32,
    pub is_unsigned: bool,
}

/// The tokens that are left.
#[derive(Drop)]
pub struct Tokens<'a> {
    left: &'a [Token<'a>],
}

impl<'a> Model for Tokens<'a> {
    ghost use Rattle.std.specs.Prelude.{List, ◌≡◌, true};
    ghost use Rattle.vd_cgrammar.specs.Lexeme.{Lexeme, lexemes_of};
    ghost use Rattle.vd_cgrammar.specs.Fits.{all_fit};

    ghost Value = { List Lexeme };

    ghost view = { λ t. lexemes_of t.left.now };

    ghost invariant = { λ t. all_fit (lexemes_of t.left.now) ≡ true };
}

/// Its number in the order of the kinds.
fn kind_number(kind: Kind) -> u8
    ensures { result ≡ kinds.kind_number kind }
{
    match kind {
        Kind::End => 0,
        Kind::Name => 1,
        Kind::Own => 2,
        Kind::Number => 3,
        Kind::Length => 4,
        Kind::Int => 5,
        Kind::Unsigned => 6,
        Kind::Lock => 7,
        Kind::Void => 8,
        Kind::Struct => 9,
        Kind::If => 10,
        Kind::Else => 11,
        Kind::While => 12,
        Kind::Return => 13,
        Kind::Break => 14,
        Kind::Continue => 15,
        Kind::SizeOf => 16,
        Kind::AlignOf => 17,
        Kind::Malloc => 18,
        Kind::Spawn => 19,
        Kind::Library => 20,
        Kind::LeftParen => 21,
        Kind::RightParen => 22,
        Kind::LeftBrace => 23,
        Kind::RightBrace => 24,
        Kind::LeftBracket => 25,
        Kind::RightBracket => 26,
        Kind::Semicolon => 27,
        Kind::Comma => 28,
        Kind::Assign => 29,
        Kind::Or => 30,
        Kind::Xor => 31,
        Kind::And => 32,
        Kind::Equal => 33,
        Kind::NotEqual => 34,
        Kind::Less => 35,
        Kind::LessEqual => 36,
        Kind::Greater => 37,
        Kind::GreaterEqual => 38,
        Kind::ShiftLeft => 39,
        Kind::ShiftRight => 40,
        Kind::Plus => 41,
        Kind::Minus => 42,
        Kind::Star => 43,
        Kind::Slash => 44,
        Kind::Percent => 45,
        Kind::Not => 46,
        Kind::Tilde => 47,
        Kind::Dot => 48,
        Kind::Arrow => 49,
        Kind::EndLine => 50,
        Kind::Other => 51,
    }
}

fn same(a: Kind, b: Kind) -> bool
    ensures { result ≡ kinds.same a b }
{
    kind_number(a) == kind_number(b)
}

fn is_binary(kind: Kind) -> bool
    ensures { result ≡ kinds.has Class.Binary kind }
{
    matches!(
        kind,
        Kind::Or
            | Kind::Xor
            | Kind::And
            | Kind::Equal
            | Kind::NotEqual
            | Kind::Less
            | Kind::LessEqual
            | Kind::Greater
            | Kind::GreaterEqual
            | Kind::ShiftLeft
            | Kind::ShiftRight
            | Kind::Plus
            | Kind::Minus
            | Kind::Star
            | Kind::Slash
            | Kind::Percent
    )
}

pub(crate) fn has(class: Class, kind: Kind) -> bool
    ensures { result ≡ kinds.has class kind }
{
    match class {
        Class::One(one) => same(one, kind),
        Class::AnyName => matches!(kind, Kind::Name | Kind::Own),
        Class::AnyNumber => matches!(kind, Kind::Number | Kind::Length),
        Class::TypeWord => matches!(
            kind,
            Kind::Int | Kind::Unsigned | Kind::Lock | Kind::Void | Kind::Struct
        ),
        Class::SimpleType => matches!(kind, Kind::Int | Kind::Unsigned | Kind::Lock | Kind::Void),
        Class::FilledType => matches!(kind, Kind::Int | Kind::Unsigned | Kind::Lock),
        Class::Prefix => matches!(
            kind,
            Kind::Minus | Kind::Not | Kind::Tilde | Kind::Star | Kind::And
        ),
        Class::Measure => matches!(kind, Kind::SizeOf | Kind::AlignOf),
        Class::Binary => is_binary(kind),
        Class::Member => matches!(kind, Kind::Dot | Kind::Arrow),
        Class::Jump => matches!(kind, Kind::Break | Kind::Continue),
        Class::Reserved => matches!(kind, Kind::Malloc | Kind::Spawn | Kind::Library),
    }
}

impl<'a> Tokens<'a> {
    /// A cursor at the first of these tokens.
    pub fn new(left: &'a [Token<'a>]) -> Tokens<'a>
        requires { all_fit (lexemes_of left.now) ≡ true }
        ensures { result ≡ lexemes_of left.now }
    {
        Tokens { left }
    }

    fn peek(&self) -> Kind
        ensures { result ≡ kind_of self.now }
    {
        match self.left {
            [first, ..] => first.kind,
            [] => Kind::End,
        }
    }

    /// Whether a token of a class comes next.
    pub fn sees(&self, class: Class) -> bool
        ensures { result ≡ kinds.has class (kind_of self.now) }
    {
        has(class, self.peek())
    }

    /// The fault at the next token, or where the tokens end at a place for a cause.
    pub fn fault(&self, cause: Cause, at: u32) -> ParseFault
        ensures { result ≡ fault_at self.now cause at }
    {
        match (self.left, cause) {
            ([first, ..], _) => ParseFault::Bad(first.place),
            ([], Cause::Deep) => ParseFault::Deep(at),
            ([], _) => ParseFault::Bad(at),
        }
    }

    /// Whether no token is left, and the text ends.
    pub fn is_whole(&self, cause: Cause) -> bool
        ensures { result ≡ is_whole self.now cause }
    {
        match (self.left, cause) {
            ([], Cause::Text) => true,
            _ => false,
        }
    }

    /// Takes a token of a class.
    pub fn expect(&mut self, class: Class) -> Result<Token<'a>, Stop>
        ensures takes { ReadsBy lexeme_of (expect class self.old) result self.new }
        ensures fits { IfOk result (λ t. fits (lexeme_of t) ≡ true) }
        ensures has { IfOk result (λ t. kinds.has class t.kind ≡ true) }
        ensures shorter { OnOk result (length self.new < length self.old) }
        ensures no_longer { length self.new ≤ length self.old }
    {
        match self.left {
            [first, rest @ ..] if has(class, first.kind) => {
                self.left = rest;
                Ok(*first)
            }
            _ => Err(Stop::Refused),
        }
    }

    /// Takes a word or a sign.
    pub fn take(&mut self, kind: Kind) -> Result<Token<'a>, Stop>
        ensures takes { ReadsBy lexeme_of (expect (Class.One kind) self.old) result self.new }
        ensures fits { IfOk result (λ t. fits (lexeme_of t) ≡ true) }
        ensures has { IfOk result (λ t. kinds.has (Class.One kind) t.kind ≡ true) }
        ensures shorter { OnOk result (length self.new < length self.old) }
        ensures no_longer { length self.new ≤ length self.old }
    {
        self.expect(Class::One(kind))
    }

    /// Takes a name.
    pub fn name(&mut self) -> Result<Token<'a>, Stop>
        ensures takes { ReadsBy lexeme_of (expect Class.AnyName self.old) result self.new }
        ensures named { IfOk result (λ t. is_name t.spelling.now ≡ true) }
        ensures shorter { OnOk result (length self.new < length self.old) }
        ensures no_longer { length self.new ≤ length self.old }
    {
        self.expect(Class::AnyName)
    }

    /// Takes the name of the header.
    pub fn own_name(&mut self) -> Result<Token<'a>, Stop>
        ensures takes { ReadsBy lexeme_of (expect (Class.One Kind.Own) self.old) result self.new }
        ensures named { IfOk result (λ t. is_name t.spelling.now ≡ true) }
        ensures shorter { OnOk result (length self.new < length self.old) }
        ensures no_longer { length self.new ≤ length self.old }
    {
        self.expect(Class::One(Kind::Own))
    }

    /// Takes the word `malloc`.
    pub fn malloc(&mut self) -> Result<Token<'a>, Stop>
        ensures takes { ReadsBy lexeme_of (expect (Class.One Kind.Malloc) self.old) result self.new }
        ensures named { IfOk result (λ t. is_name t.spelling.now ≡ true) }
        ensures shorter { OnOk result (length self.new < length self.old) }
        ensures no_longer { length self.new ≤ length self.old }
    {
        self.expect(Class::One(Kind::Malloc))
    }

    /// Takes the word `spawn`.
    pub fn spawn(&mut self) -> Result<Token<'a>, Stop>
        ensures takes { ReadsBy lexeme_of (expect (Class.One Kind.Spawn) self.old) result self.new }
        ensures named { IfOk result (λ t. is_name t.spelling.now ≡ true) }
        ensures shorter { OnOk result (length self.new < length self.old) }
        ensures no_longer { length self.new ≤ length self.old }
    {
        self.expect(Class::One(Kind::Spawn))
    }

    /// Takes the name of a library function that takes arguments and gives nothing.
    pub fn library(&mut self) -> Result<Token<'a>, Stop>
        ensures takes { ReadsBy lexeme_of (expect (Class.One Kind.Library) self.old) result self.new }
        ensures named { IfOk result (λ t. is_name t.spelling.now ≡ true) }
        ensures shorter { OnOk result (length self.new < length self.old) }
        ensures no_longer { length self.new ≤ length self.old }
    {
        self.expect(Class::One(Kind::Library))
    }
}

/// The name that a token spells.
pub fn name_of(alloc: Global, token: Token<'_>) -> Result<Name, AllocError>
    requires { is_name token.spelling.now ≡ true }
    ensures { IfOk result (λ name. name ≡ token.entry.spelling.now) }
{
    match Name::new(alloc, token.spelling) {
        Ok(name) => Ok(name),
        Err(NameFault::Memory(error)) => Err(error),
        Err(NameFault::NotName) => unreachable!(),
    }
}
