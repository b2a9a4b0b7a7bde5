//! Tokens, and a cursor over them.

ghost use Rattle.std.specs.Prelude.{◌≡◌, ◌<◌, ◌≤◌, ◌^◌, true, length, OnOk, IfOk};
ghost use Rattle.vd_base.specs.Name.{is_name};
ghost use Rattle.vd_grammar.specs.Reads.{ReadsBy};
ghost use Rattle.vd_logic_grammar.specs.Kinds as kinds;
ghost use Rattle.vd_logic_grammar.specs.Lexeme.{lexeme_of, lexemes_of, kind_of};
ghost use Rattle.vd_logic_grammar.specs.Fits.{fits, all_fit};
ghost use Rattle.vd_logic_grammar.specs.Read.{expect};
ghost use Rattle.vd_logic_grammar.specs.Tokens.{is_whole, fault_at};

use crate::class::has;
use crate::kind::{Class, Kind};
use std::alloc::{AllocError, Global};
use std::marker::Model;
use vd_base::{Name, NameFault};
use vd_grammar::{Cause, ParseFault, Stop};
use vd_logic::Op;

/// A token of a section, with the place of its first byte. A number has its value, and the word of an operation the
/// operation.
#[derive(Clone, Copy)]
pub struct Token<'a> {
    pub kind: Kind,
    pub place: u32,
    pub spelling: &'a [u8],
    pub value: u128,
    pub op: Op,
}

/// The tokens that are left.
#[derive(Drop)]
pub struct Tokens<'a> {
    left: &'a [Token<'a>],
}

impl<'a> Model for Tokens<'a> {
    ghost use Rattle.std.specs.Prelude.{List, ◌≡◌, true};
    ghost use Rattle.vd_logic_grammar.specs.Lexeme.{Lexeme, lexemes_of};
    ghost use Rattle.vd_logic_grammar.specs.Fits.{all_fit};

    ghost Value = { List Lexeme };

    ghost view = { λ t. lexemes_of t.left.now };

    ghost invariant = { λ t. all_fit (lexemes_of t.left.now) ≡ true };
}

impl<'a> Tokens<'a> {
    /// A cursor at the first of these tokens.
    pub fn new(left: &'a [Token<'a>]) -> Tokens<'a>
        requires { all_fit (lexemes_of left.now) ≡ true }
        ensures { result ≡ lexemes_of left.now }
    {
        Tokens { left }
    }

    fn peek(&self) -> Kind
        ensures { result ≡ kind_of self.now }
    {
        match self.left {
            [first, ..] => first.kind,
            [] => Kind::End,
        }
    }

    /// Whether a token of a class comes next.
    pub fn sees(&self, class: Class) -> bool
        ensures { result ≡ kinds.has class (kind_of self.now) }
    {
        has(class, self.peek())
    }

    /// The fault at the next token, or where the tokens end at a place for a cause.
    pub fn fault(&self, cause: Cause, at: u32) -> ParseFault
        ensures { result ≡ fault_at self.now cause at }
    {
        match (self.left, cause) {
            ([first, ..], _) => ParseFault::Bad(first.place),
            ([], Cause::Deep) => ParseFault::Deep(at),
            ([], _) => ParseFault::Bad(at),
        }
    }

    /// Whether no token is left, and the text ends.
    pub fn is_whole(&self, cause: Cause) -> bool
        ensures { result ≡ is_whole self.now cause }
    {
        match (self.left, cause) {
            ([], Cause::Text) => true,
            _ => false,
        }
    }

    /// Takes a token of a class.
    pub fn expect(&mut self, class: Class) -> Result<Token<'a>, Stop>
        ensures takes { ReadsBy lexeme_of (expect class self.old) result self.new }
        ensures fits { IfOk result (λ t. fits (lexeme_of t) ≡ true) }
        ensures has { IfOk result (λ t. kinds.has class t.kind ≡ true) }
        ensures shorter { OnOk result (length self.new < length self.old) }
        ensures no_longer { length self.new ≤ length self.old }
    {
        match self.left {
            [first, rest @ ..] if has(class, first.kind) => {
                self.left = rest;
                Ok(*first)
            }
            _ => Err(Stop::Refused),
        }
    }

    /// Takes a word or a sign.
    pub fn take(&mut self, kind: Kind) -> Result<Token<'a>, Stop>
        ensures takes { ReadsBy lexeme_of (expect (Class.One kind) self.old) result self.new }
        ensures shorter { OnOk result (length self.new < length self.old) }
        ensures no_longer { length self.new ≤ length self.old }
    {
        self.expect(Class::One(kind))
    }

    /// Takes a name.
    pub fn name(&mut self) -> Result<Token<'a>, Stop>
        ensures takes { ReadsBy lexeme_of (expect Class.AnyName self.old) result self.new }
        ensures named { IfOk result (λ t. is_name t.spelling.now ≡ true) }
        ensures shorter { OnOk result (length self.new < length self.old) }
        ensures no_longer { length self.new ≤ length self.old }
    {
        self.expect(Class::AnyName)
    }

    /// Takes a name that is not reserved.
    pub fn plain_name(&mut self) -> Result<Token<'a>, Stop>
        ensures takes { ReadsBy lexeme_of (expect Class.PlainName self.old) result self.new }
        ensures named { IfOk result (λ t. is_name t.spelling.now ≡ true) }
        ensures shorter { OnOk result (length self.new < length self.old) }
        ensures no_longer { length self.new ≤ length self.old }
    {
        self.expect(Class::PlainName)
    }

    /// Takes the name of the header.
    pub fn own_name(&mut self) -> Result<Token<'a>, Stop>
        ensures takes { ReadsBy lexeme_of (expect (Class.One Kind.Own) self.old) result self.new }
        ensures named { IfOk result (λ t. is_name t.spelling.now ≡ true) }
        ensures shorter { OnOk result (length self.new < length self.old) }
        ensures no_longer { length self.new ≤ length self.old }
    {
        self.expect(Class::One(Kind::Own))
    }

    /// Takes a number of a term.
    pub fn number(&mut self) -> Result<Token<'a>, Stop>
        ensures takes { ReadsBy lexeme_of (expect Class.AnyNumber self.old) result self.new }
        ensures small { IfOk result (λ t. t.value < 2 ^ 127) }
        ensures shorter { OnOk result (length self.new < length self.old) }
        ensures no_longer { length self.new ≤ length self.old }
    {
        self.expect(Class::AnyNumber)
    }

    /// Takes the number of an item, a fact, a row, a case, or a count.
    pub fn index(&mut self) -> Result<Token<'a>, Stop>
        ensures takes { ReadsBy lexeme_of (expect (Class.One Kind.Index) self.old) result self.new }
        ensures small { IfOk result (λ t. t.value < 2 ^ 32) }
        ensures shorter { OnOk result (length self.new < length self.old) }
        ensures no_longer { length self.new ≤ length self.old }
    {
        self.expect(Class::One(Kind::Index))
    }
}

/// The name that a token spells.
pub fn name_of(alloc: Global, token: Token<'_>) -> Result<Name, AllocError>
    requires { is_name token.spelling.now ≡ true }
    ensures { IfOk result (λ name. name ≡ token.entry.spelling.now) }
{
    match Name::new(alloc, token.spelling) {
        Ok(name) => Ok(name),
        Err(NameFault::Memory(error)) => Err(error),
        Err(NameFault::NotName) => unreachable!(),
    }
}
