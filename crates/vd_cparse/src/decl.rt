//! Sections of structs and globals.

ghost use Rattle.std.specs.Prelude.{◌≡◌, ◌≢◌, true, Err, List, ℕ, Bool, Result};
ghost use Rattle.vd_grammar.specs.declared.fault.ParseFault.{ParseFault};
ghost use Rattle.vd_grammar.specs.declared.fault.ParseFault.TheVariants.{Memory};
ghost use Rattle.vd_cgrammar.specs.declared.parts.Decl.{Decl};
ghost use Rattle.vd_cgrammar.specs.Fits.{all_fit};
ghost use Rattle.vd_cgrammar.specs.Grammar.{Sort};
ghost use Rattle.vd_cgrammar.specs.Lexeme.{Lexeme, lexemes_of};
ghost use Rattle.vd_cgrammar.specs.Tokens.{IsCut, Answers};
ghost use Rattle.vd_cparse.specs.Section.{AnswersStruct, AnswersGlobal, AnswersDecl};

use crate::header::split_word;
use crate::section::front_of;
use std::alloc::Global;
use vd_base::Text;
use vd_cgrammar::{Decl, Token, Tokens, spells};
use vd_ctext::{global_section, struct_section};
use vd_grammar::{Cause, ParseFault, Stop};
use vd_tokens::Alphabet;

fn read_struct(
    alloc: Global,
    tokens: &[Token<'_>],
    cause: Cause,
    at: u32,
) -> Result<Decl, ParseFault>
    requires { all_fit (lexemes_of tokens.now) ≡ true }
    ensures { (ts : List Lexeme) (is_text : Bool) (end : ℕ) → IsCut ts is_text end (lexemes_of tokens.now) cause at → Answers Sort.StructSection ts is_text end result }
{
    let mut tokens = Tokens::new(tokens);
    match struct_section(alloc, &mut tokens) {
        Ok(found) => {
            if tokens.is_whole(cause) {
                Ok(found)
            } else {
                Err(tokens.fault(cause, at))
            }
        }
        Err(Stop::Refused) => Err(tokens.fault(cause, at)),
        Err(Stop::Memory) => Err(ParseFault::Memory),
    }
}

fn read_global(
    alloc: Global,
    tokens: &[Token<'_>],
    cause: Cause,
    at: u32,
) -> Result<Decl, ParseFault>
    requires { all_fit (lexemes_of tokens.now) ≡ true }
    ensures { (ts : List Lexeme) (is_text : Bool) (end : ℕ) → IsCut ts is_text end (lexemes_of tokens.now) cause at → Answers Sort.GlobalSection ts is_text end result }
{
    let mut tokens = Tokens::new(tokens);
    match global_section(alloc, &mut tokens) {
        Ok(found) => {
            if tokens.is_whole(cause) {
                Ok(found)
            } else {
                Err(tokens.fault(cause, at))
            }
        }
        Err(Stop::Refused) => Err(tokens.fault(cause, at)),
        Err(Stop::Memory) => Err(ParseFault::Memory),
    }
}

fn parse_struct(alloc: Global, text: &Text) -> Result<Decl, ParseFault>
    ensures { AnswersStruct text.now result }
{
    match front_of(alloc, Alphabet::Declaration, b"struct", text.as_bytes()) {
        Ok(front) => read_struct(alloc, front.tokens.as_slice(), front.cause, front.at),
        Err(fault) => Err(fault),
    }
}

fn parse_global(alloc: Global, text: &Text) -> Result<Decl, ParseFault>
    ensures { AnswersGlobal text.now result }
{
    match front_of(alloc, Alphabet::Declaration, b"global", text.as_bytes()) {
        Ok(front) => read_global(alloc, front.tokens.as_slice(), front.cause, front.at),
        Err(fault) => Err(fault),
    }
}

/// What a `struct` or a `global` section declares, given by its text from the header line to the line `end`, both
/// included. The faults are those of `parse_section`; a text that begins with neither word is at fault at its first token.
pub fn parse_decl(alloc: Global, text: &Text) -> Result<Decl, ParseFault>
    ensures answers { AnswersDecl text.now result }
    ensures exact { (other : Result Decl ParseFault) → AnswersDecl text.now other → result ≢ Err Memory → other ≢ Err Memory → result ≡ other }
{
    let (word, _) = split_word(text.as_bytes());
    if spells(word, b"global") {
        parse_global(alloc, text)
    } else {
        parse_struct(alloc, text)
    }
}
