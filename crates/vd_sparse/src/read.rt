//! What the tokens of a section are.

ghost use Rattle.std.specs.Prelude.{◌≡◌, true, List, ℕ, Bool};
ghost use Rattle.vd_logic_grammar.specs.Fits.{all_fit};
ghost use Rattle.vd_logic_grammar.specs.Grammar.{Phrase};
ghost use Rattle.vd_logic_grammar.specs.Lexeme.{Lexeme, lexemes_of};
ghost use Rattle.vd_logic_grammar.specs.Tokens.{IsCut, Answers};

use std::alloc::Global;
use vd_assertion_text::{abstract_section, pred_section, spec_section};
use vd_base::List;
use vd_grammar::{Cause, ParseFault, Stop};
use vd_logic::{Assertion, Item, Sort, Spec, Step};
use vd_logic_grammar::{Token, Tokens};
use vd_script_text::{init_section, script_section};

pub(crate) fn read_abstract(
    alloc: Global,
    tokens: &[Token<'_>],
    cause: Cause,
    at: u32,
) -> Result<(List<Sort>, bool), ParseFault>
    requires { all_fit (lexemes_of tokens.now) ≡ true }
    ensures { (ts : List Lexeme) (is_text : Bool) (end : ℕ) → IsCut ts is_text end (lexemes_of tokens.now) cause at → Answers Phrase.AbstractSection ts is_text end result }
{
    let mut tokens = Tokens::new(tokens);
    match abstract_section(alloc, &mut tokens) {
        Ok(found) => {
            if tokens.is_whole(cause) {
                Ok(found)
            } else {
                Err(tokens.fault(cause, at))
            }
        }
        Err(Stop::Refused) => Err(tokens.fault(cause, at)),
        Err(Stop::Memory) => Err(ParseFault::Memory),
    }
}

pub(crate) fn read_pred(
    alloc: Global,
    tokens: &[Token<'_>],
    cause: Cause,
    at: u32,
) -> Result<(List<Sort>, List<Assertion>, bool), ParseFault>
    requires { all_fit (lexemes_of tokens.now) ≡ true }
    ensures { (ts : List Lexeme) (is_text : Bool) (end : ℕ) → IsCut ts is_text end (lexemes_of tokens.now) cause at → Answers Phrase.PredSection ts is_text end result }
{
    let mut tokens = Tokens::new(tokens);
    match pred_section(alloc, &mut tokens) {
        Ok(found) => {
            if tokens.is_whole(cause) {
                Ok(found)
            } else {
                Err(tokens.fault(cause, at))
            }
        }
        Err(Stop::Refused) => Err(tokens.fault(cause, at)),
        Err(Stop::Memory) => Err(ParseFault::Memory),
    }
}

pub(crate) fn read_spec(
    alloc: Global,
    tokens: &[Token<'_>],
    cause: Cause,
    at: u32,
) -> Result<(Spec, bool), ParseFault>
    requires { all_fit (lexemes_of tokens.now) ≡ true }
    ensures { (ts : List Lexeme) (is_text : Bool) (end : ℕ) → IsCut ts is_text end (lexemes_of tokens.now) cause at → Answers Phrase.SpecSection ts is_text end result }
{
    let mut tokens = Tokens::new(tokens);
    match spec_section(alloc, &mut tokens) {
        Ok(found) => {
            if tokens.is_whole(cause) {
                Ok(found)
            } else {
                Err(tokens.fault(cause, at))
            }
        }
        Err(Stop::Refused) => Err(tokens.fault(cause, at)),
        Err(Stop::Memory) => Err(ParseFault::Memory),
    }
}

pub(crate) fn read_script(
    alloc: Global,
    tokens: &[Token<'_>],
    cause: Cause,
    at: u32,
) -> Result<List<Step>, ParseFault>
    requires { all_fit (lexemes_of tokens.now) ≡ true }
    ensures { (ts : List Lexeme) (is_text : Bool) (end : ℕ) → IsCut ts is_text end (lexemes_of tokens.now) cause at → Answers Phrase.ScriptSection ts is_text end result }
{
    let mut tokens = Tokens::new(tokens);
    match script_section(alloc, &mut tokens) {
        Ok(found) => {
            if tokens.is_whole(cause) {
                Ok(found)
            } else {
                Err(tokens.fault(cause, at))
            }
        }
        Err(Stop::Refused) => Err(tokens.fault(cause, at)),
        Err(Stop::Memory) => Err(ParseFault::Memory),
    }
}

pub(crate) fn read_init(
    alloc: Global,
    tokens: &[Token<'_>],
    cause: Cause,
    at: u32,
) -> Result<(List<Item>, List<Step>), ParseFault>
    requires { all_fit (lexemes_of tokens.now) ≡ true }
    ensures { (ts : List Lexeme) (is_text : Bool) (end : ℕ) → IsCut ts is_text end (lexemes_of tokens.now) cause at → Answers Phrase.InitSection ts is_text end result }
{
    let mut tokens = Tokens::new(tokens);
    match init_section(alloc, &mut tokens) {
        Ok(found) => {
            if tokens.is_whole(cause) {
                Ok(found)
            } else {
                Err(tokens.fault(cause, at))
            }
        }
        Err(Stop::Refused) => Err(tokens.fault(cause, at)),
        Err(Stop::Memory) => Err(ParseFault::Memory),
    }
}
