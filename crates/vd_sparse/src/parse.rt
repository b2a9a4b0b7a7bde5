//! Reads sections, from their header lines to their `end` lines.

ghost use Rattle.std.specs.Prelude.{◌≡◌, ◌≢◌, [], true, Err, Result, IfOk};
ghost use Rattle.vd_base.specs.Name.{is_name};
ghost use Rattle.vd_grammar.specs.declared.fault.ParseFault.{ParseFault};
ghost use Rattle.vd_grammar.specs.declared.fault.ParseFault.TheVariants.{Memory};
ghost use Rattle.vd_logic_grammar.specs.Fits.{all_fit};
ghost use Rattle.vd_logic_grammar.specs.Lexeme.{lexemes_of};
ghost use Rattle.vd_sparse.specs.declared.text.LogicText.{LogicText};
ghost use Rattle.vd_sparse.specs.Making.{Makes};
ghost use Rattle.vd_sparse.specs.Sections.{AnswersKind, AnswersLogic, made};

use crate::kind::{SectionKind, kind_of};
use crate::read::{read_abstract, read_init, read_pred, read_script, read_spec};
use crate::text::LogicText;
use std::alloc::{AllocError, Global};
use vd_base::{List, Name, NameFault, Text};
use vd_grammar::ParseFault;
use vd_logic::{Assertion, Item, PredDef, Sort, Spec, Step};
use vd_logic_grammar::{Front, Language, named_front, plain_front};
use vd_section::split_word;

fn own_name(alloc: Global, own: &[u8]) -> Result<Name, AllocError>
    requires { is_name own.now ≡ true }
    ensures { IfOk result (λ name. name ≡ own.now) }
{
    match Name::new(alloc, own) {
        Ok(name) => Ok(name),
        Err(NameFault::Memory(error)) => Err(error),
        Err(NameFault::NotName) => unreachable!(),
    }
}

fn declared(name: Name, found: (List<Sort>, bool)) -> LogicText
    ensures { result ≡ made SectionKind.Abstract name found }
{
    let (args, hides) = found;
    LogicText::Abstract(name, args, hides)
}

fn predicate(name: Name, found: (List<Sort>, List<Assertion>, bool)) -> LogicText
    ensures { result ≡ made SectionKind.Pred name found }
{
    let (args, cases, hides) = found;
    LogicText::Pred(PredDef { name, args, cases }, hides)
}

fn specification(found: (Spec, bool)) -> LogicText
    ensures { result ≡ made SectionKind.Spec [] found }
{
    let (spec, hides) = found;
    LogicText::Spec(spec, hides)
}

fn initial(found: (List<Item>, List<Step>)) -> LogicText
    ensures { result ≡ made SectionKind.Init [] found }
{
    let (items, steps) = found;
    LogicText::Init(items, steps)
}

fn made_abstract(alloc: Global, front: &Front<'_>) -> Result<LogicText, ParseFault>
    requires fit { all_fit (lexemes_of front.now.tokens.items) ≡ true }
    requires named { is_name front.now.own.now ≡ true }
    ensures { Makes SectionKind.Abstract front.now result }
{
    match own_name(alloc, front.own) {
        Ok(name) => {
            match read_abstract(alloc, front.tokens.as_slice(), front.cause, front.at) {
                Ok(found) => Ok(declared(name, found)),
                Err(fault) => Err(fault),
            }
        }
        Err(_) => Err(ParseFault::Memory),
    }
}

fn made_pred(alloc: Global, front: &Front<'_>) -> Result<LogicText, ParseFault>
    requires fit { all_fit (lexemes_of front.now.tokens.items) ≡ true }
    requires named { is_name front.now.own.now ≡ true }
    ensures { Makes SectionKind.Pred front.now result }
{
    match own_name(alloc, front.own) {
        Ok(name) => {
            match read_pred(alloc, front.tokens.as_slice(), front.cause, front.at) {
                Ok(found) => Ok(predicate(name, found)),
                Err(fault) => Err(fault),
            }
        }
        Err(_) => Err(ParseFault::Memory),
    }
}

fn made_spec(alloc: Global, front: &Front<'_>) -> Result<LogicText, ParseFault>
    requires { all_fit (lexemes_of front.now.tokens.items) ≡ true }
    ensures { Makes SectionKind.Spec front.now result }
{
    match read_spec(alloc, front.tokens.as_slice(), front.cause, front.at) {
        Ok(found) => Ok(specification(found)),
        Err(fault) => Err(fault),
    }
}

fn made_script(alloc: Global, front: &Front<'_>) -> Result<LogicText, ParseFault>
    requires fit { all_fit (lexemes_of front.now.tokens.items) ≡ true }
    requires named { is_name front.now.own.now ≡ true }
    ensures { Makes SectionKind.Script front.now result }
{
    match own_name(alloc, front.own) {
        Ok(name) => {
            match read_script(alloc, front.tokens.as_slice(), front.cause, front.at) {
                Ok(found) => Ok(LogicText::Script(name, found)),
                Err(fault) => Err(fault),
            }
        }
        Err(_) => Err(ParseFault::Memory),
    }
}

fn made_sub(alloc: Global, front: &Front<'_>) -> Result<LogicText, ParseFault>
    requires fit { all_fit (lexemes_of front.now.tokens.items) ≡ true }
    requires named { is_name front.now.own.now ≡ true }
    ensures { Makes SectionKind.Sub front.now result }
{
    match own_name(alloc, front.own) {
        Ok(name) => {
            match read_script(alloc, front.tokens.as_slice(), front.cause, front.at) {
                Ok(found) => Ok(LogicText::Sub(name, found)),
                Err(fault) => Err(fault),
            }
        }
        Err(_) => Err(ParseFault::Memory),
    }
}

fn made_init(alloc: Global, front: &Front<'_>) -> Result<LogicText, ParseFault>
    requires { all_fit (lexemes_of front.now.tokens.items) ≡ true }
    ensures { Makes SectionKind.Init front.now result }
{
    match read_init(alloc, front.tokens.as_slice(), front.cause, front.at) {
        Ok(found) => Ok(initial(found)),
        Err(fault) => Err(fault),
    }
}

#[tactic(auto, using(crate::specs::Whole::fault_answer))]
fn parse_abstract(alloc: Global, text: &Text) -> Result<LogicText, ParseFault>
    ensures { AnswersKind SectionKind.Abstract text.now result }
{
    match named_front(alloc, Language::Abstract, b"abstract", text.as_bytes()) {
        Ok(front) => made_abstract(alloc, &front),
        Err(fault) => Err(fault),
    }
}

#[tactic(auto, using(crate::specs::Whole::fault_answer))]
fn parse_pred(alloc: Global, text: &Text) -> Result<LogicText, ParseFault>
    ensures { AnswersKind SectionKind.Pred text.now result }
{
    match named_front(alloc, Language::Pred, b"pred", text.as_bytes()) {
        Ok(front) => made_pred(alloc, &front),
        Err(fault) => Err(fault),
    }
}

#[tactic(auto, using(crate::specs::Whole::fault_answer))]
fn parse_spec(alloc: Global, text: &Text) -> Result<LogicText, ParseFault>
    ensures { AnswersKind SectionKind.Spec text.now result }
{
    match named_front(alloc, Language::Spec, b"spec", text.as_bytes()) {
        Ok(front) => made_spec(alloc, &front),
        Err(fault) => Err(fault),
    }
}

#[tactic(auto, using(crate::specs::Whole::fault_answer))]
fn parse_script(alloc: Global, text: &Text) -> Result<LogicText, ParseFault>
    ensures { AnswersKind SectionKind.Script text.now result }
{
    match named_front(alloc, Language::Script, b"script", text.as_bytes()) {
        Ok(front) => made_script(alloc, &front),
        Err(fault) => Err(fault),
    }
}

#[tactic(auto, using(crate::specs::Whole::fault_answer))]
fn parse_sub(alloc: Global, text: &Text) -> Result<LogicText, ParseFault>
    ensures { AnswersKind SectionKind.Sub text.now result }
{
    match named_front(alloc, Language::Script, b"sub", text.as_bytes()) {
        Ok(front) => made_sub(alloc, &front),
        Err(fault) => Err(fault),
    }
}

#[tactic(auto, using(crate::specs::Whole::fault_answer))]
fn parse_init(alloc: Global, text: &Text) -> Result<LogicText, ParseFault>
    ensures { AnswersKind SectionKind.Init text.now result }
{
    match plain_front(alloc, Language::Script, b"init", text.as_bytes()) {
        Ok(front) => made_init(alloc, &front),
        Err(fault) => Err(fault),
    }
}

/// What an `abstract`, `pred`, `spec`, `script`, `sub` or `init` section says, given by its text from the header line to
/// the line `end`, both included; places are byte offsets in this text. `Bad` has the place of the first token, or of the
/// first byte that begins none, behind the longest front that begins a section, or the text's length where none comes.
/// `Deep` has the place of the first token at which the brackets and braces that are open, the elements of open `[ .. ]`
/// and the operators since the last `;`, `{` or `}` are 256 or more. Where both hold, the smaller place counts, and `Deep`
/// at one place.
///
/// Variables are numbered in the order of their declarations, and a name that nothing in the section declares is `Named`.
pub fn parse_logic(alloc: Global, text: &Text) -> Result<LogicText, ParseFault>
    ensures answers { AnswersLogic text.now result }
    ensures exact { (other : Result LogicText ParseFault) → AnswersLogic text.now other → result ≢ Err Memory → other ≢ Err Memory → result ≡ other }
{
    let (word, _) = split_word(text.as_bytes());
    match kind_of(word) {
        SectionKind::Abstract => parse_abstract(alloc, text),
        SectionKind::Pred => parse_pred(alloc, text),
        SectionKind::Spec => parse_spec(alloc, text),
        SectionKind::Script => parse_script(alloc, text),
        SectionKind::Sub => parse_sub(alloc, text),
        SectionKind::Init => parse_init(alloc, text),
    }
}
