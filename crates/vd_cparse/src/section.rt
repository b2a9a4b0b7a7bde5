//! Sections, from their header lines to their `end` lines.

ghost use Rattle.std.specs.Prelude.{◌≡◌, ◌≢◌, ◌<◌, ◌+◌, ◌^◌, true, Err, List, ℕ, length, Bool, Result, IfOk};
ghost use Rattle.vd_grammar.specs.declared.fault.ParseFault.{ParseFault};
ghost use Rattle.vd_grammar.specs.declared.fault.ParseFault.TheVariants.{Memory};
ghost use Rattle.vd_clight.specs.declared.syntax.FnText.{FnText};
ghost use Rattle.vd_cgrammar.specs.Fits.{all_fit};
ghost use Rattle.vd_cparse.specs.Fronts.{FirstPlace, IsContent, HasFront};
ghost use Rattle.vd_cgrammar.specs.Grammar.{Sort};
ghost use Rattle.vd_cgrammar.specs.Lexeme.{Lexeme, lexemes_of};
ghost use Rattle.vd_cgrammar.specs.Tokens.{IsCut, Answers};
ghost use Rattle.vd_cparse.specs.Section.{AnswersFn};

use crate::header::{Header, header_of};
use crate::lex::{Front, cut, section_tokens};
use std::alloc::{AllocError, Global};
use vd_base::Text;
use vd_cgrammar::{Token, Tokens};
use vd_clight::FnText;
use vd_ctext::fn_section;
use vd_grammar::{Cause, ParseFault, Stop};
use vd_tokens::{Alphabet, End, tokenize};

/// The place of the first token of bytes, or of what ends them where there is none.
fn first_place(
    alloc: Global,
    alphabet: Alphabet,
    bytes: &[u8],
    place: u32,
) -> Result<u32, ParseFault>
    requires { place + length bytes.now < 2 ^ 32 }
    ensures { FirstPlace alphabet place bytes.now result }
{
    match tokenize(alloc, alphabet, bytes, place) {
        Ok(found) => match found.tokens.get(0) {
            Some(token) => Ok(token.place),
            None => match found.end {
                End::Text(at) => Ok(at),
                End::Unknown(at) => Ok(at),
            },
        },
        Err(_) => Err(ParseFault::Memory),
    }
}

fn content_front<'a>(
    alloc: Global,
    alphabet: Alphabet,
    own: &[u8],
    body: &'a [u8],
    place: u32,
) -> Result<Front<'a>, AllocError>
    requires { place + length body.now < 2 ^ 32 }
    ensures front { IfOk result (λ it. IsContent alphabet own.now place body.now (lexemes_of it.tokens.items) it.cause it.at) }
    ensures fit { IfOk result (λ it. all_fit (lexemes_of it.tokens.items) ≡ true) }
{
    let found = section_tokens(alloc, alphabet, own, body, place)?;
    cut(alloc, found.tokens.as_slice(), found.end)
}

/// The tokens of a section of a kind, up to the first that is nested too deeply. A text of 4 GiB or more is beyond the
/// reader's memory.
pub(crate) fn front_of<'a>(
    alloc: Global,
    alphabet: Alphabet,
    kind: &[u8],
    text: &'a [u8],
) -> Result<Front<'a>, ParseFault>
    ensures front { HasFront alphabet kind.now text.now result }
    ensures fit { IfOk result (λ it. all_fit (lexemes_of it.tokens.items) ≡ true) }
{
    if text.len() > 4294967295 {
        return Err(ParseFault::Memory);
    }
    match header_of(kind, text) {
        Header::Found(own, place, body) => match content_front(alloc, alphabet, own, body, place) {
            Ok(front) => Ok(front),
            Err(_) => Err(ParseFault::Memory),
        },
        Header::Missing(place, rest) => match first_place(alloc, alphabet, rest, place) {
            Ok(at) => Err(ParseFault::Bad(at)),
            Err(fault) => Err(fault),
        },
    }
}

fn read_fn(alloc: Global, tokens: &[Token<'_>], cause: Cause, at: u32) -> Result<FnText, ParseFault>
    requires { all_fit (lexemes_of tokens.now) ≡ true }
    ensures { (ts : List Lexeme) (is_text : Bool) (end : ℕ) → IsCut ts is_text end (lexemes_of tokens.now) cause at → Answers Sort.FnSection ts is_text end result }
{
    let mut tokens = Tokens::new(tokens);
    match fn_section(alloc, &mut tokens) {
        Ok(found) => {
            if tokens.is_whole(cause) {
                Ok(found)
            } else {
                Err(tokens.fault(cause, at))
            }
        }
        Err(Stop::Refused) => Err(tokens.fault(cause, at)),
        Err(Stop::Memory) => Err(ParseFault::Memory),
    }
}

/// The function of an `fn` section, given by its text from the header line to the line `end`, both included; places are
/// byte offsets in this text. `Bad` has the place of the first token, or of the first byte that begins none, behind the
/// longest front that begins a section, or the text's length where none comes. `Deep` has the place of the first token at
/// which the brackets and braces that are open and the operators since the last `;`, `{` or `}` are 256 or more. Where
/// both hold, the smaller place counts, and `Deep` at one place.
///
/// The grammar is that of CompCert's Clight, read by its next token.
pub fn parse_section(alloc: Global, text: &Text) -> Result<FnText, ParseFault>
    ensures answers { AnswersFn text.now result }
    ensures exact { (other : Result FnText ParseFault) → AnswersFn text.now other → result ≢ Err Memory → other ≢ Err Memory → result ≡ other }
{
    match front_of(alloc, Alphabet::C, b"fn", text.as_bytes()) {
        Ok(front) => read_fn(alloc, front.tokens.as_slice(), front.cause, front.at),
        Err(fault) => Err(fault),
    }
}
