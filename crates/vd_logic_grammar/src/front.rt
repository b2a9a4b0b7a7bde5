//! What a reader of sections is given.

ghost use Rattle.std.specs.Prelude.{◌≡◌, ◌^◌, ◌-◌, true, IfOk};
ghost use Rattle.vd_section.specs.HeaderLine.{named_header, plain_header};
ghost use Rattle.vd_section.specs.HeaderView.{header_view, FitsIn};
ghost use Rattle.vd_base.specs.Name.{is_name};
ghost use Rattle.vd_logic_grammar.specs.Lexeme.{lexemes_of};
ghost use Rattle.vd_logic_grammar.specs.Fits.{all_fit};
ghost use Rattle.vd_logic_grammar.specs.Fronts.{HasFront};
ghost use Rattle.vd_logic_grammar.specs.Words as words;

use crate::language::Language;
use crate::lex::content_of;
use crate::token::Token;
use crate::words::is_header_name;
use std::alloc::Global;
use vd_grammar::{Cause, ParseFault};
use vd_section::{Header, first_place, name_in, named_header, plain_header};
use vd_tokens::Alphabet;

/// The header's name; the tokens up to the first that is nested too deeply; why and where they end.
#[derive(Drop)]
pub struct Front<'a> {
    pub own: &'a [u8],
    pub tokens: Vec<Token<'a>>,
    pub cause: Cause,
    pub at: u32,
}

fn behind<'a>(
    alloc: Global,
    language: Language,
    header: Header<'a>,
) -> Result<Front<'a>, ParseFault>
    requires { FitsIn (2 ^ 32 - 1) (header_view header) }
    ensures front { HasFront language (header_view header.entry) result }
    ensures fit { IfOk result (λ it. all_fit (lexemes_of it.tokens.items) ≡ true) }
{
    match header {
        Header::Found(own, place, body) => match content_of(alloc, language, own, body, place) {
            Ok(cut) => Ok(Front {
                own,
                tokens: cut.tokens,
                cause: cut.cause,
                at: cut.at,
            }),
            Err(_) => Err(ParseFault::Memory),
        },
        Header::Missing(place, rest) => match first_place(alloc, Alphabet::Logic, rest, place) {
            Ok(at) => Err(ParseFault::Bad(at)),
            Err(_) => Err(ParseFault::Memory),
        },
    }
}

/// The tokens of a section of a kind with a name, up to the first that is nested too deeply. A text of 4 GiB or more is
/// beyond the reader's memory.
pub fn named_front<'a>(
    alloc: Global,
    language: Language,
    kind: &[u8],
    text: &'a [u8],
) -> Result<Front<'a>, ParseFault>
    ensures front { HasFront language (named_header (words.is_header_name language) kind.now text.now) result }
    ensures fit { IfOk result (λ it. all_fit (lexemes_of it.tokens.items) ≡ true) }
    ensures named { IfOk result (λ it. is_name it.own.now ≡ true) }
{
    if text.len() > 4294967295 {
        return Err(ParseFault::Memory);
    }
    let may_stand = is_header_name(language, name_in(text));
    behind(alloc, language, named_header(kind, text, may_stand))
}

/// The tokens of a section of a kind without a name.
pub fn plain_front<'a>(
    alloc: Global,
    language: Language,
    kind: &[u8],
    text: &'a [u8],
) -> Result<Front<'a>, ParseFault>
    ensures front { HasFront language (plain_header kind.now text.now) result }
    ensures fit { IfOk result (λ it. all_fit (lexemes_of it.tokens.items) ≡ true) }
{
    if text.len() > 4294967295 {
        return Err(ParseFault::Memory);
    }
    behind(alloc, language, plain_header(kind, text))
}
