//! The tokens of a section, up to the first that is nested too deeply.

ghost use Rattle.std.specs.Prelude.{◌≡◌, ◌≤◌, ◌<◌, ◌+◌, ◌++◌, ◌^◌, true, length, IfOk};
ghost use Rattle.vd_tokens.specs.Lexeme as plain;
ghost use Rattle.vd_section.specs.Place.{is_text, place_of_end};
ghost use Rattle.vd_logic_grammar.specs.Lexeme.{lexeme_of, lexemes_of};
ghost use Rattle.vd_logic_grammar.specs.Fits.{all_fit};
ghost use Rattle.vd_logic_grammar.specs.Words.{lexemes_in, end_line};
ghost use Rattle.vd_logic_grammar.specs.Tokens.{IsCut};
ghost use Rattle.vd_logic_grammar.specs.Content.{LexesIn, HasTokensIn, ContinuedIn, IsContent};

use crate::depth::{Depth, LIMIT};
use crate::kind::Kind;
use crate::language::Language;
use crate::token::Token;
use crate::words::token_in;
use std::alloc::{AllocError, Global};
use vd_grammar::Cause;
use vd_logic::Op;
use vd_section::end_of;
use vd_tokens::{Alphabet, End, tokenize};

/// The tokens of bytes, and why they end.
#[derive(Drop)]
pub struct Lexed<'a> {
    pub tokens: Vec<Token<'a>>,
    pub end: End,
}

/// Tokens, and why and where they end.
#[derive(Drop)]
pub struct Kept<'a> {
    pub tokens: Vec<Token<'a>>,
    pub cause: Cause,
    pub at: u32,
}

/// What tokens are in a section whose header has this name, behind others.
fn with_tokens<'a>(
    language: Language,
    own: &[u8],
    tokens: &[vd_tokens::Token<'a>],
    front: Vec<Token<'a>>,
) -> Result<Vec<Token<'a>>, AllocError>
    ensures { IfOk result (λ v. lexemes_of v.items ≡ lexemes_of front.entry.items ++ lexemes_in language own.now (plain.lexemes_of tokens.now)) }
{
    let mut found = front;
    'tokens: for token in tokens {
        found.push(token_in(language, own, *token))?;
    }
    Ok(found)
}

/// The tokens of bytes that begin at a place.
fn tokens_of<'a>(
    alloc: Global,
    language: Language,
    own: &[u8],
    bytes: &'a [u8],
    place: u32,
) -> Result<Lexed<'a>, AllocError>
    requires { place + length bytes.now < 2 ^ 32 }
    ensures { IfOk result (λ it. LexesIn language own.now place bytes.now (lexemes_of it.tokens.items) it.end) }
{
    let found = tokenize(alloc, Alphabet::Logic, bytes, place)?;
    let tokens = with_tokens(language, own, found.tokens.as_slice(), Vec::new(alloc))?;
    Ok(Lexed {
        tokens,
        end: found.end,
    })
}

fn end_token<'a>(place: u32) -> Token<'a>
    ensures { lexeme_of result ≡ end_line place }
{
    Token {
        kind: Kind::EndLine,
        place,
        spelling: b"end",
        value: 0,
        op: Op::Add,
    }
}

/// Tokens, the line `end` at a place, and the tokens of what stands behind it.
fn with_end<'a>(
    alloc: Global,
    language: Language,
    own: &[u8],
    front: Vec<Token<'a>>,
    place: u32,
    behind: &'a [u8],
) -> Result<Lexed<'a>, AllocError>
    requires { place + 4 + length behind.now < 2 ^ 32 }
    ensures { IfOk result (λ it. ContinuedIn language own.now place behind.now (lexemes_of front.entry.items) (lexemes_of it.tokens.items) it.end) }
{
    let found = tokenize(alloc, Alphabet::Logic, behind, place + 4)?;
    let mut tokens = front;
    tokens.push(end_token(place))?;
    let tokens = with_tokens(language, own, found.tokens.as_slice(), tokens)?;
    Ok(Lexed {
        tokens,
        end: found.end,
    })
}

/// The tokens of what stands behind a header line.
fn section_tokens<'a>(
    alloc: Global,
    language: Language,
    own: &[u8],
    body: &'a [u8],
    place: u32,
) -> Result<Lexed<'a>, AllocError>
    requires { place + length body.now < 2 ^ 32 }
    ensures tokens { IfOk result (λ it. HasTokensIn language own.now place body.now (lexemes_of it.tokens.items) it.end) }
    ensures fit { IfOk result (λ it. all_fit (lexemes_of it.tokens.items) ≡ true) }
{
    match end_of(body) {
        None => tokens_of(alloc, language, own, body, place),
        Some(n) => {
            let (content, _) = body.split_at(n);
            let (_, behind) = body.split_at(n + 4);
            let content = tokens_of(alloc, language, own, content, place)?;
            match content.end {
                End::Unknown(_) => Ok(content),
                End::Text(_) => with_end(
                    alloc,
                    language,
                    own,
                    content.tokens,
                    place + n as u32,
                    behind,
                ),
            }
        }
    }
}

/// The tokens up to the first that is nested too deeply, or all.
fn cut<'a>(alloc: Global, tokens: &[Token<'a>], end: End) -> Result<Kept<'a>, AllocError>
    ensures { IfOk result (λ it. IsCut (lexemes_of tokens.now) (is_text end) (place_of_end end) (lexemes_of it.tokens.items) it.cause it.at) }
{
    let mut found: Vec<Token<'a>> = Vec::new(alloc);
    let mut depth = Depth::new(alloc);
    'tokens: for token in tokens {
        depth.count(token.kind)?;
        if LIMIT <= depth.total + depth.operators {
            return Ok(Kept {
                tokens: found,
                cause: Cause::Deep,
                at: token.place,
            });
        }
        found.push(*token)?;
    }
    match end {
        End::Text(at) => Ok(Kept {
            tokens: found,
            cause: Cause::Text,
            at,
        }),
        End::Unknown(at) => Ok(Kept {
            tokens: found,
            cause: Cause::Unknown,
            at,
        }),
    }
}

/// The tokens of what stands behind a header line, up to the first that is nested too deeply.
pub(crate) fn content_of<'a>(
    alloc: Global,
    language: Language,
    own: &[u8],
    body: &'a [u8],
    place: u32,
) -> Result<Kept<'a>, AllocError>
    requires { place + length body.now < 2 ^ 32 }
    ensures content { IfOk result (λ it. IsContent language own.now place body.now (lexemes_of it.tokens.items) it.cause it.at) }
    ensures fit { IfOk result (λ it. all_fit (lexemes_of it.tokens.items) ≡ true) }
{
    let found = section_tokens(alloc, language, own, body, place)?;
    cut(alloc, found.tokens.as_slice(), found.end)
}
