//! The tokens of a section, up to the first that is nested too deeply.

ghost use Rattle.std.specs.Prelude.{◌≡◌, ◌≤◌, ◌<◌, ◌+◌, ◌++◌, ◌^◌, true, length, IfOk};
ghost use Rattle.vd_tokens.specs.Lexeme as plain;
ghost use Rattle.vd_cgrammar.specs.Lexeme.{lexeme_of, lexemes_of};
ghost use Rattle.vd_cgrammar.specs.Fits.{all_fit};
ghost use Rattle.vd_cgrammar.specs.Words.{lexemes_in};
ghost use Rattle.vd_cgrammar.specs.Tokens.{IsCut};
ghost use Rattle.vd_cparse.specs.Section.{Lexes, HasTokens, is_text, place_of_end, end_line, Continued};

use crate::header::end_of;
use std::alloc::{AllocError, Global};
use vd_cgrammar::{Depth, Kind, Token, after, token_in};
use vd_grammar::Cause;
use vd_tokens::{Alphabet, End, tokenize};

/// Tokens are nested less deeply than this.
const LIMIT: u32 = 256;

/// The tokens of bytes, and why they end.
#[derive(Drop)]
pub(crate) struct Lexed<'a> {
    pub tokens: Vec<Token<'a>>,
    pub end: End,
}

/// Tokens, and why and where they end.
#[derive(Drop)]
pub(crate) struct Front<'a> {
    pub tokens: Vec<Token<'a>>,
    pub cause: Cause,
    pub at: u32,
}

/// What tokens are in a section whose header has this name, behind others.
fn with_tokens<'a>(
    own: &[u8],
    tokens: &[vd_tokens::Token<'a>],
    front: Vec<Token<'a>>,
) -> Result<Vec<Token<'a>>, AllocError>
    ensures { IfOk result (λ v. lexemes_of v.items ≡ lexemes_of front.entry.items ++ lexemes_in own.now (plain.lexemes_of tokens.now)) }
{
    let mut found = front;
    'tokens: for token in tokens {
        found.push(token_in(own, *token))?;
    }
    Ok(found)
}

/// The tokens of bytes that begin at a place.
fn tokens_of<'a>(
    alloc: Global,
    alphabet: Alphabet,
    own: &[u8],
    bytes: &'a [u8],
    place: u32,
) -> Result<Lexed<'a>, AllocError>
    requires { place + length bytes.now < 2 ^ 32 }
    ensures { IfOk result (λ it. Lexes alphabet own.now place bytes.now (lexemes_of it.tokens.items) it.end) }
{
    let found = tokenize(alloc, alphabet, bytes, place)?;
    let tokens = with_tokens(own, found.tokens.as_slice(), Vec::new(alloc))?;
    Ok(Lexed {
        tokens,
        end: found.end,
    })
}

fn end_token<'a>(place: u32) -> Token<'a>
    ensures { lexeme_of result ≡ end_line place }
{
    Token {
        kind: Kind::EndLine,
        place,
        spelling: b"end",
        value: 0,
        is_unsigned: false,
    }
}

/// Tokens, the line `end` at a place, and the tokens of what stands behind it.
fn with_end<'a>(
    alloc: Global,
    alphabet: Alphabet,
    own: &[u8],
    front: Vec<Token<'a>>,
    place: u32,
    behind: &'a [u8],
) -> Result<Lexed<'a>, AllocError>
    requires { place + 4 + length behind.now < 2 ^ 32 }
    ensures { IfOk result (λ it. Continued alphabet own.now place behind.now (lexemes_of front.entry.items) (lexemes_of it.tokens.items) it.end) }
{
    let found = tokenize(alloc, alphabet, behind, place + 4)?;
    let mut tokens = front;
    tokens.push(end_token(place))?;
    let tokens = with_tokens(own, found.tokens.as_slice(), tokens)?;
    Ok(Lexed {
        tokens,
        end: found.end,
    })
}

/// The tokens of what stands behind a header line.
pub(crate) fn section_tokens<'a>(
    alloc: Global,
    alphabet: Alphabet,
    own: &[u8],
    body: &'a [u8],
    place: u32,
) -> Result<Lexed<'a>, AllocError>
    requires { place + length body.now < 2 ^ 32 }
    ensures tokens { IfOk result (λ it. HasTokens alphabet own.now place body.now (lexemes_of it.tokens.items) it.end) }
    ensures fit { IfOk result (λ it. all_fit (lexemes_of it.tokens.items) ≡ true) }
{
    match end_of(body) {
        None => tokens_of(alloc, alphabet, own, body, place),
        Some(n) => {
            let (content, _) = body.split_at(n);
            let (_, behind) = body.split_at(n + 4);
            let content = tokens_of(alloc, alphabet, own, content, place)?;
            match content.end {
                End::Unknown(_) => Ok(content),
                End::Text(_) => with_end(
                    alloc,
                    alphabet,
                    own,
                    content.tokens,
                    place + n as u32,
                    behind,
                ),
            }
        }
    }
}

/// The tokens up to the first that is nested too deeply, or all.
pub(crate) fn cut<'a>(
    alloc: Global,
    tokens: &[Token<'a>],
    end: End,
) -> Result<Front<'a>, AllocError>
    ensures { IfOk result (λ it. IsCut (lexemes_of tokens.now) (is_text end) (place_of_end end) (lexemes_of it.tokens.items) it.cause it.at) }
{
    let mut found: Vec<Token<'a>> = Vec::new(alloc);
    let mut depth = Depth {
        brackets: 0,
        operators: 0,
        is_opened: false,
    };
    'tokens: for token in tokens {
        let next = after(token.kind, depth);
        if LIMIT <= next.brackets + next.operators {
            return Ok(Front {
                tokens: found,
                cause: Cause::Deep,
                at: token.place,
            });
        }
        found.push(*token)?;
        depth = next;
    }
    match end {
        End::Text(at) => Ok(Front {
            tokens: found,
            cause: Cause::Text,
            at,
        }),
        End::Unknown(at) => Ok(Front {
            tokens: found,
            cause: Cause::Unknown,
            at,
        }),
    }
}
