//! The tokens of a text.

ghost use Rattle.std.specs.Prelude.{◌+◌, ◌<◌, ◌^◌, List, length, IfOk};
ghost use Rattle.vd_tokens.specs.declared.token.End.{End};
ghost use Rattle.vd_tokens.specs.Lexeme.{Lexeme, lexemes_of};
ghost use Rattle.vd_tokens.specs.Text.{Tokenizes};
ghost use Rattle.vd_tokens.specs.OneText.{SameTokens};

use crate::alphabet::Alphabet;
use crate::element::{Element, head};
use crate::token::{End, Token, Tokenized};
use std::alloc::{AllocError, Global};

/// The tokens up to the end, or to the first byte that begins none, where the text's first byte has a place.
pub fn tokenize<'a>(
    alloc: Global,
    alphabet: Alphabet,
    text: &'a [u8],
    place: u32,
) -> Result<Tokenized<'a>, AllocError>
    requires { place + length text.now < 2 ^ 32 }
    ensures tokens { IfOk result (λ t. Tokenizes alphabet place text.now (lexemes_of t.tokens.items) t.end) }
    ensures exact { (ts : List Lexeme) (end : End) → Tokenizes alphabet place text.now ts end → IfOk result (λ t. SameTokens alphabet (lexemes_of t.tokens.items) ts t.end end) }
{
    let mut tokens: Vec<Token<'a>> = Vec::new(alloc);
    let mut left = text;
    let mut at = place;
    'tokens: while !left.is_empty() {
        let (_, rest) = left.split_at(1);
        match head(alphabet, left[0], rest) {
            Element::Gap(n) => {
                let (_, behind) = rest.split_at(n);
                left = behind;
                at += n as u32 + 1;
            }
            Element::Token(kind, n) => {
                let (spelling, behind) = left.split_at(n + 1);
                tokens.push(Token {
                    kind,
                    place: at,
                    spelling,
                })?;
                left = behind;
                at += n as u32 + 1;
            }
            Element::Unknown => {
                let end = End::Unknown(at);
                return Ok(Tokenized { tokens, end });
            }
        }
    }
    let end = End::Text(at);
    Ok(Tokenized { tokens, end })
}
