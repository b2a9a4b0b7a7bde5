//! Sections that list names: `uses`, `exports`, `units`.

ghost use Rattle.std.specs.Prelude.{◌≡◌, ◌<◌, ◌+◌, ◌^◌, ◌++◌, ◌∷◌, ℕ, length, List as Items, codes, Result, Ok, Err, true, false, IfOk, IsErrOf, MatchOption};
ghost use Rattle.vd_outline.specs.Lines.{lacks};
ghost use Rattle.vd_tokens.specs.declared.token.End.{End as Ended};
ghost use Rattle.vd_tokens.specs.Lexeme.{lexeme_of, lexemes_of};
ghost use Rattle.vd_listing.specs.Listing as listing;

use std::alloc::{AllocError, Global};
use vd_base::{List, Name, NameFault, Text};
use vd_grammar::ParseFault;
use vd_heads::Mention;
use vd_outline::cut_at;
use vd_tokens::{Alphabet, End, Token, TokenKind, tokenize};

/// Why tokens are no list of names.
#[derive(Drop)]
pub(crate) enum Stopped {
    /// This token cannot stand where it stands.
    At(u32),
    Memory(AllocError),
}

impl From<AllocError> for Stopped {
    ghost use Rattle.std.specs.Prelude.{◌≡◌};
    ghost use Rattle.vd_listing.specs.declared.reading.Stopped.TheVariants.{Memory};

    ghost from_gives = { λ e fault. fault ≡ Memory e };

    fn from(fault: AllocError) -> Stopped {
        Stopped::Memory(fault)
    }
}

fn mention_of(alloc: Global, token: &Token<'_>) -> Result<Mention, Stopped>
    ensures name { IfOk result (λ m. (listing.is_name_token (lexeme_of token.now) ≡ true) × (m ≡ listing.mention_of (lexeme_of token.now))) }
    ensures at { (place : ℕ) → IsErrOf result (Stopped.At place) → (listing.is_name_token (lexeme_of token.now) ≡ false) × (place ≡ token.now.place) }
{
    if token.kind != TokenKind::Word {
        return Err(Stopped::At(token.place));
    }
    match Name::new(alloc, token.spelling) {
        Ok(name) => Ok(Mention {
            name,
            place: token.place,
        }),
        Err(NameFault::NotName) => Err(Stopped::At(token.place)),
        Err(NameFault::Memory(fault)) => Err(Stopped::Memory(fault)),
    }
}

fn is_comma(token: &Token<'_>) -> bool
    ensures { result ≡ listing.is_comma (lexeme_of token.now) }
{
    token.kind == TokenKind::Sign && token.spelling == b",".as_slice()
}

/// The names that tokens list, and whether one more has to follow.
fn listed(alloc: Global, tokens: &[Token<'_>]) -> Result<(List<Mention>, bool), Stopped>
    ensures names { IfOk result (λ found. (end : Ended) → listing.listed true (lexemes_of tokens.now) end ≡ listing.with_names found.0 (listing.ending found.1 end)) }
    ensures at { (place : ℕ) → IsErrOf result (Stopped.At place) → (end : Ended) → listing.listed true (lexemes_of tokens.now) end ≡ Err place }
{
    let mut names = List::new(alloc);
    let mut wants_name = true;
    for token in tokens {
        if wants_name {
            match mention_of(alloc, token) {
                Ok(mention) => names.push(mention)?,
                Err(stopped) => return Err(stopped),
            }
            wants_name = false;
        } else if is_comma(token) {
            wants_name = true;
        } else {
            return Err(Stopped::At(token.place));
        }
    }
    Ok((names, wants_name))
}

/// The names, where the tokens end like this.
fn ended(found: (List<Mention>, bool), end: End) -> Result<List<Mention>, Stopped>
    ensures names { IfOk result (λ names. listing.with_names found.0 (listing.ending found.1 end) ≡ Ok names) }
    ensures at { (place : ℕ) → IsErrOf result (Stopped.At place) → listing.with_names found.0 (listing.ending found.1 end) ≡ Err place }
{
    let (names, wants_name) = found;
    match end {
        End::Unknown(at) => Err(Stopped::At(at)),
        End::Text(at) => {
            if wants_name {
                Err(Stopped::At(at))
            } else {
                Ok(names)
            }
        }
    }
}

/// The names in the content of a section, whose first byte has this place.
fn listed_in(alloc: Global, content: &[u8], place: u32) -> Result<List<Mention>, Stopped>
    requires { place + length content.now < 2 ^ 32 }
    ensures names { IfOk result (λ names. listing.IsContent place content.now (Ok names)) }
    ensures at { (at : ℕ) → IsErrOf result (Stopped.At at) → listing.IsContent place content.now (Err at) }
{
    let found = tokenize(alloc, Alphabet::Declaration, content, place)?;
    let names = listed(alloc, found.tokens.as_slice())?;
    ended(names, found.end)
}

/// What stands before the line `end`.
fn before_end(body: &[u8]) -> Option<&[u8]>
    ensures { MatchOption result ((content : Items ℕ) → body.now ≡ content ++ codes "end\n" → ⊥) (λ content. body.now ≡ content.now ++ codes "end\n") }
{
    if body.len() < 4 {
        return None;
    }
    let (content, last) = body.split_at(body.len() - 4);
    if last == b"end\n".as_slice() {
        Some(content)
    } else {
        None
    }
}

/// The header line and the content of a section.
fn cut(bytes: &[u8]) -> Option<(&[u8], &[u8])>
    ensures { MatchOption result ((header content : Items ℕ) → listing.IsCut bytes.now header content → ⊥) (λ cut. listing.IsCut bytes.now cut.0.now cut.1.now) }
{
    match cut_at(bytes, b'\n') {
        Some((header, body)) => match before_end(body) {
            Some(content) => Some((header, content)),
            None => None,
        },
        None => None,
    }
}

/// The names, one or more with `,` between them, of a section whose header line has no name, given by its text from that
/// line to the line `end`, both included; with their places in it. `Bad` has the place of the first token that cannot
/// stand where it stands, the line `end` being one; it is 0 for a text that is no section. A text of 4 GiB or more is
/// beyond the reader's memory.
pub fn names_in(alloc: Global, text: &Text) -> Result<List<Mention>, ParseFault>
    ensures names { IfOk result (λ names. listing.IsListing text.now (Ok names)) }
    ensures at { (place : ℕ) → IsErrOf result (ParseFault.Bad place) → (header content : Items ℕ) → listing.IsCut text.now header content → listing.IsListing text.now (Err place) }
    ensures never_deep { (place : ℕ) → IsErrOf result (ParseFault.Deep place) → ⊥ }
{
    let bytes = text.as_bytes();
    if bytes.len() > 4294967295 {
        return Err(ParseFault::Memory);
    }
    match cut(bytes) {
        Some((header, content)) => match listed_in(alloc, content, header.len() as u32 + 1) {
            Ok(names) => Ok(names),
            Err(Stopped::At(at)) => Err(ParseFault::Bad(at)),
            Err(Stopped::Memory(_)) => Err(ParseFault::Memory),
        },
        None => Err(ParseFault::Bad(0)),
    }
}
