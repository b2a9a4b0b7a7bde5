//! Tokens.

/// Keywords are words, and the spelling of a number ends with its suffix.
#[derive(Clone, Copy, Debug, PartialEq, Eq)]
pub enum TokenKind {
    Word,
    Number,
    Sign,
}

/// A token of a text: its bytes, and where they begin.
#[derive(Clone, Copy)]
pub struct Token<'a> {
    pub kind: TokenKind,
    /// Of its first byte.
    pub place: u32,
    pub spelling: &'a [u8],
}

/// Why the tokens end, with the place.
#[derive(Clone, Copy, Debug, PartialEq, Eq)]
pub enum End {
    /// The text ends there.
    Text(u32),
    /// A byte stands there that begins no token.
    Unknown(u32),
}

/// The tokens in front of the text's end, or of the first byte that begins none.
#[derive(Drop)]
pub struct Tokenized<'a> {
    pub tokens: Vec<Token<'a>>,
    pub end: End,
}
