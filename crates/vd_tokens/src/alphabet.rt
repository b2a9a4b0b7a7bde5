//! What differs between the texts of C, of its declarations and of the logic.

ghost use Rattle.std.specs.Prelude.{◌≡◌};
ghost use Rattle.vd_tokens.specs.Signs as signs;

/// Which signs there are, and whether a number may have the suffix `u`.
#[derive(Clone, Copy, Debug, PartialEq, Eq)]
pub enum Alphabet {
    /// Functions.
    C,
    /// Structs and globals.
    Declaration,
    Logic,
}

impl Alphabet {
    pub(crate) fn has_suffix(self) -> bool
        ensures { result ≡ signs.allows_suffix self }
    {
        match self {
            Alphabet::C | Alphabet::Declaration => true,
            Alphabet::Logic => false,
        }
    }

    /// Whether the byte alone is a sign.
    pub(crate) fn is_sign(self, byte: u8) -> bool
        ensures { result ≡ signs.is_single self byte }
    {
        match self {
            Alphabet::C => b"(){}[];,=<>+-*/%&|^!~.".iter().any(|b| *b == byte),
            Alphabet::Declaration => b"{}[];,=-*&".iter().any(|b| *b == byte),
            Alphabet::Logic => b"(){}[];:,=<+-*".iter().any(|b| *b == byte),
        }
    }

    /// Whether the two bytes are a sign.
    pub(crate) fn is_pair(self, first: u8, second: u8) -> bool
        ensures { result ≡ signs.is_pair self first second }
    {
        match self {
            Alphabet::C => match (first, second) {
                (b'=', b'=') | (b'!', b'=') | (b'<', b'=') | (b'>', b'=') => true,
                (b'<', b'<') | (b'>', b'>') | (b'-', b'>') => true,
                _ => false,
            },
            Alphabet::Declaration => false,
            Alphabet::Logic => matches!((first, second), (b'!', b'=') | (b'<', b'=')),
        }
    }
}
