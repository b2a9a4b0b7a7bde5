//! Why a text is no section.

/// Why a text is no section of a grammar.
#[derive(Clone, Copy, Debug, PartialEq, Eq)]
pub enum ParseFault {
    /// At the place of the first token, or of the first byte that begins none, behind the longest front that begins a section; at the end where none comes.
    Bad(u32),
    /// At the place of the first token that is nested too deeply.
    Deep(u32),
    Memory,
}

/// Why the tokens that a reader is given end.
#[derive(Clone, Copy, Debug, PartialEq, Eq)]
pub enum Cause {
    /// The text ends.
    Text,
    /// A byte begins no token.
    Unknown,
    /// A token is nested too deeply.
    Deep,
}
