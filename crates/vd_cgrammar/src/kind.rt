//! What a token of a C section is.

/// A word or sign, or what stands for several.
#[derive(Clone, Copy, Debug, PartialEq, Eq)]
pub enum Kind {
    /// No token comes.
    End,
    /// A name, but not the header's.
    Name,
    /// The header's name.
    Own,
    /// A number within its limit that is no length.
    Number,
    /// A number that an array may have as its length.
    Length,
    Int,
    Unsigned,
    Lock,
    Void,
    Struct,
    If,
    Else,
    While,
    Return,
    Break,
    Continue,
    SizeOf,
    AlignOf,
    Malloc,
    Spawn,
    /// `free`, `makelock`, `freelock`, `acquire` or `release`
    Library,
    LeftParen,
    RightParen,
    LeftBrace,
    RightBrace,
    LeftBracket,
    RightBracket,
    Semicolon,
    Comma,
    /// `=`
    Assign,
    /// `|`
    Or,
    /// `^`
    Xor,
    /// `&`
    And,
    Equal,
    NotEqual,
    Less,
    LessEqual,
    Greater,
    GreaterEqual,
    ShiftLeft,
    ShiftRight,
    Plus,
    Minus,
    Star,
    Slash,
    Percent,
    Not,
    Tilde,
    Dot,
    Arrow,
    /// The line `end`.
    EndLine,
    /// A token that no rule takes.
    Other,
}

/// Which tokens a rule takes.
#[derive(Clone, Copy, Debug, PartialEq, Eq)]
pub enum Class {
    One(Kind),
    /// A name, the header's too.
    AnyName,
    /// A number within its limit.
    AnyNumber,
    /// What begins a type.
    TypeWord,
    /// A type of one word.
    SimpleType,
    /// A type of one word that is not `void`.
    FilledType,
    /// A prefix operator.
    Prefix,
    /// `sizeof` or `alignof`
    Measure,
    /// An operator between two operands.
    Binary,
    /// `.` or `->`
    Member,
    /// A function whose name is reserved.
    Reserved,
    /// `break` or `continue`
    Jump,
}
