//! The operations of terms, by the number of their arguments.

/// An operation of one argument.
#[derive(Clone, Copy, PartialEq, Eq)]
pub enum Unary {
    Len,
    Sum,
    Num,
    Unum,
    Vi,
    Rev,
}

/// An operation of two arguments.
#[derive(Clone, Copy, PartialEq, Eq)]
pub enum Binary {
    Add,
    Sub,
    Mul,
    Quot,
    Rem,
    Band,
    Bor,
    Bxor,
    Shl,
    Shr,
    Lt,
    Le,
    Eq,
    Off,
    Nth,
    Cons,
    App,
    Rep,
}

/// An operation of three arguments.
#[derive(Clone, Copy, PartialEq, Eq)]
pub enum Ternary {
    Upd,
    /// The part of a list from one place up to another.
    Slice,
}
