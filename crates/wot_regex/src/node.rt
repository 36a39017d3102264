//! Expressions as tables: each part stands behind the parts that it is made of.

/// A part of an expression. A range stands before its members.
#[derive(Clone, Copy, Debug, PartialEq, Eq)]
pub enum Node {
    /// No piece.
    Nothing,
    /// `^`.
    Start,
    /// `$`.
    End,
    /// `.`.
    Any,
    Byte(u8),
    Range { negated: bool },
    /// A member of the range before it.
    Member { first: u8, last: u8 },
    /// One part after another.
    Followed,
    /// One part or another.
    Either,
    /// `*`.
    AnyNumber,
    /// `+`.
    AtLeastOne,
    /// `?`.
    AtMostOne,
}
