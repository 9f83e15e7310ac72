//! Tokens, their kinds, and where they may stand.

/// What is being read.
#[derive(Clone, Copy, Debug, PartialEq, Eq)]
pub enum Mode {
    /// Names of nodes and properties.
    Name,
    /// The value of a property.
    Value,
    /// Bytes between brackets.
    Hex,
}

/// The form of a token.
#[derive(Clone, Copy, Debug, PartialEq, Eq)]
pub enum TokenKind {
    /// `/dts-v1/`
    Version,
    /// `/`
    Root,
    /// `{`
    NodeOpen,
    /// `}`
    NodeClose,
    /// `;`
    Semicolon,
    /// `=`
    Equals,
    /// A name and `:`.
    Label,
    Word,
    /// `<`
    CellsOpen,
    /// `>`
    CellsClose,
    /// `[`
    BytesOpen,
    /// `]`
    BytesClose,
    /// `,`
    Comma,
    /// Pieces between quotes.
    Text,
    Number,
    /// `&` and a name.
    Reference,
    /// Two hexadecimal digits.
    Pair,
}

/// The bytes of a text from `start` up to `end`.
#[derive(Clone, Copy, Debug, PartialEq, Eq)]
pub struct Token {
    pub kind: TokenKind,
    pub start: usize,
    pub end: usize,
}

/// The offset of the first byte at which no token stands.
#[derive(Clone, Copy, Debug, PartialEq, Eq)]
pub struct BadToken(pub usize);
