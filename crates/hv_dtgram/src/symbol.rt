//! Tokens as the grammar tells them apart, and what a reader waits for.

/// A token, of which a word is told apart by what it can name.
#[derive(Clone, Copy, Debug, PartialEq, Eq)]
pub enum Symbol {
    Version,
    Root,
    NodeOpen,
    NodeClose,
    Semicolon,
    Equals,
    Label,
    /// A word that can name a property, and no node.
    PropName,
    /// A word that can name a node, and no property.
    NodeName,
    /// A word that can name either.
    EitherName,
    /// A word that can name neither.
    NoName,
    CellsOpen,
    CellsClose,
    BytesOpen,
    BytesClose,
    Comma,
    Text,
    Number,
    Reference,
    Pair,
}

/// What was read last.
#[derive(Clone, Copy, Debug, PartialEq, Eq)]
pub enum State {
    Nothing,
    Version,
    VersionEnd,
    Root,
    /// The beginning of a body, or a property of it.
    Body,
    /// A node.
    Nodes,
    /// A label in a body without nodes.
    BodyLabel,
    /// A label behind a node.
    NodeLabel,
    PropName,
    NodeName,
    EitherName,
    /// The mark before a value.
    ValueMark,
    Cells,
    Bytes,
    /// A value.
    ValueEnd,
    /// The closing brace of a node.
    NodeClose,
    /// The whole source.
    All,
}
