//! What a word can name.
ghost use Rattle.std.specs.Prelude.{◌≡◌, ◌≤◌, length};
ghost use Rattle.std.specs.List.{prefix_len, list_all};
ghost use Rattle.hv_dtgram.specs.Lexed.{is_node_byte, is_prop_byte, is_prop_name, is_unit_address, is_node_name, word_symbol, kind_symbol};

use crate::symbol::Symbol;
use hv_dtlex::TokenKind;

fn is_node_byte(byte: u8) -> bool
    ensures { result ≡ is_node_byte byte }
{
    byte.is_ascii_alphanumeric() || b",._+-".as_slice().contains(&byte)
}

fn is_prop_byte(byte: u8) -> bool
    ensures { result ≡ is_prop_byte byte }
{
    byte.is_ascii_alphanumeric() || b",._+-?#".as_slice().contains(&byte)
}

fn are_node_bytes(bytes: &[u8]) -> bool
    ensures { result ≡ list_all is_node_byte bytes.now }
{
    for byte in bytes {
        if !is_node_byte(*byte) {
            return false;
        }
    }
    true
}

fn are_prop_bytes(bytes: &[u8]) -> bool
    ensures { result ≡ list_all is_prop_byte bytes.now }
{
    for byte in bytes {
        if !is_prop_byte(*byte) {
            return false;
        }
    }
    true
}

fn base_len(word: &[u8]) -> usize
    ensures run { result ≡ prefix_len is_node_byte word.now }
    ensures within { result ≤ length word.now }
{
    for (at, byte) in word.iter().enumerate() {
        if !is_node_byte(*byte) {
            return at;
        }
    }
    word.len()
}

fn is_prop_name(word: &[u8]) -> bool
    ensures { result ≡ is_prop_name word.now }
{
    if word.is_empty() {
        return false;
    }
    if word.len() > 31 {
        return false;
    }
    are_prop_bytes(word)
}

fn is_unit_address(text: &[u8]) -> bool
    ensures { result ≡ is_unit_address text.now }
{
    match text.split_first() {
        None => true,
        Some((mark, unit)) => {
            if *mark != b'@' {
                return false;
            }
            if unit.is_empty() {
                return false;
            }
            are_node_bytes(unit)
        }
    }
}

fn is_node_name(word: &[u8]) -> bool
    ensures { result ≡ is_node_name word.now }
{
    let base = base_len(word);
    if base == 0 {
        return false;
    }
    if base > 31 {
        return false;
    }
    is_unit_address(word.split_at(base).1)
}

fn word_symbol(word: &[u8]) -> Symbol
    ensures { result ≡ word_symbol word.now }
{
    if is_prop_name(word) {
        if is_node_name(word) {
            return Symbol::EitherName;
        }
        return Symbol::PropName;
    }
    if is_node_name(word) {
        return Symbol::NodeName;
    }
    Symbol::NoName
}

fn kind_symbol(kind: TokenKind, word: Symbol) -> Symbol
    ensures { result ≡ kind_symbol kind word }
{
    match kind {
        TokenKind::Version => Symbol::Version,
        TokenKind::Root => Symbol::Root,
        TokenKind::NodeOpen => Symbol::NodeOpen,
        TokenKind::NodeClose => Symbol::NodeClose,
        TokenKind::Semicolon => Symbol::Semicolon,
        TokenKind::Equals => Symbol::Equals,
        TokenKind::Label => Symbol::Label,
        TokenKind::Word => word,
        TokenKind::CellsOpen => Symbol::CellsOpen,
        TokenKind::CellsClose => Symbol::CellsClose,
        TokenKind::BytesOpen => Symbol::BytesOpen,
        TokenKind::BytesClose => Symbol::BytesClose,
        TokenKind::Comma => Symbol::Comma,
        TokenKind::Text => Symbol::Text,
        TokenKind::Number => Symbol::Number,
        TokenKind::Reference => Symbol::Reference,
        TokenKind::Pair => Symbol::Pair,
    }
}

/// The symbol of a token with these bytes.
pub fn kind_and_word(kind: TokenKind, bytes: &[u8]) -> Symbol
    ensures { result ≡ kind_symbol kind (word_symbol bytes.now) }
{
    kind_symbol(kind, word_symbol(bytes))
}
