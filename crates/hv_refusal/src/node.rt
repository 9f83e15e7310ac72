//! Paths of nodes in a device tree.
ghost use Rattle.std.specs.Prelude.{IsTrue, ◌↔◌};
ghost use Rattle.std.specs.List.{AllByRecursion};
ghost use Rattle.hv_dtree.specs.Names.{IsNodeByte, IsNodeName};
ghost use Rattle.hv_data.specs.Reading.{Reads};
ghost use Rattle.hv_refusal.specs.Node.{AreNodeBytes, IsUnit, IsNodePath, node_path_text};

use hv_data::{WordRefusal, split_at_byte};
use hv_text::{Bytes, front_len, strip_front};
use std::alloc::Global;

fn is_node_byte(byte: u8) -> bool
    ensures { IsTrue result ↔ IsNodeByte byte }
{
    byte.is_ascii_alphanumeric() || b",._+-".as_slice().contains(&byte)
}

fn are_node_bytes(bytes: &[u8]) -> bool
    ensures { IsTrue result ↔ AreNodeBytes bytes.now }
{
    for byte in bytes {
        if !is_node_byte(*byte) {
            return false;
        }
    }
    true
}

/// Whether a text is nothing or a unit address.
fn is_unit(text: &[u8]) -> bool
    ensures { IsTrue result ↔ IsUnit text.now }
{
    match text.split_first() {
        None => true,
        Some((mark, unit)) => {
            if *mark != b'@' {
                return false;
            }
            if unit.is_empty() {
                return false;
            }
            are_node_bytes(unit)
        }
    }
}

/// Whether a text is the name of a node in a device tree.
pub fn is_node_name(name: &[u8]) -> bool
    ensures { IsTrue result ↔ IsNodeName name.now }
{
    let (base, unit) = name.split_at(front_len(name, b'@'));
    if base.is_empty() {
        return false;
    }
    if base.len() > 31 {
        return false;
    }
    if !are_node_bytes(base) {
        return false;
    }
    is_unit(unit)
}

fn are_node_names(names: &[Bytes]) -> bool
    ensures { IsTrue result ↔ AllByRecursion IsNodeName names.now }
{
    for name in names {
        if !is_node_name(name.as_slice()) {
            return false;
        }
    }
    true
}

/// The path of a word.
pub fn node_path_word(alloc: Global, word: &[u8]) -> Result<Bytes, WordRefusal>
    ensures { Reads IsNodePath node_path_text word.now result }
{
    let Some(names) = strip_front(word, b"/") else {
        return Err(WordRefusal::BadWord);
    };
    let names = split_at_byte(alloc, names, b'/')?;
    if !are_node_names(&names) {
        return Err(WordRefusal::BadWord);
    }
    Ok(Bytes::from_vec(Vec::from_slice(alloc, word)?))
}
