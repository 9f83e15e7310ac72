//! The values of a node's properties.
ghost use Rattle.std.specs.Prelude.{◌≡◌, ◌≤◌, Some, length};
ghost use Rattle.std.specs.Option.{option_copied};
ghost use Rattle.hv_dtree.specs.Nodes.{prop_value, big_endian};
ghost use Rattle.hv_dtree.specs.Values.{IsCells, GivesText, IsStringAt};

use crate::node::{Node, PropRefusal};
use hv_text::word_at;

impl Node {
    /// The value of the property of a name.
    pub fn prop(&self, name: &[u8]) -> Option<&[u8]>
        ensures { option_copied result ≡ prop_value self.now name.now }
    {
        for prop in self.props.as_slice() {
            if prop.name.as_slice() == name {
                return Some(prop.value.as_slice());
            }
        }
        None
    }

    /// The number of one or two cells.
    pub fn cells(&self, name: &[u8]) -> Result<u64, PropRefusal>
        ensures { IsCells (prop_value self.now name.now) result }
    {
        let Some(value) = self.prop(name) else {
            return Err(PropRefusal::NoProperty);
        };
        if value.len() == 4 {
            return Ok(big_endian(value));
        }
        if value.len() == 8 {
            return Ok(big_endian(value));
        }
        Err(PropRefusal::BadForm)
    }

    /// The text of a value that is one string, without its zero byte.
    pub fn text(&self, name: &[u8]) -> Result<&[u8], PropRefusal>
        ensures { GivesText (prop_value self.now name.now) result }
    {
        let Some(value) = self.prop(name) else {
            return Err(PropRefusal::NoProperty);
        };
        match word_at(value, 0) {
            Some((text, rest)) => {
                if rest.is_empty() {
                    return Ok(text);
                }
                Err(PropRefusal::BadForm)
            }
            None => Err(PropRefusal::BadForm),
        }
    }

    /// The string at a place of a value, counted from 0, without its zero byte.
    pub fn string_at(&self, name: &[u8], place: usize) -> Option<&[u8]>
        ensures { IsStringAt (prop_value self.now name.now) place (option_copied result) }
    {
        string_in(self.prop(name)?, place)
    }
}

/// The number that at most eight bytes hold.
pub fn big_endian(bytes: &[u8]) -> u64
    requires { length bytes.now ≤ 8 }
    ensures { result ≡ big_endian bytes.now }
{
    let mut value = 0u64;
    for byte in bytes {
        value = value * 256 + *byte as u64;
    }
    value
}

fn string_in(value: &[u8], place: usize) -> Option<&[u8]>
    ensures { IsStringAt (Some value.now) place (option_copied result) }
{
    let mut rest = value;
    'passed: for _count in 0..place {
        rest = word_at(rest, 0)?.1;
    }
    match word_at(rest, 0) {
        Some((text, _)) => Some(text),
        None => None,
    }
}
