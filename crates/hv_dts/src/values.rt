//! The bytes of values, and the references in them.
ghost use Rattle.std.specs.Prelude.{◌≡◌, ◌++◌, IfOk, OnOk};
ghost use Rattle.hv_dts.specs.Bytes.{cell_bytes, cells_bytes, value_bytes, values_bytes, cells_references, value_references, values_references, is_phandle_name, number_in, phandle_number, no_links};
ghost use Rattle.hv_dts.specs.Maps.{links_in, is_nil};

use hv_dtgram::{Cell, Value};
use hv_dtree::big_endian;
use hv_text::Bytes;
use std::alloc::{AllocError, Global};
use std::collections::BTreeMap;

/// What labels lead to.
#[derive(Drop)]
pub struct LinkMaps {
    pub numbers: BTreeMap<Bytes, u32>,
    pub paths: BTreeMap<Bytes, Bytes>,
}

impl LinkMaps {
    pub fn new(alloc: Global) -> LinkMaps
        ensures { links_in result ≡ no_links }
    {
        LinkMaps {
            numbers: BTreeMap::new(alloc),
            paths: BTreeMap::new(alloc),
        }
    }

    /// The phandle that a label stands for in a cell, or 0.
    pub fn number(&self, label: &Bytes) -> u32
        ensures { result ≡ (links_in self.now).number label.now }
    {
        match self.numbers.get(label) {
            Some(number) => *number,
            None => 0,
        }
    }

    /// The path that a label stands for elsewhere, or no bytes.
    pub fn path(&self, label: &Bytes) -> &[u8]
        ensures { result.now ≡ (links_in self.now).path label.now }
    {
        match self.paths.get(label) {
            Some(path) => path.as_slice(),
            None => b"",
        }
    }
}

fn push_cell(out: &mut Vec<u8>, number: u32) -> Result<(), AllocError>
    ensures { OnOk result (out.new.items ≡ out.old.items ++ cell_bytes number) }
{
    out.extend_from_slice(&[
        (number / 16777216 % 256) as u8,
        (number / 65536 % 256) as u8,
        (number / 256 % 256) as u8,
        (number % 256) as u8,
    ])
}

/// The four bytes of a cell.
pub fn cell_bytes(alloc: Global, number: u32) -> Result<Bytes, AllocError>
    ensures { IfOk result (λ bytes. bytes ≡ cell_bytes number) }
{
    let mut out = Vec::new(alloc);
    push_cell(&mut out, number)?;
    Ok(Bytes::from_vec(out))
}

fn push_cells(out: &mut Vec<u8>, cells: &[Cell], links: &LinkMaps) -> Result<(), AllocError>
    ensures { OnOk result (out.new.items ≡ out.old.items ++ cells_bytes (links_in links.now) cells.now) }
{
    for cell in cells {
        let number = match cell {
            Cell::Number(number) => *number,
            Cell::Phandle(label) => links.number(&label.name),
        };
        push_cell(out, number)?;
    }
    Ok(())
}

fn push_part(out: &mut Vec<u8>, value: &Value, links: &LinkMaps) -> Result<(), AllocError>
    ensures { OnOk result (out.new.items ≡ out.old.items ++ value_bytes (links_in links.now) value.now) }
{
    match value {
        Value::Cells(cells) => push_cells(out, cells.as_slice(), links),
        Value::Text(bytes) => {
            out.extend_from_slice(bytes.as_slice())?;
            out.push(0)?;
            Ok(())
        }
        Value::Bytes(bytes) => out.extend_from_slice(bytes.as_slice()),
        Value::Path(label) => {
            out.extend_from_slice(links.path(&label.name))?;
            out.push(0)?;
            Ok(())
        }
    }
}

/// The bytes of the parts of a value.
pub fn values_bytes(alloc: Global, values: &[Value], links: &LinkMaps) -> Result<Bytes, AllocError>
    ensures { IfOk result (λ bytes. bytes ≡ values_bytes (links_in links.now) values.now) }
{
    let mut out = Vec::new(alloc);
    for value in values {
        push_part(&mut out, value, links)?;
    }
    out.shrink_to_fit();
    Ok(Bytes::from_vec(out))
}

fn cells_are_plain(cells: &[Cell]) -> bool
    ensures { result ≡ is_nil (cells_references cells.now) }
{
    for cell in cells {
        if let Cell::Phandle(_) = cell {
            return false;
        }
    }
    true
}

fn is_plain(value: &Value) -> bool
    ensures { result ≡ is_nil (value_references value.now) }
{
    match value {
        Value::Cells(cells) => cells_are_plain(cells.as_slice()),
        Value::Text(_) => true,
        Value::Bytes(_) => true,
        Value::Path(_) => false,
    }
}

fn are_plain(values: &[Value]) -> bool
    ensures { result ≡ is_nil (values_references values.now) }
{
    for value in values {
        if !is_plain(value) {
            return false;
        }
    }
    true
}

/// Whether a property is called `phandle`.
pub fn is_phandle_name(name: &Bytes) -> bool
    ensures { result ≡ is_phandle_name name.now }
{
    name.as_slice() == b"phandle".as_slice()
}

fn number_in(bytes: &[u8]) -> Option<u32>
    ensures { result ≡ number_in bytes.now }
{
    if bytes.len() != 4 {
        return None;
    }
    let number = big_endian(bytes);
    if number == 0 {
        return None;
    }
    if number >= 0xffff_ffff {
        return None;
    }
    Some(number as u32)
}

/// The number of a phandle's value, where it is one.
pub fn phandle_number(alloc: Global, values: &[Value]) -> Result<Option<u32>, AllocError>
    ensures { IfOk result (λ number. number ≡ phandle_number values.now) }
{
    if !are_plain(values) {
        return Ok(None);
    }
    let links = LinkMaps::new(alloc);
    let bytes = values_bytes(alloc, values, &links)?;
    Ok(number_in(bytes.as_slice()))
}
