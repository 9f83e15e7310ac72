//! What stands in a source: names, values, and the marks of nodes, in order.
ghost use Rattle.std.specs.Prelude.{◌≡◌};
ghost use Rattle.hv_dtgram.specs.Contents.{entry_labels};

use hv_text::{Bytes, Items};

/// A name and the offset where it stands, of a reference that of its ampersand.
#[derive(Debug, Drop)]
pub struct Named {
    pub name: Bytes,
    pub place: usize,
}

/// A member of a list of cells.
#[derive(Drop)]
pub enum Cell {
    Number(u32),
    /// The phandle of the node of a label.
    Phandle(Named),
}

/// A part of a property's value.
#[derive(Drop)]
pub enum Value {
    Cells(Items<Cell>),
    Text(Bytes),
    Bytes(Bytes),
    /// The path of the node of a label.
    Path(Named),
}

/// A property, and the beginning and the end of a node.
#[derive(Drop)]
pub enum Entry {
    /// Labels, a name and values.
    Property(Items<Named>, Named, Items<Value>),
    /// Labels and a name.
    Open(Items<Named>, Named),
    Close,
}

impl Entry {
    /// The labels of the property or the node.
    pub fn labels(&self) -> &[Named]
        ensures { result.now ≡ entry_labels self.now }
    {
        match self {
            Entry::Property(labels, _, _) => labels.as_slice(),
            Entry::Open(labels, _) => labels.as_slice(),
            Entry::Close => &[],
        }
    }
}
