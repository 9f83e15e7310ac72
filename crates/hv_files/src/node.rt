//! What stands at a path.
use hv_text::Bytes;

/// A folder, or a file that holds these bytes.
#[derive(Debug, Drop)]
pub enum Node {
    Folder,
    Holds(Bytes),
}
