//! What lies in a folder, and why nothing stands at a path, by single look-ups in the order of paths.
ghost use Rattle.std.specs.Prelude.{◌≡◌, ◌≢◌, ◌<◌, ◌∷◌, ◌++◌, [], List, ℕ, None, length, IfSome, IfNone};
ghost use Rattle.std.specs.Bool.{OnTrue, OnFalse};
ghost use Rattle.std.specs.FinMap.{find};
ghost use Rattle.hv_files.specs.FileMap.{FileMap, path_cmp, reach, names_in};
ghost use Rattle.hv_files.specs.Tree.{IsTree, IsIn, GoesThrough, from_on};
ghost use Rattle.hv_files.specs.Outcome.{missing_at};

use crate::node::Node;
use crate::refusal::FileRefusal;
use hv_text::Path;
use std::collections::BTreeMap;
use std::ops::Bound;

pub type Nodes = BTreeMap<Path, Node>;

/// The name with which a path goes on behind a folder.
fn name_in<'a>(folder: &Path, path: &'a Path) -> Option<&'a [u8]>
    ensures none { IfNone result ((name : List ℕ) → ¬ (GoesThrough folder.now name path.now)) }
    ensures some { IfSome result (λ name. GoesThrough folder.now name.now path.now) }
{
    if !folder.is_prefix_of(path) {
        return None;
    }
    path.at(folder.len())
}

/// Whether a folder has entries: what lies in it stands just behind it.
pub fn has_entries(nodes: &Nodes, folder: &Path) -> bool
    requires { IsTree nodes.now.entries }
    ensures some { OnTrue result (names_in nodes.now.entries folder.now ≢ []) }
    ensures none { OnFalse result (names_in nodes.now.entries folder.now ≡ []) }
{
    match nodes
        .range((Bound::Excluded(folder), Bound::Unbounded))
        .next()
    {
        Some((path, _)) => name_in(folder, path).is_some(),
        None => false,
    }
}

/// The first entry of a folder that is at the cursor or behind it.
pub fn next_in<'a>(nodes: &'a Nodes, folder: &Path, cursor: &Path) -> Option<(&'a [u8], &'a Node)>
    requires tree { IsTree nodes.now.entries }
    requires inside { IsIn folder.now cursor.now }
    ensures none { IfNone result (names_in (from_on cursor.now nodes.now.entries) folder.now ≡ []) }
    ensures some { IfSome result (λ found. (rest : FileMap)
        × (from_on cursor.now nodes.now.entries
        ≡ (folder.now ++ found.0.now ∷ [], found.1.now) ∷ rest)) }
{
    let (path, node) = nodes
        .range((Bound::Included(cursor), Bound::Unbounded))
        .next()?;
    let name = name_in(folder, path)?;
    Some((name, node))
}

/// Why nothing stands at a path: a file is on the way, or a name is missing. A file on the way has
/// nothing below it, and so is the last entry before the path.
pub fn why_missing(nodes: &Nodes, path: &Path) -> FileRefusal
    requires tree { IsTree nodes.now.entries }
    requires named { 0 < length path.now }
    requires absent { find path_cmp path.now nodes.now.entries ≡ None }
    ensures { result ≡ missing_at (reach nodes.now.entries path.now) }
{
    match nodes
        .range((Bound::Unbounded, Bound::Excluded(path)))
        .next_back()
    {
        Some((before, Node::Holds(_))) => {
            if before.is_prefix_of(path) {
                return FileRefusal::NotDir;
            }
            FileRefusal::NoEntry
        }
        Some((_, Node::Folder)) => FileRefusal::NoEntry,
        None => FileRefusal::NoEntry,
    }
}
