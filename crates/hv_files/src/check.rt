//! Which calls are refused.
ghost use Rattle.std.specs.Prelude.{◌≡◌, ◌≢◌, ◌<◌, List, ℕ, Ok, Err, None, length, IfErr, OnOk};
ghost use Rattle.std.specs.FinMap.{find, put};
ghost use Rattle.hv_files.specs.FileMap.{path_cmp, reach, names_in, taken_out, list_folder, made_folder, with_file, without, Folder, Holds};
ghost use Rattle.hv_files.specs.Tree.{IsTree, IsOpen, IsLeaf};
ghost use Rattle.hv_files.specs.Outcome.{IsDueOrMemory};

use crate::node::Node;
use crate::refusal::FileRefusal;
use crate::walk::{Nodes, has_entries, why_missing};
use hv_text::Path;
use std::alloc::AllocError;

/// Refuses where the parent of a path at which nothing stands is no folder.
fn parent_is_folder(nodes: &Nodes, path: &Path) -> Result<(), FileRefusal>
    requires tree { IsTree nodes.now.entries }
    requires named { 0 < length path.now }
    requires absent { find path_cmp path.now nodes.now.entries ≡ None }
    ensures ok { OnOk result (reach nodes.now.entries path.now ≡ Ok None) }
    ensures refused { IfErr result (IsDueOrMemory (reach nodes.now.entries path.now)) }
{
    let mut parent = path.clone()?;
    parent.pop();
    if parent.is_empty() {
        return Ok(());
    }
    match nodes.get(&parent) {
        Some(Node::Folder) => Ok(()),
        Some(Node::Holds(_)) => Err(FileRefusal::NotDir),
        None => Err(why_missing(nodes, &parent)),
    }
}

/// Refuses where no folder may be made.
pub fn may_make(nodes: &Nodes, path: &Path) -> Result<(), FileRefusal>
    requires tree { IsTree nodes.now.entries }
    requires named { 0 < length path.now }
    ensures here { OnOk result (IsOpen nodes.now.entries path.now) }
    ensures ok { OnOk result (made_folder nodes.now.entries path.now
        ≡ Ok (put path_cmp path.now Folder nodes.now.entries)) }
    ensures refused { IfErr result (IsDueOrMemory (made_folder nodes.now.entries path.now)) }
{
    if nodes.contains_key(path) {
        return Err(FileRefusal::Exists);
    }
    parent_is_folder(nodes, path)?;
    Ok(())
}

/// Refuses where no file may be written.
pub fn may_write(nodes: &Nodes, path: &Path) -> Result<(), FileRefusal>
    requires tree { IsTree nodes.now.entries }
    requires named { 0 < length path.now }
    ensures here { OnOk result (IsOpen nodes.now.entries path.now) }
    ensures ok { OnOk result ((bytes : List ℕ) → with_file nodes.now.entries path.now bytes
        ≡ Ok (put path_cmp path.now (Holds bytes) nodes.now.entries)) }
    ensures refused { IfErr result (λ why. (bytes : List ℕ)
        → IsDueOrMemory (with_file nodes.now.entries path.now bytes) why) }
{
    match nodes.get(path) {
        Some(Node::Folder) => Err(FileRefusal::IsDir),
        Some(Node::Holds(_)) => Ok(()),
        None => {
            parent_is_folder(nodes, path)?;
            Ok(())
        }
    }
}

/// Refuses where no folder is to be listed.
pub fn may_list(nodes: &Nodes, path: &Path) -> Result<(), FileRefusal>
    requires { IsTree nodes.now.entries }
    ensures ok { OnOk result (list_folder nodes.now.entries path.now
        ≡ Ok (names_in nodes.now.entries path.now)) }
    ensures refused { IfErr result (λ why. list_folder nodes.now.entries path.now ≡ Err why) }
{
    if path.is_empty() {
        return Ok(());
    }
    match nodes.get(path) {
        Some(Node::Folder) => Ok(()),
        Some(Node::Holds(_)) => Err(FileRefusal::NotDir),
        None => Err(why_missing(nodes, path)),
    }
}

/// Refuses where nothing may be removed.
pub fn may_remove(nodes: &Nodes, path: &Path) -> Result<(), FileRefusal>
    requires tree { IsTree nodes.now.entries }
    requires named { 0 < length path.now }
    ensures leaf { OnOk result (IsLeaf nodes.now.entries path.now) }
    ensures ok { OnOk result (without nodes.now.entries path.now
        ≡ Ok (taken_out path.now nodes.now.entries)) }
    ensures refused { IfErr result (λ why. without nodes.now.entries path.now ≡ Err why) }
    ensures no_memory { (e : AllocError) → result ≢ Err (FileRefusal.Memory e) }
{
    match nodes.get(path) {
        None => Err(why_missing(nodes, path)),
        Some(Node::Holds(_)) => Ok(()),
        Some(Node::Folder) => {
            if has_entries(nodes, path) {
                return Err(FileRefusal::NotEmpty);
            }
            Ok(())
        }
    }
}
