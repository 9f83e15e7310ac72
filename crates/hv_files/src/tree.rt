//! The file tree.
ghost use Rattle.std.specs.Prelude.{◌≡◌, ◌≢◌, ◌<◌, ◌++◌, ◌∷◌, [], Ok, Err, length, IfOk, IfErr, OnOk, OnErr};
ghost use Rattle.std.specs.FinMap.{put};
ghost use Rattle.hv_files.specs.FileMap.{path_cmp, listed, names_in, taken_out, read_file, list_folder, made_folder, with_file, without};
ghost use Rattle.hv_files.specs.Tree.{IsTree, IsOpen, IsLeaf};
ghost use Rattle.hv_files.specs.Outcome.{IsDueOrMemory};

use crate::check::{may_list, may_make, may_remove, may_write};
use crate::node::Node;
use crate::refusal::FileRefusal;
use crate::walk::{Nodes, next_in, why_missing};
use hv_text::{Bytes, Path};
use std::alloc::{AllocError, Global};
use std::collections::BTreeMap;
use std::marker::Model;

/// Folders and files in memory. Contracts see it as the map of its paths.
#[derive(Drop)]
pub struct FileTree {
    alloc: Global,
    nodes: Nodes,
}

impl Model for FileTree {
    ghost use Rattle.hv_files.specs.FileMap.{FileMap};
    ghost use Rattle.hv_files.specs.Tree.{IsTree};

    ghost Value = { FileMap };

    ghost view = { λ t. t.nodes.entries };

    ghost invariant = { λ t. IsTree t.nodes.entries };
}

/// A name as it is listed.
fn listed_name(alloc: Global, name: &[u8], node: &Node) -> Result<Bytes, AllocError>
    ensures { IfOk result (λ shown. shown ≡ listed name.now node.now) }
{
    let mut shown = Bytes::from_vec(Vec::from_slice(alloc, name)?);
    if let Node::Folder = node {
        shown.append(b"/")?;
    }
    Ok(shown)
}

/// The least path in the folder behind this name and all that lies below it.
fn cursor_behind(alloc: Global, folder: &Path, name: &[u8]) -> Result<Path, AllocError>
    ensures { IfOk result (λ cursor. cursor ≡ folder.now ++ (name.now ++ 0 ∷ []) ∷ []) }
{
    let mut next = Bytes::from_vec(Vec::from_slice(alloc, name)?);
    next.append(&[0])?;
    let mut cursor = folder.clone()?;
    cursor.push(next)?;
    Ok(cursor)
}

/// The names in a folder.
fn names_of_folder(alloc: Global, nodes: &Nodes, folder: &Path) -> Result<Vec<Bytes>, AllocError>
    requires { IsTree nodes.now.entries }
    ensures { IfOk result (λ names. names.items ≡ names_in nodes.now.entries folder.now) }
{
    let mut names = Vec::new(alloc);
    let mut cursor = folder.clone()?;
    cursor.push(Bytes::from_vec(Vec::new(alloc)))?;
    while let Some((name, node)) = next_in(nodes, folder, &cursor) {
        names.push(listed_name(alloc, name, node)?)?;
        cursor = cursor_behind(alloc, folder, name)?;
    }
    Ok(names)
}

/// Puts a node at a path. At `Err` nothing has changed.
fn put_node(nodes: &mut Nodes, path: &Path, node: Node) -> Result<(), AllocError>
    requires tree { IsTree nodes.old.entries }
    requires named { 0 < length path.now }
    requires here { IsOpen nodes.old.entries path.now }
    ensures ok { OnOk result (nodes.new.entries ≡ put path_cmp path.now node nodes.old.entries) }
    ensures err { OnErr result (nodes.new.entries ≡ nodes.old.entries) }
    ensures tree { IsTree nodes.new.entries }
{
    nodes.insert(path.clone()?, node)?;
    Ok(())
}

/// Takes away what stands at a path.
fn take_node(nodes: &mut Nodes, path: &Path)
    requires tree { IsTree nodes.old.entries }
    requires leaf { IsLeaf nodes.old.entries path.now }
    ensures entries { nodes.new.entries ≡ taken_out path.now nodes.old.entries }
    ensures tree { IsTree nodes.new.entries }
{
    nodes.remove(path);
}

impl FileTree {
    /// The root alone.
    pub fn new(alloc: Global) -> Result<FileTree, AllocError>
        ensures { IfOk result (λ tree. tree ≡ []) }
    {
        Ok(FileTree {
            alloc,
            nodes: BTreeMap::new(alloc),
        })
    }

    /// Makes a folder.
    pub fn mkdir(&mut self, path: &Path) -> Result<(), FileRefusal>
        requires { 0 < length path.now }
        ensures ok { OnOk result (made_folder self.old path.now ≡ Ok self.new) }
        ensures refused { IfErr result (IsDueOrMemory (made_folder self.old path.now)) }
        ensures err { OnErr result (self.new ≡ self.old) }
    {
        may_make(&self.nodes, path)?;
        put_node(&mut self.nodes, path, Node::Folder)?;
        Ok(())
    }

    /// Writes a file, in place of one that is there.
    pub fn put(&mut self, path: &Path, bytes: Bytes) -> Result<(), FileRefusal>
        requires { 0 < length path.now }
        ensures ok { OnOk result (with_file self.old path.now bytes ≡ Ok self.new) }
        ensures refused { IfErr result (IsDueOrMemory (with_file self.old path.now bytes)) }
        ensures err { OnErr result (self.new ≡ self.old) }
    {
        may_write(&self.nodes, path)?;
        put_node(&mut self.nodes, path, Node::Holds(bytes))?;
        Ok(())
    }

    /// The bytes of a file.
    pub fn get(&self, path: &Path) -> Result<&[u8], FileRefusal>
        ensures ok { IfOk result (λ bytes. read_file self.now path.now ≡ Ok bytes.now) }
        ensures refused { IfErr result (λ why. read_file self.now path.now ≡ Err why) }
        ensures no_memory { (e : AllocError) → result ≢ Err (FileRefusal.Memory e) }
    {
        if path.is_empty() {
            return Err(FileRefusal::IsDir);
        }
        match self.nodes.get(path) {
            Some(Node::Folder) => Err(FileRefusal::IsDir),
            Some(Node::Holds(bytes)) => Ok(bytes.as_slice()),
            None => Err(why_missing(&self.nodes, path)),
        }
    }

    /// The names in a folder, a slash behind a folder's.
    pub fn list(&self, path: &Path) -> Result<Vec<Bytes>, FileRefusal>
        ensures ok { IfOk result (λ names. list_folder self.now path.now ≡ Ok names.items) }
        ensures refused { IfErr result (IsDueOrMemory (list_folder self.now path.now)) }
    {
        may_list(&self.nodes, path)?;
        Ok(names_of_folder(self.alloc, &self.nodes, path)?)
    }

    /// Removes a file, or a folder with no entries.
    pub fn remove(&mut self, path: &Path) -> Result<(), FileRefusal>
        requires { 0 < length path.now }
        ensures ok { OnOk result (without self.old path.now ≡ Ok self.new) }
        ensures refused { IfErr result (λ why. without self.old path.now ≡ Err why) }
        ensures err { OnErr result (self.new ≡ self.old) }
        ensures no_memory { (e : AllocError) → result ≢ Err (FileRefusal.Memory e) }
    {
        may_remove(&self.nodes, path)?;
        take_node(&mut self.nodes, path);
        Ok(())
    }
}
