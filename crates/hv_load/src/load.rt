//! A bundle's files, one after the other, each with the folders on its way.
ghost use Rattle.std.specs.Prelude.{◌≡◌, ◌<◌, ◌++◌, ◌∷◌, [], Err, length, slice_index_or, IsTrue, IfOk, OnOk};
ghost use Rattle.std.specs.FinMap.{put, is_sorted};
ghost use Rattle.hv_bundle.specs.Bundle.{AreFitting};
ghost use Rattle.hv_files.specs.FileMap.{path_cmp, with_way, read_file};
ghost use Rattle.hv_files.specs.declared.node.Node.TheVariants.{Folder, Holds};
ghost use Rattle.hv_files.specs.declared.refusal.FileRefusal.TheVariants.{IsDir};
ghost use Rattle.hv_model.specs.Files.{load_files};

use hv_bundle::File;
use hv_files::{FileRefusal, FileTree};
use hv_text::{Bytes, Path};
use std::alloc::{AllocError, Global};

fn is_folder(tree: &FileTree, path: &Path) -> bool
    ensures { IsTrue result → read_file tree.now path.now ≡ Err IsDir }
{
    matches!(tree.get(path), Err(FileRefusal::IsDir))
}

/// Makes a folder, unless it is there.
fn make_folder(tree: &mut FileTree, path: &Path) -> Result<(), AllocError>
    requires named { 0 < length path.now }
    requires sorted { IsTrue (is_sorted path_cmp tree.old) }
    ensures { OnOk result (tree.new ≡ put path_cmp path.now Folder tree.old) }
{
    if is_folder(tree, path) {
        return Ok(());
    }
    match tree.mkdir(path) {
        Ok(()) => Ok(()),
        Err(_) => Err(AllocError),
    }
}

fn write_file(tree: &mut FileTree, path: &Path, bytes: Bytes) -> Result<(), AllocError>
    requires { 0 < length path.now }
    ensures { OnOk result (tree.new ≡ put path_cmp path.now (Holds bytes) tree.old) }
{
    match tree.put(path, bytes) {
        Ok(()) => Ok(()),
        Err(_) => Err(AllocError),
    }
}

fn push_name(alloc: Global, front: &mut Path, path: &Path, place: usize) -> Result<(), AllocError>
    requires { place < length path.now }
    ensures { OnOk result (front.new ≡ front.old ++ slice_index_or path.now place [] ∷ []) }
{
    match path.at(place) {
        Some(name) => front.push(Bytes::from_vec(Vec::from_slice(alloc, name)?)),
        None => Ok(()),
    }
}

/// Adds a file, with the folders on its way.
fn add_file(alloc: Global, tree: &mut FileTree, path: &Path, bytes: &[u8]) -> Result<(), AllocError>
    requires named { 0 < length path.now }
    requires sorted { IsTrue (is_sorted path_cmp tree.old) }
    ensures { OnOk result (tree.new ≡ with_way tree.old path.now bytes.now) }
{
    let held = Bytes::from_vec(Vec::from_slice(alloc, bytes)?);
    let mut front = Path::root(alloc);
    for place in 0..path.len() - 1 {
        push_name(alloc, &mut front, path, place)?;
        make_folder(tree, &front)?;
    }
    write_file(tree, path, held)?;
    Ok(())
}

/// The tree of these files.
pub fn load_tree(alloc: Global, files: &[File]) -> Result<FileTree, AllocError>
    requires { AreFitting [] files.now }
    ensures { IfOk result (λ tree. tree ≡ load_files files.now) }
{
    let mut tree = FileTree::new(alloc)?;
    for file in files {
        add_file(alloc, &mut tree, &file.path, file.bytes.as_slice())?;
    }
    Ok(tree)
}
