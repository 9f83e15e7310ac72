//! A bundle that is read, with what a run and a check need of it.
ghost use Rattle.std.specs.Prelude.{◌≡◌, ◌∷◌, ◌++◌, [], List, Ok, Err, IfOk, OnOk, IfErr, IfSome};
ghost use Rattle.std.specs.Option.{option_copied};
ghost use Rattle.hv_base.specs.Count.{Rose};
ghost use Rattle.hv_bundle.specs.declared.file.File.{File};
ghost use Rattle.hv_bundle.specs.Bundle.{AreFitting};
ghost use Rattle.hv_files.specs.FileMap.{read_file};
ghost use Rattle.hv_host.specs.Boards.{Says};
ghost use Rattle.hv_model.specs.Files.{load_files};
ghost use Rattle.xvsim.specs.Opening.{script_of, scripts_of, found, host_path};
ghost use Rattle.xvsim.specs.Limits.{AreWithinLimits};
ghost use Rattle.xvsim.specs.Refusal.{IsDueForFiles, IsDueForBytes};
ghost use Rattle.xvsim.specs.Input.{IsWhole, IsAllOf};

use crate::limits::{MOST_BYTES, check_lines, check_sizes};
use crate::refusal::InputRefusal;
use hv_base::{ReadEnd, Source, read_all};
use hv_bundle::{BundleRefusal, File, read_bundle};
use hv_files::FileTree;
use hv_host::{Board, BoardRefusal, read_board};
use hv_kinds::LimitName;
use hv_load::load_tree;
use hv_text::{Bytes, Path};
use std::alloc::{AllocError, Global};

/// A bundle that is read.
#[derive(Drop)]
pub struct Input {
    /// How many bytes it has.
    pub size: usize,
    pub files: Vec<File>,
    /// The tree of its files.
    pub tree: FileTree,
    /// The boot script, and then those of Terminal 0 upwards.
    pub scripts: Vec<Bytes>,
    /// What its host tree says.
    pub board: Board,
}

/// The path of this one name.
fn named(alloc: Global, name: &[u8]) -> Result<Path, AllocError>
    ensures { IfOk result (λ path. path ≡ name.now ∷ []) }
{
    let mut path = Path::root(alloc);
    path.push(Bytes::from_vec(Vec::from_slice(alloc, name)?))?;
    Ok(path)
}

/// The script of this name, empty where there is none.
#[tactic(auto, unfolding(crate::specs::Opening::script_of))]
fn script_in(alloc: Global, tree: &FileTree, name: &[u8]) -> Result<Bytes, AllocError>
    ensures { IfOk result (λ script. script ≡ script_of tree.now name.now) }
{
    let path = named(alloc, name)?;
    match tree.get(&path) {
        Ok(bytes) => Ok(Bytes::from_vec(Vec::from_slice(alloc, bytes)?)),
        Err(_) => Ok(Bytes::from_vec(Vec::new(alloc))),
    }
}

fn push_script(
    alloc: Global,
    scripts: &mut Vec<Bytes>,
    tree: &FileTree,
    name: &[u8],
) -> Result<(), AllocError>
    ensures { OnOk result (scripts.new.items ≡ scripts.old.items ++ script_of tree.now name.now ∷ []) }
{
    scripts.push(script_in(alloc, tree, name)?)?;
    Ok(())
}

/// The boot script and those of the terminals.
fn scripts_in(alloc: Global, tree: &FileTree) -> Result<Vec<Bytes>, AllocError>
    ensures { IfOk result (λ scripts. scripts.items ≡ scripts_of tree.now) }
{
    let mut scripts = Vec::new(alloc);
    push_script(alloc, &mut scripts, tree, b"boot.xscript")?;
    push_script(alloc, &mut scripts, tree, b"term0.xscript")?;
    push_script(alloc, &mut scripts, tree, b"term1.xscript")?;
    push_script(alloc, &mut scripts, tree, b"term2.xscript")?;
    push_script(alloc, &mut scripts, tree, b"term3.xscript")?;
    Ok(scripts)
}

/// The text of the host tree, where it is there.
fn host_text<'a>(alloc: Global, tree: &'a FileTree) -> Result<Option<&'a [u8]>, AllocError>
    ensures { IfOk result (λ text. option_copied text ≡ found (read_file tree.now host_path)) }
{
    let path = named(alloc, b"host.dts")?;
    match tree.get(&path) {
        Ok(text) => Ok(Some(text)),
        Err(_) => Ok(None),
    }
}

/// The board that the files have.
fn board_in(alloc: Global, tree: &FileTree) -> Result<Board, InputRefusal>
    ensures ok { IfOk result (λ board. Says (found (read_file tree.now host_path)) (Ok board)) }
    ensures refused { (files : List File) → tree.now ≡ load_files files → AreWithinLimits files
        → IfErr result (IsDueForFiles files) }
{
    match read_board(alloc, host_text(alloc, tree)?) {
        Ok(board) => Ok(board),
        Err(BoardRefusal::BadTree(offset)) => Err(InputRefusal::BadTree(offset)),
        Err(BoardRefusal::Limit(name, number)) => Err(InputRefusal::Limit(name, number)),
        Err(BoardRefusal::BadHost(path)) => Err(InputRefusal::BadHost(path)),
        Err(BoardRefusal::Memory(error)) => Err(InputRefusal::Memory(error)),
    }
}

/// The files of a bundle of so many bytes, with all that a run and a check need.
fn input_of(alloc: Global, files: Vec<File>, size: usize) -> Result<Input, InputRefusal>
    requires { AreFitting [] files.items }
    ensures whole { IfOk result IsWhole }
    ensures files { IfOk result (λ input. input.files.items ≡ files.items) }
    ensures size { IfOk result (λ input. input.size ≡ size) }
    ensures refused { IfErr result (IsDueForFiles files.items) }
{
    check_sizes(&files)?;
    let tree = load_tree(alloc, &files)?;
    let scripts = scripts_in(alloc, &tree)?;
    check_lines(&files, &scripts)?;
    let board = board_in(alloc, &tree)?;
    Ok(Input {
        size,
        files,
        tree,
        scripts,
        board,
    })
}

/// Reads a bundle to the end of a source.
pub fn read_input<S: Source>(alloc: Global, source: &mut S) -> Result<Input, InputRefusal>
    ensures whole { IfOk result IsWhole }
    ensures all { IfOk result
        (IsAllOf (S.left source.old) (S.left source.new) (S.ended source.new)) }
    ensures due { IfErr result (λ why. IfSome (S.left source.old) (λ bytes. IsDueForBytes bytes why)) }
    ensures read_fault { result ≡ Err InputRefusal.ReadFault
        → Rose (S.faults source.old) (S.faults source.new) }
{
    let bytes = match read_all(alloc, source, MOST_BYTES) {
        Ok(bytes) => bytes,
        Err(ReadEnd::Fault) => return Err(InputRefusal::ReadFault),
        Err(ReadEnd::TooMany) => {
            return Err(InputRefusal::Limit(LimitName::Bytes, MOST_BYTES as u64 + 1));
        }
        Err(ReadEnd::Memory(error)) => return Err(InputRefusal::Memory(error)),
    };
    let files = match read_bundle(alloc, &bytes) {
        Ok(files) => files,
        Err(BundleRefusal::BadBundle(offset)) => return Err(InputRefusal::BadBundle(offset)),
        Err(BundleRefusal::Memory(error)) => return Err(InputRefusal::Memory(error)),
    };
    let size = bytes.len();
    drop(bytes);
    input_of(alloc, files, size)
}
