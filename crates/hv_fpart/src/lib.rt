//! The files' part of a step: its change of the file tree, and its reply.
#![tactic(auto)]

ghost use Rattle.std.specs.Prelude.{◌≡◌, ◌<◌, length, IfOk, OnOk, OnErr, Ok, map};
ghost use Rattle.hv_model.specs.Entry.{nothing};
ghost use Rattle.hv_model.specs.Files.{FilesAgree, AnswersSource, AnswersText, AnswersAssembly, image_written, files_after, answered, done, changed};
ghost use Rattle.hv_step.specs.declared.step.Step.TheVariants as step;
ghost use Rattle.hv_answer.specs.declared.reply.Reply.TheVariants as reply;
ghost use Rattle.hv_files.specs.FileMap.{read_file, list_folder, made_folder, with_file, without};
ghost use Rattle.hv_fpart.specs.Part.{IsFilesStep, IsShownAs};

#[cfg(test)]
mod tests;

use hv_asm::{AsmRefusal, assemble};
use hv_dts::{DtsRefusal, read_dts};
use hv_event::{Refusal, Reply, Step};
use hv_files::{FileRefusal, FileTree};
use hv_text::{Bytes, Path, Strings};
use std::alloc::{AllocError, Global};

/// A refusal of the files as a reply shows it, or want of memory.
fn shown(refusal: FileRefusal) -> Result<Refusal, AllocError>
    ensures { IfOk result (λ why. IsShownAs refusal why) }
{
    match refusal {
        FileRefusal::NoEntry => Ok(Refusal::NoEntry),
        FileRefusal::NotDir => Ok(Refusal::NotDir),
        FileRefusal::IsDir => Ok(Refusal::IsDir),
        FileRefusal::Exists => Ok(Refusal::Exists),
        FileRefusal::NotEmpty => Ok(Refusal::NotEmpty),
        FileRefusal::Memory(error) => Err(error),
    }
}

fn listed(files: &FileTree, path: &Path) -> Result<Result<Strings, Refusal>, AllocError>
    ensures { IfOk result (λ answer. answer ≡ answered (list_folder files.now path.now)) }
{
    match files.list(path) {
        Ok(names) => Ok(Ok(Strings::from_vec(names))),
        Err(refusal) => Ok(Err(shown(refusal)?)),
    }
}

/// The bytes of a file, copied, or why there are none.
pub fn read_part(
    alloc: Global,
    files: &FileTree,
    path: &Path,
) -> Result<Result<Bytes, Refusal>, AllocError>
    ensures { IfOk result (λ answer. answer ≡ answered (read_file files.now path.now)) }
{
    match files.get(path) {
        Ok(bytes) => Ok(Ok(Bytes::from_vec(Vec::from_slice(alloc, bytes)?))),
        Err(refusal) => Ok(Err(shown(refusal)?)),
    }
}

/// What a text is answered that may be a device tree source.
fn source_answer(alloc: Global, text: &[u8]) -> Result<Result<Bytes, Refusal>, AllocError>
    ensures { IfOk result (AnswersSource (Ok text.now)) }
{
    let offset = match read_dts(alloc, text) {
        Ok(_) => return Ok(Ok(Bytes::from_vec(Vec::from_slice(alloc, text)?))),
        Err(DtsRefusal::BadToken(offset)) => offset,
        Err(DtsRefusal::Unexpected(offset)) => offset,
        Err(DtsRefusal::TwiceNamed(offset)) => offset,
        Err(DtsRefusal::BadPhandle(offset)) => offset,
        Err(DtsRefusal::NoLabel(offset)) => offset,
        Err(DtsRefusal::Memory(error)) => return Err(error),
    };
    Ok(Err(Refusal::BadTree(offset as u64)))
}

/// The bytes of a device tree source, copied, or why there are none.
fn source_part(
    alloc: Global,
    files: &FileTree,
    path: &Path,
) -> Result<Result<Bytes, Refusal>, AllocError>
    ensures { IfOk result (AnswersSource (read_file files.now path.now)) }
{
    match files.get(path) {
        Ok(text) => source_answer(alloc, text),
        Err(refusal) => Ok(Err(shown(refusal)?)),
    }
}

fn folder_made(files: &mut FileTree, path: &Path) -> Result<Result<(), Refusal>, AllocError>
    requires { 0 < length path.now }
    ensures answer { IfOk result (λ answer. answer ≡ done (made_folder files.old path.now)) }
    ensures after { OnOk result (files.new ≡ changed files.old (made_folder files.old path.now)) }
    ensures err { OnErr result (files.new ≡ files.old) }
{
    match files.mkdir(path) {
        Ok(()) => Ok(Ok(())),
        Err(refusal) => Ok(Err(shown(refusal)?)),
    }
}

fn removed(files: &mut FileTree, path: &Path) -> Result<Result<(), Refusal>, AllocError>
    requires { 0 < length path.now }
    ensures answer { IfOk result (λ answer. answer ≡ done (without files.old path.now)) }
    ensures after { OnOk result (files.new ≡ changed files.old (without files.old path.now)) }
    ensures err { OnErr result (files.new ≡ files.old) }
{
    match files.remove(path) {
        Ok(()) => Ok(Ok(())),
        Err(refusal) => Ok(Err(shown(refusal)?)),
    }
}

fn written(
    files: &mut FileTree,
    path: &Path,
    bytes: Bytes,
) -> Result<Result<(), Refusal>, AllocError>
    requires { 0 < length path.now }
    ensures answer { IfOk result (λ answer.
        answer ≡ done (with_file files.old path.now bytes)) }
    ensures after { OnOk result (
        files.new ≡ changed files.old (with_file files.old path.now bytes)) }
    ensures err { OnErr result (files.new ≡ files.old) }
{
    match files.put(path, bytes) {
        Ok(()) => Ok(Ok(())),
        Err(refusal) => Ok(Err(shown(refusal)?)),
    }
}

/// Writes the image of a file's text, and counts its words.
fn assembled(
    alloc: Global,
    files: &mut FileTree,
    source: &Path,
    target: &Path,
) -> Result<Result<u64, Refusal>, AllocError>
    requires { 0 < length target.now }
    ensures answer { IfOk result (AnswersAssembly files.old (read_file files.old source.now) target.now) }
    ensures after { IfOk result (λ answer.
        files.new ≡ files_after files.old (step.Asm (record { source = source.now; target = target.now })) (reply.Asm answer)) }
    ensures err { OnErr result (files.new ≡ files.old) }
{
    let image = match files.get(source) {
        Ok(text) => assemble(alloc, text),
        Err(refusal) => return Ok(Err(shown(refusal)?)),
    };
    let image = match image {
        Ok(image) => image,
        Err(AsmRefusal::BadAsm(number)) => return Ok(Err(Refusal::BadAsm(number as u64))),
        Err(AsmRefusal::Memory(error)) => return Err(error),
    };
    let count = image.as_slice().len() / 4;
    match written(files, target, image)? {
        Ok(()) => Ok(Ok(count as u64)),
        Err(why) => Ok(Err(why)),
    }
}

/// Makes the change of a step on the files, and gives the reply that they give to it. At `Err`
/// the files are as before.
pub fn files_part(alloc: Global, files: &mut FileTree, step: &Step) -> Result<Reply, AllocError>
    requires { IsFilesStep step.now }
    ensures reply { IfOk result (λ reply. FilesAgree files.old step.now reply nothing) }
    ensures after { IfOk result (λ reply. files.new ≡ files_after files.old step.now reply) }
    ensures err { OnErr result (files.new ≡ files.old) }
{
    match step {
        Step::Ls(ls) => Ok(Reply::Ls(listed(files, &ls.path)?)),
        Step::Cat(cat) => Ok(Reply::Cat(read_part(alloc, files, &cat.path)?)),
        Step::Dts(dts) => Ok(Reply::Dts(source_part(alloc, files, &dts.path)?)),
        Step::Mkdir(mkdir) => Ok(Reply::Mkdir(folder_made(files, &mkdir.path)?)),
        Step::Rm(rm) => Ok(Reply::Rm(removed(files, &rm.path)?)),
        Step::Write(write) => {
            let bytes = write.bytes.clone()?;
            Ok(Reply::Write(written(files, &write.path, bytes)?))
        }
        Step::Asm(asm) => Ok(Reply::Asm(assembled(alloc, files, &asm.source, &asm.target)?)),
        Step::Bad(_)
        | Step::Rest(_)
        | Step::Run(_)
        | Step::Guests(_)
        | Step::Name(_)
        | Step::Stage(_)
        | Step::Add(_)
        | Step::Drop(_)
        | Step::Regions(_)
        | Step::Load(_)
        | Step::Mem(_)
        | Step::Devreset(_)
        | Step::Feed(_)
        | Step::Output(_)
        | Step::Vadd(_)
        | Step::Vdrop(_)
        | Step::Kick(_)
        | Step::Resume(_)
        | Step::Pause(_)
        | Step::Halt(_)
        | Step::Reset(_)
        | Step::Look(_)
        | Step::Tick(_)
        | Step::Idle(_)
        | Step::Dispatch(_)
        | Step::Preempt(_)
        | Step::Leave(_)
        | Step::Take(_)
        | Step::Fetch(_)
        | Step::Access(_)
        | Step::Fault(_)
        | Step::Balance(_)
        | Step::Sample(_)
        | Step::Pin(_) => unreachable!(),
    }
}
