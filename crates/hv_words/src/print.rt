//! Commands printed as lines.
ghost use Rattle.std.specs.Prelude.{◌≡◌, ◌++◌, List, ℕ, OnOk, IfOk};
ghost use Rattle.std.specs.Fmt.{decimal};
ghost use Rattle.std.specs.List.{flat_map};
ghost use Rattle.hv_text.specs.Path.{path_text};
ghost use Rattle.hv_words.specs.Commands.{Gives};
ghost use Rattle.hv_words.specs.Print.{byte_text, command_text};

use crate::command::Command;
use hv_text::{Bytes, Path, hex_digit, push_decimal};
use std::alloc::{AllocError, Global};

fn push_byte(to: &mut Bytes, byte: u8) -> Result<(), AllocError>
    ensures { OnOk result (to.new ≡ to.old ++ byte_text byte) }
{
    if byte == b'\\' {
        return to.append(b"\\\\");
    }
    if byte == b'\n' {
        return to.append(b"\\n");
    }
    if byte == b' ' {
        return to.append(b"\\s");
    }
    if byte.is_ascii_graphic() {
        return to.append(&[byte]);
    }
    to.append(&[b'\\', b'x', hex_digit(byte / 16), hex_digit(byte % 16)])
}

/// Writes bytes as a text that spells them.
pub fn push_text(to: &mut Bytes, bytes: &[u8]) -> Result<(), AllocError>
    ensures { OnOk result (to.new ≡ to.old ++ flat_map byte_text bytes.now) }
{
    for byte in bytes {
        push_byte(to, *byte)?;
    }
    Ok(())
}

fn path_line(alloc: Global, words: &[u8], path: &Path) -> Result<Bytes, AllocError>
    ensures { IfOk result (λ line. line ≡ words.now ++ path_text path.now) }
{
    let mut line = Bytes::from_vec(Vec::from_slice(alloc, words)?);
    line.append(path.text(alloc)?.as_slice())?;
    Ok(line)
}

fn write_line(alloc: Global, path: &Path, text: &Bytes) -> Result<Bytes, AllocError>
    ensures { IfOk result (λ line. line ≡ command_text (Command.VfsWrite path.now text.now)) }
{
    let mut line = path_line(alloc, b"vfs write ", path)?;
    line.append(b" ")?;
    push_text(&mut line, text.as_slice())?;
    Ok(line)
}

fn asm_line(alloc: Global, source: &Path, target: &Path) -> Result<Bytes, AllocError>
    ensures { IfOk result (λ line. line ≡ command_text (Command.VfsAsm source.now target.now)) }
{
    let mut line = path_line(alloc, b"vfs asm ", source)?;
    line.append(b" ")?;
    line.append(target.text(alloc)?.as_slice())?;
    Ok(line)
}

fn rest_line(alloc: Global, count: u64) -> Result<Bytes, AllocError>
    ensures { IfOk result (λ line. line ≡ command_text (Command.TermRest count)) }
{
    let mut line = Bytes::from_vec(Vec::from_slice(alloc, b"term rest ")?);
    push_decimal(alloc, &mut line, count)?;
    Ok(line)
}

fn line_of(alloc: Global, command: &Command) -> Result<Bytes, AllocError>
    ensures { IfOk result (λ line. line ≡ command_text command.now) }
{
    match command {
        Command::VfsLs(path) => path_line(alloc, b"vfs ls ", path),
        Command::VfsCat(path) => path_line(alloc, b"vfs cat ", path),
        Command::VfsDts(path) => path_line(alloc, b"vfs dts ", path),
        Command::VfsMkdir(path) => path_line(alloc, b"vfs mkdir ", path),
        Command::VfsRm(path) => path_line(alloc, b"vfs rm ", path),
        Command::VfsWrite(path, text) => write_line(alloc, path, text),
        Command::VfsAsm(source, target) => asm_line(alloc, source, target),
        Command::VfsRun(path) => path_line(alloc, b"vfs run ", path),
        Command::TermRest(count) => rest_line(alloc, *count),
    }
}

/// The line of a command.
pub fn print_command(alloc: Global, command: &Command) -> Result<Bytes, AllocError>
    ensures text { IfOk result (λ line. line ≡ command_text command.now) }

    // What some line gives is given by the printed line too.
    ensures reads_back { IfOk result (λ line.
        (other : List ℕ) → Gives other command.now → Gives line command.now) }
{
    line_of(alloc, command)
}
