//! The bytes that a text assembles to.
ghost use Rattle.std.specs.Prelude.{◌≡◌, ◌++◌, ℕ, List, Ok, Err, IfErr, OnOk};
ghost use Rattle.byteorder.specs.Endian.{little_bytes};
ghost use Rattle.hv_asm.specs.Assembly.{IsAssembled, HasBadLine, Says, IsUnlessMemory};
ghost use Rattle.hv_asm.specs.Adding.{AddsLine, IsRefusedAt};

use crate::line::read_asm;
use crate::refusal::AsmRefusal;
use byteorder::{ByteOrder, LittleEndian};
use hv_text::{Bytes, line_at};
use std::alloc::{AllocError, Global};

/// Adds a word, its lowest byte first.
fn push_word(to: &mut Bytes, word: u32) -> Result<(), AllocError>
    ensures { OnOk result (to.new ≡ to.old ++ little_bytes 4 word) }
{
    let mut bytes = [0u8; 4];
    LittleEndian::write_u32(&mut bytes, word);
    to.append(&bytes)
}

/// Adds the word of a line with a number, where it gives one.
fn push_line(to: &mut Bytes, line: &[u8], number: usize) -> Result<(), AsmRefusal>
    ensures ok { OnOk result (AddsLine line.now to.old to.new) }
    ensures refused { IfErr result (λ e. IsRefusedAt line.now number e) }
{
    match read_asm(line) {
        Ok(Some(word)) => push_word(to, word).map_err(AsmRefusal::Memory),
        Ok(None) => Ok(()),
        Err(_) => Err(AsmRefusal::BadAsm(number)),
    }
}

fn assemble_lines(alloc: Global, text: &[u8]) -> Result<Bytes, AsmRefusal>
    ensures { Says text.now result }
{
    let mut bytes = Bytes::from_vec(Vec::new(alloc));
    let mut from = 0;
    let mut number = 0;
    while let Some((start, end, next)) = line_at(text, from) {
        number += 1;
        push_line(&mut bytes, &text[start..end], number)?;
        from = next;
    }
    Ok(bytes)
}

/// The words of the lines of a text, each with its lowest byte first.
pub fn assemble(alloc: Global, text: &[u8]) -> Result<Bytes, AsmRefusal>
    ensures given { Says text.now result }

    // A text assembles to these bytes alone, or has this first bad line.
    ensures bytes { (bytes : List ℕ) → IsAssembled text.now bytes → IsUnlessMemory result (Ok bytes) }

    ensures bad { (number : ℕ)
        → HasBadLine text.now number → IsUnlessMemory result (Err (AsmRefusal.BadAsm number)) }
{
    assemble_lines(alloc, text)
}
