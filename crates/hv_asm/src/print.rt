//! The line that is printed for a word.
ghost use Rattle.std.specs.Prelude.{◌≡◌, ◌∷◌, ◌++◌, OnOk, OnErr};
ghost use Rattle.std.specs.Fmt.{signed_decimal};
ghost use Rattle.std.specs.List.{join_with_byte};
ghost use Rattle.hv_asm.specs.Line.{StandsFor, text_of, assembler_text};
ghost use Rattle.hv_asm.specs.Operand.{register_text, operand_text, operand_words};

use crate::operand::{Operand, Operands};
use crate::syntax::{name_of, operands_of};
use hv_isa::decode;
use hv_text::{Bytes, push_decimal, push_hex};
use std::alloc::{AllocError, Global};

fn push_register(alloc: Global, to: &mut Bytes, number: u8) -> Result<(), AllocError>
    ensures { OnOk result (to.new ≡ to.old ++ register_text number) }
{
    to.append(b"x")?;
    push_decimal(alloc, to, u64::from(number))
}

fn push_signed(alloc: Global, to: &mut Bytes, value: i64) -> Result<(), AllocError>
    ensures { OnOk result (to.new ≡ to.old ++ signed_decimal value) }
{
    let text = value.to_string(alloc)?;
    to.append(text.as_bytes())
}

fn push_operand(alloc: Global, to: &mut Bytes, operand: Operand) -> Result<(), AllocError>
    ensures { OnOk result (to.new ≡ to.old ++ operand_text operand) }
{
    match operand {
        Operand::Register(number) => push_register(alloc, to, number),
        Operand::Decimal(value) => push_signed(alloc, to, value),
        Operand::Hexadecimal(value) => {
            to.append(b"0x")?;
            push_hex(alloc, to, u64::from(value), 0)
        }
        Operand::Based(offset, base) => {
            push_signed(alloc, to, offset)?;
            to.append(b"(")?;
            push_register(alloc, to, base)?;
            to.append(b")")
        }
    }
}

fn push_syntax(
    alloc: Global,
    to: &mut Bytes,
    name: &str,
    operands: Operands,
) -> Result<(), AllocError>
    ensures { OnOk result (to.new ≡ to.old ++ join_with_byte 32 (name.now ∷ operand_words operands)) }
{
    to.append(name.as_bytes())?;
    match operands {
        Operands::Nothing => Ok(()),
        Operands::One(one) => {
            to.append(b" ")?;
            push_operand(alloc, to, one)
        }
        Operands::Two(one, two) => {
            to.append(b" ")?;
            push_operand(alloc, to, one)?;
            to.append(b", ")?;
            push_operand(alloc, to, two)
        }
        Operands::Three(one, two, three) => {
            to.append(b" ")?;
            push_operand(alloc, to, one)?;
            to.append(b", ")?;
            push_operand(alloc, to, two)?;
            to.append(b", ")?;
            push_operand(alloc, to, three)
        }
    }
}

fn push_word(alloc: Global, to: &mut Bytes, word: u32) -> Result<(), AllocError>
    ensures text { OnOk result (to.new ≡ to.old ++ assembler_text word) }
    ensures reads_back { StandsFor (assembler_text word) word }
{
    match decode(word) {
        Some(inst) => push_syntax(alloc, to, name_of(inst), operands_of(inst)),
        None => {
            to.append(b".word 0x")?;
            push_hex(alloc, to, u64::from(word), 8)
        }
    }
}

/// Adds the line of a word, without an end of line. At `Err` nothing has changed.
pub fn print_asm(alloc: Global, to: &mut Bytes, word: u32) -> Result<(), AllocError>
    ensures ok { OnOk result (to.new ≡ to.old ++ assembler_text word) }
    ensures err { OnErr result (to.new ≡ to.old) }

    // The line that is printed is read as the word.
    ensures reads_back { StandsFor (assembler_text word) word }
{
    let mut line = Bytes::from_vec(Vec::new(alloc));
    push_word(alloc, &mut line, word)?;
    to.append(line.as_slice())
}
