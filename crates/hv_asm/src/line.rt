//! The word that a line stands for.
ghost use Rattle.std.specs.Prelude.{◌≡◌, ◌↔◌, ℕ, ◌<◌, ◌^◌, pos, Option, IfSome, IfOk, IsErr, Some, Ok};
ghost use Rattle.hv_asm.specs.Line.{words, without_comment, Give, Gives, IsBadLine};
ghost use Rattle.hv_asm.specs.Reading.{HaveRegisters, IsWordOf};

use crate::forms::instruction;
use crate::operand::{Operand, Operands};
use crate::operands::read_operands;
use crate::refusal::BadLineAsm;
use crate::word::next_word;
use hv_isa::encode;
use hv_text::front_len;

/// The word that is written by its number.
fn literal(operands: Operands) -> Option<u32>
    ensures word { IfSome result (λ word. operands ≡ Operands.One (Operand.Decimal (pos word))) }
    ensures exact { (word : ℕ) → word < 2 ^ 32
        → operands ≡ Operands.One (Operand.Decimal (pos word)) → result ≡ Some word }
{
    match operands {
        Operands::One(Operand::Decimal(value)) if 0 <= value && value < 0x1_0000_0000 => {
            Some(value as u32)
        }
        _ => None,
    }
}

/// The word of a name and operands.
fn word_of(name: &[u8], operands: Operands) -> Option<u32>
    requires { HaveRegisters operands }
    ensures word { IfSome result (λ word. IsWordOf name.now operands word) }
    ensures exact { (word : ℕ) → IsWordOf name.now operands word → result ≡ Some word }
{
    if name == b".word".as_slice() {
        return literal(operands);
    }
    match instruction(name, operands) {
        Some(inst) => Some(encode(inst)),
        None => None,
    }
}

/// What precedes the first `#` of a line.
fn without_comment(line: &[u8]) -> &[u8]
    ensures { result.now ≡ without_comment line.now }
{
    line.split_at(front_len(line, b'#')).0
}

/// The word that the words of a text spell.
fn read_words(text: &[u8]) -> Result<Option<u32>, BadLineAsm>
    ensures given { IfOk result (λ answer. Give (words text.now) answer) }
    ensures exact { (answer : Option ℕ) → Give (words text.now) answer → result ≡ Ok answer }
{
    let Some((name, behind)) = next_word(text) else {
        return Ok(None);
    };
    let Some(operands) = read_operands(behind) else {
        return Err(BadLineAsm);
    };
    match word_of(name, operands) {
        Some(word) => Ok(Some(word)),
        None => Err(BadLineAsm),
    }
}

/// The word that a line stands for, or None for a blank line or a comment.
pub fn read_asm(line: &[u8]) -> Result<Option<u32>, BadLineAsm>
    ensures given { IfOk result (λ answer. Gives line.now answer) }

    // A line gives one answer at most.
    ensures exact { (answer : Option ℕ) → Gives line.now answer → result ≡ Ok answer }

    ensures bad { IsErr result ↔ IsBadLine line.now }
{
    read_words(without_comment(line))
}
