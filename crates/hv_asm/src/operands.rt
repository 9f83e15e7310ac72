//! The operands of a line, read.
ghost use Rattle.std.specs.Prelude.{◌≡◌, Some, IfSome};
ghost use Rattle.hv_asm.specs.Line.{words};
ghost use Rattle.hv_asm.specs.Operand.{Spells, AreSpelled};
ghost use Rattle.hv_asm.specs.Reading.{HasRegisters, HaveRegisters, IsBeforeComma, as_read, all_as_read};
ghost use Rattle.hv_asm.specs.declared.operand.Operand.{Operand};
ghost use Rattle.hv_asm.specs.declared.operand.Operands.{Operands};

use crate::number::{read_register, read_value};
use crate::operand::{Operand, Operands};
use crate::word::next_word;
use hv_text::{strip_end, word_at};

/// The operand that a word spells.
fn read_operand(text: &[u8]) -> Option<Operand>
    ensures spelled { IfSome result (λ o. HasRegisters o × Spells o text.now) }
    ensures exact { (o : Operand) → HasRegisters o → Spells o text.now → result ≡ Some (as_read o) }
{
    match word_at(text, b'(') {
        Some((front, behind)) => {
            let base = read_register(strip_end(behind, b")")?)?;
            let offset = read_value(front)?;
            Some(Operand::Based(offset, base))
        }
        None => match read_register(text) {
            Some(number) => Some(Operand::Register(number)),
            None => match read_value(text) {
                Some(value) => Some(Operand::Decimal(value)),
                None => None,
            },
        },
    }
}

/// The operand that a word spells before its comma.
fn read_before_comma(word: &[u8]) -> Option<Operand>
    ensures spelled { IfSome result (λ o. HasRegisters o × IsBeforeComma o word.now) }
    ensures exact { (o : Operand) → HasRegisters o → IsBeforeComma o word.now → result ≡ Some (as_read o) }
{
    read_operand(strip_end(word, b",")?)
}

/// The operands that the words of a text spell.
pub(crate) fn read_operands(text: &[u8]) -> Option<Operands>
    ensures spelled { IfSome result (λ os. HaveRegisters os × AreSpelled os (words text.now)) }
    ensures exact { (os : Operands)
        → HaveRegisters os → AreSpelled os (words text.now) → result ≡ Some (all_as_read os) }
{
    let Some((first, behind)) = next_word(text) else {
        return Some(Operands::Nothing);
    };
    let Some((second, behind)) = next_word(behind) else {
        return Some(Operands::One(read_operand(first)?));
    };
    let one = read_before_comma(first)?;
    let Some((third, behind)) = next_word(behind) else {
        return Some(Operands::Two(one, read_operand(second)?));
    };
    let two = read_before_comma(second)?;
    match next_word(behind) {
        Some(_) => None,
        None => Some(Operands::Three(one, two, read_operand(third)?)),
    }
}
