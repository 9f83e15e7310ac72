//! Looks read from their words.
ghost use Rattle.std.specs.Prelude.{◌≡◌, ◌≢◌, List, ℕ, length, MatchOption, MatchResult};
ghost use Rattle.hv_data.specs.Data.{HaveNoSpace};
ghost use Rattle.hv_data.specs.Reading.{AreWordsOf, Because, ReadsWords};
ghost use Rattle.hv_look.specs.declared.look.Csrs.{Csrs};
ghost use Rattle.hv_look.specs.declared.look.Registers.{Registers};
ghost use Rattle.hv_look.specs.declared.look.Look.{Look};
ghost use Rattle.hv_look.specs.Look.{csr_values, register_values, values_words, registers_words, sliced_words, look_words};
ghost use Rattle.hv_look.specs.Look.{AreNumbers, IsRegisters, IsSliced, IsLook};

use crate::look::{Csrs, Look, Registers};
use hv_data::{WordRefusal, address_word, take_number, take_number8, take_state};
use hv_text::Bytes;
use std::alloc::Global;

/// The values of words.
fn read_values(alloc: Global, words: &[Bytes]) -> Result<Vec<u64>, WordRefusal>
    ensures { MatchResult result
        (λ values. AreWordsOf AreNumbers values_words words.now values.items)
        (λ e. Because e ((values : List ℕ) → AreWordsOf AreNumbers values_words words.now values → ⊥)) }
{
    let mut values = Vec::new(alloc);
    for word in words {
        values.push(address_word(alloc, word.as_slice())?)?;
    }
    Ok(values)
}

/// The control and status registers of seven values.
fn csrs_of(values: &[u64]) -> Option<Csrs>
    ensures { MatchOption result
        ((csrs : Csrs) → values.now ≢ csr_values csrs)
        (λ csrs. values.now ≡ csr_values csrs) }
{
    let [mstatus, mie, mtvec, mscratch, mepc, mcause, mtval] = values else {
        return None;
    };
    Some(Csrs {
        mstatus: *mstatus,
        mie: *mie,
        mtvec: *mtvec,
        mscratch: *mscratch,
        mepc: *mepc,
        mcause: *mcause,
        mtval: *mtval,
    })
}

/// The registers of 39 values.
fn registers_of(values: &[u64]) -> Option<Registers>
    ensures { MatchOption result
        ((registers : Registers) → length registers.x ≡ 31 → values.now ≢ register_values registers)
        (λ registers. (length registers.x ≡ 31) × (values.now ≡ register_values registers)) }
{
    let (pc, rest) = values.split_first()?;
    if rest.len() < 31 {
        return None;
    }
    let (front, back) = rest.split_at(31);
    let csrs = csrs_of(back)?;
    let mut x = [0u64; 31];
    x.copy_from_slice(front);
    Some(Registers { pc: *pc, x, csrs })
}

/// The registers of words.
fn read_registers(alloc: Global, words: &[Bytes]) -> Result<Registers, WordRefusal>
    ensures { ReadsWords IsRegisters registers_words words.now result }
{
    let values = read_values(alloc, words)?;
    match registers_of(&values) {
        Some(registers) => Ok(registers),
        None => Err(WordRefusal::BadWord),
    }
}

/// The slice and the registers of words.
fn read_sliced(alloc: Global, words: &[Bytes]) -> Result<(u32, Registers), WordRefusal>
    ensures { ReadsWords IsSliced sliced_words words.now result }
{
    let (slice, rest) = take_number(alloc, words)?;
    if slice > u32::MAX as u64 {
        return Err(WordRefusal::BadWord);
    }
    let registers = read_registers(alloc, rest)?;
    Ok((slice as u32, registers))
}

/// The look of words.
pub fn read_look(alloc: Global, words: &[Bytes]) -> Result<Look, WordRefusal>
    // The words are those of what is read, and they are refused exactly where no look has them.
    ensures { ReadsWords IsLook look_words words.now result }
{
    let (state, rest) = take_state(alloc, words)?;
    let (priority, rest) = take_number8(alloc, rest)?;
    let sliced = read_sliced(alloc, rest)?;
    Ok(Look {
        state,
        priority,
        slice: sliced.0,
        registers: sliced.1,
    })
}

/// Two written looks with the same words are one.
pub fn looks_are_unambiguous()
    ensures { (one other : Look) → IsLook one → IsLook other
        → look_words one ≡ look_words other → one ≡ other }
{}

/// No word of a written look has a space.
pub fn looks_have_no_space()
    ensures { (look : Look) → IsLook look → HaveNoSpace (look_words look) }
{}
