//! Lines read as commands on guests.
ghost use Rattle.std.specs.Prelude.{◌≡◌, ◌≢◌, ◌↔◌, ◌≤◌, ℕ, List, [], ◌∷◌, Result, Err, MatchResult};
ghost use Rattle.std.specs.declared.alloc.AllocError.{AllocError};
ghost use Rattle.hv_words.specs.declared.refusal.WordsRefusal.{WordsRefusal};
ghost use Rattle.hv_words.specs.Words.{words};
ghost use Rattle.hv_words.specs.Commands.{FitAll, AnyPath, SomeText, SomeWord, VcpuNumber, AnyAddress, ByteCount, PathGiven, TextGiven, NumberGiven, WordGiven};
ghost use Rattle.hv_words.specs.Arguments.{AreRefusedFrom};
ghost use Rattle.hv_guest_words.specs.declared.command.GuestLineCommand.{GuestLineCommand};
ghost use Rattle.hv_guest_words.specs.Table.{IsReadUnlessMemory, AreReadAlike};
ghost use Rattle.hv_guest_words.specs.GuestRows.{row_named};
ghost use Rattle.hv_guest_words.specs.GuestCommands.{HasArguments, Says, said};

use crate::argument::{read_address, read_byte_count, read_vcpu, read_word};
use crate::command::{GuestCommand, GuestLineCommand, SerialCommand, VcpuCommand};
use crate::row::{RowName, find_row};
use hv_text::{Bytes, Path};
use hv_words::{WordsRefusal, is_printable, next_word, read_end, read_path, read_text};
use std::alloc::Global;

/// The number of the first word behind a row's two.
const FIRST_ARGUMENT: usize = 3;

/// A word as the word of a number, and no further word.
fn only_word(alloc: Global, text: &[u8], at: usize) -> Result<Bytes, WordsRefusal>
    requires { at ≤ 4 }
    ensures { MatchResult result
        (λ word. FitAll (SomeWord ∷ []) (words text.now) (WordGiven word ∷ []))
        (λ refusal. AreRefusedFrom (SomeWord ∷ []) (words text.now) at refusal) }
{
    let Some((word, rest)) = next_word(text) else {
        return Err(WordsRefusal::BadWords(at));
    };
    let given = read_word(alloc, word, at)?;
    read_end(rest, at + 1)?;
    Ok(given)
}

/// The number of a VCPU, and no further word.
fn only_vcpu(text: &[u8]) -> Result<u8, WordsRefusal>
    ensures { MatchResult result
        (λ number. FitAll (VcpuNumber ∷ []) (words text.now) (NumberGiven number ∷ []))
        (λ refusal. AreRefusedFrom (VcpuNumber ∷ []) (words text.now) 3 refusal) }
{
    let Some((word, rest)) = next_word(text) else {
        return Err(WordsRefusal::BadWords(FIRST_ARGUMENT));
    };
    let number = read_vcpu(word, FIRST_ARGUMENT)?;
    read_end(rest, FIRST_ARGUMENT + 1)?;
    Ok(number)
}

/// An address as the fifth word, and no further word.
fn only_address(text: &[u8]) -> Result<u64, WordsRefusal>
    ensures { MatchResult result
        (λ address. FitAll (AnyAddress ∷ []) (words text.now) (NumberGiven address ∷ []))
        (λ refusal. AreRefusedFrom (AnyAddress ∷ []) (words text.now) 5 refusal) }
{
    let Some((word, rest)) = next_word(text) else {
        return Err(WordsRefusal::BadWords(FIRST_ARGUMENT + 2));
    };
    let address = read_address(word, FIRST_ARGUMENT + 2)?;
    read_end(rest, FIRST_ARGUMENT + 3)?;
    Ok(address)
}

/// How many bytes to show as the fifth word, and no further word.
fn only_byte_count(text: &[u8]) -> Result<u64, WordsRefusal>
    ensures { MatchResult result
        (λ count. FitAll (ByteCount ∷ []) (words text.now) (NumberGiven count ∷ []))
        (λ refusal. AreRefusedFrom (ByteCount ∷ []) (words text.now) 5 refusal) }
{
    let Some((word, rest)) = next_word(text) else {
        return Err(WordsRefusal::BadWords(FIRST_ARGUMENT + 2));
    };
    let count = read_byte_count(word, FIRST_ARGUMENT + 2)?;
    read_end(rest, FIRST_ARGUMENT + 3)?;
    Ok(count)
}

/// A text as the fifth word, and no further word.
fn only_text(alloc: Global, text: &[u8]) -> Result<Bytes, WordsRefusal>
    ensures { MatchResult result
        (λ bytes. FitAll (SomeText ∷ []) (words text.now) (TextGiven bytes ∷ []))
        (λ refusal. AreRefusedFrom (SomeText ∷ []) (words text.now) 5 refusal) }
{
    let Some((word, rest)) = next_word(text) else {
        return Err(WordsRefusal::BadWords(FIRST_ARGUMENT + 2));
    };
    let bytes = read_text(alloc, word, FIRST_ARGUMENT + 2)?;
    read_end(rest, FIRST_ARGUMENT + 3)?;
    Ok(bytes)
}

/// The names of a guest and of a region.
fn two_words(alloc: Global, text: &[u8]) -> Result<(Bytes, Bytes), WordsRefusal>
    ensures { MatchResult result
        (λ found. FitAll (SomeWord ∷ SomeWord ∷ []) (words text.now)
        (WordGiven found.0 ∷ WordGiven found.1 ∷ []))
        (λ refusal. AreRefusedFrom (SomeWord ∷ SomeWord ∷ []) (words text.now) 3 refusal) }
{
    let Some((word, rest)) = next_word(text) else {
        return Err(WordsRefusal::BadWords(FIRST_ARGUMENT));
    };
    let name = read_word(alloc, word, FIRST_ARGUMENT)?;
    let region = only_word(alloc, rest, FIRST_ARGUMENT + 1)?;
    Ok((name, region))
}

/// What is read and where it is put, behind the guest's name.
fn path_and_address(alloc: Global, text: &[u8]) -> Result<(Path, u64), WordsRefusal>
    ensures { MatchResult result
        (λ found. FitAll (AnyPath ∷ AnyAddress ∷ []) (words text.now)
        (PathGiven found.0 ∷ NumberGiven found.1 ∷ []))
        (λ refusal. AreRefusedFrom (AnyPath ∷ AnyAddress ∷ []) (words text.now) 4 refusal) }
{
    let Some((word, rest)) = next_word(text) else {
        return Err(WordsRefusal::BadWords(FIRST_ARGUMENT + 1));
    };
    let path = read_path(alloc, word, FIRST_ARGUMENT + 1)?;
    let address = only_address(rest)?;
    Ok((path, address))
}

/// Where to begin and how many bytes to show, behind the guest's name.
fn address_and_count(text: &[u8]) -> Result<(u64, u64), WordsRefusal>
    ensures { MatchResult result
        (λ found. FitAll (AnyAddress ∷ ByteCount ∷ []) (words text.now)
        (NumberGiven found.0 ∷ NumberGiven found.1 ∷ []))
        (λ refusal. AreRefusedFrom (AnyAddress ∷ ByteCount ∷ []) (words text.now) 4 refusal) }
{
    let Some((word, rest)) = next_word(text) else {
        return Err(WordsRefusal::BadWords(FIRST_ARGUMENT + 1));
    };
    let address = read_address(word, FIRST_ARGUMENT + 1)?;
    let count = only_byte_count(rest)?;
    Ok((address, count))
}

/// The region and the text that it is sent, behind the guest's name.
fn word_and_text(alloc: Global, text: &[u8]) -> Result<(Bytes, Bytes), WordsRefusal>
    ensures { MatchResult result
        (λ found. FitAll (SomeWord ∷ SomeText ∷ []) (words text.now)
        (WordGiven found.0 ∷ TextGiven found.1 ∷ []))
        (λ refusal. AreRefusedFrom (SomeWord ∷ SomeText ∷ []) (words text.now) 4 refusal) }
{
    let Some((word, rest)) = next_word(text) else {
        return Err(WordsRefusal::BadWords(FIRST_ARGUMENT + 1));
    };
    let region = read_word(alloc, word, FIRST_ARGUMENT + 1)?;
    let bytes = only_text(alloc, rest)?;
    Ok((region, bytes))
}

/// The guest, what is read, and where it is put.
fn read_load(alloc: Global, text: &[u8]) -> Result<GuestLineCommand, WordsRefusal>
    ensures { MatchResult result
        (λ command. HasArguments RowName.Load (words text.now) command)
        (λ refusal. AreRefusedFrom (SomeWord ∷ AnyPath ∷ AnyAddress ∷ [])
        (words text.now) 3 refusal) }
{
    let Some((word, rest)) = next_word(text) else {
        return Err(WordsRefusal::BadWords(FIRST_ARGUMENT));
    };
    let name = read_word(alloc, word, FIRST_ARGUMENT)?;
    let (path, address) = path_and_address(alloc, rest)?;
    Ok(GuestLineCommand::Load(name, path, address))
}

/// The guest, where to begin, and how many bytes to show.
fn read_mem(alloc: Global, text: &[u8]) -> Result<GuestLineCommand, WordsRefusal>
    ensures { MatchResult result
        (λ command. HasArguments RowName.GuestMem (words text.now) command)
        (λ refusal. AreRefusedFrom (SomeWord ∷ AnyAddress ∷ ByteCount ∷ [])
        (words text.now) 3 refusal) }
{
    let Some((word, rest)) = next_word(text) else {
        return Err(WordsRefusal::BadWords(FIRST_ARGUMENT));
    };
    let name = read_word(alloc, word, FIRST_ARGUMENT)?;
    let (address, count) = address_and_count(rest)?;
    Ok(GuestLineCommand::Guest(GuestCommand::Mem(name, address, count)))
}

/// The guest, the region, and the text that it is sent.
fn read_send(alloc: Global, text: &[u8]) -> Result<GuestLineCommand, WordsRefusal>
    ensures { MatchResult result
        (λ command. HasArguments RowName.SerialSend (words text.now) command)
        (λ refusal. AreRefusedFrom (SomeWord ∷ SomeWord ∷ SomeText ∷ [])
        (words text.now) 3 refusal) }
{
    let Some((word, rest)) = next_word(text) else {
        return Err(WordsRefusal::BadWords(FIRST_ARGUMENT));
    };
    let name = read_word(alloc, word, FIRST_ARGUMENT)?;
    let (region, bytes) = word_and_text(alloc, rest)?;
    Ok(GuestLineCommand::Serial(SerialCommand::Send(name, region, bytes)))
}

/// The command of a row whose arguments are the words of a text.
fn read_arguments(
    alloc: Global,
    row: RowName,
    text: &[u8],
) -> Result<GuestLineCommand, WordsRefusal>
    ensures { MatchResult result
        (λ command. HasArguments row (words text.now) command)
        (λ refusal. AreRefusedFrom (row_named row).kinds (words text.now) 3 refusal) }
{
    match row {
        RowName::Load => read_load(alloc, text),
        RowName::GuestList => {
            read_end(text, FIRST_ARGUMENT)?;
            Ok(GuestLineCommand::Guest(GuestCommand::List))
        }
        RowName::GuestCreate => {
            let name = only_word(alloc, text, FIRST_ARGUMENT)?;
            Ok(GuestLineCommand::Guest(GuestCommand::Create(name)))
        }
        RowName::GuestDestroy => {
            let name = only_word(alloc, text, FIRST_ARGUMENT)?;
            Ok(GuestLineCommand::Guest(GuestCommand::Destroy(name)))
        }
        RowName::GuestChange(change) => {
            let name = only_word(alloc, text, FIRST_ARGUMENT)?;
            Ok(GuestLineCommand::Guest(GuestCommand::Change(change, name)))
        }
        RowName::GuestRegionAdd => {
            let (name, region) = two_words(alloc, text)?;
            Ok(GuestLineCommand::Guest(GuestCommand::RegionAdd(name, region)))
        }
        RowName::GuestRegionDel => {
            let (name, region) = two_words(alloc, text)?;
            Ok(GuestLineCommand::Guest(GuestCommand::RegionDel(name, region)))
        }
        RowName::GuestRegions => {
            let name = only_word(alloc, text, FIRST_ARGUMENT)?;
            Ok(GuestLineCommand::Guest(GuestCommand::Regions(name)))
        }
        RowName::GuestMem => read_mem(alloc, text),
        RowName::VcpuList => {
            read_end(text, FIRST_ARGUMENT)?;
            Ok(GuestLineCommand::Vcpu(VcpuCommand::List))
        }
        RowName::VcpuChange(change) => {
            let number = only_vcpu(text)?;
            Ok(GuestLineCommand::Vcpu(VcpuCommand::Change(change, number)))
        }
        RowName::VcpuDump => {
            let number = only_vcpu(text)?;
            Ok(GuestLineCommand::Vcpu(VcpuCommand::Dump(number)))
        }
        RowName::SerialSend => read_send(alloc, text),
        RowName::SerialDump => {
            let (name, region) = two_words(alloc, text)?;
            Ok(GuestLineCommand::Serial(SerialCommand::Dump(name, region)))
        }
    }
}

fn read_line(alloc: Global, line: &[u8]) -> Result<GuestLineCommand, WordsRefusal>
    ensures { Says line.now result }
{
    if !is_printable(line) {
        return Err(WordsRefusal::NoCommand);
    }
    let Some((family, behind)) = next_word(line) else {
        return Err(WordsRefusal::NoCommand);
    };
    let Some((name, rest)) = next_word(behind) else {
        return Err(WordsRefusal::NoCommand);
    };
    let Some(row) = find_row(family, name) else {
        return Err(WordsRefusal::NoCommand);
    };
    read_arguments(alloc, row, rest)
}

/// The command on guests that a line gives, or why it gives none.
pub fn read_guest_line(alloc: Global, line: &[u8]) -> Result<GuestLineCommand, WordsRefusal>
    ensures said { Says line.now result }

    // The function tells what is read, unless memory runs out.
    ensures told { IsReadUnlessMemory result (said line.now) }
{
    read_line(alloc, line)
}

/// A line says one thing at most: its command, that it is none, or its first bad word.
pub fn guest_lines_are_unambiguous()
    ensures { (line : List ℕ) (one other : Result GuestLineCommand WordsRefusal)
        → Says line one → Says line other → AreReadAlike one other }
{}

/// A line says what the function tells of it, and nothing else unless memory ran out.
pub fn guest_lines_say_what_is_told()
    ensures exact { (line : List ℕ) (read : Result GuestLineCommand WordsRefusal)
        → Says line read ↔ IsReadUnlessMemory read (said line) }
    ensures definite { (line : List ℕ) (e : AllocError)
        → said line ≢ Err (WordsRefusal.Memory e) }
{}
