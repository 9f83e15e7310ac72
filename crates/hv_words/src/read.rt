//! Lines read as commands.
ghost use Rattle.std.specs.Prelude.{◌≡◌, ◌≢◌, ◌↔◌, ◌≤◌, ℕ, List, [], ◌∷◌, IsTrue, Result, Ok, Err, MatchResult};
ghost use Rattle.std.specs.declared.alloc.AllocError.{AllocError};
ghost use Rattle.hv_words.specs.declared.command.Command.{Command};
ghost use Rattle.hv_words.specs.declared.refusal.WordsRefusal.{WordsRefusal};
ghost use Rattle.hv_words.specs.Words.{words};
ghost use Rattle.hv_words.specs.Commands.{FitAll, AnyPath, NamedPath, SomeText, RestCount, PathGiven, TextGiven, NumberGiven, IsPrintable, Says, Gives, IsNoCommand, HasBadWord};
ghost use Rattle.hv_words.specs.Rows.{row_named};
ghost use Rattle.hv_words.specs.Arguments.{Agree, AreRefusedFrom, HasArguments, IsUnlessMemory};
ghost use Rattle.hv_words.specs.Said.{said};

use crate::argument::{read_count, read_named_path, read_path};
use crate::command::Command;
use crate::refusal::WordsRefusal;
use crate::row::{RowName, find_row};
use crate::text::read_text;
use crate::word::next_word;
use hv_text::{Bytes, Path};
use std::alloc::Global;

/// The number of the first word behind a row's two.
const FIRST_ARGUMENT: usize = 3;

/// Whether every byte of a line is a space or a printable character.
pub fn is_printable(line: &[u8]) -> bool
    ensures { IsTrue result ↔ IsPrintable line.now }
{
    line.iter().all(|byte| matches!(*byte, b' '..=b'~'))
}

/// Nothing but spaces, where the word of this number would stand.
pub fn read_end(text: &[u8], at: usize) -> Result<(), WordsRefusal>
    ensures { MatchResult result
        (λ _. words text.now ≡ [])
        (λ refusal. AreRefusedFrom [] (words text.now) at refusal) }
{
    match next_word(text) {
        Some(_) => Err(WordsRefusal::BadWords(at)),
        None => Ok(()),
    }
}

/// A path, and no further word.
fn only_path(alloc: Global, text: &[u8]) -> Result<Path, WordsRefusal>
    ensures { MatchResult result
        (λ path. FitAll (AnyPath ∷ []) (words text.now) (PathGiven path ∷ []))
        (λ refusal. AreRefusedFrom (AnyPath ∷ []) (words text.now) 3 refusal) }
{
    let Some((word, rest)) = next_word(text) else {
        return Err(WordsRefusal::BadWords(FIRST_ARGUMENT));
    };
    let path = read_path(alloc, word, FIRST_ARGUMENT)?;
    read_end(rest, FIRST_ARGUMENT + 1)?;
    Ok(path)
}

/// A path of a name at least as the word of a number, and no further word.
fn only_named_path(alloc: Global, text: &[u8], at: usize) -> Result<Path, WordsRefusal>
    requires { at ≤ 4 }
    ensures { MatchResult result
        (λ path. FitAll (NamedPath ∷ []) (words text.now) (PathGiven path ∷ []))
        (λ refusal. AreRefusedFrom (NamedPath ∷ []) (words text.now) at refusal) }
{
    let Some((word, rest)) = next_word(text) else {
        return Err(WordsRefusal::BadWords(at));
    };
    let path = read_named_path(alloc, word, at)?;
    read_end(rest, at + 1)?;
    Ok(path)
}

/// How many steps to rest, and no further word.
fn only_count(text: &[u8]) -> Result<u64, WordsRefusal>
    ensures { MatchResult result
        (λ count. FitAll (RestCount ∷ []) (words text.now) (NumberGiven count ∷ []))
        (λ refusal. AreRefusedFrom (RestCount ∷ []) (words text.now) 3 refusal) }
{
    let Some((word, rest)) = next_word(text) else {
        return Err(WordsRefusal::BadWords(FIRST_ARGUMENT));
    };
    let count = read_count(word, FIRST_ARGUMENT)?;
    read_end(rest, FIRST_ARGUMENT + 1)?;
    Ok(count)
}

/// A text as the fourth word, and no further word.
fn only_text(alloc: Global, text: &[u8]) -> Result<Bytes, WordsRefusal>
    ensures { MatchResult result
        (λ bytes. FitAll (SomeText ∷ []) (words text.now) (TextGiven bytes ∷ []))
        (λ refusal. AreRefusedFrom (SomeText ∷ []) (words text.now) 4 refusal) }
{
    let Some((word, rest)) = next_word(text) else {
        return Err(WordsRefusal::BadWords(FIRST_ARGUMENT + 1));
    };
    let bytes = read_text(alloc, word, FIRST_ARGUMENT + 1)?;
    read_end(rest, FIRST_ARGUMENT + 2)?;
    Ok(bytes)
}

/// The path and the text to be written.
fn read_write(alloc: Global, text: &[u8]) -> Result<Command, WordsRefusal>
    ensures { MatchResult result
        (λ command. HasArguments (row_named RowName.VfsWrite) (words text.now) command)
        (λ refusal. AreRefusedFrom (NamedPath ∷ SomeText ∷ []) (words text.now) 3 refusal) }
{
    let Some((word, rest)) = next_word(text) else {
        return Err(WordsRefusal::BadWords(FIRST_ARGUMENT));
    };
    let path = read_named_path(alloc, word, FIRST_ARGUMENT)?;
    let bytes = only_text(alloc, rest)?;
    Ok(Command::VfsWrite(path, bytes))
}

/// The path of the text and that of its image.
fn read_asm(alloc: Global, text: &[u8]) -> Result<Command, WordsRefusal>
    ensures { MatchResult result
        (λ command. HasArguments (row_named RowName.VfsAsm) (words text.now) command)
        (λ refusal. AreRefusedFrom (AnyPath ∷ NamedPath ∷ []) (words text.now) 3 refusal) }
{
    let Some((word, rest)) = next_word(text) else {
        return Err(WordsRefusal::BadWords(FIRST_ARGUMENT));
    };
    let source = read_path(alloc, word, FIRST_ARGUMENT)?;
    let target = only_named_path(alloc, rest, FIRST_ARGUMENT + 1)?;
    Ok(Command::VfsAsm(source, target))
}

/// The command of a row whose arguments are the words of a text.
fn read_arguments(alloc: Global, row: RowName, text: &[u8]) -> Result<Command, WordsRefusal>
    ensures { MatchResult result
        (λ command. HasArguments (row_named row) (words text.now) command)
        (λ refusal. AreRefusedFrom (row_named row).kinds (words text.now) 3 refusal) }
{
    match row {
        RowName::VfsLs => Ok(Command::VfsLs(only_path(alloc, text)?)),
        RowName::VfsCat => Ok(Command::VfsCat(only_path(alloc, text)?)),
        RowName::VfsDts => Ok(Command::VfsDts(only_path(alloc, text)?)),
        RowName::VfsMkdir => Ok(Command::VfsMkdir(only_named_path(alloc, text, FIRST_ARGUMENT)?)),
        RowName::VfsRm => Ok(Command::VfsRm(only_named_path(alloc, text, FIRST_ARGUMENT)?)),
        RowName::VfsWrite => read_write(alloc, text),
        RowName::VfsAsm => read_asm(alloc, text),
        RowName::VfsRun => Ok(Command::VfsRun(only_path(alloc, text)?)),
        RowName::TermRest => Ok(Command::TermRest(only_count(text)?)),
    }
}

/// The command that a line gives.
fn read_line(alloc: Global, line: &[u8]) -> Result<Command, WordsRefusal>
    ensures { Says line.now result }
{
    if !is_printable(line) {
        return Err(WordsRefusal::NoCommand);
    }
    let Some((family, behind)) = next_word(line) else {
        return Err(WordsRefusal::NoCommand);
    };
    let Some((name, rest)) = next_word(behind) else {
        return Err(WordsRefusal::NoCommand);
    };
    let Some(row) = find_row(family, name) else {
        return Err(WordsRefusal::NoCommand);
    };
    read_arguments(alloc, row, rest)
}

/// The command that a line gives, or why it gives none.
pub fn read_command(alloc: Global, line: &[u8]) -> Result<Command, WordsRefusal>
    ensures said { Says line.now result }
    ensures command { (c : Command) → Gives line.now c → IsUnlessMemory result (Ok c) }
    ensures none { IsNoCommand line.now → IsUnlessMemory result (Err WordsRefusal.NoCommand) }
    ensures bad { (n : ℕ) → HasBadWord line.now n
        → IsUnlessMemory result (Err (WordsRefusal.BadWords n)) }
{
    read_line(alloc, line)
}

/// A line says one thing at most: its command, that it is none, or its first bad word.
pub fn lines_are_unambiguous()
    ensures { (line : List ℕ) (one other : Result Command WordsRefusal)
        → Says line one → Says line other → Agree one other }
{}

/// A line says what the function tells of it, and nothing else unless memory ran out.
pub fn lines_say_what_is_told()
    ensures exact { (line : List ℕ) (read : Result Command WordsRefusal)
        → Says line read ↔ IsUnlessMemory read (said line) }
    ensures definite { (line : List ℕ) (e : AllocError)
        → said line ≢ Err (WordsRefusal.Memory e) }
{}
