//! The arguments of a command.
ghost use Rattle.std.specs.Prelude.{◌≡◌, MatchResult};
ghost use Rattle.hv_words.specs.Commands.{Fits, AnyPath, NamedPath, RestCount, PathGiven, NumberGiven};
ghost use Rattle.hv_words.specs.Arguments.{IsRefusedAt};

use crate::refusal::WordsRefusal;
use hv_text::{Path, PathRefusal, read_number};
use std::alloc::Global;

/// A path of at most so many names.
const MAX_NAMES: usize = 8;
/// The most steps that a line rests.
const MAX_RESTS: u64 = 10000;

/// The path of the word of a number.
pub fn read_path(alloc: Global, word: &[u8], at: usize) -> Result<Path, WordsRefusal>
    ensures { MatchResult result
        (λ path. Fits AnyPath word.now (PathGiven path))
        (λ refusal. IsRefusedAt AnyPath word.now at refusal) }
{
    match Path::read(alloc, word) {
        Ok(path) => {
            if path.len() > MAX_NAMES {
                return Err(WordsRefusal::BadWords(at));
            }
            Ok(path)
        }
        Err(PathRefusal::NotAPath) => Err(WordsRefusal::BadWords(at)),
        Err(PathRefusal::Memory(refused)) => Err(WordsRefusal::Memory(refused)),
    }
}

/// The path, of a name at least, of the word of a number.
pub fn read_named_path(alloc: Global, word: &[u8], at: usize) -> Result<Path, WordsRefusal>
    ensures { MatchResult result
        (λ path. Fits NamedPath word.now (PathGiven path))
        (λ refusal. IsRefusedAt NamedPath word.now at refusal) }
{
    let path = read_path(alloc, word, at)?;
    if path.is_empty() {
        return Err(WordsRefusal::BadWords(at));
    }
    Ok(path)
}

/// How many steps to rest, as the word of a number says.
pub fn read_count(word: &[u8], at: usize) -> Result<u64, WordsRefusal>
    ensures { MatchResult result
        (λ count. Fits RestCount word.now (NumberGiven count))
        (λ refusal. IsRefusedAt RestCount word.now at refusal) }
{
    match read_number(word) {
        Ok(count) => {
            if count < 1 {
                return Err(WordsRefusal::BadWords(at));
            }
            if count > MAX_RESTS {
                return Err(WordsRefusal::BadWords(at));
            }
            Ok(count)
        }
        Err(_) => Err(WordsRefusal::BadWords(at)),
    }
}
