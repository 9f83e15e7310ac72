//! The arguments of a command on guests.
ghost use Rattle.std.specs.Prelude.{MatchResult};
ghost use Rattle.hv_words.specs.Commands.{Fits, SomeWord, VcpuNumber, AnyAddress, ByteCount, WordGiven, NumberGiven};
ghost use Rattle.hv_words.specs.Arguments.{IsRefusedAt};

use hv_text::{Bytes, VCPUS, read_number};
use hv_words::WordsRefusal;
use std::alloc::Global;

/// The most bytes that a line shows.
const MOST_SHOWN: u64 = 256;

/// The word of a number, as it stands.
pub fn read_word(alloc: Global, word: &[u8], at: usize) -> Result<Bytes, WordsRefusal>
    ensures { MatchResult result
        (λ given. Fits SomeWord word.now (WordGiven given))
        (λ refusal. IsRefusedAt SomeWord word.now at refusal) }
{
    Ok(Bytes::from_vec(Vec::from_slice(alloc, word)?))
}

/// The number of a VCPU, as the word of a number says.
pub fn read_vcpu(word: &[u8], at: usize) -> Result<u8, WordsRefusal>
    ensures { MatchResult result
        (λ number. Fits VcpuNumber word.now (NumberGiven number))
        (λ refusal. IsRefusedAt VcpuNumber word.now at refusal) }
{
    match read_number(word) {
        Ok(number) => {
            if number >= VCPUS as u64 {
                return Err(WordsRefusal::BadWords(at));
            }
            Ok(number as u8)
        }
        Err(_) => Err(WordsRefusal::BadWords(at)),
    }
}

/// The address that the word of a number says.
pub fn read_address(word: &[u8], at: usize) -> Result<u64, WordsRefusal>
    ensures { MatchResult result
        (λ address. Fits AnyAddress word.now (NumberGiven address))
        (λ refusal. IsRefusedAt AnyAddress word.now at refusal) }
{
    match read_number(word) {
        Ok(address) => Ok(address),
        Err(_) => Err(WordsRefusal::BadWords(at)),
    }
}

/// How many bytes to show, as the word of a number says.
pub fn read_byte_count(word: &[u8], at: usize) -> Result<u64, WordsRefusal>
    ensures { MatchResult result
        (λ count. Fits ByteCount word.now (NumberGiven count))
        (λ refusal. IsRefusedAt ByteCount word.now at refusal) }
{
    match read_number(word) {
        Ok(count) => {
            if count < 1 {
                return Err(WordsRefusal::BadWords(at));
            }
            if count > MOST_SHOWN {
                return Err(WordsRefusal::BadWords(at));
            }
            Ok(count)
        }
        Err(_) => Err(WordsRefusal::BadWords(at)),
    }
}
