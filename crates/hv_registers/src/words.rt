//! Words that a device keeps per context.

ghost use Rattle.std.specs.Prelude.{◌≡◌, ◌≤◌, slice_index, slice_set};
ghost use Rattle.hv_emu.specs.Registers.{resized};

use arrayvec::ArrayVec;

/// A word per context, of four contexts at most.
pub type ContextWords = ArrayVec<u64, 4>;

/// Sets the number of contexts. A new one has the word that it has after a reset.
pub fn resize(words: &mut ContextWords, contexts: u8, after_reset: u64)
    requires { contexts ≤ 4 }
    ensures { words.new.items ≡ resized contexts after_reset words.old.items }
{
    let contexts = usize::from(contexts);
    words.truncate(contexts);
    for _ in words.len()..contexts {
        words.push(after_reset);
    }
}

/// The word at an index, which is 0 where there is none.
pub fn word_at(words: &[u64], index: usize) -> u64
    ensures { result ≡ slice_index words.now index }
{
    words.get(index).copied().unwrap_or(0)
}

/// Sets the word of a context. Where there is no such context, nothing changes.
pub fn set_word(words: &mut ContextWords, context: usize, word: u64)
    ensures { words.new.items ≡ slice_set words.old.items context word }
{
    if let Some(place) = words.get_mut(context) {
        *place = word;
    }
}
