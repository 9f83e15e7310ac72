//! The words of a line.
ghost use Rattle.std.specs.Prelude.{◌≡◌, ◌≤◌, [], ◌∷◌, length, take, drop, MatchOption};
ghost use Rattle.hv_asm.specs.Line.{is_blank, words};
ghost use Rattle.hv_asm.specs.Reading.{StartsWord, HasNoBlanks, StopsWord};

fn is_blank(byte: u8) -> bool
    ensures { result ≡ is_blank byte }
{
    byte == b' ' || byte == b'\t'
}

/// The text behind the blanks that it begins with.
fn behind_blanks(text: &[u8]) -> &[u8]
    ensures words { words result.now ≡ words text.now }
    ensures start { StartsWord result.now }
{
    for (at, byte) in text.iter().enumerate() {
        if !is_blank(*byte) {
            return text.split_at(at).1;
        }
    }
    text.split_at(text.len()).1
}

/// How many bytes stand before the first blank, or the length where there is none.
fn word_len(text: &[u8]) -> usize
    ensures within { result ≤ length text.now }
    ensures bytes { HasNoBlanks (take result text.now) }
    ensures stops { StopsWord (drop result text.now) }
{
    for (at, byte) in text.iter().enumerate() {
        if is_blank(*byte) {
            return at;
        }
    }
    text.len()
}

/// The first word of a text, and what stands behind it.
pub(crate) fn next_word(text: &[u8]) -> Option<(&[u8], &[u8])>
    ensures { MatchOption result
        (words text.now ≡ [])
        (λ found. words text.now ≡ found.0.now ∷ words found.1.now) }
{
    let start = behind_blanks(text);
    if start.is_empty() {
        return None;
    }
    Some(start.split_at(word_len(start)))
}
