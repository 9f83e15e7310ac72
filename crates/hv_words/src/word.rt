//! The words of a line.
ghost use Rattle.std.specs.Prelude.{◌≡◌, [], ◌∷◌, MatchOption};
ghost use Rattle.hv_words.specs.Words.{words, is_skipped, StartsWord};

use hv_text::front_len;

/// The text behind the spaces that it begins with.
fn behind_spaces(text: &[u8]) -> &[u8]
    ensures words { words result.now ≡ words text.now }
    ensures start { StartsWord result.now }
{
    for (at, byte) in text.iter().enumerate() {
        if *byte != b' ' {
            return text.split_at(at).1;
        }
    }
    text.split_at(text.len()).1
}

/// The first word of a text, and what stands behind it.
pub fn next_word(text: &[u8]) -> Option<(&[u8], &[u8])>
    ensures { MatchOption result
        (words text.now ≡ [])
        (λ found. words text.now ≡ found.0.now ∷ words found.1.now) }
{
    let start = behind_spaces(text);
    if start.is_empty() {
        return None;
    }
    Some(start.split_at(front_len(start, b' ')))
}

/// Whether a script's line is blank or a comment.
pub fn is_skipped_line(line: &[u8]) -> bool
    ensures { result ≡ is_skipped line.now }
{
    match next_word(line) {
        Some((word, _)) => word.first() == Some(&b'#'),
        None => true,
    }
}
