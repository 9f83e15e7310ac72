//! White space and comments.
ghost use Rattle.std.specs.Prelude.{◌≡◌, ◌≤◌, ◌+◌, length, IfSome};
ghost use Rattle.hv_dtlex.specs.Blank.{is_space, close_at, comment_len, blank_len, behind_blanks};

use crate::class::{ByteClass, run_len};

fn is_space(byte: u8) -> bool
    ensures { result ≡ is_space byte }
{
    byte == b' ' || (byte > 8 && byte < 14)
}

/// Where the first `*/` stands.
fn close_at(text: &[u8]) -> Option<usize>
    ensures place { result ≡ close_at text.now }
    ensures within { IfSome result (λ n. n + 2 ≤ length text.now) }
{
    for at in 0..text.len() {
        if text.split_at(at).1.starts_with(b"*/") {
            return Some(at);
        }
    }
    None
}

fn comment_len(text: &[u8]) -> usize
    ensures len { result ≡ comment_len text.now }
    ensures within { result ≤ length text.now }
{
    if text.starts_with(b"//") {
        return run_len(text, ByteClass::InLine);
    }
    if text.starts_with(b"/*") {
        return match close_at(text.split_at(2).1) {
            Some(at) => at + 4,
            None => 0,
        };
    }
    0
}

fn blank_len(text: &[u8]) -> usize
    ensures len { result ≡ blank_len text.now }
    ensures within { result ≤ length text.now }
{
    match text.first() {
        None => 0,
        Some(byte) => {
            if is_space(*byte) {
                return 1;
            }
            comment_len(text)
        }
    }
}

/// What stands behind all white space in front.
pub fn skip(text: &[u8]) -> &[u8]
    ensures rest { result.now ≡ behind_blanks text.now }
    ensures within { length result.now ≤ length text.now }
{
    let mut rest = text;
    let mut size = blank_len(rest);
    while size > 0 {
        rest = rest.split_at(size).1;
        size = blank_len(rest);
    }
    rest
}
