//! The lines of a script.
ghost use Rattle.std.specs.Prelude.{◌≡◌, ◌≤◌, [], length, drop, MatchOption};
ghost use Rattle.hv_text.specs.Lines.{script_lines, IsLineAt};

use crate::front::front_len;
use crate::strip::strip_end;

/// The start and the end of the line at an offset, and the start of the next line.
pub fn line_at(text: &[u8], from: usize) -> Option<(usize, usize, usize)>
    requires { from ≤ length text.now }
    ensures { MatchOption result
        ((from ≡ length text.now) × (script_lines (drop from text.now) ≡ []))
        (λ line. IsLineAt text.now from line.0 line.1 line.2) }
{
    let rest = text.split_at(from).1;
    if rest.is_empty() {
        return None;
    }
    let len = front_len(rest, b'\n');
    if len == rest.len() {
        return Some((from, text.len(), text.len()));
    }
    let end = match strip_end(rest.split_at(len).0, b"\r") {
        Some(line) => from + line.len(),
        None => from + len,
    };
    Some((from, end, from + len + 1))
}
