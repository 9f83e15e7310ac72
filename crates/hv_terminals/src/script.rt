//! A script that is open.
ghost use Rattle.std.specs.Prelude.{◌≡◌, ◌≤◌, [], ◌∷◌, true, false, drop, length, slice_range, IfOk};
ghost use Rattle.std.specs.Option.{option_copied};
ghost use Rattle.hv_words.specs.Words.{commands_of};
ghost use Rattle.hv_words.specs.Places.{IsCommandOffset};
ghost use Rattle.hv_terminals.specs.Scripts.{first_line, script_run};

use hv_answer::Reply;
use hv_text::{Bytes, line_at};
use hv_words::is_skipped_line;
use std::alloc::{AllocError, Global};
use std::marker::Model;

/// A script that contracts see as the list of its commands that are not begun.
#[derive(Drop)]
pub struct OpenScript {
    text: Bytes,
    // where the next command begins, or the text's length
    offset: usize,
}

impl Model for OpenScript {
    ghost use Rattle.std.specs.Prelude.{List, ℕ, drop};
    ghost use Rattle.hv_words.specs.Words.{commands_of};
    ghost use Rattle.hv_words.specs.Places.{IsCommandOffset};

    ghost Value = { List (List ℕ) };

    ghost view = { λ s. commands_of (drop s.offset s.text) };

    ghost invariant = { λ s. IsCommandOffset s.text s.offset };
}

fn piece_of(text: &[u8], start: usize, end: usize) -> &[u8]
    requires ordered { start ≤ end }
    requires within { end ≤ length text.now }
    ensures { result.now ≡ slice_range text.now start end }
{
    &text[start..end]
}

// The offset of the first command from an offset on, or the length where there is none.
fn next_command(text: &[u8], from: usize) -> usize
    requires { from ≤ length text.now }
    ensures place { IsCommandOffset text.now result }
    ensures same { commands_of (drop result text.now) ≡ commands_of (drop from text.now) }
{
    let mut offset = from;
    while let Some((start, end, next)) = line_at(text, offset) {
        if !is_skipped_line(piece_of(text, start, end)) {
            return offset;
        }
        offset = next;
    }
    offset
}

impl OpenScript {
    /// A script with none of its commands begun.
    pub fn new(text: Bytes) -> OpenScript
        ensures { result ≡ commands_of text }
    {
        let offset = next_command(text.as_slice(), 0);
        OpenScript { text, offset }
    }

    /// The script that a reply opens, if it is that of a run.
    pub fn of_reply(alloc: Global, reply: &Reply) -> Result<Option<OpenScript>, AllocError>
        ensures { IfOk result (λ script. script ≡ script_run reply.now) }
    {
        match reply {
            Reply::Run(Ok(script)) => {
                let text = Vec::from_slice(alloc, script.as_slice())?;
                Ok(Some(OpenScript::new(Bytes::from_vec(text))))
            }
            _ => Ok(None),
        }
    }

    /// The next command, if one is left.
    pub fn line(&self) -> Option<&[u8]>
        ensures { option_copied result ≡ first_line self.now }
    {
        let text = self.text.as_slice();
        let (start, end, _) = line_at(text, self.offset)?;
        Some(piece_of(text, start, end))
    }

    /// Begins the next command, and says whether one was left.
    pub fn skip(&mut self) -> bool
        ensures none { result ≡ false → (self.old ≡ []) × (self.new ≡ []) }
        ensures some { result ≡ true → (line : _) × (self.old ≡ line ∷ self.new) }
    {
        let text = self.text.as_slice();
        match line_at(text, self.offset) {
            Some((_, _, next)) => {
                let offset = next_command(text, next);
                self.offset = offset;
                true
            }
            None => false,
        }
    }
}
