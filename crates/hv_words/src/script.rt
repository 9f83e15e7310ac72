//! Scripts that are read line by line.
ghost use Rattle.std.specs.Prelude.{◌≡◌, ◌↔◌, ◌≤◌, [], ◌∷◌, IsTrue, IfOk, OnErr, length, drop, slice_range, MatchOption};
ghost use Rattle.hv_text.specs.Lines.{script_lines};
ghost use Rattle.hv_words.specs.Words.{commands_of};
ghost use Rattle.hv_words.specs.Places.{IsCommandOffset};

use crate::word::is_skipped_line;
use hv_text::{Bytes, line_at};
use std::alloc::{AllocError, Global};
use std::marker::Model;

/// A script that contracts see as the list of its command lines that are not begun.
#[derive(Debug, Drop)]
pub struct Script {
    text: Bytes,
    // where the next command line begins, or the text's length
    offset: usize,
}

impl Model for Script {
    ghost use Rattle.std.specs.Prelude.{List, ℕ, drop};

    ghost Value = { List (List ℕ) };

    ghost use Rattle.hv_words.specs.Words.{commands_of};
    ghost use Rattle.hv_words.specs.Places.{IsCommandOffset};

    ghost view = { λ s. commands_of (drop s.offset s.text) };

    ghost invariant = { λ s. IsCommandOffset s.text s.offset };
}

/// The offset of the first command line from an offset on, or the length where there is none.
fn next_command(text: &[u8], from: usize) -> usize
    requires { from ≤ length text.now }
    ensures place { IsCommandOffset text.now result }
    ensures same { commands_of (drop result text.now) ≡ commands_of (drop from text.now) }
{
    let mut offset = from;
    while let Some((start, end, next)) = line_at(text, offset) {
        if !is_skipped_line(piece_of(text, start, end)) {
            return offset;
        }
        offset = next;
    }
    offset
}

fn piece_of(text: &[u8], start: usize, end: usize) -> &[u8]
    requires ordered { start ≤ end }
    requires within { end ≤ length text.now }
    ensures { result.now ≡ slice_range text.now start end }
{
    &text[start..end]
}

impl Script {
    /// A script with none of its lines begun.
    pub fn new(text: Bytes) -> Script
        ensures { result ≡ commands_of text }
    {
        let offset = next_command(text.as_slice(), 0);
        Script { text, offset }
    }

    /// Whether every command line is begun.
    pub fn is_over(&self) -> bool
        ensures { IsTrue result ↔ (self.now ≡ []) }
    {
        self.offset == self.text.as_slice().len()
    }

    /// The next command line. At `Err` nothing has changed.
    pub fn next_line(&mut self, alloc: Global) -> Result<Option<Bytes>, AllocError>
        ensures read { IfOk result (λ read. MatchOption read
            ((self.old ≡ []) × (self.new ≡ []))
            (λ line. self.old ≡ line ∷ self.new)) }
        ensures kept { OnErr result (self.new ≡ self.old) }
    {
        let text = self.text.as_slice();
        match line_at(text, self.offset) {
            Some((start, end, next)) => {
                let line = Vec::from_slice(alloc, piece_of(text, start, end))?;
                let offset = next_command(text, next);
                self.offset = offset;
                Ok(Some(Bytes::from_vec(line)))
            }
            None => Ok(None),
        }
    }
}

/// How many lines a script has, skipped ones included.
pub fn count_lines(text: &[u8]) -> usize
    ensures { result ≡ length (script_lines text.now) }
{
    let mut count = 0;
    let mut offset = 0;
    while let Some((_, _, next)) = line_at(text, offset) {
        count += 1;
        offset = next;
    }
    count
}
