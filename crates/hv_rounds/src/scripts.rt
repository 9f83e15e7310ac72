//! Open scripts.
ghost use Rattle.std.specs.Prelude.{◌≡◌, ◌↔◌, [], ◌∷◌, Some, None, All, IsTrue, IfOk, OnOk, MatchOption, length};
ghost use Rattle.hv_model.specs.Session.{next_in};

use hv_text::Bytes;
use hv_words::Script;
use std::alloc::{AllocError, Global};
use std::marker::Model;

fn are_over(scripts: &[Script]) -> bool
    ensures { IsTrue result ↔ All (λ script. script ≡ []) scripts.now }
{
    scripts.iter().all(|script| script.is_over())
}

/// Open scripts, which contracts see as the list of their commands not begun, the innermost first.
#[derive(Drop)]
pub struct OpenScripts {
    // the innermost last
    scripts: Vec<Script>,
}

impl Model for OpenScripts {
    ghost use Rattle.std.specs.Prelude.{List, ℕ};
    ghost use Rattle.hv_rounds.specs.Stack.{reversed};

    ghost Value = { List (List (List ℕ)) };

    ghost view = { λ s. reversed s.scripts.items };
}

impl OpenScripts {
    /// No scripts.
    pub fn new(alloc: Global) -> OpenScripts
        ensures { result ≡ [] }
    {
        OpenScripts {
            scripts: Vec::new(alloc),
        }
    }

    /// Opens a script within the others.
    pub fn open(&mut self, script: Script) -> Result<(), AllocError>
        ensures { OnOk result (self.new ≡ script ∷ self.old) }
    {
        self.scripts.push(script)?;
        Ok(())
    }

    /// How many scripts are open.
    pub fn depth(&self) -> usize
        ensures { result ≡ length self.now }
    {
        self.scripts.as_slice().len()
    }

    /// Whether no command is left.
    pub fn is_over(&self) -> bool
        ensures { IsTrue result ↔ (next_in self.now ≡ None) }
    {
        are_over(&self.scripts)
    }

    /// Begins the next command. A script with none left is closed.
    pub fn begin(&mut self, alloc: Global) -> Result<Option<Bytes>, AllocError>
        ensures { IfOk result (λ begun. MatchOption begun
            ((next_in self.old ≡ None) × (self.new ≡ []))
            (λ line. next_in self.old ≡ Some (line, self.new))) }
    {
        while let Some(mut script) = self.scripts.pop() {
            if let Some(line) = script.next_line(alloc)? {
                self.scripts.push(script)?;
                return Ok(Some(line));
            }
        }
        Ok(None)
    }
}
