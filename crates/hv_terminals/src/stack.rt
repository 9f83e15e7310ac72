//! Open scripts.
ghost use Rattle.std.specs.Prelude.{◌≡◌, ◌≤◌, ◌+◌, [], ◌∷◌, ◌==◌, None, Some, true, false, length, OnOk};
ghost use Rattle.std.specs.Option.{option_copied};
ghost use Rattle.hv_model.specs.Session.{next_in};
ghost use Rattle.hv_terminals.specs.Scripts.{depth_of, line_of, reversed};

use crate::script::OpenScript;
use std::alloc::{AllocError, Global};
use std::marker::Model;

/// Open scripts, which contracts see as the list of their commands that are not begun, the innermost
/// first, with room for more.
#[derive(Drop)]
pub struct Stack {
    // the innermost last
    scripts: Vec<OpenScript>,
}

impl Model for Stack {
    ghost use Rattle.std.specs.Prelude.{◌-◌, vec_capacity, vec_len};
    ghost use Rattle.hv_terminals.specs.Scripts.{StackKept, reversed};

    ghost Value = { StackKept };

    ghost view = { λ s. record {
      scripts = reversed s.scripts.items;
      room = vec_capacity s.scripts - vec_len s.scripts;
    } };
}

// The next command of scripts, the innermost of which is the last.
#[tactic(auto, using(crate::proofs::Stacks::line_here, crate::proofs::Stacks::next_further))]
fn line_in(scripts: &[OpenScript]) -> Option<&[u8]>
    ensures { option_copied result ≡ line_of (next_in (reversed scripts.now)) }
{
    match scripts {
        [] => None,
        [outer @ .., inner] => match inner.line() {
            Some(line) => Some(line),
            None => line_in(outer),
        },
    }
}

// How many scripts are open where the next command stands.
#[tactic(auto, using(crate::proofs::Stacks::depth_here, crate::proofs::Stacks::next_further))]
fn depth_in(scripts: &[OpenScript]) -> usize
    ensures { result ≡ depth_of (next_in (reversed scripts.now)) }
{
    match scripts {
        [] => 0,
        [outer @ .., inner] => match inner.line() {
            Some(_) => scripts.len(),
            None => depth_in(outer),
        },
    }
}

impl Stack {
    /// No scripts.
    pub fn new(alloc: Global) -> Stack
        ensures { result.scripts ≡ [] }
    {
        Stack {
            scripts: Vec::new(alloc),
        }
    }

    /// Makes room for one script more. At `Err` the scripts are as they were.
    pub fn make_room(&mut self) -> Result<(), AllocError>
        ensures room { OnOk result (1 ≤ self.new.room) }
        ensures scripts { self.new.scripts ≡ self.old.scripts }
        ensures kept { self.old.room ≤ self.new.room }
    {
        self.scripts.reserve(1)
    }

    /// Whether no script is open.
    pub fn is_empty(&self) -> bool
        ensures { result ≡ (length self.now.scripts == 0) }
    {
        self.scripts.is_empty()
    }

    /// Opens a script within the others.
    pub fn open(&mut self, script: OpenScript)
        requires { 1 ≤ self.old.room }
        ensures { self.new.scripts ≡ script ∷ self.old.scripts }
    {
        self.scripts.push_reserved(script);
    }

    /// The next command, if one is left.
    pub fn line(&self) -> Option<&[u8]>
        ensures { option_copied result ≡ line_of (next_in self.now.scripts) }
    {
        line_in(&self.scripts)
    }

    /// How many scripts are open where the next command stands, and 0 where none is left.
    pub fn depth(&self) -> usize
        ensures { result ≡ depth_of (next_in self.now.scripts) }
    {
        depth_in(&self.scripts)
    }

    /// Begins the next command, and says whether one was left. Scripts with none left are closed.
    #[tactic(auto, using(crate::proofs::Stacks::begins_here, crate::proofs::Stacks::begins_further))]
    pub fn skip(&mut self) -> bool
        ensures none { result ≡ false → (next_in self.old.scripts ≡ None) × (self.new.scripts ≡ []) }
        ensures some { result ≡ true
            → (line : _) × (next_in self.old.scripts ≡ Some (line, self.new.scripts)) }
        ensures room { self.old.room ≤ self.new.room }
    {
        while let Some(mut script) = self.scripts.pop() {
            if script.skip() {
                self.scripts.push_reserved(script);
                return true;
            }
        }
        false
    }
}
