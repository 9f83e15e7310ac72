//! The open scripts of a terminal.
ghost use Rattle.std.specs.Prelude.{◌≡◌, ◌≤◌, [], ◌∷◌, None, Some, true, false, is_none, length, OnOk};
ghost use Rattle.std.specs.Option.{option_copied};
ghost use Rattle.hv_model.specs.Session.{Task, next_in, opened};
ghost use Rattle.hv_terminals.specs.Scripts.{AreSameScripts, HasScriptRoom, KeepsScriptRoom, begun_depth, begun_in, begun_line, present_at};

use crate::script::OpenScript;
use crate::stack::Stack;
use std::alloc::{AllocError, Global};
use std::marker::Model;

/// The open scripts of a terminal: those of its boot script, and those of its own, which wait until
/// its boot script has ended.
#[derive(Drop)]
pub struct Scripts {
    boot: Stack,
    own: Stack,
}

impl Model for Scripts {
    ghost use Rattle.hv_terminals.specs.Scripts.{ScriptsKept};

    ghost Value = { ScriptsKept };

    ghost view = { λ s. record { boot = s.boot; own = s.own } };
}

impl Scripts {
    /// These scripts.
    pub fn new(boot: Stack, own: Stack) -> Scripts
        ensures { result ≡ record { boot = boot; own = own } }
    {
        Scripts { boot, own }
    }

    /// Makes room for one script more. At `Err` the scripts are as they were.
    pub fn make_room(&mut self) -> Result<(), AllocError>
        ensures room { OnOk result (HasScriptRoom self.new) }
        ensures scripts { AreSameScripts self.old self.new }
        ensures kept { KeepsScriptRoom self.old self.new }
    {
        self.boot.make_room()?;
        self.own.make_room()
    }

    /// Whether no command of the boot script is left.
    pub fn has_booted(&self) -> bool
        ensures { result ≡ is_none (next_in self.now.boot.scripts) }
    {
        self.boot.line().is_none()
    }

    /// Whether no command of the own script is left.
    pub fn has_ended(&self) -> bool
        ensures { result ≡ is_none (next_in self.now.own.scripts) }
    {
        self.own.line().is_none()
    }

    /// The next command, if one is left.
    pub fn line(&self) -> Option<&[u8]>
        ensures { option_copied result ≡ begun_line (begun_in self.now) }
    {
        match self.boot.line() {
            Some(line) => Some(line),
            None => self.own.line(),
        }
    }

    /// How many scripts are open where the next command stands, and 0 where none is left.
    #[tactic(auto, using(crate::proofs::Stacks::depth_boot, crate::proofs::Stacks::depth_own))]
    pub fn depth(&self) -> usize
        ensures { result ≡ begun_depth (begun_in self.now) }
    {
        if self.has_booted() {
            return self.own.depth();
        }
        self.boot.depth()
    }

    /// Begins the next command, and says whether one was left. Scripts with none left are closed.
    pub fn skip(&mut self) -> bool
        ensures none { result ≡ false → begun_in self.old ≡ None }
        ensures some { result ≡ true → (line : _) × (begun_in self.old
            ≡ Some (record {
              line = line;
              boot = self.new.boot.scripts;
              own = self.new.own.scripts;
            })) }
        ensures room { KeepsScriptRoom self.old self.new }
    {
        self.boot.skip() || self.own.skip()
    }

    /// Opens a script within those of the command that was begun last.
    pub fn open(&mut self, script: OpenScript)
        requires { HasScriptRoom self.old }
        ensures { (task : Task) → present_at task self.new
            ≡ opened (present_at task self.old) script }
    {
        if self.boot.is_empty() {
            self.own.open(script);
        } else {
            self.boot.open(script);
        }
    }
}
