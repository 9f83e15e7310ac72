//! The cells of a run: the files and the four terminals.
ghost use Rattle.std.specs.Prelude.{◌≡◌, ◌≤◌, ◌<◌, ℕ, vec_len, IfOk, Err, MatchOption, false};
ghost use Rattle.hv_model.specs.Session.{has_ended};

use crate::files::FileCell;
use crate::stop::Stop;
use crate::terminal::Terminal;
use crate::turn::take_step;
use hv_model::Entry;
use std::alloc::Global;

/// The files and the terminals 0 to 3.
#[derive(Drop)]
pub struct Board {
    pub files: FileCell,
    pub terminals: Vec<Terminal>,
    ghost four: { vec_len terminals ≡ 4 },
}

impl Board {
    ghost use Rattle.hv_rounds.specs.declared.terminal.Terminal.{Terminal as TerminalCell};
    ghost use Rattle.hv_rounds.specs.declared.stop.Stop.TheVariants as stop;
    ghost use Rattle.hv_rounds.specs.Cells.{session_of};
    ghost use Rattle.hv_rounds.specs.Step.{KeepsFiles};
    ghost use Rattle.hv_rounds.specs.Board.{at, IsBoardStep, EndedFrom, OpenFrom, IsTurn, FoundLast, BeginTogether};

    /// The first terminal from a number on that has not ended.
    fn first_open(&self, from: usize) -> Option<usize>
        requires { from ≤ 4 }
        ensures { MatchOption result (EndedFrom self.now from) (λ t. OpenFrom self.now from t) }
    {
        for index in from..4 {
            if !self.terminals[index].has_ended() {
                return Some(index);
            }
        }
        None
    }

    /// The terminal whose turn it is, behind those below a number in this round.
    pub fn next_turn(&self, from: usize) -> Option<usize>
        requires { from ≤ 4 }
        ensures { IsTurn self.now from result }
    {
        match self.first_open(from) {
            Some(index) => Some(index),
            None => self.first_open(0),
        }
    }

    /// The next step of a terminal that has not ended.
    pub fn step(&mut self, alloc: Global, number: usize) -> Result<Entry, Stop>
        requires is_one { number < 4 }
        requires left { (d : TerminalCell) → has_ended (session_of (at self.old number d)) ≡ false }
        ensures ok { IfOk result (λ e. IsBoardStep self.old self.new number e) }
        ensures spent { (n : ℕ) → result ≡ Err (stop.Spent n) → FoundLast self.old n }
        ensures kept { KeepsFiles result self.old.files self.new.files }
    {
        take_step(alloc, &mut self.files, &mut self.terminals[number])
    }

    /// Gives every terminal the stamp of the first.
    pub fn begin_together(&mut self)
        requires { (t : ℕ) (d : TerminalCell) → t < 4 → (at self.old t d).count ≤ (at self.old 0 d).stamp }
        ensures { BeginTogether self.old self.new }
    {
        let stamp = self.terminals[0].stamp;
        for index in 0..4 {
            self.terminals[index].begin_at(stamp);
        }
    }
}
