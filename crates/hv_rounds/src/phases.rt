//! The two phases of a run: the boot script, and the rounds.
ghost use Rattle.std.specs.Prelude.{[], IfOk};
ghost use Rattle.hv_machine.specs.Machine.{State};
ghost use Rattle.hv_model.specs.Origin.{Origin};
ghost use Rattle.hv_model.specs.Rules.{machine};
ghost use Rattle.hv_model.specs.declared.entry.Entry.{Entry as EntryValue};
ghost use Rattle.std.specs.Prelude.{List, ◌≡◌};
ghost use Rattle.hv_rounds.specs.Board.{Goes};
ghost use Rattle.hv_rounds.specs.Phase.{BootPart, BootEnds, RoundsEnd};

use crate::board::Board;
use crate::stop::Stop;
use hv_model::Entry;
use std::alloc::{AllocError, Global};

/// What a phase made, and the last stamp where it was stopped by it.
#[derive(Drop)]
pub struct Phase {
    pub made: Vec<Entry>,
    pub spent: Option<u64>,
}

/// Terminal 0 makes its boot script.
pub fn run_boot(alloc: Global, board: &mut Board) -> Result<Phase, AllocError>
    ensures { IfOk result (λ p. (O : Origin) → BootPart O [] board.old
        → BootEnds O p.made.items board.new p.spent) }
{
    let mut made = Vec::new(alloc);
    'boot: while !board.terminals[0].is_booted() {
        match board.step(alloc, 0) {
            Ok(entry) => made.push(entry)?,
            Err(Stop::Spent(stamp)) => {
                return Ok(Phase {
                    made,
                    spent: Some(stamp),
                });
            }
            Err(Stop::Memory(error)) => return Err(error),
        }
    }
    Ok(Phase { made, spent: None })
}

/// The terminals make their steps in rounds.
pub fn run_rounds(alloc: Global, board: &mut Board) -> Result<Phase, AllocError>
    ensures { IfOk result (λ p. (O : Origin) (s : State (machine O)) (before : List EntryValue)
        → O.opening.turns ≡ 0 → Goes O s before [] board.old
        → RoundsEnd O s before p.made.items board.new p.spent) }
{
    let mut made = Vec::new(alloc);
    let mut from = 0;
    'rounds: while let Some(number) = board.next_turn(from) {
        match board.step(alloc, number) {
            Ok(entry) => made.push(entry)?,
            Err(Stop::Spent(stamp)) => {
                return Ok(Phase {
                    made,
                    spent: Some(stamp),
                });
            }
            Err(Stop::Memory(error)) => return Err(error),
        }
        from = number + 1;
    }
    Ok(Phase { made, spent: None })
}
