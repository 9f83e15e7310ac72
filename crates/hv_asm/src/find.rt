//! Instructions found by their names.
ghost use Rattle.std.specs.Prelude.{◌≡◌};
ghost use Rattle.hv_asm.specs.Candidates.{named};

use crate::syntax::name_of;
use hv_exec::Inst;

/// The first of some instructions that has a name.
#[tactic(auto, unfolding(crate::specs::Candidates::named))]
pub(crate) fn find(name: &[u8], candidates: &[Inst]) -> Option<Inst>
    ensures { result ≡ named name.now candidates.now }
{
    for inst in candidates {
        if name == name_of(*inst).as_bytes() {
            return Some(*inst);
        }
    }
    None
}
