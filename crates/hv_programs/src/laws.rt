//! Laws of programs, each the contract of a function that does nothing.
ghost use Rattle.std.specs.Prelude.{◌≡◌, ℕ};
ghost use Rattle.hv_answer.specs.declared.reply.Reply.{Reply};
ghost use Rattle.hv_step.specs.declared.step.Step.{Step};
ghost use Rattle.hv_rules.specs.Carry.{Carry};
ghost use Rattle.hv_rules.specs.Hart.{HartAgrees, HartState, hart_after};
ghost use Rattle.hv_programs.specs.Hart.{Brings, IsHart, MayMake, at_start, handed_alone};

/// Of what is handed over, a hart takes the pending access, the clock and the parent alone.
pub fn harts_take_these_alone()
    ensures { (hart : HartState) (s : Step) (r : Reply) (c : Carry)
        → hart_after hart s r c ≡ hart_after hart s r (handed_alone c.pending c.clock c.parent) }
{}

/// What a hart keeps (`IsHart`) lets it make the step to which it agrees.
pub fn harts_may_make_their_steps()
    ensures { (number : ℕ) (hart : HartState) (s : Step) (c : Carry)
        → HartAgrees number hart s c → IsHart hart → MayMake hart s }
{}

/// A hart keeps it from the start, and with each step to which it agrees, whatever the reply.
pub fn harts_are_kept()
    ensures start { (harts turns : ℕ) → IsHart (at_start harts turns) }
    ensures step { (number : ℕ) (hart : HartState) (s : Step) (r : Reply) (c : Carry)
        → HartAgrees number hart s c → Brings s c → IsHart hart
        → IsHart (hart_after hart s r c) }
{}
