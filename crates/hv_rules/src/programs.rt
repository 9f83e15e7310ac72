//! Laws of harts' programs, each the contract of a function that does nothing.
ghost use Rattle.std.specs.Prelude.{◌≡◌, ℕ, Some, None, Ok, [], ◌∷◌};
ghost use Rattle.hv_answer.specs.declared.reply.Reply.TheVariants as reply;
ghost use Rattle.hv_answer.specs.declared.reply.Outcome.TheVariants as outcome;
ghost use Rattle.hv_rules.specs.Carry.{Carry, nothing};
ghost use Rattle.hv_rules.specs.Hart.{HartAgrees, hart_after};
ghost use Rattle.hv_rules.specs.HartExample as example;

/// Steps that a hart makes next, and steps that it doesn't.
pub fn harts_make_these_steps()
    ensures first { HartAgrees 0 example.new_hart (example.tick 0) nothing }
    ensures no_tick { HartAgrees 1 example.new_hart (example.tick 0) nothing → ⊥ }
    ensures not_yet { HartAgrees 0 example.new_hart example.idle nothing → ⊥ }
    ensures idle { HartAgrees 0 example.ticked_hart example.idle nothing }
    ensures free { HartAgrees 1 example.new_hart (example.dispatch 5) nothing }
    ensures ended { HartAgrees 1 example.ended_hart example.idle nothing → ⊥ }
    ensures fetch { HartAgrees 1 (example.running 7) (example.fetch 5 0) nothing }
    ensures other { HartAgrees 1 (example.running 7) (example.fetch 6 0) nothing → ⊥ }
    ensures early { HartAgrees 1 (example.running 7) (example.preempt 5) nothing → ⊥ }
    ensures spent { HartAgrees 1 (example.running 8) (example.preempt 5) nothing }
    ensures late { HartAgrees 1 (example.running 8) (example.fetch 5 0) nothing → ⊥ }
    ensures left { HartAgrees 1 (example.running 8) (example.leave 5) nothing }
    ensures balance { HartAgrees 1 example.balancing example.balance example.balance_carry }
    ensures all_queues { HartAgrees 1 example.balancing example.balance nothing → ⊥ }
    ensures no_more { HartAgrees 1 (example.running 8) (example.preempt 5) example.load_carry → ⊥ }
    ensures alone { HartAgrees 1 (example.running 7) example.balance nothing → ⊥ }
    ensures access { HartAgrees 1 example.loading (example.access_in 3 4) example.load_carry }
    ensures whole { HartAgrees 1 example.loading (example.access_in 3 2) example.load_carry → ⊥ }
    ensures fault { HartAgrees 1 example.loading example.load_fault nothing }
    ensures pending { HartAgrees 1 example.loading (example.fetch 5 0) nothing → ⊥ }
    ensures owed { HartAgrees 1 example.owing example.pin nothing }
    ensures owed_first { HartAgrees 1 example.owing (example.access_in 3 4) example.load_carry → ⊥ }
{}

/// What steps leave of a hart.
pub fn steps_leave_these_harts()
    ensures dispatched { hart_after example.ticked_hart (example.dispatch 5) (reply.Dispatch (Ok 8)) nothing
        ≡ record (example.running 0) { left = 99; turns = 1 } }
    ensures preempted { (hart_after (example.running 8) (example.preempt 5) reply.Preempt nothing).current ≡ None }
    ensures fetched { hart_after (example.running 6) (example.fetch 5 0)
        (reply.Fetch (Some (record { word = 19; outcome = outcome.Done }))) nothing
        ≡ record (example.running 7) { left = 99; turns = 1 } }
    ensures waits { (hart_after (example.running 6) (example.fetch 5 0)
        (reply.Fetch (Some (record { word = 19; outcome = outcome.Wait }))) nothing).current ≡ None }
    ensures pends { hart_after (example.running 0) (example.fetch 5 0)
        (reply.Fetch (Some (record { word = 19; outcome = outcome.Access }))) example.load_carry
        ≡ example.loading }
    ensures denied { hart_after example.loading (example.access_in 3 4) (reply.Access None) example.load_carry
        ≡ record (example.running 1) { left = 99; turns = 1 } }
    ensures paid { hart_after example.owing example.pin (reply.Pin None) nothing ≡ example.loading }
{}
