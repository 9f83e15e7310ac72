//! Laws of terminals' lines, each the contract of a function that does nothing.
ghost use Rattle.std.specs.Prelude.{◌≡◌, Some, None, [], ◌∷◌, codes};
ghost use Rattle.hv_kinds.specs.declared.stage.Stage.TheVariants.{Making, Made, Ending};
ghost use Rattle.hv_step.specs.declared.step.Step.TheVariants as step;
ghost use Rattle.hv_rules.specs.Line as line;
ghost use Rattle.hv_rules.specs.Line.{next_step, steps_of};
ghost use Rattle.hv_rules.specs.LineExample as example;

/// The steps that lines make on an example, with their ways back and their ends.
pub fn lines_make_these_steps()
    // A guest is claimed, its regions are added, aliases last, its VCPUs are added, and it is made.
    ensures create { steps_of (line.create example.name) 2 example.regions
        ≡ line.claim ∷ line.add 1 ∷ line.add 2 ∷ line.add 0 ∷ line.add_vcpu 0 ∷ line.add_vcpu 1
        ∷ line.turn Making (Some Made) ∷ [] }
    ensures vcpu { next_step (example.after (example.line (line.create example.name))
        (example.claimed ∷ example.added ∷ example.added ∷ example.added ∷ [])) None
        ≡ Some (step.Vadd (record { vcpu = 9; birth = 7 })) }

    // Where an addition is refused, those that were made are undone, the last one first.
    ensures turns_back { next_step (example.after (example.line (line.create example.name))
        (example.claimed ∷ example.added ∷ example.not_added ∷ [])) (Some example.guest)
        ≡ Some (step.Drop (record {
          name = example.name;
          region = codes "ram";
          stage = Making;
          generation = Some example.guest;
        })) }
    ensures gives_up { next_step (example.after (example.line (line.create example.name))
        (example.claimed ∷ example.added ∷ example.not_added ∷ example.dropped ∷ [])) None
        ≡ Some (step.Stage (record { name = example.name; from = Making; to = None })) }

    // The end of a guest drops what it owns and no alias.
    ensures destroy { steps_of (line.destroy example.name) 2 example.regions
        ≡ line.turn Made (Some Ending) ∷ line.drop_vcpu 0 ∷ line.drop_vcpu 1 ∷ line.drop Ending 1
        ∷ line.drop Ending 2 ∷ line.drop Ending 3 ∷ line.turn Ending None ∷ [] }

    // A reset goes over the VCPUs and then the devices; a refusal by the directory ends a line, and no other does.
    ensures reset { steps_of (line.each_vcpu line.reset example.name) 2 example.regions
        ≡ line.change line.reset 0 ∷ line.change line.reset 1 ∷ line.reset_device 2 ∷ [] }
    ensures kick { next_step (example.after (example.line (line.each_vcpu line.kick example.name))
        (example.kicked ∷ [])) (Some example.guest)
        ≡ Some (step.Kick (record {
          vcpu = 10;
          guest = Some (record { name = example.name; generation = Some example.guest });
        })) }
    ensures ended { next_step (example.after (example.line (line.each_vcpu line.kick example.name))
        (example.kicked ∷ example.gone ∷ [])) None
        ≡ None }
    ensures refused { next_step (example.after (example.line (line.each_vcpu line.kick example.name))
        (example.gone ∷ [])) None
        ≡ None }
{}
