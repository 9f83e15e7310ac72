//! The rules at components of a small board.
ghost use Rattle.std.specs.Prelude.{◌≡◌, [], ◌∷◌, codes, false, Some, None, Ok, Err, IsSomeAnd};
ghost use Rattle.hv_body.specs.Body.{device_of};
ghost use Rattle.hv_emu.specs.Device.{timer};
ghost use Rattle.hv_emu.specs.Timer.{timer_reset};
ghost use Rattle.hv_dir.specs.Directory.{entry_of, no_guests};
ghost use Rattle.hv_space.specs.Space.{no_windows};
ghost use Rattle.hv_answer.specs.declared.reply.Reply.TheVariants as reply;
ghost use Rattle.hv_event.specs.declared.event.ActorId.TheVariants.{Terminal};
ghost use Rattle.hv_kinds.specs.declared.stage.Stage.TheVariants.{Making};
ghost use Rattle.hv_kinds.specs.declared.state.State.TheVariants as state;
ghost use Rattle.hv_refusal.specs.declared.refusal.Refusal.TheVariants as refusal;
ghost use Rattle.hv_rules.specs.Body.{BodyAgrees, body_after};
ghost use Rattle.hv_rules.specs.Carry.{nothing};
ghost use Rattle.hv_rules.specs.Dir.{DirAgrees};
ghost use Rattle.hv_rules.specs.Queue.{QueueAgrees, queue_after};
ghost use Rattle.hv_rules.specs.Shelf.{ShelfAgrees, shelf_after};
ghost use Rattle.hv_rules.specs.Space.{SpaceAgrees, refusal_in, space_after};
ghost use Rattle.hv_rules.specs.Vcpu.{VcpuAgrees, vcpu_after};
ghost use Rattle.hv_rules.specs.Example as board;
ghost use Rattle.hv_rules.specs.DeviceExample as device;

/// What the components of a small board agree to, what they don't, and what they are left as.
pub fn components_agree()
    ensures claim { DirAgrees no_guests board.claim (board.granted 0) nothing }
    ensures other_slot { DirAgrees no_guests board.claim (board.granted 1) nothing → ⊥ }
    ensures claimed { entry_of board.claimed (codes "g0") ≡ Some board.entry }
    ensures admitted { DirAgrees board.claimed board.add board.added board.with_ram }
    ensures no_device { ShelfAgrees [] board.add board.added board.with_ram }
    ensures added { SpaceAgrees no_windows board.add board.added board.with_ram }
    ensures window { board.space.windows ≡ board.window ∷ [] }
    ensures built { BodyAgrees 3 None board.add board.added board.with_ram }
    ensures found { SpaceAgrees board.space board.mem
        (reply.Mem (Ok (0 ∷ 0 ∷ []))) board.at_window }
    ensures zero { BodyAgrees 3 board.body board.mem (reply.Mem (Ok (0 ∷ 0 ∷ []))) board.at_window }
    ensures no_other { BodyAgrees 3 board.body board.mem
        (reply.Mem (Ok (0 ∷ 1 ∷ []))) board.at_window → ⊥ }
    ensures kick { VcpuAgrees (Terminal 0) board.vcpu board.kick board.kicked board.with_priority }
    ensures ready { (vcpu_after (Terminal 0) board.vcpu board.kick board.kicked nothing).state
        ≡ state.Ready }
    ensures queued { queue_after 1 [] board.kick board.kicked board.with_priority
        ≡ board.early ∷ [] }
    ensures pause { VcpuAgrees (Terminal 0) board.running board.pause board.paused nothing }
    ensures paused { (vcpu_after (Terminal 0) board.running board.pause board.paused nothing).state
        ≡ state.Paused false }
    ensures head { QueueAgrees 0 board.queue (board.dispatch 5) (reply.Dispatch (Ok 8)) nothing }
    ensures no_head { QueueAgrees 0 board.queue (board.dispatch 1) (reply.Dispatch (Ok 8)) nothing
        → ⊥ }
    ensures longest { QueueAgrees 0 board.queue board.balance board.moved board.uneven }
    ensures shortest { QueueAgrees 1 [] board.balance board.moved board.uneven }
    ensures gives { queue_after 0 board.queue board.balance board.moved board.uneven
        ≡ board.early ∷ [] }
    ensures takes { queue_after 1 [] board.balance board.moved board.uneven ≡ board.urgent ∷ [] }
{}

/// What a guest reaches through a window and an alias, and what is left when the memory is gone.
pub fn memory_is_reached()
    ensures alias { SpaceAgrees board.space board.add_alias board.added board.with_alias }
    ensures no_target { SpaceAgrees board.space board.add_alias board.not_added board.past_the_end }
    ensures not_added { ShelfAgrees [] board.add_alias board.not_added board.past_the_end }
    ensures live { refusal_in board.shared_space.windows board.again ≡ Some refusal.Live }
    ensures built { BodyAgrees 3 board.body board.add_alias board.added board.with_alias }
    ensures store { BodyAgrees 3 board.shared_body board.store board.stored nothing }
    ensures written { BodyAgrees 3 board.written_body board.mem
        (reply.Mem (Ok (0 ∷ 1 ∷ []))) board.at_window }
    ensures unreached { BodyAgrees 3 board.body board.store board.stored nothing → ⊥ }
    ensures fault { SpaceAgrees board.shared_space (board.fault 8195) (reply.Fault 5) nothing }
    ensures no_fault { SpaceAgrees board.shared_space (board.fault 8194) (reply.Fault 5) nothing
        → ⊥ }
    ensures drop { SpaceAgrees board.shared_space board.drop board.dropped board.row_of_ram }
    ensures cleared { BodyAgrees 3 board.written_body board.drop board.dropped board.row_of_ram }
    ensures gone { space_after board.shared_space board.drop board.dropped board.row_of_ram
        ≡ no_windows }
    ensures empty { body_after 3 board.written_body board.drop board.dropped board.row_of_ram
        ≡ None }
{}

/// How a device goes from the shelf to a region and back, and what it does there.
pub fn devices_move()
    ensures taken { ShelfAgrees device.shelf device.add device.added device.with_timer }
    ensures left { shelf_after device.shelf device.add device.added device.with_timer
        ≡ device.port ∷ [] }
    ensures none { ShelfAgrees device.shelf device.add device.not_added device.without_timer }
    ensures built { BodyAgrees 1 None device.add device.added device.with_timer }
    ensures clock { device.space.clock ≡ Some (1, 0) }
    ensures store { BodyAgrees 1 device.body device.store device.stored nothing }
    ensures pin { BodyAgrees 1 device.signalling (device.pin 2) device.software nothing }
    ensures other_pin { BodyAgrees 1 device.signalling (device.pin 1) device.software nothing → ⊥ }
    ensures due { SpaceAgrees device.space device.tick device.ticked device.at_clock }
    ensures tick { BodyAgrees 1 device.signalling device.tick device.ticked device.at_clock }
    ensures drop { IsSomeAnd (device_of device.signalling)
        (λ d. BodyAgrees 1 device.signalling device.drop device.dropped (device.given_back d)) }
    ensures shelf { IsSomeAnd (device_of device.signalling)
        (λ d. shelf_after (device.port ∷ []) device.drop device.dropped (device.given_back d)
        ≡ device.port ∷ timer (timer_reset 2) ∷ []) }
    ensures stopped { space_after device.space device.drop device.dropped device.without_timer
        ≡ no_windows }
{}

/// Why steps are refused, the first reason before the others.
pub fn steps_are_refused()
    ensures unnamed { DirAgrees no_guests board.claim
        (reply.Name (Err refusal.NoGuest)) board.unnamed }
    ensures used { DirAgrees board.claimed board.claim (reply.Name (Err refusal.NameUsed)) nothing }
    ensures no_guest { DirAgrees no_guests (board.add_by None)
        (reply.Add (Err refusal.NoSuchGuest)) nothing }
    ensures no_region { DirAgrees board.claimed (board.add_by None)
        (reply.Add (Err refusal.NoRegion)) nothing }
    ensures shown { DirAgrees board.claimed board.add (reply.Add (Err refusal.NoRegion)) nothing
        → ⊥ }
    ensures stage { DirAgrees board.claimed (board.mem_at 4100 2 None)
        (reply.Mem (Err (refusal.GuestState Making))) nothing }
    ensures not_live { SpaceAgrees no_windows board.drop
        (reply.Drop (Err refusal.NotLive)) board.row_of_ram }
    ensures not_given { ShelfAgrees [] board.drop
        (reply.Drop (Err refusal.NotLive)) board.row_of_ram }
    ensures no_window { SpaceAgrees board.space (board.mem_at 4111 2 (Some board.first))
        (reply.Mem (Err refusal.NoWindow)) nothing }
    ensures no_bytes { SpaceAgrees board.space (board.mem_at 4111 0 (Some board.first))
        (reply.Mem (Err refusal.NoWindow)) nothing }
    ensures no_memory { BodyAgrees 1 device.body board.mem
        (reply.Mem (Err refusal.NotMemory)) device.at_timer }
    ensures not_serial { BodyAgrees 1 device.body device.feed
        (reply.Feed (Err refusal.NotSerial)) nothing }
{}
