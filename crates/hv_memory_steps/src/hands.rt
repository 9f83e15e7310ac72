//! What these steps hand over.
ghost use Rattle.std.specs.Prelude.{◌≡◌, Some};
ghost use Rattle.std.specs.Option.{option_map};
ghost use Rattle.hv_handed.specs.Given.{given, pended};
ghost use Rattle.hv_handed.specs.Told.{IsTold};
ghost use Rattle.hv_rules.specs.Carry.{nothing};
ghost use Rattle.hv_memory_steps.specs.Hands.{access_carry, fetch_carry, load_carry, mem_carry};

use hv_answer::Reply;
use hv_emu::Emulator;
use hv_handed::{Carry, Made, Pending, Told, hand_nothing};
use hv_region::Window;
use hv_text::Bytes;
use std::snapshot::Snapshot;

/// A step that hands nothing over.
pub(crate) fn made_alone<E: Emulator>(reply: Reply) -> Made<E>
    ensures reply { result.reply ≡ reply }
    ensures handed { given E.state result.handed.value ≡ nothing }
    ensures told { IsTold (given E.state result.handed.value) result.told }
{
    Made {
        reply,
        handed: hand_nothing(),
        told: Told::nothing(),
    }
}

/// A fetch: where the instruction stands, the access that it leaves pending, and the area that gave
/// it.
pub(crate) fn made_fetch<E: Emulator>(
    reply: Reply,
    pc: u64,
    pending: Option<Pending>,
    area: Option<(u8, u64)>,
) -> Made<E>
    ensures reply { result.reply ≡ reply }
    ensures handed { given E.state result.handed.value
        ≡ fetch_carry (Some pc) (option_map pended pending) area }
    ensures told { IsTold (given E.state result.handed.value) result.told }
    ensures pending { result.told.pending ≡ pending }
{
    let mut carry = Carry::nothing();
    carry.pc = Some(pc);
    carry.pending = pending;
    carry.area = area;
    let mut told = Told::nothing();
    told.pending = pending;
    Made {
        reply,
        handed: Snapshot::of(&carry),
        told,
    }
}

/// An access: what was pending, the area that it reaches, and where the region's interrupts go.
pub(crate) fn made_access<E: Emulator>(
    reply: Reply,
    pending: Pending,
    area: Option<(u8, u64)>,
    parent: Option<(u8, u8)>,
) -> Made<E>
    ensures reply { result.reply ≡ reply }
    ensures handed { given E.state result.handed.value ≡ access_carry (pended pending) area parent }
    ensures told { IsTold (given E.state result.handed.value) result.told }
{
    let mut carry = Carry::nothing();
    carry.pending = Some(pending);
    carry.area = area;
    carry.parent = parent;
    let mut told = Told::nothing();
    told.pending = Some(pending);
    told.parent = parent;
    Made {
        reply,
        handed: Snapshot::of(&carry),
        told,
    }
}

/// A load: the bytes of a file, the window through which they are loaded, and the area that takes
/// them.
pub(crate) fn made_load<E: Emulator>(
    reply: Reply,
    bytes: &Bytes,
    window: Option<Window>,
    area: Option<(u8, u64)>,
) -> Made<E>
    ensures reply { result.reply ≡ reply }
    ensures handed { given E.state result.handed.value ≡ load_carry bytes.now window area }
    ensures told { IsTold (given E.state result.handed.value) result.told }
{
    let mut carry = Carry::nothing();
    carry.bytes = Some(Snapshot::of(bytes));
    carry.window = window;
    carry.area = area;
    Made {
        reply,
        handed: Snapshot::of(&carry),
        told: Told::nothing(),
    }
}

/// A look at memory: the window that shows it, and the area of which it shows a part.
pub(crate) fn made_mem<E: Emulator>(
    reply: Reply,
    window: Window,
    area: Option<(u8, u64)>,
) -> Made<E>
    ensures reply { result.reply ≡ reply }
    ensures handed { given E.state result.handed.value ≡ mem_carry window area }
    ensures told { IsTold (given E.state result.handed.value) result.told }
{
    let mut carry = Carry::nothing();
    carry.window = Some(window);
    carry.area = area;
    Made {
        reply,
        handed: Snapshot::of(&carry),
        told: Told::nothing(),
    }
}
