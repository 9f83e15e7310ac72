//! A board at the start of a run.
ghost use Rattle.std.specs.Prelude.{◌≡◌, ◌∷◌, ◌++◌, ◌+◌, ◌*◌, ◌≤◌, [], IfOk, OnOk, Some, length};
ghost use Rattle.hv_dir.specs.Pool.{devices_of};
ghost use Rattle.hv_emu.specs.Device.{DevState};
ghost use Rattle.hv_model.specs.Files.{load_files};
ghost use Rattle.hv_model.specs.Legal.{start, vcpu_at_start};
ghost use Rattle.hv_model.specs.Origin.{Origin, origin_of};
ghost use Rattle.hv_text.specs.declared.limits.TheConstants.{GUEST_REGIONS, HARTS, MOST_AREAS, SLOTS, VCPUS};
ghost use Rattle.hv_board.specs.Board.{IsWhole};
ghost use Rattle.hv_board.specs.Holds.{Holds};
ghost use Rattle.hv_board.specs.Places.{count_of, first_area, first_body, first_queue, first_space, first_vcpu};
ghost use Rattle.hv_board.specs.Started.{AreStarted, StartsTo};

use crate::board::Board;
use crate::cell::Cell;
use crate::layout::Layout;
use hv_body::{Area, BodyOf};
use hv_dir::{Dir, ShelfOf};
use hv_emu::Emulator;
use hv_files::FileTree;
use hv_model::Opening;
use hv_parts::{Boxed, Part};
use hv_queue::Queue;
use hv_region::VcpuPlan;
use hv_space::Space;
use hv_text::{Bytes, GUEST_REGIONS, SLOTS, VCPUS};
use hv_vcpu::{Move, Vcpu};
use std::alloc::{AllocError, Global};

/// How the VCPU begins that balances.
const ORPHAN: VcpuPlan = VcpuPlan {
    start: 0,
    priority: 3,
    slice: 1,
};

/// Adds a cell that no event has touched.
fn push<E: Emulator>(cells: &mut Vec<Cell<E>>, part: Part<E>) -> Result<(), AllocError>
    ensures { OnOk result (cells.new.items
        ≡ cells.old.items ++ record { part = Some part; stamp = 0 } ∷ []) }
{
    cells.push(Cell {
        part: Some(part),
        stamp: 0,
    })?;
    Ok(())
}

/// The VCPU of a number at the start.
fn starting_vcpu(number: usize) -> Vcpu
    ensures { result ≡ vcpu_at_start number }
{
    let mut vcpu = Vcpu::new();
    if number == 0 {
        let add = Move::Add {
            birth: 0,
            index: 0,
            plan: ORPHAN,
        };
        let _ = vcpu.step(add);
    }
    vcpu
}

/// Adds the directory, the pool of devices and the files.
fn push_single<E: Emulator>(
    alloc: Global,
    shelf: ShelfOf<E>,
    files: FileTree,
    cells: &mut Vec<Cell<E>>,
) -> Result<(), AllocError>
    requires { cells.old.items ≡ [] }
    ensures { OnOk result ((O : Origin) (layout : Layout) → O.devices ≡ devices_of E.state shelf
        → load_files O.opening.files ≡ files
        → AreStarted E.state O layout cells.new.items first_space) }
{
    let directory = Boxed::new(alloc, Dir::new())?;
    push(cells, Part::Dir(directory))?;
    push(cells, Part::Shelf(shelf))?;
    push(cells, Part::Files(files))
}

/// Adds the address spaces of all slots.
fn push_spaces<E: Emulator>(alloc: Global, cells: &mut Vec<Cell<E>>) -> Result<(), AllocError>
    ensures { OnOk result ((layout : Layout)
        → StartsTo E.state layout cells.old.items first_space cells.new.items first_queue) }
{
    for slot in 0..SLOTS {
        let space = Space::new(alloc)?;
        push(cells, Part::Space(space))?;
    }
    Ok(())
}

/// Adds the queues of all harts.
fn push_queues<E: Emulator>(
    alloc: Global,
    layout: Layout,
    cells: &mut Vec<Cell<E>>,
) -> Result<(), AllocError>
    ensures { OnOk result (StartsTo E.state layout cells.old.items first_queue
        cells.new.items (first_vcpu layout)) }
{
    for hart in 0..layout.harts {
        let queue = Queue::new(alloc)?;
        push(cells, Part::Queue(queue))?;
    }
    Ok(())
}

/// Adds the VCPUs.
fn push_vcpus<E: Emulator>(alloc: Global, cells: &mut Vec<Cell<E>>) -> Result<(), AllocError>
    ensures { OnOk result ((layout : Layout) → StartsTo E.state layout cells.old.items
        (first_vcpu layout) cells.new.items (first_body layout)) }
{
    for number in 0..VCPUS {
        let vcpu = Boxed::new(alloc, starting_vcpu(number))?;
        push(cells, Part::Vcpu(vcpu))?;
    }
    Ok(())
}

/// Adds the contents of all rows of all slots.
fn push_bodies<E: Emulator>(alloc: Global, cells: &mut Vec<Cell<E>>) -> Result<(), AllocError>
    ensures { OnOk result ((layout : Layout) → StartsTo E.state layout cells.old.items
        (first_body layout) cells.new.items (first_area layout)) }
{
    for number in 0..SLOTS * GUEST_REGIONS {
        let body = BodyOf::new(alloc)?;
        let body = Boxed::new(alloc, body)?;
        push(cells, Part::Body(body))?;
    }
    Ok(())
}

/// Adds the areas of these sizes.
fn push_areas<E: Emulator>(
    alloc: Global,
    areas: &[(Bytes, u64)],
    cells: &mut Vec<Cell<E>>,
) -> Result<(), AllocError>
    ensures { OnOk result ((O : Origin) (layout : Layout) → O.opening.areas ≡ areas.now
        → layout.areas ≡ length areas.now
        → AreStarted E.state O layout cells.old.items (first_area layout)
        → AreStarted E.state O layout cells.new.items (first_area layout + length areas.now)) }
{
    for named in areas {
        let area = Area::new(alloc, named.1)?;
        push(cells, Part::Area(area))?;
    }
    Ok(())
}

/// The board of an opening at the start, with the files that were loaded and the devices that were
/// handed in.
pub fn open_board<E: Emulator>(
    alloc: Global,
    opening: &Opening,
    files: FileTree,
    shelf: ShelfOf<E>,
) -> Result<Board<E>, AllocError>
    requires harts { opening.now.harts ≤ HARTS }
    requires areas { length opening.now.areas ≤ MOST_AREAS }
    requires files { files ≡ load_files opening.now.files }
    ensures whole { IfOk result (λ board. IsWhole E.state board) }
    ensures areas { IfOk result (λ board. board.layout.areas ≡ length opening.now.areas) }
    ensures start { IfOk result (λ board. let O = origin_of opening.now (devices_of E.state shelf)
        in Holds E.state O (start O) board) }
{
    let areas = opening.areas.as_slice();
    let layout = Layout {
        harts: opening.harts as u8,
        areas: areas.len() as u8,
    };
    let cells = open_cells(alloc, layout, areas, files, shelf)?;
    Ok(Board {
        alloc,
        layout,
        cells,
        places: Vec::with_capacity(alloc, layout.count())?,
        room: Vec::with_capacity(alloc, layout.count())?,
    })
}

/// The cells of a board at the start.
fn open_cells<E: Emulator>(
    alloc: Global,
    layout: Layout,
    areas: &[(Bytes, u64)],
    files: FileTree,
    shelf: ShelfOf<E>,
) -> Result<Vec<Cell<E>>, AllocError>
    requires { layout.areas ≡ length areas.now }
    ensures { IfOk result (λ cells. (O : Origin) → O.devices ≡ devices_of E.state shelf
        → load_files O.opening.files ≡ files → O.opening.areas ≡ areas.now
        → AreStarted E.state O layout cells.items (count_of layout)) }
{
    let mut cells = Vec::with_capacity(alloc, layout.count())?;
    push_single(alloc, shelf, files, &mut cells)?;
    push_spaces(alloc, &mut cells)?;
    push_queues(alloc, layout, &mut cells)?;
    push_vcpus(alloc, &mut cells)?;
    push_bodies(alloc, &mut cells)?;
    push_areas(alloc, areas, &mut cells)?;
    Ok(cells)
}
