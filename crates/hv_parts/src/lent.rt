//! The components that parts hold, to be changed.
ghost use Rattle.std.specs.Prelude.{◌≡◌};
ghost use Rattle.std.specs.Borrow.{Lends, sem};
ghost use Rattle.hv_event.specs.declared.event.CellId.TheVariants as component;
ghost use Rattle.hv_parts.specs.Value.{valued};
ghost use Rattle.hv_parts.specs.Kinds.{IsPartOf};
ghost use Rattle.hv_parts.specs.declared.part.Part.TheVariants as part;
ghost use Rattle.hv_parts.specs.contracts.part.Part.{the_row as part_row};
ghost use Rattle.hv_dir.specs.contracts.dir.Dir.{the_row as directory_row};
ghost use Rattle.hv_dir.specs.contracts.shelf.ShelfOf.{the_row as shelf_row};
ghost use Rattle.hv_files.specs.contracts.tree.FileTree.{the_row as files_row};
ghost use Rattle.hv_space.specs.contracts.space.Space.{the_row as space_row};
ghost use Rattle.hv_queue.specs.contracts.queue.Queue.{the_row as queue_row};
ghost use Rattle.hv_vcpu.specs.contracts.vcpu.Vcpu.{the_row as vcpu_row};
ghost use Rattle.hv_body.specs.contracts.body.BodyOf.{the_row as body_row};
ghost use Rattle.hv_body.specs.contracts.area.Area.{the_row as area_row};

use crate::part::Part;
use hv_body::{Area, BodyOf};
use hv_dir::{Dir, ShelfOf};
use hv_emu::Emulator;
use hv_files::FileTree;
use hv_queue::Queue;
use hv_space::Space;
use hv_vcpu::Vcpu;

/// The directory of the directory's part.
pub fn directory_mut<E: Emulator>(place: &mut Part<E>) -> &mut Dir
    requires { IsPartOf component.Dir (valued E.state place.old) }
    ensures* writes_back { sem 𝓛 (Lends (part_row E.row) directory_row place.entry result
        (λ w. part.Dir w)) }
    ensures value { place.old ≡ part.Dir result.now }
{
    match place {
        Part::Dir(directory) => directory.get_mut(),
        _ => unreachable!(),
    }
}

/// The pool of the pool's part.
pub fn shelf_mut<E: Emulator>(place: &mut Part<E>) -> &mut ShelfOf<E>
    requires { IsPartOf component.Shelf (valued E.state place.old) }
    ensures* writes_back { sem 𝓛 (Lends (part_row E.row) (shelf_row E.row) place.entry result
        (λ w. part.Shelf w)) }
    ensures value { place.old ≡ part.Shelf result.now }
{
    match place {
        Part::Shelf(shelf) => shelf,
        _ => unreachable!(),
    }
}

/// The file tree of the files' part.
pub fn files_mut<E: Emulator>(place: &mut Part<E>) -> &mut FileTree
    requires { IsPartOf component.Files (valued E.state place.old) }
    ensures* writes_back { sem 𝓛 (Lends (part_row E.row) files_row place.entry result
        (λ w. part.Files w)) }
    ensures value { place.old ≡ part.Files result.now }
{
    match place {
        Part::Files(files) => files,
        _ => unreachable!(),
    }
}

/// The address space of a space's part.
pub fn space_mut<E: Emulator>(place: &mut Part<E>) -> &mut Space
    requires { IsPartOf (component.Space 0) (valued E.state place.old) }
    ensures* writes_back { sem 𝓛 (Lends (part_row E.row) space_row place.entry result
        (λ w. part.Space w)) }
    ensures value { place.old ≡ part.Space result.now }
{
    match place {
        Part::Space(space) => space,
        _ => unreachable!(),
    }
}

/// The queue of a queue's part.
pub fn queue_mut<E: Emulator>(place: &mut Part<E>) -> &mut Queue
    requires { IsPartOf (component.Queue 0) (valued E.state place.old) }
    ensures* writes_back { sem 𝓛 (Lends (part_row E.row) queue_row place.entry result
        (λ w. part.Queue w)) }
    ensures value { place.old ≡ part.Queue result.now }
{
    match place {
        Part::Queue(queue) => queue,
        _ => unreachable!(),
    }
}

/// The VCPU of a VCPU's part.
pub fn vcpu_mut<E: Emulator>(place: &mut Part<E>) -> &mut Vcpu
    requires { IsPartOf (component.Vcpu 0) (valued E.state place.old) }
    ensures* writes_back { sem 𝓛 (Lends (part_row E.row) vcpu_row place.entry result
        (λ w. part.Vcpu w)) }
    ensures value { place.old ≡ part.Vcpu result.now }
{
    match place {
        Part::Vcpu(vcpu) => vcpu.get_mut(),
        _ => unreachable!(),
    }
}

/// The contents of a region's part.
pub fn body_mut<E: Emulator>(place: &mut Part<E>) -> &mut BodyOf<E>
    requires { IsPartOf (component.Body 0 0) (valued E.state place.old) }
    ensures* writes_back { sem 𝓛 (Lends (part_row E.row) (body_row E.row) place.entry result
        (λ w. part.Body w)) }
    ensures value { place.old ≡ part.Body result.now }
{
    match place {
        Part::Body(body) => body.get_mut(),
        _ => unreachable!(),
    }
}

/// The area of an area's part.
pub fn area_mut<E: Emulator>(place: &mut Part<E>) -> &mut Area
    requires { IsPartOf (component.Area 0) (valued E.state place.old) }
    ensures* writes_back { sem 𝓛 (Lends (part_row E.row) area_row place.entry result
        (λ w. part.Area w)) }
    ensures value { place.old ≡ part.Area result.now }
{
    match place {
        Part::Area(area) => area,
        _ => unreachable!(),
    }
}
