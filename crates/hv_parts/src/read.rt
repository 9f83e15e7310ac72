//! The components that parts hold, to be read.
ghost use Rattle.std.specs.Prelude.{◌≡◌};
ghost use Rattle.hv_event.specs.declared.event.CellId.TheVariants as component;
ghost use Rattle.hv_parts.specs.Value.{valued};
ghost use Rattle.hv_parts.specs.Kinds.{IsPartOf};
ghost use Rattle.hv_parts.specs.declared.part.Part.TheVariants as part;

use crate::part::Part;
use hv_body::{Area, BodyOf};
use hv_dir::{Dir, ShelfOf};
use hv_emu::Emulator;
use hv_files::FileTree;
use hv_queue::Queue;
use hv_space::Space;
use hv_vcpu::Vcpu;

/// The directory of the directory's part.
pub fn directory<E: Emulator>(place: &Part<E>) -> &Dir
    requires { IsPartOf component.Dir (valued E.state place.now) }
    ensures { place.now ≡ part.Dir result.now }
{
    match place {
        Part::Dir(directory) => directory.get(),
        _ => unreachable!(),
    }
}

/// The pool of the pool's part.
pub fn shelf<E: Emulator>(place: &Part<E>) -> &ShelfOf<E>
    requires { IsPartOf component.Shelf (valued E.state place.now) }
    ensures { place.now ≡ part.Shelf result.now }
{
    match place {
        Part::Shelf(shelf) => shelf,
        _ => unreachable!(),
    }
}

/// The file tree of the files' part.
pub fn files<E: Emulator>(place: &Part<E>) -> &FileTree
    requires { IsPartOf component.Files (valued E.state place.now) }
    ensures { place.now ≡ part.Files result.now }
{
    match place {
        Part::Files(files) => files,
        _ => unreachable!(),
    }
}

/// The address space of a space's part.
pub fn space<E: Emulator>(place: &Part<E>) -> &Space
    requires { IsPartOf (component.Space 0) (valued E.state place.now) }
    ensures { place.now ≡ part.Space result.now }
{
    match place {
        Part::Space(space) => space,
        _ => unreachable!(),
    }
}

/// The queue of a queue's part.
pub fn queue<E: Emulator>(place: &Part<E>) -> &Queue
    requires { IsPartOf (component.Queue 0) (valued E.state place.now) }
    ensures { place.now ≡ part.Queue result.now }
{
    match place {
        Part::Queue(queue) => queue,
        _ => unreachable!(),
    }
}

/// The VCPU of a VCPU's part.
pub fn vcpu<E: Emulator>(place: &Part<E>) -> &Vcpu
    requires { IsPartOf (component.Vcpu 0) (valued E.state place.now) }
    ensures { place.now ≡ part.Vcpu result.now }
{
    match place {
        Part::Vcpu(vcpu) => vcpu.get(),
        _ => unreachable!(),
    }
}

/// The contents of a region's part.
pub fn body<E: Emulator>(place: &Part<E>) -> &BodyOf<E>
    requires { IsPartOf (component.Body 0 0) (valued E.state place.now) }
    ensures { place.now ≡ part.Body result.now }
{
    match place {
        Part::Body(body) => body.get(),
        _ => unreachable!(),
    }
}

/// The area of an area's part.
pub fn area<E: Emulator>(place: &Part<E>) -> &Area
    requires { IsPartOf (component.Area 0) (valued E.state place.now) }
    ensures { place.now ≡ part.Area result.now }
{
    match place {
        Part::Area(area) => area,
        _ => unreachable!(),
    }
}
