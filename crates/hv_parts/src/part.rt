//! Components of any kind.
use crate::boxed::Boxed;
use hv_body::{Area, BodyOf};
use hv_dir::{Dir, ShelfOf};
use hv_files::FileTree;
use hv_queue::Queue;
use hv_space::Space;
use hv_vcpu::Vcpu;

/// A component. What is large stands in a box, so that moving a part copies a few words.
#[derive(Drop)]
pub enum Part<E> {
    /// The directory of the guests.
    Dir(Boxed<Dir>),
    /// The devices that no guest has.
    Shelf(ShelfOf<E>),
    /// The file tree.
    Files(FileTree),
    /// The address space of a guest.
    Space(Space),
    /// The queue of a hart.
    Queue(Queue),
    Vcpu(Boxed<Vcpu>),
    /// The contents of a region.
    Body(Boxed<BodyOf<E>>),
    /// Memory of the host.
    Area(Area),
}
