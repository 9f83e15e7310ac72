//! What is kept of a run.
use hv_emu::Emulator;
use hv_event::Event;
use hv_files::FileTree;
use hv_model::Opening;

/// The components at the end of a run.
#[derive(Drop)]
pub struct Final {
    pub files: FileTree,
}

/// A run that was made, to its end or until it was stopped, with emulators of type `E`.
#[derive(Drop)]
pub struct KeptRunOf<E> {
    pub opening: Opening,
    /// The events by rising stamp, and at one stamp by actor.
    pub history: Vec<Event>,
    pub state: Final,
    /// The devices that no guest has, in the order in which they are found.
    pub shelf: Vec<E>,
}

/// The last run, where there was one, with emulators of type `E`.
#[derive(Drop)]
pub struct KeptOf<E> {
    pub run: Option<KeptRunOf<E>>,
}

/// A run with emulators in boxes.
pub type KeptRun = KeptRunOf<Box<dyn Emulator + Send>>;

/// The last run, where there was one, with emulators in boxes.
pub type Kept = KeptOf<Box<dyn Emulator + Send>>;
