//! Why a call on the files was refused.
ghost use Rattle.std.specs.Prelude.{◌≡◌};

use std::alloc::AllocError;

/// Why a call on the files was refused.
#[derive(Clone, Copy, Debug, PartialEq, Eq)]
pub enum FileRefusal {
    /// Nothing is there, or a name on the way is missing.
    NoEntry,
    /// A file stands where a folder is needed.
    NotDir,
    /// A folder stands where a file is needed.
    IsDir,
    /// Something is there already.
    Exists,
    /// The folder has entries.
    NotEmpty,
    /// Out of memory.
    Memory(AllocError),
}

impl From<AllocError> for FileRefusal {
    ghost use Rattle.hv_files.specs.declared.refusal.FileRefusal.TheVariants.{Memory};

    ghost from_gives = { λ error refusal. refusal ≡ Memory error };

    fn from(error: AllocError) -> FileRefusal {
        FileRefusal::Memory(error)
    }
}
