//! Why an input is refused.
ghost use Rattle.std.specs.Prelude.{◌≡◌};
ghost use Rattle.xvsim.specs.Refusal.{status_of};
ghost use Rattle.xvsim.specs.declared.refusal.InputRefusal.TheVariants.{Memory};

use crate::status::Status;
use hv_kinds::LimitName;
use hv_text::Bytes;
use std::alloc::AllocError;

/// Why an input is refused.
#[derive(Debug, Drop)]
pub enum InputRefusal {
    ReadFault,
    /// The bytes stop being a bundle at this offset.
    BadBundle(u64),
    /// So many of something are too many.
    Limit(LimitName, u64),
    /// The host tree stops being a device tree source at this offset.
    BadTree(u64),
    /// The path of the first node of the host tree that breaks a setting.
    BadHost(Bytes),
    Memory(AllocError),
}

impl InputRefusal {
    /// How a call ends whose input is refused so.
    pub fn status(self) -> Status
        ensures { result ≡ status_of self }
    {
        match self {
            InputRefusal::ReadFault => Status::ReadFault,
            InputRefusal::BadBundle(offset) => Status::BadBundle { offset },
            InputRefusal::Limit(name, number) => Status::Limit { name, number },
            InputRefusal::BadTree(offset) => Status::BadTree { offset },
            InputRefusal::BadHost(path) => Status::BadHost { path },
            InputRefusal::Memory(_) => Status::OutOfMemory,
        }
    }
}

impl From<AllocError> for InputRefusal {
    ghost from_gives = { λ error refusal. refusal ≡ Memory error };

    fn from(error: AllocError) -> InputRefusal {
        InputRefusal::Memory(error)
    }
}
