//! How a call ended.
use hv_kinds::LimitName;
use hv_text::Bytes;

/// How a call ended.
#[derive(Debug, Drop, PartialEq)]
pub enum Status {
    /// The whole output was written.
    Done,
    /// The words name no command.
    Usage,
    /// The source failed.
    ReadFault,
    /// The sink failed, and a front of the output was written.
    WriteFault,
    /// The bytes stop being a bundle at this offset.
    BadBundle { offset: u64 },
    /// The host tree stops being a device tree source at this offset.
    BadTree { offset: u64 },
    /// So many of something are too many.
    Limit { name: LimitName, number: u64 },
    /// A step found the greatest stamp, and there is none behind it.
    StampsSpent { stamp: u64 },
    /// The node of the host tree at this path breaks a setting.
    BadHost { path: Bytes },
    OutOfMemory,
}
