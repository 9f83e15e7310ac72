//! Refusals, copied.
ghost use Rattle.std.specs.Prelude.{◌≡◌, IfOk};

use hv_refusal::Refusal;
use std::alloc::AllocError;

/// The same refusal.
pub(crate) fn copy_refusal(why: &Refusal) -> Result<Refusal, AllocError>
    ensures { IfOk result (λ copy. copy ≡ why.now) }
{
    match why {
        Refusal::NoCommand => Ok(Refusal::NoCommand),
        Refusal::BadWords(number) => Ok(Refusal::BadWords(*number)),
        Refusal::NoEntry => Ok(Refusal::NoEntry),
        Refusal::NotDir => Ok(Refusal::NotDir),
        Refusal::IsDir => Ok(Refusal::IsDir),
        Refusal::Exists => Ok(Refusal::Exists),
        Refusal::NotEmpty => Ok(Refusal::NotEmpty),
        Refusal::TooDeep => Ok(Refusal::TooDeep),
        Refusal::TooLong => Ok(Refusal::TooLong),
        Refusal::BadTree(offset) => Ok(Refusal::BadTree(*offset)),
        Refusal::BadAsm(line) => Ok(Refusal::BadAsm(*line)),
        Refusal::NoSuchGuest => Ok(Refusal::NoSuchGuest),
        Refusal::GuestState(stage) => Ok(Refusal::GuestState(*stage)),
        Refusal::NoRegion => Ok(Refusal::NoRegion),
        Refusal::NoGuest => Ok(Refusal::NoGuest),
        Refusal::BadNode(path, cause) => Ok(Refusal::BadNode(path.clone()?, *cause)),
        Refusal::NameUsed => Ok(Refusal::NameUsed),
        Refusal::NoSlot => Ok(Refusal::NoSlot),
        Refusal::Live => Ok(Refusal::Live),
        Refusal::NotLive => Ok(Refusal::NotLive),
        Refusal::Overlap(row) => Ok(Refusal::Overlap(*row)),
        Refusal::AliasTarget => Ok(Refusal::AliasTarget),
        Refusal::NoEmulator => Ok(Refusal::NoEmulator),
        Refusal::NoWindow => Ok(Refusal::NoWindow),
        Refusal::NotMemory => Ok(Refusal::NotMemory),
        Refusal::NotSerial => Ok(Refusal::NotSerial),
        Refusal::WrongState(state) => Ok(Refusal::WrongState(*state)),
    }
}
