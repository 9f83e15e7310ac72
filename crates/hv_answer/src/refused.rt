//! Which refusals are a step's.
ghost use Rattle.std.specs.Prelude.{IsTrue, ◌↔◌};
ghost use Rattle.hv_data.specs.Reading.{ReadsWords};
ghost use Rattle.hv_refusal.specs.declared.refusal.Refusal.{Refusal};
ghost use Rattle.hv_refusal.specs.Refusal.{refusal_words};
ghost use Rattle.hv_answer.specs.Refused.{IsNoCommand, IsNoWay, IsNoFile, IsUnlisted, IsUnnamed, IsUnbuilt, IsNoMemory, IsWrongState, IsRefusalOf, MayRefuse};

use hv_data::WordRefusal;
use hv_name::StepName;
use hv_refusal::{Refusal, read_refusal};
use hv_text::Bytes;
use std::alloc::Global;

fn is_no_command(why: &Refusal) -> bool
    ensures { IsTrue result ↔ IsNoCommand why.now }
{
    matches!(why, Refusal::NoCommand | Refusal::BadWords(_))
}

fn is_no_way(why: &Refusal) -> bool
    ensures { IsTrue result ↔ IsNoWay why.now }
{
    matches!(why, Refusal::NoEntry | Refusal::NotDir)
}

fn is_no_file(why: &Refusal) -> bool
    ensures { IsTrue result ↔ IsNoFile why.now }
{
    is_no_way(why) || matches!(why, Refusal::IsDir)
}

fn is_unlisted(why: &Refusal) -> bool
    ensures { IsTrue result ↔ IsUnlisted why.now }
{
    matches!(
        why,
        Refusal::NoSuchGuest | Refusal::GuestState(_) | Refusal::NoRegion
    )
}

fn is_unnamed(why: &Refusal) -> bool
    ensures { IsTrue result ↔ IsUnnamed why.now }
{
    matches!(
        why,
        Refusal::NoGuest | Refusal::BadNode(_, _) | Refusal::NameUsed | Refusal::NoSlot
    )
}

fn is_unbuilt(why: &Refusal) -> bool
    ensures { IsTrue result ↔ IsUnbuilt why.now }
{
    matches!(
        why,
        Refusal::Live | Refusal::Overlap(_) | Refusal::AliasTarget | Refusal::NoEmulator
    )
}

fn is_no_memory(why: &Refusal) -> bool
    ensures { IsTrue result ↔ IsNoMemory why.now }
{
    matches!(why, Refusal::NoWindow | Refusal::NotMemory)
}

fn is_wrong_state(why: &Refusal) -> bool
    ensures { IsTrue result ↔ IsWrongState why.now }
{
    matches!(why, Refusal::WrongState(_))
}

/// Whether a step may be refused so.
fn is_refusal_of(name: StepName, why: &Refusal) -> bool
    ensures { IsTrue result ↔ IsRefusalOf name why.now }
{
    match name {
        StepName::Bad => is_no_command(why),
        StepName::Rest => false,
        StepName::Ls => is_no_way(why),
        StepName::Cat => is_no_file(why),
        StepName::Dts => is_no_file(why) || matches!(why, Refusal::BadTree(_)),
        StepName::Run => {
            matches!(why, Refusal::TooDeep) || is_no_file(why) || matches!(why, Refusal::TooLong)
        }
        StepName::Mkdir => is_no_way(why) || matches!(why, Refusal::Exists),
        StepName::Rm => is_no_way(why) || matches!(why, Refusal::NotEmpty),
        StepName::Write => is_no_file(why),
        StepName::Asm => is_no_file(why) || matches!(why, Refusal::BadAsm(_)),
        StepName::Guests => false,
        StepName::Name => is_unnamed(why),
        StepName::Stage => is_unlisted(why),
        StepName::Add => is_unlisted(why) || is_unbuilt(why),
        StepName::Drop => is_unlisted(why) || matches!(why, Refusal::NotLive),
        StepName::Regions => is_unlisted(why),
        StepName::Load => is_unlisted(why) || is_no_file(why) || is_no_memory(why),
        StepName::Mem => is_unlisted(why) || is_no_memory(why),
        StepName::Devreset => is_unlisted(why),
        StepName::Feed => is_unlisted(why) || matches!(why, Refusal::NotSerial),
        StepName::Output => is_unlisted(why) || matches!(why, Refusal::NotSerial),
        StepName::Vadd => is_wrong_state(why),
        StepName::Vdrop => is_wrong_state(why),
        StepName::Kick => is_unlisted(why) || is_wrong_state(why),
        StepName::Resume => is_unlisted(why) || is_wrong_state(why),
        StepName::Pause => is_unlisted(why) || is_wrong_state(why),
        StepName::Halt => is_unlisted(why) || is_wrong_state(why),
        StepName::Reset => is_unlisted(why) || is_wrong_state(why),
        StepName::Look => false,
        StepName::Tick => false,
        StepName::Idle => false,
        StepName::Dispatch => is_wrong_state(why),
        StepName::Preempt => false,
        StepName::Leave => false,
        StepName::Take => false,
        StepName::Fetch => false,
        StepName::Access => false,
        StepName::Fault => false,
        StepName::Balance => false,
        StepName::Sample => false,
        StepName::Pin => false,
    }
}

/// The refusal of a step.
pub fn refusal_of(alloc: Global, name: StepName, words: &[Bytes]) -> Result<Refusal, WordRefusal>
    ensures { ReadsWords (MayRefuse name) refusal_words words.now result }
{
    let why = read_refusal(alloc, words)?;
    if !is_refusal_of(name, &why) {
        return Err(WordRefusal::BadWord);
    }
    Ok(why)
}
