//! What a reply says of a line.
ghost use Rattle.std.specs.Prelude.{◌≡◌};
ghost use Rattle.std.specs.Option.{option_copied};
ghost use Rattle.hv_rules.specs.Line.{ends_for, turns_for, later_verdict};
ghost use Rattle.hv_rules.specs.Refused.{by_directory, directory_refusal_of, is_by_directory, refusal_of, why_of};
ghost use Rattle.hv_programs.specs.Ask.{ask_of};
ghost use Rattle.hv_programs.specs.Line.{refusal_in, verdict_at, verdict_of};

use crate::ask::Ask;
use hv_answer::Reply;
use hv_refusal::Refusal;
use std::snapshot::Snapshot;

/// What a reply says of a line. The refusal is there for contracts alone.
#[derive(Drop)]
pub(crate) enum Verdict {
    GoesOn,
    TurnsBack(Snapshot<Refusal>),
    Ends(Snapshot<Refusal>),
}

fn why_of<A>(answer: &Result<A, Refusal>) -> Option<&Refusal>
    ensures { option_copied result ≡ why_of answer.now }
{
    match answer {
        Ok(_) => None,
        Err(why) => Some(why),
    }
}

/// Why a step is refused, if it is.
pub(crate) fn refusal_of(reply: &Reply) -> Option<&Refusal>
    ensures { option_copied result ≡ refusal_of reply.now }
{
    match reply {
        Reply::Bad(why) => Some(why),
        Reply::Ls(answer) => why_of(answer),
        Reply::Cat(answer) => why_of(answer),
        Reply::Dts(answer) => why_of(answer),
        Reply::Run(answer) => why_of(answer),
        Reply::Mkdir(answer) => why_of(answer),
        Reply::Rm(answer) => why_of(answer),
        Reply::Write(answer) => why_of(answer),
        Reply::Asm(answer) => why_of(answer),
        Reply::Name(answer) => why_of(answer),
        Reply::Stage(answer) => why_of(answer),
        Reply::Add(answer) => why_of(answer),
        Reply::Drop(answer) => why_of(answer),
        Reply::Regions(answer) => why_of(answer),
        Reply::Load(answer) => why_of(answer),
        Reply::Mem(answer) => why_of(answer),
        Reply::Devreset(answer) => why_of(answer),
        Reply::Feed(answer) => why_of(answer),
        Reply::Output(answer) => why_of(answer),
        Reply::Vadd(answer) => why_of(answer),
        Reply::Vdrop(answer) => why_of(answer),
        Reply::Kick(answer) => why_of(answer),
        Reply::Resume(answer) => why_of(answer),
        Reply::Pause(answer) => why_of(answer),
        Reply::Halt(answer) => why_of(answer),
        Reply::Reset(answer) => why_of(answer),
        Reply::Dispatch(answer) => why_of(answer),
        _ => None,
    }
}

fn is_by_directory(why: &Refusal) -> bool
    ensures { result ≡ is_by_directory why.now }
{
    match why {
        Refusal::NoSuchGuest => true,
        Refusal::GuestState(_) => true,
        Refusal::NoRegion => true,
        _ => false,
    }
}

// Of refusals, those by the directory.
fn by_directory(why: Option<&Refusal>) -> Option<&Refusal>
    ensures { option_copied result ≡ by_directory (option_copied why.entry) }
{
    let why = why?;
    if is_by_directory(why) {
        return Some(why);
    }
    None
}

fn ends_for(why: Option<&Refusal>) -> Verdict
    ensures { verdict_of result ≡ ends_for (option_copied why.entry) }
{
    match why {
        Some(why) => Verdict::Ends(Snapshot::of(why)),
        None => Verdict::GoesOn,
    }
}

fn turns_for(why: Option<&Refusal>) -> Verdict
    ensures { verdict_of result ≡ turns_for (option_copied why.entry) }
{
    match why {
        Some(why) => Verdict::TurnsBack(Snapshot::of(why)),
        None => Verdict::GoesOn,
    }
}

// The verdict on a step that is not the first.
fn later_verdict(ask: Ask, reply: &Reply) -> Verdict
    ensures { verdict_of result ≡ later_verdict (ask_of ask) reply.now }
{
    match ask {
        Ask::Add(_) => turns_for(refusal_of(reply)),
        Ask::Change(_, _) => ends_for(by_directory(refusal_of(reply))),
        Ask::ResetDevice(_) => ends_for(by_directory(refusal_of(reply))),
        _ => Verdict::GoesOn,
    }
}

/// The verdict on a step that so many steps precede.
pub(crate) fn verdict_at(made: usize, ask: Ask, reply: &Reply) -> Verdict
    ensures { verdict_of result ≡ verdict_at made (ask_of ask) reply.now }
{
    if made == 0 {
        return ends_for(refusal_of(reply));
    }
    later_verdict(ask, reply)
}

// For what a reply to a step that is not the first ends a line or turns it back.
fn later_refusal(ask: Ask, reply: &Reply) -> Option<&Refusal>
    ensures { option_copied result ≡ refusal_in (later_verdict (ask_of ask) reply.now) }
{
    match ask {
        Ask::Add(_) => refusal_of(reply),
        Ask::Change(_, _) => by_directory(refusal_of(reply)),
        Ask::ResetDevice(_) => by_directory(refusal_of(reply)),
        _ => None,
    }
}

/// For what a reply to a step that so many steps precede ends a line or turns it back.
pub(crate) fn refusal_at(made: usize, ask: Ask, reply: &Reply) -> Option<&Refusal>
    ensures { option_copied result ≡ refusal_in (verdict_at made (ask_of ask) reply.now) }
{
    if made == 0 {
        return refusal_of(reply);
    }
    later_refusal(ask, reply)
}
