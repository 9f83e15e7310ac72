//! Replies read from their words.
ghost use Rattle.std.specs.Prelude.{◌≡◌, MatchResult};
ghost use Rattle.hv_data.specs.Data.{HaveNoSpace};
ghost use Rattle.hv_data.specs.Reading.{Because};
ghost use Rattle.hv_name.specs.declared.name.StepName.{StepName};
ghost use Rattle.hv_answer.specs.declared.reply.Reply.{Reply};
ghost use Rattle.hv_answer.specs.Reply.{reply_words, IsReplyOf};
ghost use Rattle.hv_answer.specs.Reading.{AreReplyWords};

use crate::given::{
    given_bytes, given_changes, given_generation, given_names, given_nothing, given_number,
    given_slice, given_windows, guests_alone, is_alone, number_alone,
};
use crate::refused::refusal_of;
use crate::reply::Reply;
use crate::told::{
    read_access, read_balance, read_fetch, read_pin, read_sample, read_state, read_tick,
};
use hv_data::{WordRefusal, behind_word};
use hv_look::{BoxedLook, read_look};
use hv_name::StepName;
use hv_text::Bytes;
use std::alloc::Global;

/// The reply of a line that is no command.
fn read_bad(alloc: Global, words: &[Bytes]) -> Result<Reply, WordRefusal>
    ensures { MatchResult result
        (λ reply. AreReplyWords StepName.Bad words.now reply)
        (λ e. Because e ((reply : Reply) → AreReplyWords StepName.Bad words.now reply → ⊥)) }
{
    let Some(why) = behind_word(words, b"refused") else {
        return Err(WordRefusal::BadWord);
    };
    Ok(Reply::Bad(refusal_of(alloc, StepName::Bad, why)?))
}

fn read_rest(words: &[Bytes]) -> Result<Reply, WordRefusal>
    ensures { MatchResult result
        (λ reply. AreReplyWords StepName.Rest words.now reply)
        (λ e. Because e ((reply : Reply) → AreReplyWords StepName.Rest words.now reply → ⊥)) }
{
    if !is_alone(words, b"ok") {
        return Err(WordRefusal::BadWord);
    }
    Ok(Reply::Rest)
}

fn read_idle(words: &[Bytes]) -> Result<Reply, WordRefusal>
    ensures { MatchResult result
        (λ reply. AreReplyWords StepName.Idle words.now reply)
        (λ e. Because e ((reply : Reply) → AreReplyWords StepName.Idle words.now reply → ⊥)) }
{
    if !is_alone(words, b"ok") {
        return Err(WordRefusal::BadWord);
    }
    Ok(Reply::Idle)
}

fn read_preempt(words: &[Bytes]) -> Result<Reply, WordRefusal>
    ensures { MatchResult result
        (λ reply. AreReplyWords StepName.Preempt words.now reply)
        (λ e. Because e ((reply : Reply) → AreReplyWords StepName.Preempt words.now reply → ⊥)) }
{
    if !is_alone(words, b"ok") {
        return Err(WordRefusal::BadWord);
    }
    Ok(Reply::Preempt)
}

/// The reply of a look at the directory.
fn read_guests(alloc: Global, words: &[Bytes]) -> Result<Reply, WordRefusal>
    ensures { MatchResult result
        (λ reply. AreReplyWords StepName.Guests words.now reply)
        (λ e. Because e ((reply : Reply) → AreReplyWords StepName.Guests words.now reply → ⊥)) }
{
    let Some(listed) = behind_word(words, b"ok") else {
        return Err(WordRefusal::BadWord);
    };
    Ok(Reply::Guests(guests_alone(alloc, listed)?))
}

/// The reply of a look at a VCPU.
fn read_shown(alloc: Global, words: &[Bytes]) -> Result<Reply, WordRefusal>
    ensures { MatchResult result
        (λ reply. AreReplyWords StepName.Look words.now reply)
        (λ e. Because e ((reply : Reply) → AreReplyWords StepName.Look words.now reply → ⊥)) }
{
    let Some(shown) = behind_word(words, b"ok") else {
        return Err(WordRefusal::BadWord);
    };
    let look = read_look(alloc, shown)?;
    Ok(Reply::Look(BoxedLook::new(alloc, look)?))
}

/// The reply of a step with a name.
pub fn read_reply(alloc: Global, name: StepName, words: &[Bytes]) -> Result<Reply, WordRefusal>
    // The words are those of what is read, and they are refused exactly where no reply of the step
    // has them.
    ensures { MatchResult result
        (λ reply. AreReplyWords name words.now reply)
        (λ e. Because e ((reply : Reply) → AreReplyWords name words.now reply → ⊥)) }
{
    match name {
        StepName::Bad => read_bad(alloc, words),
        StepName::Rest => read_rest(words),
        StepName::Ls => Ok(Reply::Ls(given_names(alloc, name, words)?)),
        StepName::Cat => Ok(Reply::Cat(given_bytes(alloc, name, words)?)),
        StepName::Dts => Ok(Reply::Dts(given_bytes(alloc, name, words)?)),
        StepName::Run => Ok(Reply::Run(given_bytes(alloc, name, words)?)),
        StepName::Mkdir => Ok(Reply::Mkdir(given_nothing(alloc, name, words)?)),
        StepName::Rm => Ok(Reply::Rm(given_nothing(alloc, name, words)?)),
        StepName::Write => Ok(Reply::Write(given_nothing(alloc, name, words)?)),
        StepName::Asm => Ok(Reply::Asm(given_number(alloc, name, words)?)),
        StepName::Guests => read_guests(alloc, words),
        StepName::Name => Ok(Reply::Name(given_generation(alloc, name, words)?)),
        StepName::Stage => Ok(Reply::Stage(given_nothing(alloc, name, words)?)),
        StepName::Add => Ok(Reply::Add(given_changes(alloc, name, words)?)),
        StepName::Drop => Ok(Reply::Drop(given_changes(alloc, name, words)?)),
        StepName::Regions => Ok(Reply::Regions(given_windows(alloc, name, words)?)),
        StepName::Load => Ok(Reply::Load(given_number(alloc, name, words)?)),
        StepName::Mem => Ok(Reply::Mem(given_bytes(alloc, name, words)?)),
        StepName::Devreset => Ok(Reply::Devreset(given_changes(alloc, name, words)?)),
        StepName::Feed => Ok(Reply::Feed(given_changes(alloc, name, words)?)),
        StepName::Output => Ok(Reply::Output(given_bytes(alloc, name, words)?)),
        StepName::Vadd => Ok(Reply::Vadd(given_nothing(alloc, name, words)?)),
        StepName::Vdrop => Ok(Reply::Vdrop(given_nothing(alloc, name, words)?)),
        StepName::Kick => Ok(Reply::Kick(given_nothing(alloc, name, words)?)),
        StepName::Resume => Ok(Reply::Resume(given_nothing(alloc, name, words)?)),
        StepName::Pause => Ok(Reply::Pause(given_nothing(alloc, name, words)?)),
        StepName::Halt => Ok(Reply::Halt(given_nothing(alloc, name, words)?)),
        StepName::Reset => Ok(Reply::Reset(given_nothing(alloc, name, words)?)),
        StepName::Look => read_shown(alloc, words),
        StepName::Tick => Ok(Reply::Tick(read_tick(words)?)),
        StepName::Idle => read_idle(words),
        StepName::Dispatch => Ok(Reply::Dispatch(given_slice(alloc, name, words)?)),
        StepName::Preempt => read_preempt(words),
        StepName::Leave => Ok(Reply::Leave(read_state(alloc, words)?)),
        StepName::Take => Ok(Reply::Take(number_alone(alloc, words)?)),
        StepName::Fetch => Ok(Reply::Fetch(read_fetch(alloc, words)?)),
        StepName::Access => Ok(Reply::Access(read_access(alloc, words)?)),
        StepName::Fault => Ok(Reply::Fault(number_alone(alloc, words)?)),
        StepName::Balance => Ok(Reply::Balance(read_balance(alloc, words)?)),
        StepName::Sample => Ok(Reply::Sample(read_sample(words)?)),
        StepName::Pin => Ok(Reply::Pin(read_pin(words)?)),
    }
}

/// Two replies of one step with the same words are one.
pub fn replies_are_unambiguous()
    ensures { (name : StepName) (one other : Reply) → IsReplyOf name one → IsReplyOf name other
        → reply_words one ≡ reply_words other → one ≡ other }
{}

/// No word of a step's reply has a space.
pub fn replies_have_no_space()
    ensures { (name : StepName) (reply : Reply) → IsReplyOf name reply
        → HaveNoSpace (reply_words reply) }
{}
