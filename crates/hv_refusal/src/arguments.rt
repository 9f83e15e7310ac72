//! What refusals tell behind their names.
ghost use Rattle.std.specs.Prelude.{◌≡◌, ℕ, MatchResult, IfSome};
ghost use Rattle.std.specs.Fmt.{decimal};
ghost use Rattle.hv_kinds.specs.declared.stage.Stage.{Stage};
ghost use Rattle.hv_kinds.specs.declared.state.StateName.{StateName};
ghost use Rattle.hv_data.specs.Text.{stage_text, state_name_text};
ghost use Rattle.hv_data.specs.Written.{IsNumber, IsNumber8, IsAny};
ghost use Rattle.hv_data.specs.Reading.{Because};
ghost use Rattle.hv_refusal.specs.declared.refusal.Refusal.{Refusal};
ghost use Rattle.hv_refusal.specs.Reading.{telling_word, telling_spelled, IsAlone, AreArguments};

use crate::node::node_path_word;
use crate::refusal::Refusal;
use hv_data::{WordRefusal, take_number, take_number8, take_stage, take_state_name};
use hv_kinds::{Cause, Stage, StateName};
use hv_text::Bytes;
use std::alloc::Global;

/// The name of a refusal that tells something.
#[derive(Clone, Copy, Debug)]
pub enum Telling {
    BadWords,
    BadTree,
    BadAsm,
    GuestState,
    BadNode,
    Overlap,
    WrongState,
}

/// The refusals with a name.
pub fn find_telling(word: &[u8]) -> Option<Telling>
    ensures spelled { result ≡ telling_spelled word.now }
    ensures word { IfSome result (λ name. word.now ≡ telling_word name) }
{
    if word == b"BadWords".as_slice() {
        return Some(Telling::BadWords);
    }
    if word == b"BadTree".as_slice() {
        return Some(Telling::BadTree);
    }
    if word == b"BadAsm".as_slice() {
        return Some(Telling::BadAsm);
    }
    if word == b"GuestState".as_slice() {
        return Some(Telling::GuestState);
    }
    if word == b"BadNode".as_slice() {
        return Some(Telling::BadNode);
    }
    if word == b"Overlap".as_slice() {
        return Some(Telling::Overlap);
    }
    if word == b"WrongState".as_slice() {
        return Some(Telling::WrongState);
    }
    None
}

/// The number of a word alone.
fn number_alone(alloc: Global, words: &[Bytes]) -> Result<u64, WordRefusal>
    ensures { MatchResult result
        (λ n. IsAlone IsNumber decimal words.now n)
        (λ e. Because e ((n : ℕ) → IsAlone IsNumber decimal words.now n → ⊥)) }
{
    let (number, rest) = take_number(alloc, words)?;
    if !rest.is_empty() {
        return Err(WordRefusal::BadWord);
    }
    Ok(number)
}

/// The row of a word alone.
fn row_alone(alloc: Global, words: &[Bytes]) -> Result<u8, WordRefusal>
    ensures { MatchResult result
        (λ n. IsAlone IsNumber8 decimal words.now n)
        (λ e. Because e ((n : ℕ) → IsAlone IsNumber8 decimal words.now n → ⊥)) }
{
    let (row, rest) = take_number8(alloc, words)?;
    if !rest.is_empty() {
        return Err(WordRefusal::BadWord);
    }
    Ok(row)
}

/// The stage of a word alone.
fn stage_alone(words: &[Bytes]) -> Result<Stage, WordRefusal>
    ensures { MatchResult result
        (λ s. IsAlone IsAny stage_text words.now s)
        (λ e. Because e ((s : Stage) → IsAlone IsAny stage_text words.now s → ⊥)) }
{
    let (stage, rest) = take_stage(words)?;
    if !rest.is_empty() {
        return Err(WordRefusal::BadWord);
    }
    Ok(stage)
}

/// The state's name of a word alone.
fn state_name_alone(words: &[Bytes]) -> Result<StateName, WordRefusal>
    ensures { MatchResult result
        (λ s. IsAlone IsAny state_name_text words.now s)
        (λ e. Because e ((s : StateName) → IsAlone IsAny state_name_text words.now s → ⊥)) }
{
    let (state, rest) = take_state_name(words)?;
    if !rest.is_empty() {
        return Err(WordRefusal::BadWord);
    }
    Ok(state)
}

/// The node of a path and a cause.
fn node_alone(alloc: Global, words: &[Bytes]) -> Result<Refusal, WordRefusal>
    ensures { MatchResult result
        (λ why. AreArguments Telling.BadNode words.now why)
        (λ e. Because e ((why : Refusal) → AreArguments Telling.BadNode words.now why → ⊥)) }
{
    let [path, cause] = words else {
        return Err(WordRefusal::BadWord);
    };
    let Some(cause) = Cause::named(cause.as_slice()) else {
        return Err(WordRefusal::BadWord);
    };
    let path = node_path_word(alloc, path.as_slice())?;
    Ok(Refusal::BadNode(path, cause))
}

/// The refusal with a name, of the words behind it.
pub fn read_arguments(alloc: Global, name: Telling, words: &[Bytes]) -> Result<Refusal, WordRefusal>
    ensures { MatchResult result
        (λ why. AreArguments name words.now why)
        (λ e. Because e ((why : Refusal) → AreArguments name words.now why → ⊥)) }
{
    match name {
        Telling::BadWords => Ok(Refusal::BadWords(number_alone(alloc, words)?)),
        Telling::BadTree => Ok(Refusal::BadTree(number_alone(alloc, words)?)),
        Telling::BadAsm => Ok(Refusal::BadAsm(number_alone(alloc, words)?)),
        Telling::GuestState => Ok(Refusal::GuestState(stage_alone(words)?)),
        Telling::BadNode => node_alone(alloc, words),
        Telling::Overlap => Ok(Refusal::Overlap(row_alone(alloc, words)?)),
        Telling::WrongState => Ok(Refusal::WrongState(state_name_alone(words)?)),
    }
}
