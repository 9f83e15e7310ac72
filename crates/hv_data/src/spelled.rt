//! Words that name a choice.
ghost use Rattle.std.specs.Prelude.{◌≡◌, ◌≢◌, Option, MatchOption};
ghost use Rattle.hv_kinds.specs.declared.stage.Stage.{Stage};
ghost use Rattle.hv_kinds.specs.declared.address.AddressType.{AddressType};
ghost use Rattle.hv_kinds.specs.declared.access.Direction.{Direction};
ghost use Rattle.hv_kinds.specs.declared.access.AccessKind.{AccessKind};
ghost use Rattle.hv_kinds.specs.declared.state.StateName.{StateName};
ghost use Rattle.hv_data.specs.Text.{stage_text, next_stage_text, address_type_text, state_name_text, direction_text, access_kind_text};

use hv_kinds::{AccessKind, AddressType, Direction, Stage, StateName};

/// The stage that a word names.
pub fn stage_word(word: &[u8]) -> Option<Stage>
    ensures { MatchOption result
        ((s : Stage) → word.now ≢ stage_text s)
        (λ s. word.now ≡ stage_text s) }
{
    if word == b"Making".as_slice() {
        return Some(Stage::Making);
    }
    if word == b"Made".as_slice() {
        return Some(Stage::Made);
    }
    if word == b"Ending".as_slice() {
        return Some(Stage::Ending);
    }
    None
}

/// The stage that follows, of which none is `Free`.
pub fn next_stage_word(word: &[u8]) -> Option<Option<Stage>>
    ensures { MatchOption result
        ((s : Option Stage) → word.now ≢ next_stage_text s)
        (λ s. word.now ≡ next_stage_text s) }
{
    if word == b"Free".as_slice() {
        return Some(None);
    }
    match stage_word(word) {
        Some(stage) => Some(Some(stage)),
        None => None,
    }
}

/// The type of addresses that a word names.
pub fn address_type_word(word: &[u8]) -> Option<AddressType>
    ensures { MatchOption result
        ((a : AddressType) → word.now ≢ address_type_text a)
        (λ a. word.now ≡ address_type_text a) }
{
    if word == b"memory".as_slice() {
        return Some(AddressType::Memory);
    }
    if word == b"io".as_slice() {
        return Some(AddressType::Io);
    }
    None
}

/// The state that a word names.
pub fn state_name_word(word: &[u8]) -> Option<StateName>
    ensures { MatchOption result
        ((s : StateName) → word.now ≢ state_name_text s)
        (λ s. word.now ≡ state_name_text s) }
{
    if word == b"Unknown".as_slice() {
        return Some(StateName::Unknown);
    }
    if word == b"Reset".as_slice() {
        return Some(StateName::Reset);
    }
    if word == b"Ready".as_slice() {
        return Some(StateName::Ready);
    }
    if word == b"Running".as_slice() {
        return Some(StateName::Running);
    }
    if word == b"Paused".as_slice() {
        return Some(StateName::Paused);
    }
    if word == b"Halted".as_slice() {
        return Some(StateName::Halted);
    }
    None
}

/// Whether a word is that of a load or of a store.
pub fn direction_word(word: &[u8]) -> Option<Direction>
    ensures { MatchOption result
        ((d : Direction) → word.now ≢ direction_text d)
        (λ d. word.now ≡ direction_text d) }
{
    if word == b"r".as_slice() {
        return Some(Direction::Read);
    }
    if word == b"w".as_slice() {
        return Some(Direction::Write);
    }
    None
}

/// Whether a word is that of a fetch, a load or a store.
pub fn access_kind_word(word: &[u8]) -> Option<AccessKind>
    ensures { MatchOption result
        ((a : AccessKind) → word.now ≢ access_kind_text a)
        (λ a. word.now ≡ access_kind_text a) }
{
    if word == b"x".as_slice() {
        return Some(AccessKind::Execute);
    }
    if word == b"r".as_slice() {
        return Some(AccessKind::Read);
    }
    if word == b"w".as_slice() {
        return Some(AccessKind::Write);
    }
    None
}
