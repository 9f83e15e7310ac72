//! Names of steps found by their words.
ghost use Rattle.std.specs.Prelude.{◌≡◌, IfSome};
ghost use Rattle.hv_name.specs.declared.name.StepName.{StepName};
ghost use Rattle.hv_name.specs.StepName.{name_word, file_spelled, guest_spelled, vcpu_spelled, hart_spelled, name_spelled};

use crate::name::StepName;

/// The name that a word is, of those of terminals: lines that are no command, and files.
fn find_file(word: &[u8]) -> Option<StepName>
    ensures spelled { result ≡ file_spelled word.now }
    ensures word { IfSome result (λ name. word.now ≡ name_word name) }
{
    if word == b"bad".as_slice() {
        return Some(StepName::Bad);
    }
    if word == b"rest".as_slice() {
        return Some(StepName::Rest);
    }
    if word == b"ls".as_slice() {
        return Some(StepName::Ls);
    }
    if word == b"cat".as_slice() {
        return Some(StepName::Cat);
    }
    if word == b"dts".as_slice() {
        return Some(StepName::Dts);
    }
    if word == b"run".as_slice() {
        return Some(StepName::Run);
    }
    if word == b"mkdir".as_slice() {
        return Some(StepName::Mkdir);
    }
    if word == b"rm".as_slice() {
        return Some(StepName::Rm);
    }
    if word == b"write".as_slice() {
        return Some(StepName::Write);
    }
    if word == b"asm".as_slice() {
        return Some(StepName::Asm);
    }
    None
}

/// The name that a word is, of those of guests and their regions.
fn find_guest(word: &[u8]) -> Option<StepName>
    ensures spelled { result ≡ guest_spelled word.now }
    ensures word { IfSome result (λ name. word.now ≡ name_word name) }
{
    if word == b"guests".as_slice() {
        return Some(StepName::Guests);
    }
    if word == b"name".as_slice() {
        return Some(StepName::Name);
    }
    if word == b"stage".as_slice() {
        return Some(StepName::Stage);
    }
    if word == b"add".as_slice() {
        return Some(StepName::Add);
    }
    if word == b"drop".as_slice() {
        return Some(StepName::Drop);
    }
    if word == b"regions".as_slice() {
        return Some(StepName::Regions);
    }
    if word == b"load".as_slice() {
        return Some(StepName::Load);
    }
    if word == b"mem".as_slice() {
        return Some(StepName::Mem);
    }
    if word == b"devreset".as_slice() {
        return Some(StepName::Devreset);
    }
    if word == b"feed".as_slice() {
        return Some(StepName::Feed);
    }
    if word == b"output".as_slice() {
        return Some(StepName::Output);
    }
    None
}

/// The name that a word is, of those of VCPUs.
fn find_vcpu(word: &[u8]) -> Option<StepName>
    ensures spelled { result ≡ vcpu_spelled word.now }
    ensures word { IfSome result (λ name. word.now ≡ name_word name) }
{
    if word == b"vadd".as_slice() {
        return Some(StepName::Vadd);
    }
    if word == b"vdrop".as_slice() {
        return Some(StepName::Vdrop);
    }
    if word == b"kick".as_slice() {
        return Some(StepName::Kick);
    }
    if word == b"resume".as_slice() {
        return Some(StepName::Resume);
    }
    if word == b"pause".as_slice() {
        return Some(StepName::Pause);
    }
    if word == b"halt".as_slice() {
        return Some(StepName::Halt);
    }
    if word == b"reset".as_slice() {
        return Some(StepName::Reset);
    }
    if word == b"look".as_slice() {
        return Some(StepName::Look);
    }
    None
}

/// The name that a word is, of those of harts, and of the signals that devices send.
fn find_hart(word: &[u8]) -> Option<StepName>
    ensures spelled { result ≡ hart_spelled word.now }
    ensures word { IfSome result (λ name. word.now ≡ name_word name) }
{
    if word == b"tick".as_slice() {
        return Some(StepName::Tick);
    }
    if word == b"idle".as_slice() {
        return Some(StepName::Idle);
    }
    if word == b"dispatch".as_slice() {
        return Some(StepName::Dispatch);
    }
    if word == b"preempt".as_slice() {
        return Some(StepName::Preempt);
    }
    if word == b"leave".as_slice() {
        return Some(StepName::Leave);
    }
    if word == b"take".as_slice() {
        return Some(StepName::Take);
    }
    if word == b"fetch".as_slice() {
        return Some(StepName::Fetch);
    }
    if word == b"access".as_slice() {
        return Some(StepName::Access);
    }
    if word == b"fault".as_slice() {
        return Some(StepName::Fault);
    }
    if word == b"balance".as_slice() {
        return Some(StepName::Balance);
    }
    if word == b"sample".as_slice() {
        return Some(StepName::Sample);
    }
    if word == b"pin".as_slice() {
        return Some(StepName::Pin);
    }
    None
}

/// The name that a word is.
pub fn find_name(word: &[u8]) -> Option<StepName>
    // Each word is found, and no other text.
    ensures spelled { result ≡ name_spelled word.now }
    ensures word { IfSome result (λ name. word.now ≡ name_word name) }
{
    if let Some(name) = find_file(word) {
        return Some(name);
    }
    if let Some(name) = find_guest(word) {
        return Some(name);
    }
    if let Some(name) = find_vcpu(word) {
        return Some(name);
    }
    find_hart(word)
}

/// Two names with one word are one.
pub fn names_are_unambiguous()
    ensures { (one other : StepName) → name_word one ≡ name_word other → one ≡ other }
{}
