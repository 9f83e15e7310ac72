//! What a terminal shows.
ghost use Rattle.std.specs.Prelude.{◌≡◌, ◌++◌, Ok, OnOk, codes};
ghost use Rattle.hv_dtree.specs.declared.node.Node.{Node};
ghost use Rattle.hv_dts.specs.Reading.{IsSourceOf};
ghost use Rattle.hv_model.specs.Transcript.{line, shown, names_shown, answer_shown, nothing_shown, words_shown, refused_shown};
ghost use Rattle.hv_rounds.specs.Step.{IsShowable, AppendsReply};

use hv_dts::{DtsRefusal, print_dts, read_dts};
use hv_event::{Refusal, Reply, print_refusal};
use hv_text::{Bytes, Strings, push_decimal};
use std::alloc::{AllocError, Global};

fn push_line(to: &mut Bytes, text: &[u8]) -> Result<(), AllocError>
    ensures { OnOk result (to.new ≡ to.old ++ line text.now) }
{
    to.append(text)?;
    to.append(b"\n")
}

/// A line that is begun.
pub fn push_begun(to: &mut Bytes, text: &[u8]) -> Result<(), AllocError>
    ensures { OnOk result (to.new ≡ to.old ++ line (codes "> " ++ text.now)) }
{
    to.append(b"> ")?;
    push_line(to, text)
}

#[tactic(auto, unfolding(hv_model::specs::Transcript::shown))]
fn push_file(to: &mut Bytes, bytes: &[u8]) -> Result<(), AllocError>
    ensures { OnOk result (to.new ≡ to.old ++ shown bytes.now) }
{
    to.append(bytes)?;
    if bytes.is_empty() {
        return to.append(b"\n");
    }
    if bytes[bytes.len() - 1] == b'\n' {
        return Ok(());
    }
    to.append(b"\n")
}

fn push_names(to: &mut Bytes, names: &[Bytes]) -> Result<(), AllocError>
    ensures { OnOk result (to.new ≡ to.old ++ names_shown names.now) }
{
    for name in names {
        push_line(to, name.as_slice())?;
    }
    Ok(())
}

fn push_refused(alloc: Global, to: &mut Bytes, why: &Refusal) -> Result<(), AllocError>
    ensures { OnOk result (to.new ≡ to.old ++ refused_shown why.now) }
{
    to.append(b"< refused ")?;
    print_refusal(alloc, to, why)?;
    to.append(b"\n")
}

fn push_done(to: &mut Bytes) -> Result<(), AllocError>
    ensures { OnOk result (to.new ≡ to.old ++ line (codes "< ok")) }
{
    to.append(b"< ok\n")
}

fn push_listed(
    alloc: Global,
    to: &mut Bytes,
    answer: &Result<Strings, Refusal>,
) -> Result<(), AllocError>
    ensures { OnOk result (to.new ≡ to.old ++ answer_shown names_shown answer.now) }
{
    match answer {
        Ok(names) => {
            push_names(to, names.as_slice())?;
            push_done(to)
        }
        Err(why) => push_refused(alloc, to, why),
    }
}

fn push_read(
    alloc: Global,
    to: &mut Bytes,
    answer: &Result<Bytes, Refusal>,
) -> Result<(), AllocError>
    ensures { OnOk result (to.new ≡ to.old ++ answer_shown shown answer.now) }
{
    match answer {
        Ok(bytes) => {
            push_file(to, bytes.as_slice())?;
            push_done(to)
        }
        Err(why) => push_refused(alloc, to, why),
    }
}

fn push_run(
    alloc: Global,
    to: &mut Bytes,
    answer: &Result<Bytes, Refusal>,
) -> Result<(), AllocError>
    ensures { OnOk result (to.new ≡ to.old ++ answer_shown nothing_shown answer.now) }
{
    match answer {
        Ok(_) => push_done(to),
        Err(why) => push_refused(alloc, to, why),
    }
}

fn push_changed(
    alloc: Global,
    to: &mut Bytes,
    answer: &Result<(), Refusal>,
) -> Result<(), AllocError>
    ensures { OnOk result (to.new ≡ to.old ++ answer_shown nothing_shown answer.now) }
{
    match answer {
        Ok(()) => push_done(to),
        Err(why) => push_refused(alloc, to, why),
    }
}

/// The tree of a source, printed anew.
fn push_tree(alloc: Global, to: &mut Bytes, source: &[u8]) -> Result<(), AllocError>
    requires { (tree : Node) × IsSourceOf source.now tree }
    ensures { OnOk result (AppendsReply (Reply.Dts (Ok source.now)) to.old to.new) }
{
    let tree = match read_dts(alloc, source) {
        Ok(tree) => tree,
        Err(DtsRefusal::Memory(error)) => return Err(error),
        Err(DtsRefusal::BadToken(_)) => unreachable!(),
        Err(DtsRefusal::Unexpected(_)) => unreachable!(),
        Err(DtsRefusal::TwiceNamed(_)) => unreachable!(),
        Err(DtsRefusal::BadPhandle(_)) => unreachable!(),
        Err(DtsRefusal::NoLabel(_)) => unreachable!(),
    };
    to.append(print_dts(alloc, &tree)?.as_slice())?;
    push_done(to)
}

fn push_source(
    alloc: Global,
    to: &mut Bytes,
    answer: &Result<Bytes, Refusal>,
) -> Result<(), AllocError>
    requires { IsShowable (Reply.Dts answer.now) }
    ensures { OnOk result (AppendsReply (Reply.Dts answer.now) to.old to.new) }
{
    match answer {
        Ok(source) => push_tree(alloc, to, source.as_slice()),
        Err(why) => push_refused(alloc, to, why),
    }
}

fn push_assembled(
    alloc: Global,
    to: &mut Bytes,
    answer: &Result<u64, Refusal>,
) -> Result<(), AllocError>
    ensures { OnOk result (to.new ≡ to.old ++ answer_shown words_shown answer.now) }
{
    match answer {
        Ok(count) => {
            push_decimal(alloc, to, *count)?;
            push_line(to, b" words")?;
            push_done(to)
        }
        Err(why) => push_refused(alloc, to, why),
    }
}

/// What the reply to a command shows.
pub fn push_reply(alloc: Global, to: &mut Bytes, reply: &Reply) -> Result<(), AllocError>
    requires { IsShowable reply.now }
    ensures { OnOk result (AppendsReply reply.now to.old to.new) }
{
    match reply {
        Reply::Bad(why) => push_refused(alloc, to, why),
        Reply::Rest => push_done(to),
        Reply::Ls(answer) => push_listed(alloc, to, answer),
        Reply::Cat(answer) => push_read(alloc, to, answer),
        Reply::Dts(answer) => push_source(alloc, to, answer),
        Reply::Run(answer) => push_run(alloc, to, answer),
        Reply::Mkdir(answer) => push_changed(alloc, to, answer),
        Reply::Rm(answer) => push_changed(alloc, to, answer),
        Reply::Write(answer) => push_changed(alloc, to, answer),
        Reply::Asm(answer) => push_assembled(alloc, to, answer),
        Reply::Guests(_)
        | Reply::Name(_)
        | Reply::Stage(_)
        | Reply::Add(_)
        | Reply::Drop(_)
        | Reply::Regions(_)
        | Reply::Load(_)
        | Reply::Mem(_)
        | Reply::Devreset(_)
        | Reply::Feed(_)
        | Reply::Output(_)
        | Reply::Vadd(_)
        | Reply::Vdrop(_)
        | Reply::Kick(_)
        | Reply::Resume(_)
        | Reply::Pause(_)
        | Reply::Halt(_)
        | Reply::Reset(_)
        | Reply::Look(_)
        | Reply::Tick(_)
        | Reply::Idle
        | Reply::Dispatch(_)
        | Reply::Preempt
        | Reply::Leave(_)
        | Reply::Take(_)
        | Reply::Fetch(_)
        | Reply::Access(_)
        | Reply::Fault(_)
        | Reply::Balance(_)
        | Reply::Sample(_)
        | Reply::Pin(_) => unreachable!(),
    }
}
