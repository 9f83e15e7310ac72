//! Answers to the commands on files, and to those that give nothing.
ghost use Rattle.std.specs.Prelude.{◌≡◌, ◌++◌, Ok, OnOk};
ghost use Rattle.hv_answer.specs.declared.reply.Reply.TheVariants as replies;
ghost use Rattle.hv_dtree.specs.declared.node.Node.{Node};
ghost use Rattle.hv_dts.specs.Reading.{IsSourceOf};
ghost use Rattle.hv_model.specs.Transcript.{shown, names_shown, answer_shown, nothing_shown, output_shown, words_shown, bytes_shown};
ghost use Rattle.hv_shown.specs.Appends.{AppendsReply, IsShown};

use crate::lines::{push_line, show_done, show_refused};
use hv_dts::{DtsRefusal, print_dts, read_dts};
use hv_refusal::Refusal;
use hv_text::{Bytes, Strings, push_decimal};
use std::alloc::{AllocError, Global};

// Bytes as they are, with a line feed at the end.
#[tactic(auto, unfolding(hv_model::specs::Transcript::shown))]
fn push_file(to: &mut Bytes, bytes: &[u8]) -> Result<(), AllocError>
    ensures { OnOk result (to.new ≡ to.old ++ shown bytes.now) }
{
    to.append(bytes)?;
    if bytes.is_empty() {
        return to.append(b"\n");
    }
    if bytes[bytes.len() - 1] == b'\n' {
        return Ok(());
    }
    to.append(b"\n")
}

fn push_names(to: &mut Bytes, names: &[Bytes]) -> Result<(), AllocError>
    ensures { OnOk result (to.new ≡ to.old ++ names_shown names.now) }
{
    for name in names {
        push_line(to, name.as_slice())?;
    }
    Ok(())
}

/// Shows names.
pub(crate) fn show_names(
    alloc: Global,
    to: &mut Bytes,
    answer: &Result<Strings, Refusal>,
) -> Result<(), AllocError>
    ensures { OnOk result (to.new ≡ to.old ++ answer_shown names_shown answer.now) }
{
    match answer {
        Ok(names) => {
            push_names(to, names.as_slice())?;
            show_done(to)
        }
        Err(why) => show_refused(alloc, to, why),
    }
}

/// Shows the bytes of a file.
pub(crate) fn show_file(
    alloc: Global,
    to: &mut Bytes,
    answer: &Result<Bytes, Refusal>,
) -> Result<(), AllocError>
    ensures { OnOk result (to.new ≡ to.old ++ answer_shown shown answer.now) }
{
    match answer {
        Ok(bytes) => {
            push_file(to, bytes.as_slice())?;
            show_done(to)
        }
        Err(why) => show_refused(alloc, to, why),
    }
}

// What a serial port sent.
fn push_output(to: &mut Bytes, bytes: &[u8]) -> Result<(), AllocError>
    ensures { OnOk result (to.new ≡ to.old ++ output_shown bytes.now) }
{
    if bytes.is_empty() {
        return Ok(());
    }
    push_file(to, bytes)
}

/// Shows what a serial port sent.
pub(crate) fn show_output(
    alloc: Global,
    to: &mut Bytes,
    answer: &Result<Bytes, Refusal>,
) -> Result<(), AllocError>
    ensures { OnOk result (to.new ≡ to.old ++ answer_shown output_shown answer.now) }
{
    match answer {
        Ok(bytes) => {
            push_output(to, bytes.as_slice())?;
            show_done(to)
        }
        Err(why) => show_refused(alloc, to, why),
    }
}

/// Shows an answer that gives nothing to show.
pub(crate) fn show_nothing<T>(
    alloc: Global,
    to: &mut Bytes,
    answer: &Result<T, Refusal>,
) -> Result<(), AllocError>
    ensures { OnOk result (to.new ≡ to.old ++ answer_shown nothing_shown answer.now) }
{
    match answer {
        Ok(_) => show_done(to),
        Err(why) => show_refused(alloc, to, why),
    }
}

// The tree of a source, printed anew.
fn show_tree(alloc: Global, to: &mut Bytes, source: &[u8]) -> Result<(), AllocError>
    requires { (tree : Node) × IsSourceOf source.now tree }
    ensures { OnOk result (AppendsReply (replies.Dts (Ok source.now)) to.old to.new) }
{
    let tree = match read_dts(alloc, source) {
        Ok(tree) => tree,
        Err(DtsRefusal::Memory(error)) => return Err(error),
        Err(DtsRefusal::BadToken(_)) => unreachable!(),
        Err(DtsRefusal::Unexpected(_)) => unreachable!(),
        Err(DtsRefusal::TwiceNamed(_)) => unreachable!(),
        Err(DtsRefusal::BadPhandle(_)) => unreachable!(),
        Err(DtsRefusal::NoLabel(_)) => unreachable!(),
    };
    to.append(print_dts(alloc, &tree)?.as_slice())?;
    show_done(to)
}

/// Shows the tree of a source.
pub(crate) fn show_source(
    alloc: Global,
    to: &mut Bytes,
    answer: &Result<Bytes, Refusal>,
) -> Result<(), AllocError>
    requires { IsShown (replies.Dts answer.now) }
    ensures { OnOk result (AppendsReply (replies.Dts answer.now) to.old to.new) }
{
    match answer {
        Ok(source) => show_tree(alloc, to, source.as_slice()),
        Err(why) => show_refused(alloc, to, why),
    }
}

/// Shows to how many words a text was assembled.
pub(crate) fn show_words(
    alloc: Global,
    to: &mut Bytes,
    answer: &Result<u64, Refusal>,
) -> Result<(), AllocError>
    ensures { OnOk result (to.new ≡ to.old ++ answer_shown words_shown answer.now) }
{
    match answer {
        Ok(count) => {
            push_decimal(alloc, to, *count)?;
            push_line(to, b" words")?;
            show_done(to)
        }
        Err(why) => show_refused(alloc, to, why),
    }
}

/// Shows how many bytes were loaded.
pub(crate) fn show_bytes(
    alloc: Global,
    to: &mut Bytes,
    answer: &Result<u64, Refusal>,
) -> Result<(), AllocError>
    ensures { OnOk result (to.new ≡ to.old ++ answer_shown bytes_shown answer.now) }
{
    match answer {
        Ok(count) => {
            push_decimal(alloc, to, *count)?;
            push_line(to, b" bytes")?;
            show_done(to)
        }
        Err(why) => show_refused(alloc, to, why),
    }
}
