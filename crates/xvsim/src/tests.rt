//! What a call answers, over a source and a sink in memory.
ghost use Rattle.std.specs.Prelude.{◌<◌};

use super::*;
use hv_base::{MemSink, MemSource};
use std::alloc::{AllocError, Global};
use std::test::Fail;

const WORDS: [&str; 5] = ["run", "--turns", "0", "--order", "seq"];

const HELLO: &[u8] = b"XVB1\nfile /boot.xscript 15\nvfs cat /hello\n\nfile /hello 3\nhi\n\nend\n";

const HELLO_REPORT: &[u8] =
    b"xvsim 1\nharts 2 turns 0 order seq\nterm 0\n> vfs cat /hello\nhi\n< ok\nstates\nvcpu 0 Reset\nhistory\n1 t0 1 cat /hello -> ok 68690a\nend 1\n";

#[derive(Drop)]
struct Outcome {
    status: Status,
    written: Vec<u8>,
    is_kept: bool,
}

/// One call, of which these reads and writes fail.
fn call(
    alloc: Global,
    words: &[&str],
    input: &[u8],
    piece: usize,
    bad_reads: &[u64],
    bad_writes: &[u64],
) -> Result<Outcome, AllocError>
    requires { 0 < piece }
{
    let mut owned = Vec::new(alloc);
    for word in words {
        owned.push(word.to_string(alloc)?)?;
    }
    let mut source = MemSource::new(input.to_vec(alloc)?, piece, bad_reads.to_vec(alloc)?);
    let mut sink = MemSink::with_room(alloc, 4096, bad_writes.to_vec(alloc)?)?;
    let mut kept: Kept = KeptOf { run: None };
    let parts = Vec::new(alloc);
    let status = xvsim(alloc, &owned, &mut source, &mut sink, parts, &mut kept);
    Ok(Outcome {
        status,
        written: sink.bytes().to_vec(alloc)?,
        is_kept: kept.run.is_some(),
    })
}

#[test]
fn shows_a_file_whatever_the_pieces(rt: HostRuntime) -> Result<(), Fail> {
    for piece in [1, 100] {
        let done = call(rt.alloc(), &WORDS, HELLO, piece, &[], &[])?;
        assert_eq!(rt; done.status, Status::Done);
        assert_eq!(rt;
            done.written.as_slice(),
            HELLO_REPORT,
            "in pieces of {piece}"
        );
        assert!(rt; done.is_kept);
    }
    Ok(())
}

#[test]
fn keeps_no_run_of_a_bad_bundle(rt: HostRuntime) -> Result<(), Fail> {
    let bad = call(rt.alloc(), &WORDS, b"XVB2\nend\n", 100, &[], &[])?;
    assert_eq!(rt; bad.status, Status::BadBundle { offset: 0 });
    assert!(rt; bad.written.is_empty());
    assert!(rt; !bad.is_kept);
    Ok(())
}

#[test]
fn answers_faults(rt: HostRuntime) -> Result<(), Fail> {
    let read = call(rt.alloc(), &WORDS, HELLO, 10, &[2], &[])?;
    assert_eq!(rt; read.status, Status::ReadFault);
    assert!(rt; read.written.is_empty());
    let write = call(rt.alloc(), &WORDS, HELLO, 10, &[], &[1])?;
    assert_eq!(rt; write.status, Status::WriteFault);
    assert!(rt; write.written.is_empty());
    assert!(rt; write.is_kept);
    Ok(())
}

#[test]
fn refuses_other_words_unread(rt: HostRuntime) -> Result<(), Fail> {
    // The first read would fail.
    let refused = call(rt.alloc(), &["run", "--turns", "0"], HELLO, 10, &[1], &[])?;
    assert_eq!(rt; refused.status, Status::Usage);
    Ok(())
}

#[test]
fn makes_a_bundle_of_a_number(rt: HostRuntime) -> Result<(), Fail> {
    let alloc = rt.alloc();
    let mut sink = MemSink::with_room(alloc, 4096, Vec::new(alloc))?;
    assert_eq!(rt; gen_bundle(alloc, 0, &mut sink), Status::Done);
    assert_eq!(rt; sink.bytes().len(), 2375);
    Ok(())
}
