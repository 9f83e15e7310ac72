//! Reads and writes over memory, in pieces and with faults.
ghost use Rattle.std.specs.Prelude.{◌<◌};

use super::*;
use std::alloc::{AllocError, Global};
use std::test::Fail;

const TEXT: &[u8] = b"some bytes that are read in several pieces";

fn text_source(alloc: Global, piece: usize, failing: &[u64]) -> Result<MemSource, AllocError>
    requires { 0 < piece }
{
    Ok(MemSource::new(TEXT.to_vec(alloc)?, piece, failing.to_vec(alloc)?))
}

#[test]
fn reads_all_whatever_the_pieces(rt: HostRuntime) -> Result<(), Fail> {
    for piece in [1, 100] {
        let mut source = text_source(rt.alloc(), piece, &[])?;
        let all = read_all(rt.alloc(), &mut source, TEXT.len())?;
        assert_eq!(rt; all.as_slice(), TEXT, "in pieces of {piece}");
        let mut sure = SureSource::new(TEXT.to_vec(rt.alloc())?, piece);
        let all = read_all(rt.alloc(), &mut sure, 1000)?;
        assert_eq!(rt; all.as_slice(), TEXT, "in pieces of {piece}");
    }
    let mut source = InSource::new(TEXT);
    let all = read_all(rt.alloc(), &mut source, 1000)?;
    assert_eq!(rt; all.as_slice(), TEXT);
    Ok(())
}

#[test]
fn ends_where_a_read_fails_or_gives_too_much(rt: HostRuntime) -> Result<(), Fail> {
    let mut failing = text_source(rt.alloc(), 10, &[3])?;
    assert!(rt;
        matches!(
            read_all(rt.alloc(), &mut failing, 1000),
            Err(ReadEnd::Fault)
        )
    );
    let rest = read_all(rt.alloc(), &mut failing, 1000)?;
    assert_eq!(rt; rest.as_slice(), TEXT.split_at(20).1);
    let mut long = text_source(rt.alloc(), 10, &[])?;
    assert!(rt; matches!(read_all(rt.alloc(), &mut long, 41), Err(ReadEnd::TooMany)));
    Ok(())
}

#[test]
fn writes_all_or_a_front(rt: HostRuntime) -> Result<(), Fail> {
    let mut sink = MemSink::with_room(rt.alloc(), 60, vec![in rt.alloc(); 2]?)?;
    assert_eq!(rt; write_all(&mut sink, TEXT), Ok(()));
    assert_eq!(rt;
        write_all(&mut sink, TEXT),
        Err(SinkFault),
        "the second write fails"
    );
    assert_eq!(rt; sink.bytes(), TEXT);
    assert_eq!(rt;
        write_all(&mut sink, TEXT),
        Err(SinkFault),
        "the room is used up"
    );
    assert_eq!(rt; sink.bytes().len(), 60);
    assert_eq!(rt; write_all(&mut SureSink::new(), TEXT), Ok(()));
    let mut out = OutSink::new(Vec::new(rt.alloc()));
    assert_eq!(rt; write_all(&mut out, TEXT), Ok(()));
    Ok(())
}
