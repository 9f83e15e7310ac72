//! All the bytes of a source, and all the bytes into a sink.
ghost use Rattle.std.specs.Prelude.{◌≡◌, ◌+◌, ◌<◌, ◌≤◌, ◌↔◌, length, vec_len, IsTrue, OnOk, OnErr, IfOk, IfSome, IsErrOf};
ghost use Rattle.std.specs.Io.KnownBytes.{Appends, IsAtEnd};
ghost use Rattle.hv_base.specs.Count.{Rose};
ghost use Rattle.hv_base.specs.Reading.{Takes};
ghost use Rattle.hv_base.specs.Writing.{AppendsFront};

use crate::{Pull, Push, Sink, Source};
use std::alloc::{AllocError, Global};
use thiserror::Error;

/// Why a source could not be read to its end.
#[derive(Debug, Drop, Error)]
pub enum ReadEnd {
    /// The source failed.
    #[error("read fault")]
    Fault,
    /// One byte more than was allowed.
    #[error("too many bytes")]
    TooMany,
    #[error("out of memory")]
    Memory(AllocError),
}

/// The sink failed.
#[derive(Clone, Copy, Debug, PartialEq, Eq, Error)]
#[error("write fault")]
pub struct SinkFault;

const PIECE: usize = 4096;

/// Reads to the end, or until one byte more than `most` was taken.
pub fn read_all<S: Source>(alloc: Global, source: &mut S, most: usize) -> Result<Vec<u8>, ReadEnd>
    // Exactly the bytes that were left, and the source is at its end.
    ensures whole { IfOk result (λ v. IfSome (S.left source.old) (λ bytes. v.items ≡ bytes)) }
    ensures size { IfOk result (λ v. vec_len v ≤ most) }
    ensures end { OnOk result (IsTrue (S.ended source.new) × IsAtEnd (S.left source.new)) }

    // Too many exactly where one byte more than `most` was taken.
    ensures too_many { IsErrOf result ReadEnd.TooMany →
        IfSome (S.left source.old) (λ bytes. most < length bytes) }
    ensures taken { IsErrOf result ReadEnd.TooMany →
        Takes (S.left source.old) (S.left source.new) (most + 1) (most + 1) }
    ensures no_more { ¬ (IsErrOf result ReadEnd.TooMany) →
        Takes (S.left source.old) (S.left source.new) 0 most }

    // A fault only where the source counted one in this call.
    ensures later { S.faults source.old ≤ S.faults source.new }
    ensures fault { IsErrOf result ReadEnd.Fault → Rose (S.faults source.old) (S.faults source.new) }
{
    let mut all = Vec::new(alloc);
    let mut piece = [0u8; PIECE];
    loop {
        let room = (most - all.len()).saturating_add(1).min(PIECE);
        match source.read(&mut piece[..room]) {
            Pull::Got(count) => {
                if count > most - all.len() {
                    return Err(ReadEnd::TooMany);
                }
                all.extend_from_slice(&piece[..count])
                    .map_err(ReadEnd::Memory)?;
            }
            Pull::End => return Ok(all),
            Pull::Failed => return Err(ReadEnd::Fault),
        }
    }
}

/// Writes all the bytes, in as many pieces as the sink takes. After a fault it holds a front of them.
pub fn write_all<K: Sink>(sink: &mut K, bytes: &[u8]) -> Result<(), SinkFault>
    ensures ok { OnOk result (Appends (K.held sink.old) (K.held sink.new) bytes.now) }
    ensures front { OnErr result (AppendsFront (K.held sink.old) (K.held sink.new) bytes.now) }

    // A fault only where the sink counted one in this call.
    ensures later { K.faults sink.old ≤ K.faults sink.new }
    ensures fault { OnErr result (Rose (K.faults sink.old) (K.faults sink.new)) }
{
    let mut rest = bytes;
    while !rest.is_empty() {
        match sink.write(rest) {
            Push::Took(count) => rest = rest.split_at(count).1,
            Push::Failed => return Err(SinkFault),
        }
    }
    Ok(())
}
