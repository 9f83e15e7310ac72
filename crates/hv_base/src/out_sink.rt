//! A writer of std as a sink.
ghost use Rattle.std.specs.Prelude.{◌≡◌};
ghost use Rattle.hv_base.specs.Adapters.{writer_of, write_faults};

use crate::{Push, Sink};
use std::io::Write;

/// A writer of std. It tells the bytes held where the writer does. One that takes nothing of a
/// piece has failed.
#[derive(Drop)]
pub struct OutSink<W: Write> {
    inner: W,
    faults: u64,
}

impl<W: Write> OutSink<W> {
    pub fn new(writer: W) -> OutSink<W>
        ensures inner { writer_of result ≡ writer }
        ensures faults { write_faults result ≡ 0 }
    {
        OutSink {
            inner: writer,
            faults: 0,
        }
    }
}

impl<W: Write> Sink for OutSink<W> {
    ghost held = { λ s. W.contents (writer_of s) };

    ghost faults = { write_faults };

    fn write(&mut self, piece: &[u8]) -> Push {
        match self.inner.write(piece) {
            Ok(0) | Err(_) => {
                self.faults = self.faults.saturating_add(1);
                Push::Failed
            }
            Ok(count) => Push::Took(count),
        }
    }
}
