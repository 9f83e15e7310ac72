//! A reader of std as a source.
ghost use Rattle.std.specs.Prelude.{◌≡◌, false};
ghost use Rattle.hv_base.specs.Adapters.{reader_of, read_faults, has_ended};

use crate::{Pull, Source};
use std::io::Read;

/// A reader of std. It tells the bytes left where the reader does.
#[derive(Drop)]
pub struct InSource<R: Read> {
    inner: R,
    faults: u64,
    ended: bool,
}

impl<R: Read> InSource<R> {
    pub fn new(reader: R) -> InSource<R>
        ensures inner { reader_of result ≡ reader }
        ensures faults { read_faults result ≡ 0 }
        ensures ended { has_ended result ≡ false }
    {
        InSource {
            inner: reader,
            faults: 0,
            ended: false,
        }
    }
}

impl<R: Read> Source for InSource<R> {
    ghost left = { λ s. R.remaining (reader_of s) };

    ghost faults = { read_faults };

    ghost ended = { has_ended };

    fn read(&mut self, into: &mut [u8]) -> Pull {
        match self.inner.read(into) {
            Ok(0) => {
                self.ended = true;
                Pull::End
            }
            Ok(count) => {
                self.ended = false;
                Pull::Got(count)
            }
            Err(_) => {
                self.ended = false;
                self.faults = self.faults.saturating_add(1);
                Pull::Failed
            }
        }
    }
}
