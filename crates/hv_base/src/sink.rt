//! Where bytes go.
ghost use Rattle.std.specs.Prelude.{◌<◌, List, ℕ, Option, length};
ghost use Rattle.hv_base.specs.Writing.{Pushes, PushHasCause};

/// What one write took.
#[derive(Clone, Copy, Debug, PartialEq, Eq)]
pub enum Push {
    /// So many bytes.
    Took(usize),
    /// The sink failed.
    Failed,
}

/// Where bytes go.
pub trait Sink {
    /// The bytes held, where the sink tells them.
    ghost held: { Self → Option (List ℕ) };

    /// How often it has failed, up to the last number of 64 bits.
    ghost faults: { Self → ℕ };

    fn write(&mut self, piece: &[u8]) -> Push
        requires { 0 < length piece.now }
        ensures bytes { Pushes (held self.old) (held self.new) result piece.now }
        ensures cause { PushHasCause (faults self.old) (faults self.new) result };
}
