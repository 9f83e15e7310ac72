//! Where bytes come from.
ghost use Rattle.std.specs.Prelude.{◌≡◌, ◌<◌, List, ℕ, Bool, Option, length};
ghost use Rattle.hv_base.specs.Reading.{Pulls, PullHasCause, is_end};

/// What one read gave.
#[derive(Clone, Copy, Debug, PartialEq, Eq)]
pub enum Pull {
    /// So many bytes.
    Got(usize),
    /// No bytes are left.
    End,
    /// The source failed.
    Failed,
}

/// Where bytes come from.
pub trait Source {
    /// The bytes left, where the source tells them.
    ghost left: { Self → Option (List ℕ) };

    /// How often it has failed, up to the last number of 64 bits.
    ghost faults: { Self → ℕ };

    /// Its last read answered `End`.
    ghost ended: { Self → Bool };

    fn read(&mut self, into: &mut [u8]) -> Pull
        requires { 0 < length into.old }
        ensures bytes { Pulls (left self.old) (left self.new) result into.new }
        ensures cause { PullHasCause (faults self.old) (faults self.new) result }
        ensures end { ended self.new ≡ is_end result };
}
