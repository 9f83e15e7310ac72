//! The limits of a run.
ghost use Rattle.std.specs.Prelude.{◌≡◌};
ghost use Rattle.hv_kinds.specs.Limit.{limit_word};

/// What a run can have too much of.
#[derive(Clone, Copy, Debug, PartialEq, Eq)]
pub enum LimitName {
    Bytes,
    Files,
    Depth,
    Lines,
    Nest,
    Areas,
    Guests,
}

impl LimitName {
    /// The word for the limit, as reports have it.
    pub fn name(self) -> &'static str
        ensures { result.now ≡ limit_word self }
    {
        match self {
            LimitName::Bytes => "bytes",
            LimitName::Files => "files",
            LimitName::Depth => "depth",
            LimitName::Lines => "lines",
            LimitName::Nest => "nest",
            LimitName::Areas => "areas",
            LimitName::Guests => "guests",
        }
    }
}
