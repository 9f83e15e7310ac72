//! The causes of faults in the plan of a guest.
ghost use Rattle.std.specs.Prelude.{◌≡◌, ◌≢◌, MatchOption};
ghost use Rattle.hv_kinds.specs.Cause.{cause_word};
ghost use Rattle.hv_kinds.specs.declared.cause.Cause.{Cause};

/// Why a node of a guest gives no plan.
#[derive(Clone, Copy, Debug, PartialEq, Eq)]
pub enum Cause {
    /// A child or a property isn't there.
    Missing,
    /// There are more children than allowed.
    TooMany,
    /// The manifest or the address type is none of its texts.
    Kind,
    /// Any other rule of the node is broken.
    Form,
    /// The area of a real region isn't there.
    NoArea,
    /// A device with interrupts has no other region as its parent.
    Parent,
    /// An earlier region has the same parent and source.
    SourceUsed,
    /// An earlier region has an address of this one.
    Overlap,
    /// No region that is no alias has all addresses that an alias stands for.
    AliasTarget,
}

impl Cause {
    /// The word for the cause, as reports and event lines have it.
    pub fn name(self) -> &'static str
        ensures { result.now ≡ cause_word self }
    {
        match self {
            Cause::Missing => "Missing",
            Cause::TooMany => "TooMany",
            Cause::Kind => "Kind",
            Cause::Form => "Form",
            Cause::NoArea => "NoArea",
            Cause::Parent => "Parent",
            Cause::SourceUsed => "SourceUsed",
            Cause::Overlap => "Overlap",
            Cause::AliasTarget => "AliasTarget",
        }
    }

    /// The cause that a word stands for.
    pub fn named(word: &[u8]) -> Option<Cause>
        ensures { MatchOption result
            ((c : Cause) → word.now ≢ cause_word c)
            (λ c. word.now ≡ cause_word c) }
    {
        if word == b"Missing".as_slice() {
            return Some(Cause::Missing);
        }
        if word == b"TooMany".as_slice() {
            return Some(Cause::TooMany);
        }
        if word == b"Kind".as_slice() {
            return Some(Cause::Kind);
        }
        if word == b"Form".as_slice() {
            return Some(Cause::Form);
        }
        if word == b"NoArea".as_slice() {
            return Some(Cause::NoArea);
        }
        if word == b"Parent".as_slice() {
            return Some(Cause::Parent);
        }
        if word == b"SourceUsed".as_slice() {
            return Some(Cause::SourceUsed);
        }
        if word == b"Overlap".as_slice() {
            return Some(Cause::Overlap);
        }
        if word == b"AliasTarget".as_slice() {
            return Some(Cause::AliasTarget);
        }
        None
    }
}
