//! Lines of a transcript.
ghost use Rattle.std.specs.Prelude.{◌≡◌, ◌++◌, OnOk, codes};
ghost use Rattle.hv_model.specs.Transcript.{line, refused_shown};

use hv_refusal::{Refusal, print_refusal};
use hv_text::Bytes;
use std::alloc::{AllocError, Global};

/// A text with a line feed.
pub(crate) fn push_line(to: &mut Bytes, text: &[u8]) -> Result<(), AllocError>
    ensures { OnOk result (to.new ≡ to.old ++ line text.now) }
{
    to.append(text)?;
    to.append(b"\n")
}

/// Shows a line that is begun.
pub fn show_begun(to: &mut Bytes, text: &[u8]) -> Result<(), AllocError>
    ensures { OnOk result (to.new ≡ to.old ++ line (codes "> " ++ text.now)) }
{
    to.append(b"> ")?;
    push_line(to, text)
}

/// Shows that a command is done.
pub fn show_done(to: &mut Bytes) -> Result<(), AllocError>
    ensures { OnOk result (to.new ≡ to.old ++ line (codes "< ok")) }
{
    to.append(b"< ok\n")
}

/// Shows why a command is refused.
pub fn show_refused(alloc: Global, to: &mut Bytes, why: &Refusal) -> Result<(), AllocError>
    ensures { OnOk result (to.new ≡ to.old ++ refused_shown why.now) }
{
    to.append(b"< refused ")?;
    print_refusal(alloc, to, why)?;
    to.append(b"\n")
}
