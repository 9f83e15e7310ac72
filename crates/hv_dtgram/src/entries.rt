//! The entries of a text.
ghost use Rattle.std.specs.Prelude.{IfOk, IfErr};
ghost use Rattle.hv_dtgram.specs.Contents.{HasEntries};
ghost use Rattle.hv_dtgram.specs.Refused.{IsRefusal};

use crate::contents::Entry;
use crate::gathered::gathered_entries;
use crate::syntax::{SyntaxRefusal, source_tokens};
use hv_text::Items;
use std::alloc::Global;

/// The entries of a text that is source by its grammar.
pub fn read_entries(alloc: Global, text: &[u8]) -> Result<Items<Entry>, SyntaxRefusal>
    ensures found { IfOk result (λ entries. HasEntries text.now entries) }
    ensures refused { IfErr result (λ refusal. IsRefusal text.now refusal) }
{
    let tokens = source_tokens(alloc, text)?;
    drop(tokens);
    let entries = gathered_entries(alloc, text)?;
    Ok(entries)
}
