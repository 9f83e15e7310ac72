//! The fields of an entry at the front of a text.
ghost use Rattle.std.specs.Prelude.{◌≡◌, ◌<◌, ◌++◌, List, ℕ, MatchResult};
ghost use Rattle.hv_text.specs.Front.{IsFree, Stops};
ghost use Rattle.hv_data.specs.Reading.{Because};
ghost use Rattle.hv_listing.specs.Reading.{BeginsWithFields};

use hv_data::WordRefusal;
use hv_text::{Bytes, front_len, word_at};
use std::alloc::Global;

/// What stands before the first comma, or the whole text, and the rest.
fn before_comma(text: &[u8]) -> (&[u8], &[u8])
    ensures free { IsFree 44 result.0.now }
    ensures stops { Stops 44 result.1.now }
    ensures text { text.now ≡ result.0.now ++ result.1.now }
{
    text.split_at(front_len(text, b','))
}

/// So many fields, all but the last ended by a colon, and the rest, which is empty or begins with a comma.
pub fn entry_fields(
    alloc: Global,
    text: &[u8],
    count: usize,
) -> Result<(Vec<Bytes>, &[u8]), WordRefusal>
    requires { 0 < count }
    ensures { MatchResult result
        (λ found. BeginsWithFields text.now count found.0.items found.1.now)
        (λ e. Because e ((fields : List (List ℕ)) (rest : List ℕ)
        → BeginsWithFields text.now count fields rest → ⊥)) }
{
    let mut fields = Vec::new(alloc);
    let mut rest = text;
    for _ in 1..count {
        let Some((field, behind)) = word_at(rest, b':') else {
            return Err(WordRefusal::BadWord);
        };
        fields.push(Bytes::from_vec(Vec::from_slice(alloc, field)?))?;
        rest = behind;
    }
    let (last, behind) = before_comma(rest);
    fields.push(Bytes::from_vec(Vec::from_slice(alloc, last)?))?;
    Ok((fields, behind))
}
