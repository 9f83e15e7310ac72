//! The item at the beginning of a text.
ghost use Rattle.std.specs.Prelude.{◌≡◌, ◌≢◌, ◌∷◌, ◌++◌, List, ℕ, length, IfOk, MatchOption};
ghost use Rattle.hv_bundle.specs.Reading.{IsPathText, IsLengthText, IsItemAt};

use crate::file::File;
use hv_text::{Bytes, Path, PathRefusal, push_decimal, read_number, strip_front, word_at};
use std::alloc::{AllocError, Global};

fn path_of(alloc: Global, text: &[u8]) -> Result<Option<Path>, AllocError>
    ensures { IfOk result (λ found. IsPathText text.now found) }
{
    match Path::read(alloc, text) {
        Ok(path) => {
            if path.is_empty() {
                return Ok(None);
            }
            Ok(Some(path))
        }
        Err(PathRefusal::NotAPath) => Ok(None),
        Err(PathRefusal::Memory(refused)) => Err(refused),
    }
}

fn length_of(alloc: Global, text: &[u8]) -> Result<Option<u64>, AllocError>
    ensures { IfOk result (λ found. IsLengthText text.now found) }
{
    let Ok(value) = read_number(text) else {
        return Ok(None);
    };
    let mut spelled = Bytes::from_vec(Vec::new(alloc));
    push_decimal(alloc, &mut spelled, value)?;
    if spelled.as_slice() != text {
        return Ok(None);
    }
    Ok(Some(value))
}

/// So many bytes with a line feed behind them, and what follows.
fn body_at(text: &[u8], size: u64) -> Option<(&[u8], &[u8])>
    ensures { MatchOption result
        ((bytes rest : List ℕ) → length bytes ≡ size → text.now ≢ bytes ++ 10 ∷ rest)
        (λ found. (length found.0.now ≡ size) × (text.now ≡ found.0.now ++ 10 ∷ found.1.now)) }
{
    if text.len() as u64 <= size {
        return None;
    }
    let (bytes, behind) = text.split_at(size as usize);
    match strip_front(behind, b"\n") {
        Some(rest) => Some((bytes, rest)),
        None => None,
    }
}

/// The item at the front, and how many bytes it has.
pub fn item_at(alloc: Global, text: &[u8]) -> Result<Option<(File, usize)>, AllocError>
    ensures { IfOk result (λ found. IsItemAt text.now found) }
{
    let Some(rest) = strip_front(text, b"file ") else {
        return Ok(None);
    };
    let Some((path, rest)) = word_at(rest, b' ') else {
        return Ok(None);
    };
    let Some(path) = path_of(alloc, path)? else {
        return Ok(None);
    };
    let Some((digits, rest)) = word_at(rest, b'\n') else {
        return Ok(None);
    };
    let Some(length) = length_of(alloc, digits)? else {
        return Ok(None);
    };
    let Some((bytes, rest)) = body_at(rest, length) else {
        return Ok(None);
    };
    let bytes = Bytes::from_vec(Vec::from_slice(alloc, bytes)?);
    Ok(Some((File { path, bytes }, text.len() - rest.len())))
}
