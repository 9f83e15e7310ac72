//! The limits of what the files of a bundle have.
ghost use Rattle.std.specs.Prelude.{◌≡◌, ◌≤◌, ◌<◌, ◌^◌, ◌+◌, max, length, List, [], slice_index_or, IfErr, OnOk};
ghost use Rattle.hv_text.specs.Lines.{script_lines};
ghost use Rattle.hv_bundle.specs.declared.file.File.{File};
ghost use Rattle.hv_model.specs.Files.{load_files};
ghost use Rattle.xvsim.specs.Opening.{scripts_of};
ghost use Rattle.hv_text.specs.declared.limits.TheConstants.{MOST_LINES};
ghost use Rattle.xvsim.specs.declared.limits.TheConstants.{MOST_FILES, MOST_NAMES};
ghost use Rattle.xvsim.specs.Limits.{depth_of, greatest_lines};
ghost use Rattle.xvsim.specs.Refusal.{IsDueForFiles};

use crate::refusal::InputRefusal;
use hv_bundle::File;
use hv_kinds::LimitName;
use hv_text::{Bytes, MOST_LINES};
use hv_words::count_lines;

/// The most bytes of a bundle.
pub const MOST_BYTES: usize = 67_108_864;
/// The most files of a bundle.
pub const MOST_FILES: usize = 1024;
/// The most names of a file's path.
pub const MOST_NAMES: usize = 8;

/// How many names the longest path has.
fn depth(files: &[File]) -> usize
    ensures { result ≡ depth_of files.now }
{
    let mut most = 0;
    for file in files {
        most = file.path.len().max(most);
    }
    most
}

/// Refuses too many files, and too many names in a path.
pub fn check_sizes(files: &[File]) -> Result<(), InputRefusal>
    ensures few { OnOk result (length files.now ≤ MOST_FILES) }
    ensures shallow { OnOk result (depth_of files.now ≤ MOST_NAMES) }
    ensures refused { IfErr result (IsDueForFiles files.now) }
{
    if files.len() > MOST_FILES {
        return Err(InputRefusal::Limit(LimitName::Files, files.len() as u64));
    }
    let depth = depth(files);
    if depth > MOST_NAMES {
        return Err(InputRefusal::Limit(LimitName::Depth, depth as u64));
    }
    Ok(())
}

fn lines_in(text: &[u8]) -> usize
    ensures count { result ≡ length (script_lines text.now) }
    ensures small { result < 2 ^ 63 }
{
    count_lines(text)
}

/// How many lines the script of this number has, or 0 where there is none.
fn lines_at(scripts: &[Bytes], number: usize) -> usize
    ensures count { result ≡ length (script_lines (slice_index_or scripts.now number [])) }
    ensures small { result < 2 ^ 63 }
{
    match scripts.get(number) {
        Some(script) => lines_in(script.as_slice()),
        None => 0,
    }
}

/// How many lines the terminal with the most of them has.
fn most_of(scripts: &[Bytes]) -> usize
    ensures { (files : List File) → scripts.now ≡ scripts_of (load_files files) → result ≡ greatest_lines files }
{
    let first = lines_at(scripts, 0) + lines_at(scripts, 1);
    let second = lines_at(scripts, 2);
    let third = lines_at(scripts, 3);
    let fourth = lines_at(scripts, 4);
    first.max(second.max(third.max(fourth)))
}

/// Refuses too many lines of a terminal, where the sizes are within their limits.
pub fn check_lines(files: &[File], scripts: &[Bytes]) -> Result<(), InputRefusal>
    requires few { length files.now ≤ MOST_FILES }
    requires shallow { depth_of files.now ≤ MOST_NAMES }
    requires scripts { scripts.now ≡ scripts_of (load_files files.now) }
    ensures short { OnOk result (greatest_lines files.now ≤ MOST_LINES) }
    ensures refused { IfErr result (IsDueForFiles files.now) }
{
    let most = most_of(scripts);
    if most > MOST_LINES {
        return Err(InputRefusal::Limit(LimitName::Lines, most as u64));
    }
    Ok(())
}
