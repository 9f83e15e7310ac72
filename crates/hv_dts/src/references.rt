//! Labels of nodes, and references to them.
ghost use Rattle.std.specs.Prelude.{◌≡◌, ◌++◌, map, not, List, ℕ, IfOk, OnOk};
ghost use Rattle.std.specs.List.{flat_map};
ghost use Rattle.hv_dts.specs.Bytes.{cells_references, cell_lists_references, paths_references};
ghost use Rattle.hv_dts.specs.Rules.{has_name, place_if, lesser, least, node_labels, cell_references, path_references, unlabelled, names_of};
ghost use Rattle.hv_dts.specs.Sets.{Holds};

use crate::names::{lesser, note_name};
use hv_dtgram::{Cell, Entry, Named, Value};
use hv_text::Bytes;
use std::alloc::{AllocError, Global};
use std::collections::BTreeSet;

fn push_all<'a>(out: &mut Vec<&'a Named>, names: &'a [Named]) -> Result<(), AllocError>
    ensures { OnOk result (map (λ it. it.now) out.new.items ≡ map (λ it. it.now) out.old.items ++ names.now) }
{
    for name in names {
        out.push(name)?;
    }
    Ok(())
}

/// The labels of nodes.
pub fn node_labels<'a>(alloc: Global, entries: &'a [Entry]) -> Result<Vec<&'a Named>, AllocError>
    ensures { IfOk result (λ found. map (λ it. it.now) found.items ≡ flat_map node_labels entries.now) }
{
    let mut out = Vec::new(alloc);
    for entry in entries {
        if let Entry::Open(labels, _) = entry {
            push_all(&mut out, labels.as_slice())?;
        }
    }
    Ok(out)
}

fn push_cells<'a>(out: &mut Vec<&'a Named>, cells: &'a [Cell]) -> Result<(), AllocError>
    ensures { OnOk result (map (λ it. it.now) out.new.items ≡ map (λ it. it.now) out.old.items ++ cells_references cells.now) }
{
    for cell in cells {
        if let Cell::Phandle(label) = cell {
            out.push(label)?;
        }
    }
    Ok(())
}

fn push_cell_lists<'a>(out: &mut Vec<&'a Named>, values: &'a [Value]) -> Result<(), AllocError>
    ensures { OnOk result (map (λ it. it.now) out.new.items ≡ map (λ it. it.now) out.old.items ++ cell_lists_references values.now) }
{
    for value in values {
        if let Value::Cells(cells) = value {
            push_cells(out, cells.as_slice())?;
        }
    }
    Ok(())
}

fn push_paths<'a>(out: &mut Vec<&'a Named>, values: &'a [Value]) -> Result<(), AllocError>
    ensures { OnOk result (map (λ it. it.now) out.new.items ≡ map (λ it. it.now) out.old.items ++ paths_references values.now) }
{
    for value in values {
        if let Value::Path(label) = value {
            out.push(label)?;
        }
    }
    Ok(())
}

/// The references in lists of cells.
pub fn cell_references<'a>(
    alloc: Global,
    entries: &'a [Entry],
) -> Result<Vec<&'a Named>, AllocError>
    ensures { IfOk result (λ found. map (λ it. it.now) found.items ≡ flat_map cell_references entries.now) }
{
    let mut out = Vec::new(alloc);
    for entry in entries {
        if let Entry::Property(_, _, values) = entry {
            push_cell_lists(&mut out, values.as_slice())?;
        }
    }
    Ok(out)
}

/// The other references.
pub fn path_references<'a>(
    alloc: Global,
    entries: &'a [Entry],
) -> Result<Vec<&'a Named>, AllocError>
    ensures { IfOk result (λ found. map (λ it. it.now) found.items ≡ flat_map path_references entries.now) }
{
    let mut out = Vec::new(alloc);
    for entry in entries {
        if let Entry::Property(_, _, values) = entry {
            push_paths(&mut out, values.as_slice())?;
        }
    }
    Ok(out)
}

/// These names as a set.
pub fn name_set(alloc: Global, names: &[&Named]) -> Result<BTreeSet<Bytes>, AllocError>
    ensures { IfOk result (λ set. Holds set (names_of (map (λ it. it.now) names.now))) }
{
    let mut set = BTreeSet::new(alloc);
    for name in names {
        note_name(&mut set, &name.name)?;
    }
    Ok(set)
}

fn lacking(labels: &BTreeSet<Bytes>, best: Option<usize>, name: &Named) -> Option<usize>
    ensures { (held : List (List ℕ)) → Holds labels.now held
        → result ≡ lesser best (least (place_if (not (has_name held name.now.name)) name.now.place)) }
{
    if labels.contains(&name.name) {
        return best;
    }
    lesser(best, Some(name.place))
}

/// The least place of a reference to none of the labels.
pub fn unlabelled(labels: &BTreeSet<Bytes>, names: &[&Named]) -> Option<usize>
    ensures { (held : List (List ℕ)) → Holds labels.now held → result ≡ least (unlabelled held (map (λ it. it.now) names.now)) }
{
    let mut best = None;
    for name in names {
        best = lacking(labels, best, name);
    }
    best
}
