//! Reading a source.
ghost use Rattle.std.specs.Prelude.{◌≡◌, List, None, map, IfOk, IfErr};
ghost use Rattle.std.specs.List.{flat_map};
ghost use Rattle.hv_dtree.specs.declared.node.Node.{Node};
ghost use Rattle.hv_dtree.specs.Nodes.{IsRoot};
ghost use Rattle.hv_dtgram.specs.Contents.{SourceSyntax, entries_of};
ghost use Rattle.hv_dts.specs.Rules.{least, twice_named, unlabelled_references, cell_references, path_references, broken_rule, names_of};
ghost use Rattle.hv_dts.specs.Resolved.{asked_labels, used_numbers};
ghost use Rattle.hv_dts.specs.Linking.{AreAsked};
ghost use Rattle.hv_dts.specs.declared.refusal.DtsRefusal.{DtsRefusal};
ghost use Rattle.hv_dts.specs.Reading.{IsRuleRefusal, IsSourceOf, IsRefusedAs, IsOnly, IsAnswer};

use crate::build::build;
use crate::linking::{Asked, link};
use crate::members::repeated_member;
use crate::names::{lesser, repeated_label};
use crate::phandles::{Phandles, read_phandles};
use crate::references::{cell_references, name_set, node_labels, path_references, unlabelled};
use crate::refusal::DtsRefusal;
use hv_dtgram::{Entry, Named, read_entries};
use hv_dtree::{Node, Tree};
use std::alloc::{AllocError, Global};

fn twice_named(alloc: Global, entries: &[Entry]) -> Result<Option<usize>, AllocError>
    ensures { (source : SourceSyntax) → entries.now ≡ entries_of source → IfOk result (λ found. found ≡ least (twice_named source)) }
{
    let label = repeated_label(alloc, entries)?;
    let member = repeated_member(alloc, entries)?;
    Ok(lesser(label, member))
}

fn unlabelled_reference(
    alloc: Global,
    entries: &[Entry],
    cells: &[&Named],
    paths: &[&Named],
) -> Result<Option<usize>, AllocError>
    requires in_cells { map (λ it. it.now) cells.now ≡ flat_map cell_references entries.now }
    requires elsewhere { map (λ it. it.now) paths.now ≡ flat_map path_references entries.now }
    ensures { IfOk result (λ found. found ≡ least (unlabelled_references entries.now)) }
{
    let labels = node_labels(alloc, entries)?;
    let set = name_set(alloc, &labels)?;
    let cell = unlabelled(&set, cells);
    let path = unlabelled(&set, paths);
    Ok(lesser(cell, path))
}

/// What the references of a source ask for, where it keeps the rules.
fn judged(alloc: Global, entries: &[Entry]) -> Result<Asked, DtsRefusal>
    ensures kept { (source : SourceSyntax) → entries.now ≡ entries_of source → IfOk result (λ asked. broken_rule source ≡ None) }
    ensures asked { IfOk result (λ asked. AreAsked asked (asked_labels entries.now) (names_of (flat_map path_references entries.now)) (used_numbers entries.now)) }
    ensures broken { (source : SourceSyntax) → entries.now ≡ entries_of source → IfErr result (λ refusal. IsRuleRefusal source refusal) }
{
    if let Some(place) = twice_named(alloc, entries)? {
        return Err(DtsRefusal::TwiceNamed(place));
    }
    let Phandles { best, used } = read_phandles(alloc, entries)?;
    if let Some(place) = best {
        return Err(DtsRefusal::BadPhandle(place));
    }
    let cells = cell_references(alloc, entries)?;
    let paths = path_references(alloc, entries)?;
    if let Some(place) = unlabelled_reference(alloc, entries, &cells, &paths)? {
        return Err(DtsRefusal::NoLabel(place));
    }
    Ok(Asked {
        cells: name_set(alloc, &cells)?,
        paths: name_set(alloc, &paths)?,
        used,
    })
}

fn read_any(alloc: Global, text: &[u8]) -> Result<Node, DtsRefusal>
    ensures found { IfOk result (λ root. IsSourceOf text.now root) }
    ensures rules { IfOk result (λ root. IsRoot root) }
    ensures refused { IfErr result (λ refusal. IsRefusedAs text.now refusal) }
{
    let entries = read_entries(alloc, text)?;
    let asked = judged(alloc, entries.as_slice())?;
    let linking = link(alloc, &asked, entries.as_slice())?;
    drop(asked);
    let root = build(alloc, &linking.links, linking.given.as_slice(), entries)?;
    Ok(root)
}

/// The tree that a source stands for.
pub fn read_dts(alloc: Global, text: &[u8]) -> Result<Tree, DtsRefusal>
    // What is read is a source, and stands for this tree.
    ensures found { IfOk result (λ tree. IsSourceOf text.now tree) }

    // A source is read, unless memory runs out.
    ensures only { (tree : Node) → IsSourceOf text.now tree → IsOnly result tree }

    // A refusal carries its offset.
    ensures refused { IfErr result (λ refusal. IsRefusedAs text.now refusal) }

    // What refuses a text is answered, unless memory runs out.
    ensures refuses { (refusal : DtsRefusal) → IsRefusedAs text.now refusal → IsAnswer result refusal }
{
    match read_any(alloc, text) {
        Ok(root) => Ok(Tree::of_root(root)),
        Err(refusal) => Err(refusal),
    }
}
