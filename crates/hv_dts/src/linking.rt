//! What labels lead to, and the phandles that nodes are given.
ghost use Rattle.std.specs.Prelude.{◌≡◌, ◌<◌, ◌==◌, ◌++◌, [], List, ℕ, true, IfOk, IfSome, OnOk};
ghost use Rattle.std.specs.Ordering.{nat_cmp};
ghost use Rattle.std.specs.Option.{option_or};
ghost use Rattle.std.specs.List.{list_any};
ghost use Rattle.std.specs.Cmp.Lexicographic.{slice_cmp, pointwise};
ghost use Rattle.std.specs.BTreeMap.{get};
ghost use Rattle.hv_dts.specs.Rules.{has_name};
ghost use Rattle.hv_dts.specs.Resolved.{Site, Numbered, IsLeastFree};
ghost use Rattle.hv_dts.specs.Sets.{Holds, HoldsNumbers};
ghost use Rattle.hv_dts.specs.Linking.{IsSmall, some_if, names_path, following_phandle, site_here, Gives, Leads, Opened, Steps, AreLinked, AreAsked};

use crate::values::{LinkMaps, is_phandle_name, phandle_number};
use hv_dtgram::{Entry, Named};
use hv_text::{Bytes, Items};
use std::alloc::{AllocError, Global};
use std::collections::{BTreeMap, BTreeSet};

/// The labels that references ask for, in cells and elsewhere, and the numbers of phandles.
#[derive(Drop)]
pub struct Asked {
    pub cells: BTreeSet<Bytes>,
    pub paths: BTreeSet<Bytes>,
    pub used: BTreeSet<u32>,
}

/// What was found before an entry.
#[derive(Drop)]
pub struct Linking {
    /// The numbers from here on were not given.
    pub next: u32,
    /// What each node was given.
    pub given: Vec<Option<u32>>,
    pub links: LinkMaps,
    /// The names of the nodes around, the innermost last.
    pub around: Items<Bytes>,
}

fn names_path(alloc: Global, names: &[Bytes]) -> Result<Bytes, AllocError>
    ensures { IfOk result (λ path. path ≡ names_path names.now) }
{
    let mut path = Vec::new(alloc);
    for name in names {
        path.push(b'/')?;
        path.extend_from_slice(name.as_slice())?;
    }
    Ok(Bytes::from_vec(path))
}

/// Notes a value for a label that has none.
fn note_first<V: Drop>(
    map: &mut BTreeMap<Bytes, V>,
    label: &Bytes,
    value: V,
) -> Result<(), AllocError>
    ensures { OnOk result ((name : List ℕ) → get (slice_cmp nat_cmp) map.new name
        ≡ option_or (get (slice_cmp nat_cmp) map.old name) (some_if (pointwise ◌==◌ label.now name) value)) }
{
    if map.contains_key(label) {
        return Ok(());
    }
    map.insert(label.clone()?, value)?;
    Ok(())
}

fn note_label(
    alloc: Global,
    links: &mut LinkMaps,
    wanted: &BTreeSet<Bytes>,
    names: &[Bytes],
    number: u32,
    label: &Named,
) -> Result<(), AllocError>
    ensures numbers { OnOk result ((name : List ℕ) → get (slice_cmp nat_cmp) links.new.numbers name
        ≡ option_or (get (slice_cmp nat_cmp) links.old.numbers name) (some_if (pointwise ◌==◌ label.now.name name) number)) }
    ensures paths { (held : List (List ℕ)) → Holds wanted.now held
        → OnOk result ((name : List ℕ) → has_name held name ≡ true → get (slice_cmp nat_cmp) links.new.paths name
        ≡ option_or (get (slice_cmp nat_cmp) links.old.paths name) (some_if (pointwise ◌==◌ label.now.name name) (names_path names.now))) }
{
    note_first(&mut links.numbers, &label.name, number)?;
    if wanted.contains(&label.name) {
        note_first(&mut links.paths, &label.name, names_path(alloc, names)?)?;
    }
    Ok(())
}

fn note_labels(
    alloc: Global,
    links: &mut LinkMaps,
    wanted: &BTreeSet<Bytes>,
    names: &[Bytes],
    number: u32,
    labels: &[Named],
) -> Result<(), AllocError>
    ensures numbers { OnOk result ((name : List ℕ) → get (slice_cmp nat_cmp) links.new.numbers name
        ≡ option_or (get (slice_cmp nat_cmp) links.old.numbers name) (some_if (list_any (λ label. pointwise ◌==◌ label.name name) labels.now) number)) }
    ensures paths { (held : List (List ℕ)) → Holds wanted.now held
        → OnOk result ((name : List ℕ) → has_name held name ≡ true → get (slice_cmp nat_cmp) links.new.paths name
        ≡ option_or (get (slice_cmp nat_cmp) links.old.paths name) (some_if (list_any (λ label. pointwise ◌==◌ label.name name) labels.now) (names_path names.now))) }
{
    for label in labels {
        note_label(alloc, links, wanted, names, number, label)?;
    }
    Ok(())
}

/// The phandle among the properties in front of some entries.
fn following_phandle(alloc: Global, following: &[Entry]) -> Result<Option<u32>, AllocError>
    ensures { IfOk result (λ number. number ≡ following_phandle following.now) }
{
    for entry in following {
        let Entry::Property(_, name, values) = entry else {
            return Ok(None);
        };
        if is_phandle_name(&name.name) {
            return phandle_number(alloc, values.as_slice());
        }
    }
    Ok(None)
}

fn is_asked(asked: &BTreeSet<Bytes>, labels: &[Named]) -> bool
    ensures { (held : List (List ℕ)) → Holds asked.now held → result ≡ list_any (λ label. has_name held label.name) labels.now }
{
    for label in labels {
        if asked.contains(&label.name) {
            return true;
        }
    }
    false
}

/// The least number that is free from one on, where it is a phandle.
fn least_free(used: &BTreeSet<u32>, from: u32) -> Option<u32>
    ensures least { (numbers : List ℕ) → HoldsNumbers used.now numbers → IfSome result (λ number. IsLeastFree numbers from number) }
    ensures small { IfSome result (λ number. number < 0xffff_ffff) }
{
    for number in from..0xffff_ffff {
        if !used.contains(&number) {
            return Some(number);
        }
    }
    None
}

/// What a node is given, and from where on numbers were not given then.
fn give(
    asked: &Asked,
    own: Option<u32>,
    labels: &[Named],
    next: u32,
) -> Result<(Option<u32>, u32), AllocError>
    ensures small { IfOk result (λ found. IsSmall found.0) }
    ensures gives { (cells : List (List ℕ)) (used : List ℕ) (site : Site) → Holds asked.now.cells cells → HoldsNumbers asked.now.used used
        → site.labels ≡ labels.now → site.own ≡ own → IfOk result (λ found. Gives cells used site next found.0 found.1) }
{
    if own.is_some() {
        return Ok((None, next));
    }
    if !is_asked(&asked.cells, labels) {
        return Ok((None, next));
    }
    match least_free(&asked.used, next) {
        Some(number) => Ok((Some(number), number + 1)),
        // There are more nodes than numbers, which no memory holds.
        None => Err(AllocError),
    }
}

impl Linking {
    fn new(alloc: Global) -> Linking
        ensures next { result.next ≡ 1 }
        ensures around { result.around ≡ [] }
        ensures leads { (wanted : List (List ℕ)) → Leads wanted result [] }
    {
        Linking {
            next: 1,
            given: Vec::new(alloc),
            links: LinkMaps {
                numbers: BTreeMap::new(alloc),
                paths: BTreeMap::new(alloc),
            },
            around: Items::new(alloc),
        }
    }

    fn open(
        &mut self,
        alloc: Global,
        asked: &Asked,
        labels: &[Named],
        name: &Named,
        following: &[Entry],
    ) -> Result<(), AllocError>
        ensures { (cells paths : List (List ℕ)) (used : List ℕ) (nodes : List Numbered) → AreAsked asked.now cells paths used → Leads paths self.old nodes
            → OnOk result (Opened cells paths used self.old self.new nodes (site_here self.old.around labels.now name.now following.now) name.now.name) }
    {
        self.around.push(name.name.clone()?)?;
        let own = following_phandle(alloc, following)?;
        let (given, next) = give(asked, own, labels, self.next)?;
        let number = own.or(given).unwrap_or(0);
        note_labels(
            alloc,
            &mut self.links,
            &asked.paths,
            self.around.as_slice(),
            number,
            labels,
        )?;
        self.given.push(given)?;
        self.next = next;
        Ok(())
    }

    fn take(
        &mut self,
        alloc: Global,
        asked: &Asked,
        entry: &Entry,
        following: &[Entry],
    ) -> Result<(), AllocError>
        ensures { (cells paths : List (List ℕ)) (used : List ℕ) (nodes : List Numbered) → AreAsked asked.now cells paths used → Leads paths self.old nodes
            → OnOk result (Steps cells paths used self.old self.new nodes entry.now following.now) }
    {
        match entry {
            Entry::Property(_, _, _) => Ok(()),
            Entry::Open(labels, name) => self.open(
                alloc,
                asked,
                labels.as_slice(),
                name,
                following,
            ),
            Entry::Close => {
                let _name = self.around.pop();
                Ok(())
            }
        }
    }
}

/// What the labels of a source lead to, and what its nodes are given.
pub fn link(alloc: Global, asked: &Asked, entries: &[Entry]) -> Result<Linking, AllocError>
    ensures { (cells paths : List (List ℕ)) (used : List ℕ) → AreAsked asked.now cells paths used
        → IfOk result (λ linking. AreLinked cells paths used linking entries.now) }
{
    let mut linking = Linking::new(alloc);
    for (at, entry) in entries.iter().enumerate() {
        let following = entries.split_at(at + 1).1;
        linking.take(alloc, asked, entry, following)?;
    }
    Ok(linking)
}
