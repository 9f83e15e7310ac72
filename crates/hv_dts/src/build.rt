//! The tree of a source.
ghost use Rattle.std.specs.Prelude.{◌≡◌, codes, IfOk, OnOk};
ghost use Rattle.hv_dtgram.specs.Contents.{SourceSyntax, entries_of};
ghost use Rattle.hv_dts.specs.Resolved.{root_tree, given_first, given_next};
ghost use Rattle.hv_dts.specs.Bytes.{cell_bytes};
ghost use Rattle.hv_dts.specs.Maps.{links_in};
ghost use Rattle.hv_dts.specs.Building.{Built, nothing_built, next_built, frame_tree, Builds};

use crate::values::{LinkMaps, cell_bytes, values_bytes};
use hv_dtgram::{Entry, Named};
use hv_dtree::{Node, Prop};
use hv_text::{Bytes, Items};
use std::alloc::{AllocError, Global};
use std::mem;

/// A node that isn't ended.
#[derive(Drop)]
pub struct Frame {
    pub name: Bytes,
    pub props: Items<Prop>,
    pub children: Items<Node>,
    /// The phandle that it was given.
    pub given: Option<u32>,
}

/// The node in hand, those around it, and what the nodes that are left were given.
#[derive(Drop)]
pub struct Building<'a> {
    pub hand: Frame,
    /// The innermost last.
    pub around: Items<Frame>,
    pub given: &'a [Option<u32>],
}

fn phandle_prop(alloc: Global, number: u32) -> Result<Prop, AllocError>
    ensures { IfOk result (λ prop. prop ≡ record { name = codes "phandle"; value = cell_bytes number }) }
{
    Ok(Prop {
        name: Bytes::from_vec(Vec::from_slice(alloc, b"phandle")?),
        value: cell_bytes(alloc, number)?,
    })
}

fn finished(alloc: Global, frame: Frame) -> Result<Node, AllocError>
    ensures { IfOk result (λ node. node ≡ frame_tree frame) }
{
    let Frame {
        name,
        mut props,
        mut children,
        given,
    } = frame;
    if let Some(number) = given {
        props.push(phandle_prop(alloc, number)?)?;
    }
    props.trim();
    children.trim();
    Ok(Node {
        name,
        props,
        children,
    })
}

impl<'a> Building<'a> {
    fn new(alloc: Global, given: &'a [Option<u32>]) -> Building<'a>
        ensures { Builds result (nothing_built given.now) }
    {
        Building {
            hand: Frame {
                name: Bytes::from_vec(Vec::new(alloc)),
                props: Items::new(alloc),
                children: Items::new(alloc),
                given: None,
            },
            around: Items::new(alloc),
            given,
        }
    }

    fn first_given(&mut self) -> Option<u32>
        ensures first { result ≡ given_first self.old.given.now }
        ensures next { self.new.given.now ≡ given_next self.old.given.now }
        ensures hand { self.new.hand ≡ self.old.hand }
        ensures around { self.new.around ≡ self.old.around }
    {
        match self.given.split_first() {
            Some((first, rest)) => {
                self.given = rest;
                *first
            }
            None => None,
        }
    }

    fn take(&mut self, alloc: Global, links: &LinkMaps, entry: Entry) -> Result<(), AllocError>
        ensures { (it : Built) → Builds self.old it → OnOk result (Builds self.new (next_built (links_in links.now) it entry)) }
    {
        match entry {
            Entry::Property(_, named, values) => {
                let Named { name, place: _ } = named;
                let value = values_bytes(alloc, values.as_slice(), links)?;
                self.hand.props.push(Prop { name, value })
            }
            Entry::Open(_, named) => {
                let Named { name, place: _ } = named;
                let inner = Frame {
                    name,
                    props: Items::new(alloc),
                    children: Items::new(alloc),
                    given: self.first_given(),
                };
                let outer = mem::replace(&mut self.hand, inner);
                self.around.push(outer)
            }
            Entry::Close => match self.around.pop() {
                Some(outer) => {
                    let inner = mem::replace(&mut self.hand, outer);
                    let node = finished(alloc, inner)?;
                    self.hand.children.push(node)
                }
                None => Ok(()),
            },
        }
    }
}

/// The root of the tree of a source, where it is known what labels lead to and what nodes are given.
pub fn build(
    alloc: Global,
    links: &LinkMaps,
    given: &[Option<u32>],
    entries: Items<Entry>,
) -> Result<Node, AllocError>
    ensures { (source : SourceSyntax) → entries ≡ entries_of source
        → IfOk result (λ root. root ≡ root_tree (links_in links.now) source given.now) }
{
    let mut building = Building::new(alloc, given);
    // The first entry last, so that the room of those that are built is given back.
    let mut left = entries;
    left.reverse();
    'taking: while let Some(entry) = left.pop() {
        building.take(alloc, links, entry)?;
    }
    let Building {
        hand,
        around: _,
        given: _,
    } = building;
    finished(alloc, hand)
}
