//! Names of properties and children that stand twice in a node.
ghost use Rattle.std.specs.Prelude.{◌≡◌, ◌++◌, [], IfOk, OnOk};
ghost use Rattle.hv_dtgram.specs.Contents.{SourceSyntax, entries_of};
ghost use Rattle.hv_dts.specs.Rules.{least, props_repeated, nodes_repeated};
ghost use Rattle.hv_dts.specs.Siblings.{Siblings, next_siblings, Follows, no_siblings};

use crate::sibling_names::SiblingNames;
use hv_dtgram::Entry;
use std::alloc::{AllocError, Global};
use std::mem;

/// The names around an entry, and the least place of one that stood twice.
#[derive(Drop)]
pub struct Members {
    pub best: Option<usize>,
    pub props: SiblingNames,
    pub children: SiblingNames,
    /// The names of the children of the nodes around, the innermost last.
    pub around: Vec<SiblingNames>,
}

impl Members {
    fn new(alloc: Global) -> Members
        ensures { Follows result no_siblings }
    {
        Members {
            best: None,
            props: SiblingNames::new(alloc),
            children: SiblingNames::new(alloc),
            around: Vec::new(alloc),
        }
    }

    fn take(&mut self, alloc: Global, entry: &Entry) -> Result<(), AllocError>
        ensures { (names : Siblings) → Follows self.old names → OnOk result (Follows self.new (next_siblings names entry.now)) }
    {
        match entry {
            Entry::Property(_, name, _) => {
                self.best = self.props.note_place(self.best, name)?;
                Ok(())
            }
            Entry::Open(_, name) => {
                self.best = self.children.note_place(self.best, name)?;
                let inner = mem::replace(&mut self.children, SiblingNames::new(alloc));
                self.around.push(inner)?;
                self.props = SiblingNames::new(alloc);
                Ok(())
            }
            Entry::Close => {
                if let Some(outer) = self.around.pop() {
                    self.children = outer;
                }
                Ok(())
            }
        }
    }
}

/// The least place of a name of a property or a child that stands twice in a node.
pub fn repeated_member(alloc: Global, entries: &[Entry]) -> Result<Option<usize>, AllocError>
    ensures { (source : SourceSyntax) → entries.now ≡ entries_of source
        → IfOk result (λ found. found ≡ least (props_repeated [] source.props ++ nodes_repeated [] source.nodes)) }
{
    let mut members = Members::new(alloc);
    for entry in entries {
        members.take(alloc, entry)?;
    }
    Ok(members.best)
}
