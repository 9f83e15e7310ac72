//! The files of a run.
ghost use Rattle.std.specs.Prelude.{◌≡◌, ◌≤◌, ◌^◌};
ghost use Rattle.hv_text.specs.declared.limits.TheConstants.{GREATEST_STAMP};

use hv_files::FileTree;

/// The file tree, with the stamp of the last step that touched it.
#[derive(Drop)]
pub struct FileCell {
    pub tree: FileTree,
    pub stamp: u64,
    ghost stamp_bounded: { stamp ≤ GREATEST_STAMP },
}

impl FileCell {
    /// Takes the stamp of a step that touched it.
    pub fn take_stamp(&mut self, stamp: u64)
        requires { stamp ≤ GREATEST_STAMP }
        ensures tree { self.new.tree ≡ self.old.tree }
        ensures stamp { self.new.stamp ≡ stamp }
    {
        self.stamp = stamp;
    }
}
