//! What a line asks for.
use hv_text::{Bytes, Path};

/// One variant for each row, with its arguments.
#[derive(Debug, Drop)]
pub enum Command {
    /// `vfs ls P`
    VfsLs(Path),
    /// `vfs cat P`
    VfsCat(Path),
    /// `vfs dts P`
    VfsDts(Path),
    /// `vfs mkdir P`
    VfsMkdir(Path),
    /// `vfs rm P`
    VfsRm(Path),
    /// `vfs write P TEXT`
    VfsWrite(Path, Bytes),
    /// `vfs asm P P`: what is read, and what is written
    VfsAsm(Path, Path),
    /// `vfs run P`
    VfsRun(Path),
    /// `term rest K`, with K from 1 to 10000
    TermRest(u64),
}
