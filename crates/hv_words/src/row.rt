//! The rows of commands.
ghost use Rattle.std.specs.Prelude.{◌≡◌, IfSome, codes};
ghost use Rattle.hv_words.specs.Rows.{file_row, rest_row, row_with, HasWords};

/// A form of command, named by its first two words.
#[derive(Clone, Copy, Debug)]
pub enum RowName {
    VfsLs,
    VfsCat,
    VfsDts,
    VfsMkdir,
    VfsRm,
    VfsWrite,
    VfsAsm,
    VfsRun,
    TermRest,
}

fn file_row(name: &[u8]) -> Option<RowName>
    ensures row { result ≡ file_row name.now }
    ensures words { IfSome result (λ row. HasWords row (codes "vfs") name.now) }
{
    if name == b"ls".as_slice() {
        return Some(RowName::VfsLs);
    }
    if name == b"cat".as_slice() {
        return Some(RowName::VfsCat);
    }
    if name == b"dts".as_slice() {
        return Some(RowName::VfsDts);
    }
    if name == b"mkdir".as_slice() {
        return Some(RowName::VfsMkdir);
    }
    if name == b"rm".as_slice() {
        return Some(RowName::VfsRm);
    }
    if name == b"write".as_slice() {
        return Some(RowName::VfsWrite);
    }
    if name == b"asm".as_slice() {
        return Some(RowName::VfsAsm);
    }
    if name == b"run".as_slice() {
        return Some(RowName::VfsRun);
    }
    None
}

fn rest_row(name: &[u8]) -> Option<RowName>
    ensures row { result ≡ rest_row name.now }
    ensures words { IfSome result (λ row. HasWords row (codes "term") name.now) }
{
    if name == b"rest".as_slice() {
        return Some(RowName::TermRest);
    }
    None
}

/// The row of a family and a name.
pub fn find_row(family: &[u8], name: &[u8]) -> Option<RowName>
    ensures row { result ≡ row_with family.now name.now }
    ensures words { IfSome result (λ row. HasWords row family.now name.now) }
{
    if family == b"vfs".as_slice() {
        return file_row(name);
    }
    if family == b"term".as_slice() {
        return rest_row(name);
    }
    None
}
