//! A board at the end of a run.
ghost use Rattle.std.specs.Prelude.{◌≡◌, Some};
ghost use Rattle.hv_event.specs.declared.event.CellId.TheVariants as component;
ghost use Rattle.hv_parts.specs.Kinds.{IsPartOf};
ghost use Rattle.hv_parts.specs.Value.{valued};
ghost use Rattle.hv_parts.specs.declared.part.Part.TheVariants as part;
ghost use Rattle.hv_board.specs.Board.{IsWhole, part_at};

use crate::board::Board;
use crate::carry::lift;
use hv_dir::ShelfOf;
use hv_emu::Emulator;
use hv_event::CellId;
use hv_files::FileTree;
use hv_parts::Part;

/// The file tree that a part is.
fn into_files<E: Emulator>(held: Part<E>) -> FileTree
    requires { IsPartOf component.Files (valued E.state held) }
    ensures { held ≡ part.Files result }
{
    match held {
        Part::Files(files) => files,
        _ => unreachable!(),
    }
}

/// The devices that a part is.
fn into_shelf<E: Emulator>(held: Part<E>) -> ShelfOf<E>
    requires { IsPartOf component.Shelf (valued E.state held) }
    ensures { held ≡ part.Shelf result }
{
    match held {
        Part::Shelf(shelf) => shelf,
        _ => unreachable!(),
    }
}

/// The file tree of a board that is closed, and the devices that no guest has.
pub fn close_board<E: Emulator>(board: Board<E>) -> (FileTree, ShelfOf<E>)
    requires { IsWhole E.state board }
    ensures files { part_at board component.Files ≡ Some (part.Files result.0) }
    ensures shelf { part_at board component.Shelf ≡ Some (part.Shelf result.1) }
{
    let layout = board.layout;
    let mut cells = board.cells;
    let shelf = lift(&mut cells[layout.place_of(CellId::Shelf)]);
    let files = lift(&mut cells[layout.place_of(CellId::Files)]);
    (into_files(files), into_shelf(shelf))
}
