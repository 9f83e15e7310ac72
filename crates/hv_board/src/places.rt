//! The places of components.
ghost use Rattle.std.specs.Prelude.{◌≡◌, ◌≤◌, length, map, vec_capacity};
ghost use Rattle.std.specs.List.{AllByRecursion};
ghost use Rattle.hv_board.specs.Places.{HasPlace, place_of};

use crate::layout::Layout;
use hv_event::CellId;

/// Lists the places of these components.
pub fn list_places(layout: Layout, xs: &[CellId], places: &mut Vec<usize>)
    requires have { AllByRecursion (HasPlace layout) xs.now }
    requires room { length xs.now ≤ vec_capacity places.old }
    ensures items { places.new.items ≡ map (place_of layout) xs.now }
    ensures capacity { vec_capacity places.new ≡ vec_capacity places.old }
{
    places.clear();
    for x in xs {
        places.push_reserved(layout.place_of(*x));
    }
}
